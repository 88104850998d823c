// The column book. Each article is a function of its own, kept also where two are alike in shape alone: what an article
// compares is all that it says, and is read beside the regulation by its number.
ghost use Rattle.std.specs.Prelude.{true, ◌≡◌, ◌*◌, ◌≤◌};
ghost use Rattle.columns.specs.Articles.{column_sizes, ColumnBounds, least_bar_area, most_bar_area, least_tension_area, confined_by_side, confined_by_diameter, most_confined_spacing, normal_by_side, most_normal_spacing, column_meaning};

use books::answers::Finding;
use books::book::{Book, Lawful};
use members::areas::{GREATEST_ZONE, area_of, product};
use members::member::Column;
use sheets::sheet::Bars;

// The articles for columns.
#[derive(Clone, Copy)]
pub struct ColumnBook;

// How many articles the book has.
const ARTICLES: u32 = 8;

impl Book<Column> for ColumnBook {
    ghost meaning = { λ _. column_meaning };

    fn takes(&self, column: &Lawful<'_, Column>) -> bool {
        true
    }

    fn count(&self) -> u32 {
        ARTICLES
    }

    fn finding(&self, column: &Lawful<'_, Column>, article: u32) -> Finding {
        // kept as a match: it is the list of the articles by their numbers; a table of functions would be the same list,
        // with a look-up
        match article {
            1 => least_bar_area(column),
            2 => most_bar_area(column),
            3 => least_tension_area(column),
            4 => confined_by_side(column),
            5 => confined_by_diameter(column),
            6 => most_confined_spacing(column),
            7 => normal_by_side(column),
            8 => most_normal_spacing(column),
            _ => Finding::NotApplicable,
        }
    }
}

// 5.6.2.4.1: the bars are at least a hundredth of the section.
fn least_bar_area(column: &Lawful<'_, Column>) -> Finding
    ensures bar_area_at_least_a_share_of_the_section { result ≡ least_bar_area column.now.sheet }
{
    let sizes = sizes(column);
    Finding::at_least(100 * sizes.bars, section(sizes))
}

// 5.6.2.4.1: the bars are at most six hundredths of the section.
fn most_bar_area(column: &Lawful<'_, Column>) -> Finding
    ensures bar_area_at_most_a_share_of_the_section { result ≡ most_bar_area column.now.sheet }
{
    let sizes = sizes(column);
    Finding::at_most(100 * sizes.bars, 6 * section(sizes))
}

// 5.6.2.4.1: the bars of the tension face are at least four thousandths of the section.
fn least_tension_area(column: &Lawful<'_, Column>) -> Finding
    ensures tension_area_against_the_section { result ≡ least_tension_area column.now.sheet }
{
    let sizes = sizes(column);
    Finding::at_least(1_000 * sizes.tension, 4 * section(sizes))
}

// 5.6.2.5.3: the confined spacing is at most half the smaller side.
fn confined_by_side(column: &Lawful<'_, Column>) -> Finding
    ensures confined_spacing_against_the_smaller_side { result ≡ confined_by_side column.now.sheet }
{
    let sizes = sizes(column);
    Finding::at_most(2 * sizes.confined, sizes.width.min(sizes.height))
}

// 5.6.2.5.3: the confined spacing is at most nine bar diameters.
fn confined_by_diameter(column: &Lawful<'_, Column>) -> Finding
    ensures confined_spacing_against_the_diameter { result ≡ confined_by_diameter column.now.sheet }
{
    let sizes = sizes(column);
    Finding::at_most(sizes.confined, 9 * sizes.diameter)
}

// 5.6.2.5.3: the confined spacing is at most 100 mm.
fn most_confined_spacing(column: &Lawful<'_, Column>) -> Finding
    ensures confined_spacing_against_its_most { result ≡ most_confined_spacing column.now.sheet }
{
    let sizes = sizes(column);
    Finding::at_most(sizes.confined, 100)
}

// 5.6.2.6: the normal spacing is at most a share of the smaller side, by zone.
fn normal_by_side(column: &Lawful<'_, Column>) -> Finding
    ensures normal_spacing_against_the_smaller_side { result ≡ normal_by_side column.now.sheet }
{
    let sizes = sizes(column);
    Finding::at_most(
        1_000 * sizes.normal,
        product::<MOST_SCALED_ZONE, MOST_SIDE>(6 * sizes.zone, sizes.width.min(sizes.height)),
    )
}

// 5.6.2.6: the normal spacing is at most 200 mm.
fn most_normal_spacing(column: &Lawful<'_, Column>) -> Finding
    ensures normal_spacing_against_its_most { result ≡ most_normal_spacing column.now.sheet }
{
    let sizes = sizes(column);
    Finding::at_most(sizes.normal, 200)
}

// The sizes that the articles compare: areas in mm², lengths in mm.
#[derive(Clone, Copy)]
pub struct ColumnSizes {
    pub zone: u64,
    pub width: u64,
    pub height: u64,
    pub bars: u64,
    pub tension: u64,
    pub diameter: u64,
    pub confined: u64,
    pub normal: u64,
}

// The greatest sizes on a lawful column, and the greatest products of them.
const MOST_SIDE: u64 = 2_000;

const MOST_SCALED_ZONE: u64 = 6 * GREATEST_ZONE;

// The sizes of a lawful column. Kept as a function that each article calls: a definition could not make sizes with their bounds as
// an invariant, since it has no proof of them.
#[tactic(auto, using(crate::proofs::Sizes::column_bounded))]
fn sizes(column: &Lawful<'_, Column>) -> ColumnSizes
    ensures sizes_of_the_column { result ≡ column_sizes column.now.sheet }
    ensures within_the_bounds { ColumnBounds result }
{
    let sheet = &column.member.sheet;
    let tension = Bars {
        count: sheet.tension_count,
        diameter: sheet.bars.diameter,
    };
    ColumnSizes {
        zone: u64::from(sheet.heading.zone),
        width: u64::from(sheet.width),
        height: u64::from(sheet.height),
        bars: area_of(sheet.bars),
        tension: area_of(tension),
        diameter: u64::from(sheet.bars.diameter),
        confined: u64::from(sheet.confined_spacing),
        normal: u64::from(sheet.normal_spacing),
    }
}

// The area of the section. Given the sizes and not the column: none is looked up twice.
fn section(sizes: ColumnSizes) -> u64
    requires within_the_bounds { ColumnBounds sizes }
    ensures width_times_height { result ≡ sizes.width * sizes.height }
    ensures within_its_bound { result ≤ 2000 * 2000 }
{
    product::<MOST_SIDE, MOST_SIDE>(sizes.width, sizes.height)
}
