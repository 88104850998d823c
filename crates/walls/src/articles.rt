// The wall book. A rule that stands for both directions of a mesh is one function; the others are kept apart, also where two
// are alike in shape alone: what an article compares is all that it says.
ghost use Rattle.std.specs.Prelude.{◌≡◌, ◌*◌, ◌^◌, ◌≤◌};
ghost use Rattle.members.specs.Areas.{greatest_area};
ghost use Rattle.walls.specs.Articles.{mesh_of, mesh_area, least_area, most_area, most_diameter, least_diameter, most_spacing, least_thickness, thickness_by_support, least_layers, horizontal_area, factor_by, factored_shear, least_hold_by_vertical_bars, least_hold_by_horizontal_bars, wall_sizes, WallBounds, wall_meaning};

use books::answers::Finding;
use books::book::{Book, Lawful};
use members::areas::{GREATEST_AREA, area_of, product};
use members::member::Wall;
use sheets::sheet::{Bars, Spaced, WallSheet};
use tables::codes::Analysis;

// The articles for walls.
#[derive(Clone, Copy)]
pub struct WallBook;

// How many articles the book has.
const ARTICLES: u32 = 13;

impl Book<Wall> for WallBook {
    ghost meaning = { λ _. wall_meaning };

    fn takes(&self, wall: &Lawful<'_, Wall>) -> bool {
        let sheet = &wall.member.sheet;
        u64::from(sheet.length) > 4 * u64::from(sheet.thickness)
    }

    fn count(&self) -> u32 {
        ARTICLES
    }

    fn finding(&self, wall: &Lawful<'_, Wall>, article: u32) -> Finding {
        let sheet = &wall.member.sheet;
        let vertical = Mesh::of(sheet, sheet.vertical);
        let horizontal = Mesh::of(sheet, sheet.horizontal);
        // kept as a match: it is the list of the articles by their numbers; a table of functions would be the same list,
        // with a look-up
        match article {
            1 => least_thickness(sheet),
            2 => thickness_by_support(sheet),
            3 => vertical.least_area(),
            4 => vertical.most_area(),
            5 => vertical.most_diameter(),
            6 => vertical.least_diameter(),
            7 => least_layers(sheet),
            8 => vertical.most_spacing(),
            9 => horizontal.least_area(),
            10 => horizontal.most_diameter(),
            11 => horizontal.most_spacing(),
            12 => least_hold_by_vertical_bars(wall),
            13 => least_hold_by_horizontal_bars(wall),
            _ => Finding::NotApplicable,
        }
    }
}

// 6.4.1: the thickness is at least 150 mm, by zone.
fn least_thickness(sheet: &WallSheet) -> Finding
    ensures thickness_against_its_least { result ≡ least_thickness sheet.now }
{
    Finding::at_least(
        u64::from(sheet.thickness) * u64::from(sheet.heading.zone),
        15_000,
    )
}

// 6.4.1: the thickness is at least a twentieth of the support distance, by zone.
fn thickness_by_support(sheet: &WallSheet) -> Finding
    ensures thickness_against_the_support_distance { result ≡ thickness_by_support sheet.now }
{
    Finding::at_least(
        u64::from(sheet.thickness) * u64::from(sheet.heading.zone),
        5 * u64::from(sheet.support),
    )
}

// 6.7.4: there are at least two layers.
fn least_layers(sheet: &WallSheet) -> Finding
    ensures layers_against_their_least { result ≡ least_layers sheet.now }
{
    Finding::at_least(u64::from(sheet.layers), 2)
}

// The vertical or the horizontal bars of a panel, with the thickness of the panel in mm and its layers.
#[derive(Clone, Copy)]
pub struct Mesh {
    pub thickness: u32,
    pub layers: u32,
    pub bars: Spaced,
}

impl Mesh {
    // The mesh of these bars in the panel on this sheet.
    fn of(sheet: &WallSheet, bars: Spaced) -> Mesh
        ensures mesh_of_the_bars { result ≡ mesh_of sheet.now bars }
    {
        Mesh {
            thickness: sheet.thickness,
            layers: sheet.layers,
            bars,
        }
    }

    // The area of one bar in each layer.
    fn area(self) -> u64
        ensures layers_times_area { result ≡ mesh_area self }
        ensures at_most_a_full_count_of_the_greatest { result ≤ 2 ^ 32 * greatest_area }
    {
        area_of(Bars {
            count: self.layers,
            diameter: self.bars.diameter,
        })
    }

    // 6.7.1 and 6.8.1: the bars are at least a four-hundredth of the wall.
    fn least_area(self) -> Finding
        ensures area_at_least_a_share_of_the_wall { result ≡ least_area self }
    {
        Finding::at_least(
            400 * self.area(),
            u64::from(self.thickness) * u64::from(self.bars.spacing),
        )
    }

    // 6.7.1: the bars are at most a twentieth of the wall.
    fn most_area(self) -> Finding
        ensures area_at_most_a_share_of_the_wall { result ≡ most_area self }
    {
        Finding::at_most(
            20 * self.area(),
            u64::from(self.thickness) * u64::from(self.bars.spacing),
        )
    }

    // 6.7.2 and 6.8.2: the bars are at most a tenth of the thickness.
    fn most_diameter(self) -> Finding
        ensures diameter_against_the_thickness { result ≡ most_diameter self }
    {
        Finding::at_most(
            10 * u64::from(self.bars.diameter),
            u64::from(self.thickness),
        )
    }

    // 6.7.2: the bars are at least 8 mm.
    fn least_diameter(self) -> Finding
        ensures diameter_against_its_least { result ≡ least_diameter self }
    {
        Finding::at_least(u64::from(self.bars.diameter), 8)
    }

    // 6.7.4 and 6.8.3: the bars are at most 200 mm apart.
    fn most_spacing(self) -> Finding
        ensures spacing_against_its_most { result ≡ most_spacing self }
    {
        Finding::at_most(u64::from(self.bars.spacing), 200)
    }
}

// 6.6.4: the vertical bars and the compression hold the factored shear.
fn least_hold_by_vertical_bars(wall: &Lawful<'_, Wall>) -> Finding
    ensures vertical_bars_against_the_factored_shear { result ≡ least_hold_by_vertical_bars wall.now }
{
    let sizes = sizes(wall);
    Finding::at_least(
        4_200_000 * sizes.vertical + 7_500 * sizes.compression,
        13 * factored_shear(wall),
    )
}

// 6.6.3.4.1: in a slender wall the horizontal bars hold the factored shear; every storey counts as critical.
fn least_hold_by_horizontal_bars(wall: &Lawful<'_, Wall>) -> Finding
    ensures horizontal_bars_of_a_slender_wall { result ≡ least_hold_by_horizontal_bars wall.now }
{
    let sizes = sizes(wall);
    if sizes.height >= 2 * sizes.length {
        Finding::at_least(held_by_horizontal_bars(wall), shear_over_the_mesh(wall))
    } else {
        Finding::NotApplicable
    }
}

// What the horizontal bars hold over the shear area.
fn held_by_horizontal_bars(wall: &Lawful<'_, Wall>) -> u64
    ensures scaled_area_times_shear_area { result ≡ 420000 * horizontal_area wall.now.sheet * wall.now.sheet.shear_area }
{
    let sizes = sizes(wall);
    product::<MOST_SCALED_AREA, MOST_SHEAR_AREA>(420_000 * sizes.horizontal, sizes.shear_area)
}

// The factored shear over the thickness and the spacing of the horizontal bars.
fn shear_over_the_mesh(wall: &Lawful<'_, Wall>) -> u64
    ensures factored_times_thickness_times_spacing { result ≡ factored_shear wall.now * wall.now.sheet.thickness * wall.now.sheet.horizontal.spacing }
{
    let sizes = sizes(wall);
    let by_thickness = product::<MOST_FACTORED, MOST_THICKNESS>(
        factored_shear(wall),
        sizes.thickness,
    );
    product::<MOST_FACTORED_BY_THICKNESS, MOST_SPACING>(by_thickness, sizes.spacing)
}

// The greatest sizes on a lawful wall, and the greatest products of them.
const MOST_LAYERS: u64 = 4;

const MOST_THICKNESS: u64 = 600;

const MOST_SPACING: u64 = 500;

const MOST_SHEAR_AREA: u64 = 5_000_000;

const MOST_FACTOR: u64 = 2_250;

const MOST_CARRIED: u64 = 10_000_000;

const MOST_FACTORED: u64 = MOST_FACTOR * MOST_CARRIED;

const MOST_FACTORED_BY_THICKNESS: u64 = MOST_FACTORED * MOST_THICKNESS;

const MOST_SCALED_AREA: u64 = 420_000 * MOST_LAYERS * GREATEST_AREA;

// The sizes of the whole wall that the articles compare: lengths in mm, areas in mm², forces in N.
#[derive(Clone, Copy)]
pub struct WallSizes {
    pub thickness: u64,
    pub length: u64,
    pub height: u64,
    pub storeys: u64,
    pub vertical: u64,
    pub horizontal: u64,
    pub spacing: u64,
    pub compression: u64,
    pub carried: u64,
    pub shear_area: u64,
}

// The sizes of a lawful wall. Kept as a function that each article calls: a definition could not make sizes with their bounds as
// an invariant, since it has no proof of them.
#[tactic(auto, using(crate::proofs::Sizes::wall_bounded))]
fn sizes(wall: &Lawful<'_, Wall>) -> WallSizes
    ensures sizes_of_the_wall { result ≡ wall_sizes wall.now }
    ensures within_the_bounds { WallBounds result }
{
    let sheet = &wall.member.sheet;
    let vertical = Bars {
        count: sheet.vertical_count,
        diameter: sheet.vertical.diameter,
    };
    WallSizes {
        thickness: u64::from(sheet.thickness),
        length: u64::from(sheet.length),
        height: u64::from(sheet.height),
        storeys: u64::from(sheet.storeys),
        vertical: area_of(vertical),
        horizontal: Mesh::of(sheet, sheet.horizontal).area(),
        spacing: u64::from(sheet.horizontal.spacing),
        compression: u64::from(sheet.compression),
        carried: u64::from(wall.member.carried),
        shear_area: u64::from(sheet.shear_area),
    }
}

// 6.3.4.1: the factor on the shear, in thousandths: it grows with the storeys under static analysis.
fn factor_by(analysis: Option<Analysis>, storeys: u64) -> u64
    requires at_least_one_storey { 1 ≤ storeys }
    requires at_most_40_storeys { storeys ≤ 40 }
    ensures factor_by_analysis_and_storeys { result ≡ factor_by analysis storeys }
    ensures at_most_2250 { result ≤ 2250 }
{
    match analysis {
        Some(Analysis::Static) => (1_250 + 50 * (storeys - 1)).min(2_250),
        Some(Analysis::Dynamic) | None => 1_250,
    }
}

// The shear that the wall carries, with its factor.
fn factored_shear(wall: &Lawful<'_, Wall>) -> u64
    ensures factor_times_carried { result ≡ factored_shear wall.now }
    ensures within_its_bound { result ≤ 2250 * 10000000 }
{
    let sizes = sizes(wall);
    let factor = factor_by(
        Analysis::try_from(wall.member.sheet.analysis).ok(),
        sizes.storeys,
    );
    product::<MOST_FACTOR, MOST_CARRIED>(factor, sizes.carried)
}
