// The beam book. Each article is a function of its own: what an article compares is all that it says, and is read beside the
// regulation by its number.
ghost use Rattle.std.specs.Prelude.{true, ◌≡◌, ◌*◌, ◌≤◌};
ghost use Rattle.members.specs.Areas.{greatest_root, greatest_zone};
ghost use Rattle.beams.specs.Articles.{beam_sizes, BeamBounds, least_smaller_area, most_greater_area, most_area_for_concrete, least_bottom_area, least_stirrup_area, most_shear, face_share, least_face_area, beam_meaning};

use books::answers::Finding;
use books::book::{Book, Lawful};
use members::areas::{
    GREATEST_AREA, GREATEST_ROOT, GREATEST_ZONE, area_of, bar_area_of, product, root_of,
};
use members::member::Beam;

// The articles for beams.
#[derive(Clone, Copy)]
pub struct BeamBook;

// How many articles the book has.
const ARTICLES: u32 = 7;

impl Book<Beam> for BeamBook {
    ghost meaning = { λ _. beam_meaning };

    fn takes(&self, beam: &Lawful<'_, Beam>) -> bool {
        true
    }

    fn count(&self) -> u32 {
        ARTICLES
    }

    fn finding(&self, beam: &Lawful<'_, Beam>, article: u32) -> Finding {
        // kept as a match: it is the list of the articles by their numbers; a table of functions would be the same list,
        // with a look-up
        match article {
            1 => least_smaller_area(beam),
            2 => most_greater_area(beam),
            3 => most_area_for_concrete(beam),
            4 => least_bottom_area(beam),
            5 => least_stirrup_area(beam),
            6 => most_shear(beam),
            7 => least_face_area(beam),
            _ => Finding::NotApplicable,
        }
    }
}

// 5.6.1.3.2: the smaller area is not too small for the concrete.
fn least_smaller_area(beam: &Lawful<'_, Beam>) -> Finding
    ensures smaller_area_against_the_concrete { result ≡ least_smaller_area beam.now.sheet }
{
    let sizes = sizes(beam);
    Finding::at_least(
        42_000 * sizes.top.min(sizes.bottom),
        section_strength(sizes),
    )
}

// 5.6.1.3.2: the greater area is at most a fortieth of the section.
fn most_greater_area(beam: &Lawful<'_, Beam>) -> Finding
    ensures greater_area_against_the_section { result ≡ most_greater_area beam.now.sheet }
{
    let sizes = sizes(beam);
    Finding::at_most(40 * sizes.top.max(sizes.bottom), sizes.width * sizes.depth)
}

// 5.6.1.3.2: the greater area is not too great for the smaller one and the concrete.
fn most_area_for_concrete(beam: &Lawful<'_, Beam>) -> Finding
    ensures greater_area_against_smaller_and_concrete { result ≡ most_area_for_concrete beam.now.sheet }
{
    let sizes = sizes(beam);
    let greater = sizes.top.max(sizes.bottom);
    let smaller = sizes.top.min(sizes.bottom);
    Finding::at_most(
        product::<MOST_SCALED_AREA, MOST_AREA>(42_000 * greater, greater),
        product::<MOST_JOINT_AREA, MOST_SECTION_STRENGTH>(
            3 * greater + 2 * smaller,
            section_strength(sizes),
        ),
    )
}

// 5.6.1.3.3: the bottom area is a share of the top area, by zone.
fn least_bottom_area(beam: &Lawful<'_, Beam>) -> Finding
    ensures bottom_area_against_the_top { result ≡ least_bottom_area beam.now.sheet }
{
    let sizes = sizes(beam);
    Finding::at_least(
        product::<MOST_AREA, GREATEST_ZONE>(sizes.bottom, sizes.zone),
        50 * sizes.top,
    )
}

// 5.5.5: the stirrups have the least area for their spacing.
fn least_stirrup_area(beam: &Lawful<'_, Beam>) -> Finding
    ensures stirrup_area_against_the_spacing { result ≡ least_stirrup_area beam.now.sheet }
{
    let sizes = sizes(beam);
    Finding::at_least(400 * sizes.stirrup, 56 * sizes.spacing)
}

// 5.5.5 with 5.6.1.2: the shear is at most what the section may take.
fn most_shear(beam: &Lawful<'_, Beam>) -> Finding
    ensures shear_against_what_is_borne { result ≡ most_shear beam.now.sheet }
{
    let sizes = sizes(beam);
    Finding::at_most(13_500_000 * sizes.shear, 95 * borne_shear(sizes))
}

// 5.6.1.5: under high shear the faces have a share of the greater area, by zone.
fn least_face_area(beam: &Lawful<'_, Beam>) -> Finding
    ensures face_area_under_high_shear { result ≡ least_face_area beam.now.sheet }
{
    let sizes = sizes(beam);
    let share = face_share(beam.member.sheet.heading.concrete);
    if 13_500_000 * sizes.shear > share * borne_shear(sizes) {
        Finding::at_least(
            product::<MOST_AREA, GREATEST_ZONE>(sizes.face, sizes.zone),
            15 * sizes.top.max(sizes.bottom),
        )
    } else {
        Finding::NotApplicable
    }
}

// The share of the borne shear above which the faces need bars.
fn face_share(concrete: u32) -> u64
    ensures share_of_the_concrete { result ≡ face_share concrete }
    ensures at_most_47 { result ≤ 47 }
{
    if concrete == 17 { 40 } else { 47 }
}

// The sizes that the articles compare: areas in mm², lengths in mm, shear in N.
#[derive(Clone, Copy)]
pub struct BeamSizes {
    pub zone: u64,
    pub root: u64,
    pub strength: u64,
    pub width: u64,
    pub depth: u64,
    pub top: u64,
    pub bottom: u64,
    pub face: u64,
    pub stirrup: u64,
    pub spacing: u64,
    pub shear: u64,
    pub shear_area: u64,
}

// The greatest sizes on a lawful beam, and the greatest products of them.
const MOST_STRENGTH: u64 = 300;

const MOST_SIDE: u64 = 2_000;

const MOST_AREA: u64 = 100 * GREATEST_AREA;

const MOST_SHEAR_AREA: u64 = 5_000_000;

const MOST_SCALED_AREA: u64 = 42_000 * MOST_AREA;

const MOST_JOINT_AREA: u64 = 5 * MOST_AREA;

const MOST_WIDTH_STRENGTH: u64 = MOST_STRENGTH * MOST_SIDE;

const MOST_SECTION_STRENGTH: u64 = MOST_WIDTH_STRENGTH * MOST_SIDE;

const MOST_ZONE_ROOT: u64 = GREATEST_ZONE * GREATEST_ROOT;

// The sizes of a lawful beam. Kept as a function that each article calls: a definition could not make sizes with their bounds as
// an invariant, since it has no proof of them.
#[tactic(auto, using(crate::proofs::Sizes::beam_bounded))]
fn sizes(beam: &Lawful<'_, Beam>) -> BeamSizes
    ensures sizes_of_the_beam { result ≡ beam_sizes beam.now.sheet }
    ensures within_the_bounds { BeamBounds result }
{
    let sheet = &beam.member.sheet;
    BeamSizes {
        zone: u64::from(sheet.heading.zone),
        root: root_of(sheet.heading.concrete),
        strength: u64::from(sheet.heading.strength),
        width: u64::from(sheet.width),
        depth: u64::from(sheet.depth),
        top: area_of(sheet.top),
        bottom: area_of(sheet.bottom),
        face: area_of(sheet.face),
        stirrup: bar_area_of(sheet.stirrups.diameter),
        spacing: u64::from(sheet.stirrups.spacing),
        shear: u64::from(sheet.shear),
        shear_area: u64::from(sheet.shear_area),
    }
}

// The strength of the concrete over the section. Given the sizes and not the beam, as the next: none is looked up twice.
fn section_strength(sizes: BeamSizes) -> u64
    requires within_the_bounds { BeamBounds sizes }
    ensures strength_times_width_times_depth { result ≡ sizes.strength * sizes.width * sizes.depth }
    ensures within_its_bound { result ≤ 300 * 2000 * 2000 }
{
    let width_strength = product::<MOST_STRENGTH, MOST_SIDE>(sizes.strength, sizes.width);
    product::<MOST_WIDTH_STRENGTH, MOST_SIDE>(width_strength, sizes.depth)
}

// The shear that the concrete bears, in the unit of the articles on shear.
fn borne_shear(sizes: BeamSizes) -> u64
    requires within_the_bounds { BeamBounds sizes }
    ensures zone_times_root_times_shear_area { result ≡ sizes.zone * sizes.root * sizes.shear_area }
    ensures within_its_bound { result ≤ greatest_zone * greatest_root * 5000000 }
{
    let zone_root = product::<GREATEST_ZONE, GREATEST_ROOT>(sizes.zone, sizes.root);
    product::<MOST_ZONE_ROOT, MOST_SHEAR_AREA>(zone_root, sizes.shear_area)
}
