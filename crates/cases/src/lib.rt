// The worked cases: their sheets, and what the books find on them and the calls of a job answer.
#![tactic(auto)]

ghost use Rattle.std.specs.Prelude.{◌≡◌};
ghost use Rattle.cases.specs.Worked.{WorkedCases, beam_with, worked_heading, worked_beam, worked_column, worked_wall};

use sheets::sheet::{Bars, BeamSheet, ColumnSheet, Heading, Spaced, WallSheet};

// The worked cases come out as they are stated. The fact is kept on each function: a program that calls any carries it.
#[tactic(auto, using(crate::proofs::Worked::worked_cases_stand))]
pub fn worked_cases()
    ensures worked_cases_stand { WorkedCases }
{}

// The worked beam with this mark.
#[tactic(auto, using(crate::proofs::Worked::worked_cases_stand))]
pub fn worked_beam(mark: u32) -> BeamSheet
    ensures sheet_of_the_worked_beam { result ≡ worked_beam mark }
    ensures worked_cases_stand { WorkedCases }
{
    let bottom = Bars {
        count: 3,
        diameter: 16,
    };
    beam_with(mark, 100, bottom, 200, 0)
}

// The worked column with this mark and height.
#[tactic(auto, using(crate::proofs::Worked::worked_cases_stand))]
pub fn worked_column(mark: u32, height: u32) -> ColumnSheet
    ensures sheet_of_the_worked_column { result ≡ worked_column mark height }
    ensures worked_cases_stand { WorkedCases }
{
    ColumnSheet {
        heading: heading_at(mark, 100),
        width: 400,
        height,
        bars: Bars {
            count: 8,
            diameter: 16,
        },
        tension_count: 3,
        confined_spacing: 100,
        normal_spacing: 200,
    }
}

// The worked wall with this mark.
#[tactic(auto, using(crate::proofs::Worked::worked_cases_stand))]
pub fn worked_wall(mark: u32) -> WallSheet
    ensures sheet_of_the_worked_wall { result ≡ worked_wall mark }
    ensures worked_cases_stand { WorkedCases }
{
    WallSheet {
        heading: heading_at(mark, 100),
        storey: 1,
        storeys: 5,
        analysis: 1,
        thickness: 200,
        length: 3_000,
        height: 9_000,
        support: 2_800,
        shear: 600_000,
        compression: 300_000,
        shear_area: 480_000,
        layers: 2,
        vertical: Spaced {
            diameter: 10,
            spacing: 200,
        },
        vertical_count: 32,
        horizontal: Spaced {
            diameter: 12,
            spacing: 200,
        },
    }
}

// The worked beam with this mark, zone factor, bottom bars, stirrup spacing and shear.
pub fn beam_with(mark: u32, zone: u32, bottom: Bars, spacing: u32, shear: u32) -> BeamSheet
    ensures sheet_of_the_beam { result ≡ beam_with mark zone bottom spacing shear }
{
    BeamSheet {
        heading: heading_at(mark, zone),
        width: 350,
        depth: 470,
        top: Bars {
            count: 4,
            diameter: 20,
        },
        bottom,
        stirrups: Spaced {
            diameter: 6,
            spacing,
        },
        shear,
        shear_area: 140_000,
        face: Bars {
            count: 0,
            diameter: 6,
        },
    }
}

// What every worked sheet begins with, at this mark and zone factor.
fn heading_at(mark: u32, zone: u32) -> Heading
    ensures heading_of_the_worked_sheets { result ≡ worked_heading mark zone }
{
    Heading {
        mark,
        zone,
        concrete: 17,
        strength: 140,
    }
}
