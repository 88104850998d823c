// The three sheets, by name, and the same numbers in the order of the message.
ghost use Rattle.std.specs.Prelude.{◌≡◌, ◌≤◌, ℕ, List, length, refl};
ghost use Rattle.std.proofs.Common.{rules};
ghost use Rattle.sheets.specs.Listed.{listed_out};
ghost use Rattle.tables.specs.Limits.{admitted};
ghost use Rattle.tables.specs.declared.limits.Limit.{Limit};
ghost use Rattle.sheets.specs.declared.sheet.Sheet.{Sheet};
ghost use Rattle.sheets.specs.declared.sheet.Sheet.TheVariants as sheets;
ghost use Rattle.sheets.specs.Limits.{beam_limits, column_limits, wall_limits};
ghost use Rattle.sheets.specs.Sheets.{beam_of, column_of, wall_of, beam_numbers, column_numbers, wall_numbers, kind_on, mark_on};

use crate::limits::{BEAM_LIMITS, COLUMN_LIMITS, WALL_LIMITS};
use tables::codes::Kind;
use tables::limits::{Limit, admits_all};

// What every sheet begins with: the member's mark, the zone factor in hundredths, the concrete type and the
// concrete's design strength in tenths of N/mm².
#[derive(Clone, Copy, Default)]
pub struct Heading {
    pub mark: u32,
    pub zone: u32,
    pub concrete: u32,
    pub strength: u32,
}

// A number of bars of one diameter. Kept beside `Spaced`, alike in shape alone: a count is no spacing.
#[derive(Clone, Copy, Default)]
pub struct Bars {
    pub count: u32,
    pub diameter: u32,
}

// Bars of one diameter at one spacing, as stirrups and the bars of a mesh.
#[derive(Clone, Copy, Default)]
pub struct Spaced {
    pub diameter: u32,
    pub spacing: u32,
}

// A beam. Lengths in mm, shear in N, the shear area in mm².
#[derive(Clone, Copy, Default)]
pub struct BeamSheet {
    pub heading: Heading,
    pub width: u32,
    pub depth: u32,
    pub top: Bars,
    pub bottom: Bars,
    pub stirrups: Spaced,
    pub shear: u32,
    pub shear_area: u32,
    // on each side
    pub face: Bars,
}

// A column.
#[derive(Clone, Copy, Default)]
pub struct ColumnSheet {
    pub heading: Heading,
    pub width: u32,
    pub height: u32,
    pub bars: Bars,
    pub tension_count: u32,
    pub confined_spacing: u32,
    pub normal_spacing: u32,
}

// A wall panel of one storey.
#[derive(Clone, Copy, Default)]
pub struct WallSheet {
    pub heading: Heading,
    pub storey: u32,
    pub storeys: u32,
    // kept as a number: a sheet may hold any, and `is_lawful` tells whether it stands for an analysis
    pub analysis: u32,
    pub thickness: u32,
    pub length: u32,
    pub height: u32,
    pub support: u32,
    pub shear: u32,
    pub compression: u32,
    pub shear_area: u32,
    pub layers: u32,
    pub vertical: Spaced,
    pub vertical_count: u32,
    pub horizontal: Spaced,
}

// A sheet as a run of N numbers, in the order of its message, each with its limit. Kept as functions of a trait and no `From`:
// its laws tie both directions to one another.
pub trait NumberedSheet<const N: usize>: Copy {
    // the sheet of a list of numbers
    ghost sheet_of: { List ℕ → Self };

    // the numbers of a sheet
    ghost numbers_of: { Self → List ℕ };

    // the sheet of any kind that it is
    ghost sheet_with: { Self → Sheet };

    // the limit of each number
    ghost limits_of: { List Limit };

    // The limits of the numbers, in their order.
    fn limits() -> &'static [Limit; N]
        ensures limits_in_order { result.now ≡ limits_of };

    // The sheet of these numbers.
    fn of_numbers(numbers: [u32; N]) -> Self
        ensures takes_the_numbers_in_order { result ≡ sheet_of numbers.entry };

    // The numbers of the sheet.
    fn numbers(&self) -> [u32; N]
        ensures gives_the_numbers_in_order { result ≡ numbers_of self.now };

    // The sheet, as the sheet of a member of any kind.
    fn into_sheet(self) -> Sheet
        ensures same_sheet_of_its_kind { result ≡ sheet_with self };

    // Whether each number of the sheet keeps its limit.
    final fn is_lawful(&self) -> bool
        ensures decides_lawful { result ≡ admitted limits_of (numbers_of self.now) }
    {
        admits_all(Self::limits(), &self.numbers())
    }

    // each number has a tag of one byte
    ghost as_many_as_there_are_tags: { N ≤ 240 };

    // the numbers of a sheet give it back
    ghost numbers_give_the_sheet_back: { (sheet : Self) → sheet_of (numbers_of sheet) ≡ sheet };

    // a sheet gives back the numbers that it is of
    ghost sheet_gives_the_numbers_back: { (numbers : List ℕ) → length numbers ≡ N → numbers_of (sheet_of numbers) ≡ numbers };
}

// The sheet of one member of any kind. Its matches are kept: each arm has a type of its own.
#[derive(Clone, Copy)]
pub enum Sheet {
    Beam(BeamSheet),
    Column(ColumnSheet),
    Wall(WallSheet),
}

impl Sheet {
    // The kind of the sheet.
    pub fn kind(&self) -> Kind
        ensures kind_of_the_sheet { result ≡ kind_on self.now }
    {
        match self {
            Sheet::Beam(_) => Kind::Beam,
            Sheet::Column(_) => Kind::Column,
            Sheet::Wall(_) => Kind::Wall,
        }
    }

    // The mark on the sheet.
    pub fn mark(&self) -> u32
        ensures mark_on_the_sheet { result ≡ mark_on self.now }
    {
        match self {
            Sheet::Beam(beam) => beam.heading.mark,
            Sheet::Column(column) => column.heading.mark,
            Sheet::Wall(wall) => wall.heading.mark,
        }
    }
}

impl NumberedSheet<16> for BeamSheet {
    ghost sheet_of = { beam_of };

    ghost numbers_of = { beam_numbers };

    ghost sheet_with = { sheets.Beam };

    ghost limits_of = { beam_limits };

    ghost as_many_as_there_are_tags = { Prim.search rules };

    ghost numbers_give_the_sheet_back = { λ sheet. refl };

    ghost sheet_gives_the_numbers_back = { listed_out 16 };

    fn limits() -> &'static [Limit; 16] {
        &BEAM_LIMITS
    }

    fn of_numbers(numbers: [u32; 16]) -> BeamSheet
        ensures takes_the_numbers_in_order { result ≡ beam_of numbers }
    {
        let [
            mark,
            zone,
            concrete,
            strength,
            width,
            depth,
            top,
            top_diameter,
            bottom,
            bottom_diameter,
            stirrup,
            spacing,
            shear,
            shear_area,
            face,
            face_diameter,
        ] = numbers;
        BeamSheet {
            heading: Heading {
                mark,
                zone,
                concrete,
                strength,
            },
            width,
            depth,
            top: Bars {
                count: top,
                diameter: top_diameter,
            },
            bottom: Bars {
                count: bottom,
                diameter: bottom_diameter,
            },
            stirrups: Spaced {
                diameter: stirrup,
                spacing,
            },
            shear,
            shear_area,
            face: Bars {
                count: face,
                diameter: face_diameter,
            },
        }
    }

    fn into_sheet(self) -> Sheet {
        Sheet::Beam(self)
    }

    fn numbers(&self) -> [u32; 16] {
        [
            self.heading.mark,
            self.heading.zone,
            self.heading.concrete,
            self.heading.strength,
            self.width,
            self.depth,
            self.top.count,
            self.top.diameter,
            self.bottom.count,
            self.bottom.diameter,
            self.stirrups.diameter,
            self.stirrups.spacing,
            self.shear,
            self.shear_area,
            self.face.count,
            self.face.diameter,
        ]
    }
}

impl NumberedSheet<11> for ColumnSheet {
    ghost sheet_of = { column_of };

    ghost numbers_of = { column_numbers };

    ghost sheet_with = { sheets.Column };

    ghost limits_of = { column_limits };

    ghost as_many_as_there_are_tags = { Prim.search rules };

    ghost numbers_give_the_sheet_back = { λ sheet. refl };

    ghost sheet_gives_the_numbers_back = { listed_out 11 };

    fn limits() -> &'static [Limit; 11] {
        &COLUMN_LIMITS
    }

    fn of_numbers(numbers: [u32; 11]) -> ColumnSheet
        ensures takes_the_numbers_in_order { result ≡ column_of numbers }
    {
        let [
            mark,
            zone,
            concrete,
            strength,
            width,
            height,
            count,
            diameter,
            tension_count,
            confined_spacing,
            normal_spacing,
        ] = numbers;
        ColumnSheet {
            heading: Heading {
                mark,
                zone,
                concrete,
                strength,
            },
            width,
            height,
            bars: Bars { count, diameter },
            tension_count,
            confined_spacing,
            normal_spacing,
        }
    }

    fn into_sheet(self) -> Sheet {
        Sheet::Column(self)
    }

    fn numbers(&self) -> [u32; 11] {
        [
            self.heading.mark,
            self.heading.zone,
            self.heading.concrete,
            self.heading.strength,
            self.width,
            self.height,
            self.bars.count,
            self.bars.diameter,
            self.tension_count,
            self.confined_spacing,
            self.normal_spacing,
        ]
    }
}

impl NumberedSheet<20> for WallSheet {
    ghost sheet_of = { wall_of };

    ghost numbers_of = { wall_numbers };

    ghost sheet_with = { sheets.Wall };

    ghost limits_of = { wall_limits };

    ghost as_many_as_there_are_tags = { Prim.search rules };

    ghost numbers_give_the_sheet_back = { λ sheet. refl };

    ghost sheet_gives_the_numbers_back = { listed_out 20 };

    fn limits() -> &'static [Limit; 20] {
        &WALL_LIMITS
    }

    fn of_numbers(numbers: [u32; 20]) -> WallSheet
        ensures takes_the_numbers_in_order { result ≡ wall_of numbers }
    {
        let [
            mark,
            zone,
            concrete,
            strength,
            storey,
            storeys,
            analysis,
            thickness,
            length,
            height,
            support,
            shear,
            compression,
            shear_area,
            layers,
            vertical_diameter,
            vertical_spacing,
            vertical_count,
            horizontal_diameter,
            horizontal_spacing,
        ] = numbers;
        WallSheet {
            heading: Heading {
                mark,
                zone,
                concrete,
                strength,
            },
            storey,
            storeys,
            analysis,
            thickness,
            length,
            height,
            support,
            shear,
            compression,
            shear_area,
            layers,
            vertical: Spaced {
                diameter: vertical_diameter,
                spacing: vertical_spacing,
            },
            vertical_count,
            horizontal: Spaced {
                diameter: horizontal_diameter,
                spacing: horizontal_spacing,
            },
        }
    }

    fn into_sheet(self) -> Sheet {
        Sheet::Wall(self)
    }

    fn numbers(&self) -> [u32; 20] {
        [
            self.heading.mark,
            self.heading.zone,
            self.heading.concrete,
            self.heading.strength,
            self.storey,
            self.storeys,
            self.analysis,
            self.thickness,
            self.length,
            self.height,
            self.support,
            self.shear,
            self.compression,
            self.shear_area,
            self.layers,
            self.vertical.diameter,
            self.vertical.spacing,
            self.vertical_count,
            self.horizontal.diameter,
            self.horizontal.spacing,
        ]
    }
}
