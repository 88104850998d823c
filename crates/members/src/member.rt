// The members that the books judge: which are lawful, and what each measures.
ghost use Rattle.std.specs.Prelude.{◌≡◌};
ghost use Rattle.sheets.specs.Sheets.{lawful_beam, lawful_column, lawful_wall_sheet};
ghost use Rattle.members.specs.Members.{beam_measure, column_measure, lawful_beam_member, lawful_column_member, lawful_wall, wall_measure};

use books::book::Member;
use sheets::sheet::{BeamSheet, ColumnSheet, NumberedSheet, WallSheet};
use tables::codes::Quantity;

// A beam, by its sheet. Kept beside `Column`, alike in shape alone: what each measures is its own, so that one generic type would
// have both `impl`s of `Member` again.
#[derive(Clone, Copy, Default)]
pub struct Beam {
    pub sheet: BeamSheet,
}

// A column, by its sheet.
#[derive(Clone, Copy, Default)]
pub struct Column {
    pub sheet: ColumnSheet,
}

// A wall panel, by its sheet, with the shear in N that it carries now; it begins with its sheet's.
#[derive(Clone, Copy, Default)]
pub struct Wall {
    pub sheet: WallSheet,
    pub carried: u32,
}

// The greatest shear in N that a wall may carry.
const MOST_CARRIED: u32 = 10_000_000;

impl Member for Beam {
    ghost lawful = { lawful_beam_member };

    ghost measure = { λ m. beam_measure m.sheet };

    fn is_lawful(&self) -> bool {
        BeamSheet::is_lawful(&self.sheet)
    }

    fn quantity(&self, quantity: Quantity) -> Option<u32> {
        match quantity {
            Quantity::Thickness => Some(self.sheet.width),
            Quantity::TieSpacing => Some(self.sheet.stirrups.spacing),
            Quantity::Storey => None,
        }
    }
}

impl Member for Column {
    ghost lawful = { lawful_column_member };

    ghost measure = { λ m. column_measure m.sheet };

    fn is_lawful(&self) -> bool {
        ColumnSheet::is_lawful(&self.sheet)
    }

    fn quantity(&self, quantity: Quantity) -> Option<u32> {
        match quantity {
            Quantity::Thickness => Some(self.sheet.width.min(self.sheet.height)),
            Quantity::TieSpacing => Some(self.sheet.confined_spacing),
            Quantity::Storey => None,
        }
    }
}

impl Member for Wall {
    ghost lawful = { lawful_wall };

    ghost measure = { wall_measure };

    fn is_lawful(&self) -> bool {
        let carried = u64::from(self.carried);
        let shear = u64::from(self.sheet.shear);
        WallSheet::is_lawful(&self.sheet)
            && 7 * shear <= 10 * carried
            && self.carried <= MOST_CARRIED
    }

    fn quantity(&self, quantity: Quantity) -> Option<u32> {
        match quantity {
            Quantity::Thickness => Some(self.sheet.thickness),
            Quantity::TieSpacing => Some(self.sheet.horizontal.spacing),
            Quantity::Storey => Some(self.sheet.storey),
        }
    }
}
