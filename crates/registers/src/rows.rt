// The rows of the three kinds: a member that is filed, with its certificate mark.
ghost use Rattle.std.specs.Prelude.{◌≡◌, Bool};
ghost use Rattle.std.proofs.Common.{rules};
ghost use Rattle.sheets.specs.declared.sheet.Sheet.{Sheet};
ghost use Rattle.registers.specs.Rows.{filed_form, beam_sheet, column_sheet, wall_sheet, no_beam, no_column, no_wall, unmoved, wall_shear_moved};
ghost use Rattle.registers.specs.declared.note.Note.{Note};

use crate::note::Note;
use crate::row::Row;
use books::book::Member;
use members::member::{Beam, Column, Wall};
use sheets::sheet::Sheet;

// A member that registers file, by its sheet.
pub trait Fileable: Member + Copy + Default {
    // the sheet of the member
    ghost sheet_of: { Self → Sheet };

    // the member on a free row
    ghost blank: { Self };

    // whether the member's shear is not its sheet's own, or shear in hand by the note came from it
    ghost moved: { Note → Self → Bool };

    // The sheet of the member.
    fn sheet(&self) -> Sheet
        ensures sheet_of_the_member { result ≡ sheet_of self.now };

    // Whether the member's shear is not its sheet's own, or shear in hand by this note came from it.
    fn is_moved(&self, note: &Note) -> bool
        ensures tells_whether_shear_moved { result ≡ moved note.now self.now };

    // The member that its row stands for: itself. Kept as a function of each kind, so that another member is refused at its kind, by
    // its value: one text for every kind could only fail to prove it.
    fn as_filed(&self) -> Self
        ensures the_member_itself { result ≡ self.now }
    {
        *self
    }

    // the member on a free row is the default
    ghost free_by_default: { (m : Self) → Self.is_default m → m ≡ blank };
}

// A member that is filed, with its certificate mark: kept as a `bool`, since the member stands on the row with and without it.
#[derive(Clone, Copy, Default)]
pub struct Filed<M> {
    pub member: M,
    pub certified: bool,
}

// A beam that is filed.
pub type BeamRow = Filed<Beam>;

// A column that is filed.
pub type ColumnRow = Filed<Column>;

// A wall that is filed, with the shear in N that it carries now.
pub type WallRow = Filed<Wall>;

impl<M: Fileable> Row<M> for Filed<M> {
    ghost form = { filed_form M.sheet_of M.blank M.moved };

    fn mark(&self) -> u32 {
        self.sheet().mark()
    }

    fn blank() -> Filed<M> {
        Filed::default()
    }

    fn sheet(&self) -> Sheet {
        self.member.sheet()
    }

    fn member(&self) -> M {
        self.member.as_filed()
    }

    fn certify(&self) -> Filed<M> {
        Filed {
            certified: true,
            ..*self
        }
    }

    fn is_moved(&self, note: &Note) -> bool {
        self.member.is_moved(note)
    }
}

// Kept beside that of `Column`: with a body `false` in the trait the proof does not close, since `moved` is abstract there.
impl Fileable for Beam {
    ghost sheet_of = { beam_sheet };

    ghost blank = { no_beam };

    ghost moved = { unmoved };

    fn sheet(&self) -> Sheet {
        Sheet::Beam(self.sheet)
    }

    fn is_moved(&self, _note: &Note) -> bool {
        false
    }

    ghost free_by_default = { Prim.search rules };
}

impl Fileable for Column {
    ghost sheet_of = { column_sheet };

    ghost blank = { no_column };

    ghost moved = { unmoved };

    fn sheet(&self) -> Sheet {
        Sheet::Column(self.sheet)
    }

    fn is_moved(&self, _noted: &Note) -> bool {
        false
    }

    ghost free_by_default = { Prim.search rules };
}

impl Fileable for Wall {
    ghost sheet_of = { wall_sheet };

    ghost blank = { no_wall };

    ghost moved = { wall_shear_moved };

    fn sheet(&self) -> Sheet {
        Sheet::Wall(self.sheet)
    }

    fn is_moved(&self, note: &Note) -> bool {
        let in_hand = note.newtons != 0 && note.wall == self.sheet.heading.mark;
        self.carried != self.sheet.shear || in_hand
    }

    ghost free_by_default = { Prim.search rules };
}
