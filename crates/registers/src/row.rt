// What register handling asks of a row.
ghost use Rattle.std.specs.Prelude.{◌≡◌};
ghost use Rattle.registers.specs.Forms.{Form};

use crate::note::Note;
use books::book::Member;
use sheets::sheet::Sheet;

// A row of a register: a sheet with a certificate mark, that stands for a member. Kept as a trait, though one type meets it: the
// handling of registers is bound by what a row tells, and by no fields.
pub trait Row<M: Member>: Copy {
    // what the row tells of itself
    ghost form: { Form Self M };

    // The mark on the row's sheet; 0 on a free row.
    fn mark(&self) -> u32
        ensures mark_on_the_sheet { result ≡ form.mark self.now };

    // The row of zeros. A free row is this and no None: the rules of the job fix it so.
    fn blank() -> Self
        ensures row_of_zeros { result ≡ form.blank };

    // The sheet on the row.
    fn sheet(&self) -> Sheet
        ensures sheet_on_the_row { result ≡ form.sheet self.now };

    // The member that the row stands for.
    fn member(&self) -> M
        ensures member_of_the_row { result ≡ form.member self.now };

    // The same row with its certificate.
    fn certify(&self) -> Self
        ensures same_row_with_its_certificate { result ≡ form.certify self.now };

    // Whether the row's shear is not its sheet's own, or shear in hand by this note came from it.
    fn is_moved(&self, note: &Note) -> bool
        ensures tells_whether_shear_moved { result ≡ form.moved note.now self.now };
}
