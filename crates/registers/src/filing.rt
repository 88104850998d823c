// Withdrawing, judging and writing in one register, one text for every kind of row and member.
ghost use Rattle.std.specs.Prelude.{◌≡◌};
ghost use Rattle.registers.specs.Filings.{withdrawn, judged, written, written_length};

use crate::note::Note;
use crate::register::{close_up, find};
use crate::row::Row;
use books::answers::Verdict;
use books::book::{Book, Member};
use books::judgement::verdict;
use faults::fault::JobFault;
use messages::message::encode;

// Takes out the row with this mark: refused where there is none (S3), then where its shear moved (S11).
pub fn withdraw_row<M: Member, R: Row<M>>(
    register: &mut [R],
    mark: u32,
    note: &Note,
) -> Result<(), JobFault>
    ensures taken_out_or_refused { result ≡ (withdrawn R.Row.form note.now mark register.old).answer }
    ensures later_rows_move_up { register.new ≡ (withdrawn R.Row.form note.now mark register.old).rows }
{
    let at = find(register, mark).ok_or(JobFault::Unknown)?;
    let row = register[at];
    if row.is_moved(note) {
        return Err(JobFault::ShearMoved);
    }
    close_up(register, at);
    Ok(())
}

// Asks the book about the row with this mark, and puts a certificate on the row: refused where there is none (S3),
// then where it is unlawful (S4), then where the book does not take it (S12).
pub fn judge_row<M: Member + Copy, R: Row<M>, B: Book<M>>(
    register: &mut [R],
    book: &B,
    mark: u32,
) -> Result<Verdict, JobFault>
    ensures verdict_of_the_book_or_refused { result ≡ (judged R.Row.form M.Member.lawful (B.Book.meaning book.now) mark register.old).answer }
    ensures certificate_on_the_row { register.new ≡ (judged R.Row.form M.Member.lawful (B.Book.meaning book.now) mark register.old).rows }
{
    let at = find(register, mark).ok_or(JobFault::Unknown)?;
    let row = register[at];
    let found = verdict(book, &row.member())?;
    if let Verdict::Certificate = found {
        register[at] = row.certify();
    }
    Ok(found)
}

// Puts at the buffer's front the message of the sheet that is on the row with this mark, and answers its length: refused
// where there is no such row (S3), then where it is unlawful (S4), then where the buffer is too short (I6). The two tests are
// kept beside those before moving shear: a function for both would answer a place that this one drops.
pub fn write_row<M: Member + Copy, R: Row<M>>(
    register: &[R],
    mark: u32,
    buffer: &mut [u8],
) -> Result<usize, JobFault>
    ensures length_or_refused { result ≡ written_length R.Row.form M.Member.lawful mark register.now buffer.old }
    ensures message_then_the_rest_untouched { buffer.new ≡ written R.Row.form M.Member.lawful mark register.now buffer.old }
{
    let at = find(register, mark).ok_or(JobFault::Unknown)?;
    let row = register[at];
    if !row.member().is_lawful() {
        return Err(JobFault::Unlawful);
    }
    encode(&row.sheet(), buffer)
}
