// The handling of a register, one text for every kind of row. A register ends before its first row of mark 0, and the
// first row with a mark is meant; rows past the end stay as they are.
ghost use Rattle.std.specs.Prelude.{◌≡◌, ◌<◌, ◌≤◌, length, replicate, IfSome, not, ◌==◌};
ghost use Rattle.registers.specs.Registers.{free, ending, find, closed_up};
ghost use Rattle.registers.specs.Filings.{entered};

use crate::row::Row;
use books::book::Member;
use faults::fault::JobFault;

// The place where the register ends: of its first free row, or past its last row where none is free.
pub fn ending<M: Member, R: Row<M>>(register: &[R]) -> usize
    ensures place_where_it_ends { result ≡ ending R.Row.form register.now }
    ensures at_most_its_length { result ≤ length register.now }
{
    register
        .iter()
        .position(|row| is_free(row))
        .unwrap_or(register.len())
}

// The place of the first row with this mark, before the register's end.
pub fn find<M: Member, R: Row<M>>(register: &[R], mark: u32) -> Option<usize>
    ensures place_of_the_first_with_the_mark { result ≡ find R.Row.form mark register.now }
    ensures within_the_register { IfSome result (λ i. i < length register.now) }
{
    register
        .iter()
        .take_while(|row| is_filed(*row))
        .position(|row| has_mark(row, mark))
}

// Whether the row is free: its mark is 0.
fn is_free<M: Member, R: Row<M>>(row: &R) -> bool
    ensures free_at_mark_0 { result ≡ free R.Row.form row.now }
{
    row.mark() == 0
}

// Whether a sheet is on the row: its mark is another than 0. Kept beside `is_free`, so that an edit can turn where a register ends
// and leave what is found in it.
fn is_filed<M: Member, R: Row<M>>(row: &R) -> bool
    ensures filed_at_another_mark { result ≡ not (free R.Row.form row.now) }
{
    row.mark() != 0
}

// Whether the row has this mark.
fn has_mark<M: Member, R: Row<M>>(row: &R, mark: u32) -> bool
    ensures tells_of_its_mark { result ≡ (R.Row.form.mark row.now == mark) }
{
    row.mark() == mark
}

// Files a row in the first free row: refused where none is free (S1), then where its mark is filed already (S2).
pub fn append<M: Member, R: Row<M>>(register: &mut [R], row: R) -> Result<(), JobFault>
    ensures filed_or_refused { result ≡ (entered R.Row.form row register.old).answer }
    ensures row_in_the_first_free_row { register.new ≡ (entered R.Row.form row register.old).rows }
{
    let at = ending(register);
    if at >= register.len() {
        return Err(JobFault::Full);
    }
    if find(register, row.mark()).is_some() {
        return Err(JobFault::Filed);
    }
    register[at] = row;
    Ok(())
}

// Takes out the row at this place: later rows move up to the register's end, and the freed row becomes zeros. A place past
// the last row leaves every row as it was.
#[tactic(auto, using(crate::proofs::Closing::closed_past))]
pub fn close_up<M: Member, R: Row<M>>(register: &mut [R], at: usize)
    ensures later_rows_move_up { register.new ≡ closed_up R.Row.form at register.old }
{
    if at < register.len() {
        move_up(register, at);
    }
}

// Moves the rows after this place up by one, to the register's end, and frees the last of them.
#[tactic(auto, using(crate::proofs::Closing::copied_down))]
fn move_up<M: Member, R: Row<M>>(register: &mut [R], at: usize)
    requires place_of_a_row { at < length register.old }
    ensures later_rows_move_up { register.new ≡ closed_up R.Row.form at register.old }
{
    let last = at + ending(&register[at + 1..]);
    register.copy_within(at + 1..last + 1, at);
    register[last] = R::blank();
}

// Makes every row the row of zeros. A loop and no `fill`, which asks that a clone of a row is that row, of which a bound says nothing.
pub fn clear<M: Member, R: Row<M>>(register: &mut [R])
    ensures every_row_is_zeros { register.new ≡ replicate (length register.old) R.Row.form.blank }
{
    for row in register.iter_mut() {
        *row = R::blank();
    }
}
