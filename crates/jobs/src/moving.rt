// The calls that move shear: first the change that a call would make, or the ground that refuses it, then the change. The three
// calls are kept beside one another: each is two lines, and a closure for the change that differs would be longer. That a
// change is at the place of a wall is kept in three clauses, since it is said of the registers and not of the change alone.
ghost use Rattle.std.specs.Prelude.{◌≡◌, ◌+◌, ◌*◌, ◌<◌, ◌≤◌, length, IfOk, nat_lt, slice_set};
ghost use Rattle.law.specs.States.{less, with_note, with_walls};
ghost use Rattle.law.specs.Steps.{carrying, lift_step, place_step, put_back_step};
ghost use Rattle.jobs.specs.Changes.{differs_from, lawful_wall_at, lift_change, place_change, put_back_change, wall_to_move};
ghost use Rattle.jobs.specs.Views.{StayLent, sized, state_of};

use crate::hand::{Hand, NO_SHEAR};
use crate::job::Job;
use crate::lent::Registers;
use crate::limits::{MARK, NEWTONS};
use books::book::Member;
use faults::fault::JobFault;
use members::member::Wall;
use registers::note::Note;
use registers::register::find;
use registers::row::Row;
use registers::rows::WallRow;

// The greatest shear in N that a wall may carry.
const MOST_CARRIED: u64 = 10_000_000;

// The place of a wall, its row with the shear that it carries then, and what the job and the hand note then.
#[derive(Clone, Copy)]
struct Change {
    at: usize,
    row: WallRow,
    note: Note,
}

impl Change {
    // Makes the change, and answers the newtons left in hand.
    fn carry_out(self, job: &mut Job, registers: &mut Registers<'_>, hand: &mut Hand) -> u32
        requires place_of_a_wall { self.at < length registers.old.walls.now }
        ensures newtons_left_in_hand { result ≡ self.note.newtons }
        ensures row_and_note { state_of job.new registers.new ≡ with_note (with_walls (state_of job.old registers.old) (slice_set registers.old.walls.now self.at self.row)) self.note }
        ensures hand_notes_it { hand.new.note ≡ self.note }
        ensures registers_stay_lent { StayLent registers.old registers.new }
    {
        registers.walls[self.at] = self.row;
        job.note = self.note;
        hand.note = self.note;
        self.note.newtons
    }
}

// Takes shear off a wall into an empty hand.
#[tactic(auto, using(crate::proofs::Moved::lifted))]
pub(crate) fn lift_shear(
    job: &mut Job,
    registers: &mut Registers<'_>,
    hand: &mut Hand,
    wall: u32,
    newtons: u32,
) -> Result<u32, JobFault>
    ensures answers_by_its_grounds { result ≡ (lift_step (state_of job.old registers.old) hand.old.note wall newtons).answer }
    ensures state_by_its_definition { state_of job.new registers.new ≡ (lift_step (state_of job.old registers.old) hand.old.note wall newtons).state }
    ensures hand_by_its_definition { hand.new.note ≡ (lift_step (state_of job.old registers.old) hand.old.note wall newtons).hand }
    ensures registers_stay_lent { StayLent registers.old registers.new }
{
    let change = lift_change(job, registers, hand.note, wall, newtons)?;
    Ok(change.carry_out(job, registers, hand))
}

// Puts shear from the hand onto a wall of its storey.
#[tactic(auto, using(crate::proofs::Moved::placed))]
pub(crate) fn place_shear(
    job: &mut Job,
    registers: &mut Registers<'_>,
    hand: &mut Hand,
    wall: u32,
    newtons: u32,
) -> Result<u32, JobFault>
    ensures answers_by_its_grounds { result ≡ (place_step (state_of job.old registers.old) hand.old.note wall newtons).answer }
    ensures state_by_its_definition { state_of job.new registers.new ≡ (place_step (state_of job.old registers.old) hand.old.note wall newtons).state }
    ensures hand_by_its_definition { hand.new.note ≡ (place_step (state_of job.old registers.old) hand.old.note wall newtons).hand }
    ensures registers_stay_lent { StayLent registers.old registers.new }
{
    let change = place_change(job, registers, hand.note, wall, newtons)?;
    Ok(change.carry_out(job, registers, hand))
}

// Puts the rest from the hand onto the wall that it came from.
#[tactic(auto, using(crate::proofs::Moved::put_back))]
pub(crate) fn put_back_shear(
    job: &mut Job,
    registers: &mut Registers<'_>,
    hand: &mut Hand,
) -> Result<u32, JobFault>
    ensures answers_by_its_grounds { result ≡ (put_back_step (state_of job.old registers.old) hand.old.note).answer }
    ensures state_by_its_definition { state_of job.new registers.new ≡ (put_back_step (state_of job.old registers.old) hand.old.note).state }
    ensures hand_by_its_definition { hand.new.note ≡ (put_back_step (state_of job.old registers.old) hand.old.note).hand }
    ensures registers_stay_lent { StayLent registers.old registers.new }
{
    let change = put_back_change(job, registers, hand.note)?;
    Ok(change.carry_out(job, registers, hand))
}

// The change that takes shear off a wall into an empty hand.
fn lift_change(
    job: &Job,
    registers: &Registers<'_>,
    hand: Note,
    wall: u32,
    newtons: u32,
) -> Result<Change, JobFault>
    ensures change_or_first_ground { result ≡ lift_change (state_of job.now registers.now) hand wall newtons }
    ensures place_of_a_wall { IfOk result (λ change. change.at < length registers.now.walls.now) }
{
    let (at, row) = wall_to_move(registers, wall, newtons)?;
    if hand.newtons != 0 || job.note.newtons != 0 {
        return Err(JobFault::InHand);
    }
    if keeps_too_little(row, newtons) {
        return Err(JobFault::UnderSevenTenths);
    }
    let note = Note {
        job: job.number,
        wall,
        storey: row.member.sheet.storey,
        newtons,
    };
    let row = carrying(row, row.member.carried - newtons);
    Ok(Change { at, row, note })
}

// The change that puts shear from the hand onto a wall of its storey.
fn place_change(
    job: &Job,
    registers: &Registers<'_>,
    hand: Note,
    wall: u32,
    newtons: u32,
) -> Result<Change, JobFault>
    ensures change_or_first_ground { result ≡ place_change (state_of job.now registers.now) hand wall newtons }
    ensures place_of_a_wall { IfOk result (λ change. change.at < length registers.now.walls.now) }
{
    let (at, row) = wall_to_move(registers, wall, newtons)?;
    if differs(hand, job.note) {
        return Err(JobFault::HandDiffers);
    }
    if row.member.sheet.storey != hand.storey {
        return Err(JobFault::OtherStorey);
    }
    if hand.newtons < newtons {
        return Err(JobFault::OverHand);
    }
    if is_over_load(row, newtons) {
        return Err(JobFault::OverLoad);
    }
    let row = carrying(row, row.member.carried + newtons);
    let note = less(hand, newtons);
    Ok(Change { at, row, note })
}

// The change that puts the rest from the hand onto the wall that it came from.
fn put_back_change(job: &Job, registers: &Registers<'_>, hand: Note) -> Result<Change, JobFault>
    ensures change_or_first_ground { result ≡ put_back_change (state_of job.now registers.now) hand }
    ensures place_of_a_wall { IfOk result (λ change. change.at < length registers.now.walls.now) }
{
    if !registers.are_sized() {
        return Err(JobFault::Argument);
    }
    if differs(hand, job.note) {
        return Err(JobFault::HandDiffers);
    }
    let (at, row) = lawful_wall_at(registers.walls, hand.wall)?;
    if is_over_load(row, hand.newtons) {
        return Err(JobFault::OverLoad);
    }
    let row = carrying(row, row.member.carried + hand.newtons);
    let note = NO_SHEAR;
    Ok(Change { at, row, note })
}

// A lawful wall's place and row, where so many newtons may be moved to or from it.
fn wall_to_move(
    registers: &Registers<'_>,
    wall: u32,
    newtons: u32,
) -> Result<(usize, WallRow), JobFault>
    ensures wall_or_first_ground { result ≡ wall_to_move (sized registers.now) registers.now.walls.now wall newtons }
    ensures place_of_a_wall { IfOk result (λ found. found.0 < length registers.now.walls.now) }
{
    if !(registers.are_sized() && MARK.admits(wall) && NEWTONS.admits(newtons)) {
        return Err(JobFault::Argument);
    }
    lawful_wall_at(registers.walls, wall)
}

// A lawful wall's place and row. Kept beside the two tests before writing a row, which needs no place.
fn lawful_wall_at(walls: &[WallRow], mark: u32) -> Result<(usize, WallRow), JobFault>
    ensures wall_or_first_ground { result ≡ lawful_wall_at walls.now mark }
    ensures place_of_a_wall { IfOk result (λ found. found.0 < length walls.now) }
{
    let at = find(walls, mark).ok_or(JobFault::Unknown)?;
    let row = walls[at];
    if !row.member().is_lawful() {
        return Err(JobFault::Unlawful);
    }
    Ok((at, row))
}

// Whether the hand is empty, or differs from what the job noted.
fn differs(hand: Note, noted: Note) -> bool
    ensures empty_or_another { result ≡ differs_from hand noted }
{
    hand.newtons == 0 || hand != noted
}

// Whether the wall would keep under seven tenths of its sheet's shear.
fn keeps_too_little(row: WallRow, newtons: u32) -> bool
    ensures under_seven_tenths { result ≡ nat_lt (10 * row.member.carried) (10 * newtons + 7 * row.member.sheet.shear) }
{
    let asked = 10 * u64::from(newtons) + 7 * u64::from(row.member.sheet.shear);
    10 * u64::from(row.member.carried) < asked
}

// Whether the wall would carry over 10,000,000 N.
fn is_over_load(row: WallRow, newtons: u32) -> bool
    ensures over_10000000 { result ≡ nat_lt 10000000 (row.member.carried + newtons) }
{
    u64::from(row.member.carried) + u64::from(newtons) > MOST_CARRIED
}

// The note with so much less shear; at 0 N it is empty.
fn less(note: Note, newtons: u32) -> Note
    requires as_much_in_it { newtons ≤ note.newtons }
    ensures rest_of_the_note { result ≡ less note newtons }
{
    let left = note.newtons - newtons;
    if left == 0 {
        NO_SHEAR
    } else {
        Note {
            newtons: left,
            ..note
        }
    }
}

// The wall with another shear on it, and so without a certificate.
fn carrying(row: WallRow, newtons: u32) -> WallRow
    ensures uncertified_with_this_shear { result ≡ carrying row newtons }
{
    WallRow {
        member: Wall {
            carried: newtons,
            ..row.member
        },
        certified: false,
    }
}
