// The calls of a job. None asks anything of its caller: what it will not do it refuses, and then nothing has changed.
//
// Kept as they are: a kind is a number, since a call refuses one that stands for no kind (I6); job, registers and hand are
// passed side by side, since the registers belong to the caller, who hands them to each call anew, and a kind with its mark or
// a wall with its newtons are the arguments that a call's rules name; lift and place are two calls, alike in shape alone; the
// answer, the state and the hand, that the registers stay lent and a hand stays in step are said of each call, by its own
// definition, since they relate what was before it to what is after, which no invariant can.
ghost use Rattle.std.specs.Prelude.{◌≡◌, [], IfOk};
ghost use Rattle.registers.specs.declared.note.Note.{Note};
ghost use Rattle.law.specs.States.{Piles as Meanings};
ghost use Rattle.law.specs.Histories as acts;
ghost use Rattle.law.specs.Laws.{EveryRun, Kept, KeepsTheLaw, PutBackEmpties, Reached, StaysInStep, renamed};
ghost use Rattle.law.specs.declared.answers.Answer.TheVariants.{Done, InHand, Judged, Tallied};
ghost use Rattle.law.specs.Steps.{enter_step, judge_step, lift_step, place_step, put_back_step, tally_step, withdraw_step, write_answer, write_buffer};
ghost use Rattle.jobs.specs.Views.{StayLent, fresh, open_answer, open_state, state_of};

use crate::filing::{enter_sheet, judge_sheet, withdraw_sheet, write_sheet};
use crate::hand::Hand;
use crate::job::Job;
use crate::lent::{Books, Registers};
use crate::moving::{lift_shear, place_shear, put_back_shear};
use crate::opening::open_job;
use crate::telling::tally_storey;
use books::answers::Verdict;
use faults::fault::JobFault;
use law::answers::Sums;

// Opens a job of this number on the registers, each row of zeros: refused where the number or a register is outside its
// limits (I6).
pub fn open(number: u32, registers: &mut Registers<'_>) -> Result<Job, JobFault>
    ensures job_of_this_number_or_refused { result ≡ open_answer number registers.old }
    ensures rows_of_zeros_or_as_they_were { state_of (fresh number) registers.new ≡ open_state number registers.old }
    ensures registers_stay_lent { StayLent registers.old registers.new }
    ensures the_empty_history_reaches_it { (p : Meanings) → IfOk result (λ job. Reached p [] (state_of job registers.new) × Kept p [] (state_of job registers.new)) }
    ensures every_run_keeps_the_law { (p : Meanings) → EveryRun p }
{
    open_job(number, registers)
}

// Enters the sheet that a message carries: I6, then a fault of the message, then S1 and S2.
pub fn enter(job: &Job, registers: &mut Registers<'_>, message: &[u8]) -> Result<(), JobFault>
    ensures answers_by_its_grounds { (hand : Note) → result ≡ (enter_step (state_of job.now registers.old) hand message.now).answer }
    ensures state_by_its_definition { (hand : Note) → state_of job.now registers.new ≡ (enter_step (state_of job.now registers.old) hand message.now).state }
    ensures registers_stay_lent { StayLent registers.old registers.new }
    ensures keeps_the_law { (p : Meanings) (hand : Note) → KeepsTheLaw p (acts.enter message.now) hand (state_of job.now registers.old) (renamed (λ _. Done) result) (state_of job.now registers.new) }
{
    enter_sheet(registers, message)
}

// Withdraws a row: I6, then S3 and S11.
pub fn withdraw(
    job: &Job,
    registers: &mut Registers<'_>,
    kind: u32,
    mark: u32,
) -> Result<(), JobFault>
    ensures answers_by_its_grounds { (hand : Note) → result ≡ (withdraw_step (state_of job.now registers.old) hand kind mark).answer }
    ensures state_by_its_definition { (hand : Note) → state_of job.now registers.new ≡ (withdraw_step (state_of job.now registers.old) hand kind mark).state }
    ensures registers_stay_lent { StayLent registers.old registers.new }
    ensures keeps_the_law { (p : Meanings) (hand : Note) → KeepsTheLaw p (acts.withdraw kind mark) hand (state_of job.now registers.old) (renamed (λ _. Done) result) (state_of job.now registers.new) }
{
    withdraw_sheet(job, registers, kind, mark)
}

// Asks the pile of its kind about a row, and puts a certificate on the row: I6, then S3, S4 and S12.
pub fn judge<P: Books>(
    job: &Job,
    registers: &mut Registers<'_>,
    piles: &P,
    kind: u32,
    mark: u32,
) -> Result<Verdict, JobFault>
    ensures answers_by_its_grounds { (hand : Note) → result ≡ (judge_step (P.meanings piles.now) (state_of job.now registers.old) hand kind mark).answer }
    ensures state_by_its_definition { (hand : Note) → state_of job.now registers.new ≡ (judge_step (P.meanings piles.now) (state_of job.now registers.old) hand kind mark).state }
    ensures registers_stay_lent { StayLent registers.old registers.new }
    ensures keeps_the_law { (hand : Note) → KeepsTheLaw (P.meanings piles.now) (acts.judge kind mark) hand (state_of job.now registers.old) (renamed Judged result) (state_of job.now registers.new) }
{
    judge_sheet(registers, piles, kind, mark)
}

// Takes shear off a wall into an empty hand, and answers the newtons in hand: I6, then S3, S4, S5 and S7.
pub fn lift(
    job: &mut Job,
    registers: &mut Registers<'_>,
    hand: &mut Hand,
    wall: u32,
    newtons: u32,
) -> Result<u32, JobFault>
    ensures answers_by_its_grounds { result ≡ (lift_step (state_of job.old registers.old) hand.old.note wall newtons).answer }
    ensures state_by_its_definition { state_of job.new registers.new ≡ (lift_step (state_of job.old registers.old) hand.old.note wall newtons).state }
    ensures hand_by_its_definition { hand.new.note ≡ (lift_step (state_of job.old registers.old) hand.old.note wall newtons).hand }
    ensures registers_stay_lent { StayLent registers.old registers.new }
    ensures keeps_the_law { (p : Meanings) → KeepsTheLaw p (acts.lift wall newtons) hand.old.note (state_of job.old registers.old) (renamed InHand result) (state_of job.new registers.new) }
    ensures hand_stays_in_step { (p : Meanings) → StaysInStep p (state_of job.old registers.old) hand.old.note (state_of job.new registers.new) hand.new.note }
{
    lift_shear(job, registers, hand, wall, newtons)
}

// Puts shear from the hand onto a wall of its storey, and answers the newtons left in hand: I6, then S3, S4, S6, S8, S9
// and S10.
pub fn place(
    job: &mut Job,
    registers: &mut Registers<'_>,
    hand: &mut Hand,
    wall: u32,
    newtons: u32,
) -> Result<u32, JobFault>
    ensures answers_by_its_grounds { result ≡ (place_step (state_of job.old registers.old) hand.old.note wall newtons).answer }
    ensures state_by_its_definition { state_of job.new registers.new ≡ (place_step (state_of job.old registers.old) hand.old.note wall newtons).state }
    ensures hand_by_its_definition { hand.new.note ≡ (place_step (state_of job.old registers.old) hand.old.note wall newtons).hand }
    ensures registers_stay_lent { StayLent registers.old registers.new }
    ensures keeps_the_law { (p : Meanings) → KeepsTheLaw p (acts.place wall newtons) hand.old.note (state_of job.old registers.old) (renamed InHand result) (state_of job.new registers.new) }
    ensures hand_stays_in_step { (p : Meanings) → StaysInStep p (state_of job.old registers.old) hand.old.note (state_of job.new registers.new) hand.new.note }
{
    place_shear(job, registers, hand, wall, newtons)
}

// Puts the rest from the hand onto the wall that it came from, and answers the newtons left in hand, none: I6, then S6,
// S3, S4 and S10.
pub fn put_back(
    job: &mut Job,
    registers: &mut Registers<'_>,
    hand: &mut Hand,
) -> Result<u32, JobFault>
    ensures answers_by_its_grounds { result ≡ (put_back_step (state_of job.old registers.old) hand.old.note).answer }
    ensures state_by_its_definition { state_of job.new registers.new ≡ (put_back_step (state_of job.old registers.old) hand.old.note).state }
    ensures hand_by_its_definition { hand.new.note ≡ (put_back_step (state_of job.old registers.old) hand.old.note).hand }
    ensures registers_stay_lent { StayLent registers.old registers.new }
    ensures keeps_the_law { (p : Meanings) → KeepsTheLaw p acts.put_back hand.old.note (state_of job.old registers.old) (renamed InHand result) (state_of job.new registers.new) }
    ensures hand_stays_in_step { (p : Meanings) → StaysInStep p (state_of job.old registers.old) hand.old.note (state_of job.new registers.new) hand.new.note }
    ensures put_back_leaves_no_shear { (p : Meanings) → PutBackEmpties p acts.put_back (state_of job.old registers.old) hand.old.note hand.new.note }
{
    put_back_shear(job, registers, hand)
}

// Tells the three sums of a storey: I6.
pub fn tally(job: &Job, registers: &Registers<'_>, storey: u32) -> Result<Sums, JobFault>
    ensures answers_by_its_grounds { (hand : Note) → result ≡ (tally_step (state_of job.now registers.now) hand storey).answer }
    ensures keeps_the_law { (p : Meanings) (hand : Note) → KeepsTheLaw p (acts.tally storey) hand (state_of job.now registers.now) (renamed Tallied result) (state_of job.now registers.now) }
{
    tally_storey(job, registers, storey)
}

// Writes the message of a row's sheet into the buffer, and answers its length: I6, then S3 and S4, then I6 where the
// buffer is too short.
pub fn write(
    job: &Job,
    registers: &Registers<'_>,
    kind: u32,
    mark: u32,
    buffer: &mut [u8],
) -> Result<usize, JobFault>
    ensures answers_by_its_grounds { result ≡ write_answer (state_of job.now registers.now) kind mark buffer.old }
    ensures message_then_the_rest_untouched { buffer.new ≡ write_buffer (state_of job.now registers.now) kind mark buffer.old }
{
    write_sheet(registers, kind, mark, buffer)
}
