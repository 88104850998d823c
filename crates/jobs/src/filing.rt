// The calls on the register of one kind. A kind is a number down to where it is vetted, since each public call is thin over a
// function here, so that a wrong edit is refused in the code. The rows of each kind are of a type of their own, so a match picks
// the register, and a table of closures would be no plainer; a member is made by a literal, which says what a wall carries.
ghost use Rattle.std.specs.Prelude.{◌≡◌, ◌&&◌, true, false, Some, IfOk};
ghost use Rattle.tables.specs.Codes.{kind_of};
ghost use Rattle.registers.specs.declared.note.Note.{Note};
ghost use Rattle.law.specs.States.{is_mark};
ghost use Rattle.law.specs.Steps.{enter_step, file, judge_in, judge_step, withdraw_from, withdraw_step, write_answer, write_buffer, write_from, buffer_from};
ghost use Rattle.jobs.specs.declared.job.Job.{Job};
ghost use Rattle.jobs.specs.Views.{StayLent, kind_named, sized, state_of};

use crate::job::Job;
use crate::lent::{Books, Registers};
use crate::limits::MARK;
use books::answers::Verdict;
use faults::fault::JobFault;
use members::member::{Beam, Column, Wall};
use messages::message::decode;
use registers::filing::{judge_row, withdraw_row, write_row};
use registers::register::append;
use registers::rows::Filed;
use sheets::sheet::Sheet;
use tables::codes::Kind;

// Enters the sheet that a message carries: refused where a register is outside its limits (I6), then where the message
// is at fault, then S1 and S2.
pub(crate) fn enter_sheet(registers: &mut Registers<'_>, message: &[u8]) -> Result<(), JobFault>
    ensures answers_by_its_grounds { (job : Job) (hand : Note) → result ≡ (enter_step (state_of job registers.old) hand message.now).answer }
    ensures state_by_its_definition { (job : Job) (hand : Note) → state_of job registers.new ≡ (enter_step (state_of job registers.old) hand message.now).state }
    ensures registers_stay_lent { StayLent registers.old registers.new }
{
    if !registers.are_sized() {
        return Err(JobFault::Argument);
    }
    let sheet = decode(message)?;
    file(registers, sheet)
}

// Files a sheet in the register of its kind, uncertified, a wall carrying its sheet's shear.
fn file(registers: &mut Registers<'_>, sheet: Sheet) -> Result<(), JobFault>
    ensures answers_by_its_register { (job : Job) (hand : Note) → result ≡ (file (state_of job registers.old) hand sheet).answer }
    ensures state_by_its_register { (job : Job) (hand : Note) → state_of job registers.new ≡ (file (state_of job registers.old) hand sheet).state }
    ensures registers_stay_lent { StayLent registers.old registers.new }
{
    match sheet {
        Sheet::Beam(sheet) => append(registers.beams, uncertified(Beam { sheet })),
        Sheet::Column(sheet) => append(registers.columns, uncertified(Column { sheet })),
        Sheet::Wall(sheet) => append(
            registers.walls,
            uncertified(Wall {
                sheet,
                carried: sheet.shear,
            }),
        ),
    }
}

// The row of a member, as it is filed.
fn uncertified<M>(member: M) -> Filed<M>
    ensures row_without_a_certificate { result ≡ record { member = member; certified = false } }
{
    Filed {
        member,
        certified: false,
    }
}

// Withdraws a row: refused where an argument or a register is outside its limits (I6), then S3 and S11.
pub(crate) fn withdraw_sheet(
    job: &Job,
    registers: &mut Registers<'_>,
    kind: u32,
    mark: u32,
) -> Result<(), JobFault>
    ensures answers_by_its_grounds { (hand : Note) → result ≡ (withdraw_step (state_of job.now registers.old) hand kind mark).answer }
    ensures state_by_its_definition { (hand : Note) → state_of job.now registers.new ≡ (withdraw_step (state_of job.now registers.old) hand kind mark).state }
    ensures registers_stay_lent { StayLent registers.old registers.new }
{
    let kind = kind_named(registers, kind, mark)?;
    withdraw_from(job, registers, kind, mark)
}

// Withdraws a row from the register of its kind.
fn withdraw_from(
    job: &Job,
    registers: &mut Registers<'_>,
    kind: Kind,
    mark: u32,
) -> Result<(), JobFault>
    ensures answers_by_its_register { (hand : Note) → result ≡ (withdraw_from (state_of job.now registers.old) hand mark kind).answer }
    ensures state_by_its_register { (hand : Note) → state_of job.now registers.new ≡ (withdraw_from (state_of job.now registers.old) hand mark kind).state }
    ensures registers_stay_lent { StayLent registers.old registers.new }
{
    match kind {
        Kind::Beam => withdraw_row(registers.beams, mark, &job.note),
        Kind::Column => withdraw_row(registers.columns, mark, &job.note),
        Kind::Wall => withdraw_row(registers.walls, mark, &job.note),
    }
}

// Asks the pile of its kind about a row: refused where an argument or a register is outside its limits (I6), then S3,
// S4 and S12.
pub(crate) fn judge_sheet<P: Books>(
    registers: &mut Registers<'_>,
    piles: &P,
    kind: u32,
    mark: u32,
) -> Result<Verdict, JobFault>
    ensures answers_by_its_grounds { (job : Job) (hand : Note) → result ≡ (judge_step (P.meanings piles.now) (state_of job registers.old) hand kind mark).answer }
    ensures state_by_its_definition { (job : Job) (hand : Note) → state_of job registers.new ≡ (judge_step (P.meanings piles.now) (state_of job registers.old) hand kind mark).state }
    ensures registers_stay_lent { StayLent registers.old registers.new }
{
    let kind = kind_named(registers, kind, mark)?;
    judge_in(registers, piles, kind, mark)
}

// Asks the pile of this kind about a row in the register of this kind.
fn judge_in<P: Books>(
    registers: &mut Registers<'_>,
    piles: &P,
    kind: Kind,
    mark: u32,
) -> Result<Verdict, JobFault>
    ensures answers_by_its_register { (job : Job) (hand : Note) → result ≡ (judge_in (P.meanings piles.now) (state_of job registers.old) hand mark kind).answer }
    ensures state_by_its_register { (job : Job) (hand : Note) → state_of job registers.new ≡ (judge_in (P.meanings piles.now) (state_of job registers.old) hand mark kind).state }
    ensures registers_stay_lent { StayLent registers.old registers.new }
{
    match kind {
        Kind::Beam => judge_row(registers.beams, piles.beams(), mark),
        Kind::Column => judge_row(registers.columns, piles.columns(), mark),
        Kind::Wall => judge_row(registers.walls, piles.walls(), mark),
    }
}

// Writes the message of a row's sheet into the buffer: refused where an argument or a register is outside its limits
// (I6), then S3 and S4, then where the buffer is too short (I6).
pub(crate) fn write_sheet(
    registers: &Registers<'_>,
    kind: u32,
    mark: u32,
    buffer: &mut [u8],
) -> Result<usize, JobFault>
    ensures answers_by_its_grounds { (job : Job) → result ≡ write_answer (state_of job registers.now) kind mark buffer.old }
    ensures message_then_the_rest_untouched { (job : Job) → buffer.new ≡ write_buffer (state_of job registers.now) kind mark buffer.old }
{
    let kind = kind_named(registers, kind, mark)?;
    write_from(registers, kind, mark, buffer)
}

// Writes the message of a sheet in the register of this kind.
fn write_from(
    registers: &Registers<'_>,
    kind: Kind,
    mark: u32,
    buffer: &mut [u8],
) -> Result<usize, JobFault>
    ensures answers_by_its_register { (job : Job) → result ≡ write_from (state_of job registers.now) mark buffer.old kind }
    ensures message_then_the_rest_untouched { (job : Job) → buffer.new ≡ buffer_from (state_of job registers.now) mark buffer.old kind }
{
    match kind {
        Kind::Beam => write_row(registers.beams, mark, buffer),
        Kind::Column => write_row(registers.columns, mark, buffer),
        Kind::Wall => write_row(registers.walls, mark, buffer),
    }
}

// The kind of a row that a call names, where its numbers and the registers are within their limits (I6).
fn kind_named(registers: &Registers<'_>, kind: u32, mark: u32) -> Result<Kind, JobFault>
    ensures kind_or_refused { result ≡ kind_named (sized registers.now) kind mark }
    ensures within_their_limits { IfOk result (λ named. ((sized registers.now && is_mark mark) ≡ true) × (kind_of kind ≡ Some named)) }
{
    if !(registers.are_sized() && MARK.admits(mark)) {
        return Err(JobFault::Argument);
    }
    Ok(Kind::try_from(kind)?)
}
