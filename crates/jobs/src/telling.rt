// The call that only tells.
ghost use Rattle.std.specs.Prelude.{◌≡◌, ◌≤◌, length, if◌then◌else◌, nat_eq};
ghost use Rattle.registers.specs.declared.note.Note.{Note};
ghost use Rattle.law.specs.Steps.{sum_on, tally_step};
ghost use Rattle.jobs.specs.Views.{state_of};

use crate::job::Job;
use crate::lent::Registers;
use crate::limits::STOREY;
use faults::fault::JobFault;
use law::answers::Sums;
use registers::rows::WallRow;

// The sums of a storey, where its number and the registers are within their limits (I6).
pub(crate) fn tally_storey(
    job: &Job,
    registers: &Registers<'_>,
    storey: u32,
) -> Result<Sums, JobFault>
    ensures answers_by_its_grounds { (hand : Note) → result ≡ (tally_step (state_of job.now registers.now) hand storey).answer }
{
    if !(registers.are_sized() && STOREY.admits(storey)) {
        return Err(JobFault::Argument);
    }
    let (carried, sheets) = sums_on(registers.walls, storey);
    Ok(Sums {
        carried,
        in_hand: only_on(storey, job.note.storey, job.note.newtons),
        sheets,
    })
}

// The shear that the walls of a storey carry, and the shear on their sheets, in N: a loop over the rows that are lent, since it
// sums two numbers at once and ends where the register does.
fn sums_on(walls: &[WallRow], storey: u32) -> (u64, u64)
    requires at_most_256_rows { length walls.now ≤ 256 }
    ensures carried_by_the_walls { result.0 ≡ sum_on (λ w. w.member.carried) storey walls.now }
    ensures on_their_sheets { result.1 ≡ sum_on (λ w. w.member.sheet.shear) storey walls.now }
{
    let mut carried = 0;
    let mut sheets = 0;
    for wall in walls {
        if wall.member.sheet.heading.mark == 0 {
            break;
        }
        carried += only_on(storey, wall.member.sheet.storey, wall.member.carried);
        sheets += only_on(storey, wall.member.sheet.storey, wall.member.sheet.shear);
    }
    (carried, sheets)
}

// The newtons that are on this storey, where so many are on that one.
fn only_on(storey: u32, at: u32, newtons: u32) -> u64
    ensures newtons_of_the_storey { result ≡ (if nat_eq at storey then newtons else 0) }
    ensures at_most_32_bits { result ≤ 4294967295 }
{
    if at == storey { u64::from(newtons) } else { 0 }
}
