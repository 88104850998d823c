// The call that opens a job.
ghost use Rattle.std.specs.Prelude.{◌≡◌};
ghost use Rattle.jobs.specs.Views.{StayLent, fresh, open_answer, open_state, state_of};

use crate::hand::NO_SHEAR;
use crate::job::Job;
use crate::lent::Registers;
use crate::limits::MARK;
use faults::fault::JobFault;
use registers::register::clear;

// Opens a job of this number on the registers, each row of zeros: refused where the number or a register is outside its
// limits (I6).
pub(crate) fn open_job(number: u32, registers: &mut Registers<'_>) -> Result<Job, JobFault>
    ensures job_of_this_number_or_refused { result ≡ open_answer number registers.old }
    ensures rows_of_zeros_or_as_they_were { state_of (fresh number) registers.new ≡ open_state number registers.old }
    ensures registers_stay_lent { StayLent registers.old registers.new }
{
    if !(registers.are_sized() && MARK.admits(number)) {
        return Err(JobFault::Argument);
    }
    clear(registers.beams);
    clear(registers.columns);
    clear(registers.walls);
    Ok(Job {
        number,
        note: NO_SHEAR,
    })
}
