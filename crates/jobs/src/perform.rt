// Any call of a job.
ghost use Rattle.std.specs.Prelude.{◌≡◌};
ghost use Rattle.law.specs.Laws.{KeepsTheLaw, PutBackEmpties, StaysInStep, step};
ghost use Rattle.jobs.specs.Views.{StayLent, act_of, state_of};

use crate::call::Call;
use crate::calls::{enter, judge, lift, place, put_back, tally, withdraw};
use crate::hand::Hand;
use crate::job::Job;
use crate::lent::{Books, Registers};
use faults::fault::JobFault;
use law::answers::Answer;

// Does the call, and keeps the law over every run: whatever calls since an opening led here, the history with this call
// leads on, and what is kept holds there. A hand that agrees with the job's note stays so, and is empty once put back.
pub fn perform<P: Books>(
    job: &mut Job,
    registers: &mut Registers<'_>,
    hand: &mut Hand,
    piles: &P,
    call: Call<'_>,
) -> Result<Answer, JobFault>
    ensures answers_by_its_grounds { result ≡ (step (P.meanings piles.now) (act_of call.entry) hand.old.note (state_of job.old registers.old)).answer }
    ensures state_by_its_definition { state_of job.new registers.new ≡ (step (P.meanings piles.now) (act_of call.entry) hand.old.note (state_of job.old registers.old)).state }
    ensures hand_by_its_definition { hand.new.note ≡ (step (P.meanings piles.now) (act_of call.entry) hand.old.note (state_of job.old registers.old)).hand }
    ensures registers_stay_lent { StayLent registers.old registers.new }
    ensures keeps_the_law { KeepsTheLaw (P.meanings piles.now) (act_of call.entry) hand.old.note (state_of job.old registers.old) result (state_of job.new registers.new) }
    ensures hand_stays_in_step { StaysInStep (P.meanings piles.now) (state_of job.old registers.old) hand.old.note (state_of job.new registers.new) hand.new.note }
    ensures put_back_leaves_no_shear { PutBackEmpties (P.meanings piles.now) (act_of call.entry) (state_of job.old registers.old) hand.old.note hand.new.note }
{
    performed(job, registers, hand, piles, call)
}

// Does the call.
#[tactic(auto, using(crate::proofs::Performed::enter_hand))]
fn performed<P: Books>(
    job: &mut Job,
    registers: &mut Registers<'_>,
    hand: &mut Hand,
    piles: &P,
    call: Call<'_>,
) -> Result<Answer, JobFault>
    ensures answers_by_its_grounds { result ≡ (step (P.meanings piles.now) (act_of call.entry) hand.old.note (state_of job.old registers.old)).answer }
    ensures state_by_its_definition { state_of job.new registers.new ≡ (step (P.meanings piles.now) (act_of call.entry) hand.old.note (state_of job.old registers.old)).state }
    ensures hand_by_its_definition { hand.new.note ≡ (step (P.meanings piles.now) (act_of call.entry) hand.old.note (state_of job.old registers.old)).hand }
    ensures registers_stay_lent { StayLent registers.old registers.new }
{
    match call {
        Call::Enter(message) => enter(job, registers, message).map(|()| Answer::Done),
        Call::Withdraw { kind, mark } => {
            withdraw(job, registers, kind, mark).map(|()| Answer::Done)
        }
        Call::Judge { kind, mark } => {
            judge(job, registers, piles, kind, mark).map(Answer::Judged)
        }
        Call::Lift { wall, newtons } => {
            lift(job, registers, hand, wall, newtons).map(Answer::InHand)
        }
        Call::Place { wall, newtons } => {
            place(job, registers, hand, wall, newtons).map(Answer::InHand)
        }
        Call::PutBack => put_back(job, registers, hand).map(Answer::InHand),
        Call::Tally { storey } => tally(job, registers, storey).map(Answer::Tallied),
    }
}
