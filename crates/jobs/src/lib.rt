// The calls of a job: sheets entered, withdrawn, judged and written, and shear moved between walls.
#![tactic(auto)]

pub mod call;
pub mod calls;
mod filing;
pub mod hand;
pub mod job;
pub mod lent;
mod limits;
mod moving;
mod opening;
pub mod perform;
mod telling;
