// The sheets of beams, columns and wall panels, with the limits of their numbers.
#![tactic(auto)]

pub mod limits;
pub mod sheet;
