// The constant tables of materials, the limits that they and plain bounds give, and the closed lists of numbers.
#![tactic(auto)]

pub mod codes;
pub mod limits;
pub mod materials;
