// The grounds of refusal, with the number, the layer and the place that each answers.
#![tactic(auto)]

pub mod fault;
