// The law over every run of a job: what each call does, by definition, and what holds after every list of calls.
#![tactic(auto)]

pub mod answers;
