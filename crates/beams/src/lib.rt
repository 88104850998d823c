// The beam book.
#![tactic(auto)]

pub mod articles;
