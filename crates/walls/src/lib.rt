// The wall book.
#![tactic(auto)]

pub mod articles;
