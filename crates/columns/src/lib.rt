// The column book.
#![tactic(auto)]

pub mod articles;
