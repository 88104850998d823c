// What is answered to a message, as a line of text.
#![tactic(auto)]

pub mod answer;
pub mod line;
