// Messages: the bytes that carry a sheet, read and written.
#![tactic(auto)]

pub mod message;
