// Registers of filed sheets: the rows of each kind, and the handling of a register, one text for every kind of row.
#![tactic(auto)]

pub mod filing;
pub mod note;
pub mod register;
pub mod row;
pub mod rows;
