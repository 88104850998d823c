// Specifications: up to eight rules that hang before a book of articles, and are a book with it.
#![tactic(auto)]

pub mod rule;
pub mod rules;
pub mod specification;
