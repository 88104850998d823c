// The members that books judge, and the areas and roots that their articles speak of.
#![tactic(auto)]

pub mod areas;
pub mod member;
