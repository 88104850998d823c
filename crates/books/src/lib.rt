// Books of articles: what a book means for a member, and the verdict of any book on any member.
#![tactic(auto)]

pub mod answers;
pub mod book;
pub mod judgement;
