// Members and books, by what they mean.
ghost use Rattle.std.specs.Prelude.{◌≡◌, ℕ, ◌≤◌, Bool, true, Option, is_some, IfSome};
ghost use Rattle.tables.specs.declared.codes.Quantity.{Quantity};
ghost use Rattle.books.specs.Meanings.{Meaning, Outside};
ghost use Rattle.books.specs.declared.answers.Finding.TheVariants.{NotApplicable};

use crate::answers::Finding;
use std::marker::Model;
use tables::codes::Quantity;

// A member that books judge: which values of its type are lawful, and what it measures.
pub trait Member {
    // which members are lawful
    ghost lawful: { Self → Bool };

    // each quantity on the member, or none where its kind has none
    ghost measure: { Self → Quantity → Option ℕ };

    // Whether the member is lawful.
    fn is_lawful(&self) -> bool
        ensures decides_lawful { result ≡ lawful self.now };

    // The quantity on this member, or none where members of its kind do not have it.
    fn quantity(&self, quantity: Quantity) -> Option<u32>
        ensures tells_the_measure { result ≡ measure self.now quantity };
}

// A member that is lawful: the proof of it goes with the member, so that no article has to ask for it. A contract sees the
// member itself.
#[derive(Drop)]
pub struct Lawful<'m, M: Member> {
    pub member: &'m M,
}

impl<'m, M: Member> Model for Lawful<'m, M> {
    ghost Value = { M };

    ghost view = { λ lawful. lawful.member.now };

    ghost invariant = { λ lawful. M.Member.lawful lawful.member.now ≡ true };
}

impl<'m, M: Member> Lawful<'m, M> {
    // The member, if it is lawful.
    pub fn of(member: &'m M) -> Option<Lawful<'m, M>>
        ensures lawful_members_alone { is_some result ≡ M.Member.lawful member.now }
        ensures the_same_member { IfSome result (λ lawful. lawful ≡ member.now) }
    {
        if member.is_lawful() {
            Some(Lawful { member })
        } else {
            None
        }
    }
}

// A book of articles for one kind of member. Its meaning is which lawful members it takes, how many articles it has,
// at most 64, and what each article finds on each lawful member.
pub trait Book<M: Member> {
    // what the book means
    ghost meaning: { Self → Meaning M };

    // Whether the book takes the member.
    fn takes(&self, member: &Lawful<'_, M>) -> bool
        ensures takes_by_its_meaning { result ≡ (meaning self.now).takes member.now };

    // How many articles the book has.
    fn count(&self) -> u32
        ensures counts_by_its_meaning { result ≡ (meaning self.now).count }
        ensures at_most_64_articles { result ≤ 64 };

    // What the article with this number finds on the member.
    fn finding(&self, member: &Lawful<'_, M>, article: u32) -> Finding
        ensures finds_by_its_meaning { result ≡ (meaning self.now).finding member.now article }
        ensures none_outside_its_count { Outside (meaning self.now).count article → result ≡ NotApplicable };
}
