// A specification: rules that hang before a book, and the book that they make with it.
ghost use Rattle.std.specs.Prelude.{◌≡◌, ◌+◌, ◌≤◌, [], length};
ghost use Rattle.books.specs.declared.answers.Finding.TheVariants.{NotApplicable};
ghost use Rattle.specifications.specs.Listed.{rules_of};
ghost use Rattle.specifications.specs.Fronted.{fronted, added, rules_after, StaysNamed};

use crate::rule::Rule;
use crate::rules::Rules;
use books::answers::Finding;
use books::book::{Book, Lawful, Member};
use faults::fault::JobFault;

// How many articles a book may have.
const MOST_ARTICLES: usize = 64;

// A book with the rules that hang before it.
#[derive(Clone, Copy, Drop)]
pub struct Specification<B> {
    behind: B,
    rules: Rules,
}

impl<B> Specification<B> {
    // The book with no rules before it yet.
    #[tactic(auto, using(crate::proofs::Stays::stays_named))]
    pub fn before<M: Member>(behind: B) -> Specification<B>
    where
        B: Book<M>,
        ensures no_rules_yet { rules_of result.rules ≡ [] }
        ensures book_behind_as_given { result.behind ≡ behind }
        ensures named_articles_stay_named { StaysNamed M.Member.lawful M.Member.measure (B.Book.meaning behind) }
    {
        Specification {
            behind,
            rules: Rules::none(),
        }
    }

    // Adds a rule after the last. A number outside its limits is refused (I6), and then a ninth rule (S1); a refusal
    // changes nothing. Kept as numbers: the caller need not know which stand for a quantity or a sense.
    pub fn add(&mut self, quantity: u32, sense: u32, limit: u32) -> Result<(), JobFault>
        ensures answer_by_the_grounds { result ≡ added quantity sense limit (rules_of self.old.rules) }
        ensures rules_afterwards { rules_of self.new.rules ≡ rules_after quantity sense limit (rules_of self.old.rules) }
        ensures book_behind_unchanged { self.new.behind ≡ self.old.behind }
    {
        let rule = Rule::of_numbers(quantity, sense, limit)?;
        self.rules.push(rule)
    }

    // How many rules there are.
    pub fn rule_count(&self) -> usize
        ensures counts_the_rules { result ≡ length (rules_of self.now.rules) }
        ensures at_most_eight_rules { result ≤ 8 }
    {
        self.rules.len()
    }

    // How many articles there are in all, where the book behind has so many: those, then the rules.
    fn in_all(&self, behind: u32) -> usize
        ensures articles_and_rules { result ≡ behind + length (rules_of self.now.rules) }
    {
        behind as usize + self.rules.len()
    }

    // What the article finds: one of the book behind, or else a rule by its place.
    #[tactic(auto, using(crate::proofs::Numbered::rule_numbered, crate::proofs::Numbered::none_numbered))]
    fn finding_by_place<M: Member>(&self, member: &Lawful<'_, M>, article: u32) -> Finding
    where
        B: Book<M>,
        ensures finds_by_number { result ≡ (fronted M.Member.measure (rules_of self.now.rules) (B.Book.meaning self.now.behind)).finding member.now article }
        ensures none_at_0 { article ≡ 0 → result ≡ NotApplicable }
    {
        let count = self.behind.count();
        if self.in_all(count) > MOST_ARTICLES {
            return Finding::NotApplicable;
        }
        if article <= count {
            return self.behind.finding(member, article);
        }
        self.rules
            .get((article - count - 1) as usize)
            .map_or(Finding::NotApplicable, |rule| {
                rule.finding(member.member.quantity(rule.quantity))
            })
    }
}

impl<M: Member, B: Book<M>> Book<M> for Specification<B> {
    ghost meaning = { λ s. fronted M.Member.measure (rules_of s.rules) (B.Book.meaning s.behind) };

    // Whether the book behind takes the member, and there are no more than 64 articles in all.
    fn takes(&self, member: &Lawful<'_, M>) -> bool {
        self.in_all(self.behind.count()) <= MOST_ARTICLES && self.behind.takes(member)
    }

    // The articles of the book behind and the rules, or none past 64.
    fn count(&self) -> u32 {
        let count = self.in_all(self.behind.count());
        if count <= MOST_ARTICLES {
            count as u32
        } else {
            0
        }
    }

    // An article of the book behind under its number, and then a rule.
    fn finding(&self, member: &Lawful<'_, M>, article: u32) -> Finding {
        self.finding_by_place(member, article)
    }
}
