// The rules of a specification, in order of adding.
ghost use Rattle.std.specs.Prelude.{◌≡◌, ◌≤◌, [], length, take, slice_get};
ghost use Rattle.specifications.specs.Fronted.{answer_of, left_by};
ghost use Rattle.specifications.specs.Rows.{Counted};
ghost use Rattle.specifications.specs.Steps.{pushed};

use crate::rule::Rule;
use faults::fault::JobFault;
use tables::codes::{Quantity, Sense};

// How many rules a specification may have.
const MOST_RULES: usize = 8;

// A row where no rule stands.
const BLANK: Rule = Rule {
    quantity: Quantity::Thickness,
    sense: Sense::AtLeast,
    limit: 0,
};

// Up to eight rules: the first `count` rows of the table.
// Kept as a plain table of eight rows with a count beside it: a specification takes fixed memory, no heap, and is copied as it is.
// Kept with a ghost field and no `Model`: a struct that holds one with a model is not copied where it is passed by value twice.
#[derive(Clone, Copy)]
pub struct Rules {
    table: [Rule; MOST_RULES],
    count: usize,
    ghost counted: { Counted table count },
}

impl Rules {
    // No rules yet.
    pub(crate) fn none() -> Rules
        ensures no_rules { take result.count result.table ≡ [] }
    {
        Rules {
            table: [BLANK; MOST_RULES],
            count: 0,
        }
    }

    // How many rules there are.
    pub(crate) fn len(&self) -> usize
        ensures counts_the_rules { result ≡ length (take self.now.count self.now.table) }
        ensures at_most_eight_rules { result ≤ 8 }
    {
        self.count
    }

    // The rule at this place, or none past the last.
    pub(crate) fn get(&self, place: usize) -> Option<Rule>
        ensures rule_at_the_place { result ≡ slice_get (take self.now.count self.now.table) place }
    {
        self.table[..self.count].get(place).copied()
    }

    // Adds a rule after the last; a ninth is refused (S1).
    pub(crate) fn push(&mut self, rule: Rule) -> Result<(), JobFault>
        ensures refuses_a_ninth { result ≡ answer_of (pushed (take self.old.count self.old.table) rule) }
        ensures adds_after_the_last { take self.new.count self.new.table ≡ left_by (take self.old.count self.old.table) (pushed (take self.old.count self.old.table) rule) }
    {
        if self.count >= MOST_RULES {
            return Err(JobFault::Full);
        }
        self.table[self.count] = rule;
        self.count += 1;
        Ok(())
    }
}
