// One rule of a specification.
ghost use Rattle.std.specs.Prelude.{◌≡◌};
ghost use Rattle.specifications.specs.Fronted.{rule_finding};
ghost use Rattle.specifications.specs.Steps.{rule_of};

use books::answers::Finding;
use faults::fault::JobFault;
use tables::codes::{Quantity, Sense};

// The greatest limit that a rule may have.
const GREATEST_LIMIT: u32 = 100_000;

// A quantity of the member is at least, or at most, the limit.
#[derive(Clone, Copy)]
pub struct Rule {
    pub quantity: Quantity,
    pub sense: Sense,
    pub limit: u32,
}

impl Rule {
    // The rule that the numbers stand for; a number outside its limits is refused (I6). Kept as a function: three numbers are no
    // value to convert from, and a tuple of them would say less.
    pub(crate) fn of_numbers(quantity: u32, sense: u32, limit: u32) -> Result<Rule, JobFault>
        ensures rule_of_the_numbers { result ≡ rule_of quantity sense limit }
    {
        let quantity = Quantity::try_from(quantity)?;
        let sense = Sense::try_from(sense)?;
        if limit > GREATEST_LIMIT {
            return Err(JobFault::Argument);
        }
        Ok(Rule {
            quantity,
            sense,
            limit,
        })
    }

    // What the rule finds where its quantity measures this much, or where the member does not have it.
    pub(crate) fn finding(self, measured: Option<u32>) -> Finding
        ensures compares_the_quantity_with_the_limit { result ≡ rule_finding measured self }
    {
        let Some(quantity) = measured else {
            return Finding::NotApplicable;
        };
        let left = u64::from(quantity);
        let right = u64::from(self.limit);
        match self.sense {
            Sense::AtLeast => Finding::at_least(left, right),
            Sense::AtMost => Finding::at_most(left, right),
        }
    }
}
