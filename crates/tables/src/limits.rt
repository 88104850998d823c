// What a limit is, and which numbers keep it.
ghost use Rattle.std.specs.Prelude.{◌≡◌};
ghost use Rattle.std.specs.List.{list_all, zip};
ghost use Rattle.tables.specs.Limits.{within, admitted};

use crate::materials::{bar_area, is_zone, root};

// What a number may be: between two bounds, both allowed, or one that a table lists.
#[derive(Clone, Copy)]
pub enum Limit {
    Between(u32, u32),
    Diameter,
    Zone,
    Concrete,
}

impl Limit {
    // Whether the number keeps the limit.
    pub fn admits(self, number: u32) -> bool
        ensures tells_the_limit { result ≡ within self number }
    {
        match self {
            Limit::Between(low, high) => (low..=high).contains(&number),
            Limit::Diameter => bar_area(number).is_some(),
            Limit::Zone => is_zone(number),
            Limit::Concrete => root(number).is_some(),
        }
    }
}

// Whether each number keeps the limit at its place.
#[tactic(auto, using(crate::proofs::Admitted::admitted_zips))]
pub fn admits_all<const N: usize>(limits: &[Limit; N], numbers: &[u32; N]) -> bool
    ensures tells_the_limits { result ≡ admitted limits.now numbers.now }
{
    admits_each(limits, numbers)
}

// Whether each number keeps the limit beside it, as far as both go.
fn admits_each(limits: &[Limit], numbers: &[u32]) -> bool
    ensures tells_each_limit { result ≡ list_all (λ p. within p.0 p.1) (zip limits.now numbers.now) }
{
    limits
        .iter()
        .zip(numbers)
        .all(|(limit, number)| limit.admits(*number))
}
