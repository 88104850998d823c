// What one article finds on a member, and what a whole book answers.
ghost use Rattle.std.specs.Prelude.{◌≡◌, Some, if◌then◌else◌};
ghost use Rattle.books.specs.declared.answers.Finding.TheVariants.{Held, Broken};
ghost use Rattle.books.specs.Findings.{at_least, at_most, sides_of, verdict_text};

use std::fmt;

// The two numbers that an article compares.
#[derive(Clone, Copy, Debug, PartialEq, Eq)]
pub struct Sides {
    pub left: u64,
    pub right: u64,
}

// The article is held or broken, with the sides that it compared, or it does not apply to the member.
#[derive(Clone, Copy, Debug, PartialEq, Eq)]
pub enum Finding {
    Held(Sides),
    Broken(Sides),
    NotApplicable,
}

// A certificate, or the lowest broken article by its number, with the sides that it compared.
// Kept as an enum: an `Option` or a `Result` here would make one of two plain answers a lack or an error, and a `Result` of
// a `Result` of every verdict.
#[derive(Clone, Copy, Debug, PartialEq, Eq)]
pub enum Verdict {
    Certificate,
    Breaks(u32, Sides),
}

impl Finding {
    // Held where the left side is at least the right.
    pub fn at_least(left: u64, right: u64) -> Finding
        ensures held_when_left_is_at_least_right { result ≡ at_least left right }
    {
        Finding::compared(left >= right, Sides { left, right })
    }

    // Held where the left side is at most the right.
    pub fn at_most(left: u64, right: u64) -> Finding
        ensures held_when_left_is_at_most_right { result ≡ at_most left right }
    {
        Finding::compared(left <= right, Sides { left, right })
    }

    // Held or broken, with the sides that were compared. Kept as a `bool`: it is the outcome of the comparison itself.
    fn compared(holds: bool, sides: Sides) -> Finding
        ensures held_where_it_holds { result ≡ (if holds then Held sides else Broken sides) }
    {
        if holds {
            Finding::Held(sides)
        } else {
            Finding::Broken(sides)
        }
    }

    // The sides compared; 0 and 0 where the article does not apply.
    pub fn sides(self) -> Sides
        ensures sides_of_the_finding { result ≡ sides_of self }
    {
        match self {
            Finding::Held(sides) | Finding::Broken(sides) => sides,
            Finding::NotApplicable => Sides { left: 0, right: 0 },
        }
    }
}

// A verdict is written as `certificate`, or as `broken` with the article's number and both sides.
impl fmt::Display for Verdict {
    ghost output = { λ v. Some (verdict_text v) };

    fn fmt<W: fmt::Write>(&self, f: &mut fmt::Formatter<W>) -> fmt::Result {
        match self {
            Verdict::Certificate => write!(f, "certificate"),
            Verdict::Breaks(article, sides) => {
                write!(f, "broken {article} {} {}", sides.left, sides.right)
            }
        }
    }
}
