// What the calls of a job answer. `Rattle.law.specs.Texts` gives case by case how an answer is written.
ghost use Rattle.law.specs.Texts.{answer_text};
ghost use Rattle.std.specs.Prelude.{Some};

use books::answers::Verdict;
use std::fmt;

// The three sums of a storey in N: the shear that its walls carry, the shear in hand that came from it, and the shear
// on its walls' sheets.
#[derive(Clone, Copy, Debug, PartialEq, Eq)]
pub struct Sums {
    pub carried: u64,
    pub in_hand: u64,
    pub sheets: u64,
}

// The answer of a call that was not refused.
#[derive(Clone, Copy, Debug, PartialEq, Eq)]
pub enum Answer {
    // a sheet was entered or withdrawn
    Done,
    // a certificate, or the lowest broken article with both sides
    Judged(Verdict),
    // the newtons left in hand
    InHand(u32),
    // the sums of a storey
    Tallied(Sums),
}

// An answer is written as `done`, as its verdict, as `in hand 97369`, or as
// `carried 1020000 in hand 180000 sheets 1200000`.
impl fmt::Display for Answer {
    ghost output = { λ answer. Some (answer_text answer) };

    fn fmt<W: fmt::Write>(&self, f: &mut fmt::Formatter<W>) -> fmt::Result {
        match *self {
            Answer::Done => write!(f, "done"),
            Answer::Judged(verdict) => write!(f, "{verdict}"),
            Answer::InHand(newtons) => write!(f, "in hand {newtons}"),
            Answer::Tallied(
                Sums {
                    carried,
                    in_hand,
                    sheets,
                },
            ) => write!(f, "carried {carried} in hand {in_hand} sheets {sheets}"),
        }
    }
}
