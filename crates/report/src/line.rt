// The line that an answer is printed as: `certificate`, `broken 4 60300 62800` or `refused I3 1 116`.
ghost use Rattle.std.specs.Prelude.{Some};
ghost use Rattle.report.specs.Lines.{line_text};

use books::answers::Verdict;
use faults::fault::JobFault;
use std::fmt;

// The answer to a message.
#[derive(Clone, Copy)]
pub struct Line {
    pub answer: Result<Verdict, JobFault>,
}

// The verdict as it is written, or `refused` and the refusal.
impl fmt::Display for Line {
    ghost output = { λ line. Some (line_text line.answer) };

    fn fmt<W: fmt::Write>(&self, f: &mut fmt::Formatter<W>) -> fmt::Result {
        match self.answer {
            Ok(verdict) => write!(f, "{verdict}"),
            Err(fault) => write!(f, "{fault}"),
        }
    }
}
