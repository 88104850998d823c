// The verdict of a book on a member.
ghost use Rattle.std.specs.Prelude.{◌≡◌};
ghost use Rattle.books.specs.Verdicts.{lowest, verdict_of, Says};

use crate::answers::{Finding, Verdict};
use crate::book::{Book, Lawful, Member};
use faults::fault::JobFault;

// The verdict, or a refusal of a member that is unlawful (S4) or that the book does not take (S12).
pub fn verdict<M: Member, B: Book<M>>(book: &B, member: &M) -> Result<Verdict, JobFault>
    ensures verdict_by_the_meaning { result ≡ verdict_of M.Member.lawful (B.Book.meaning book.now) member.now }
    ensures certificate_or_lowest_broken { Says M.Member.lawful (B.Book.meaning book.now) member.now result }
{
    lawful_and_taken(book, member)
}

// The verdict, after the tests that the member is lawful and that the book takes it.
fn lawful_and_taken<M: Member, B: Book<M>>(book: &B, member: &M) -> Result<Verdict, JobFault>
    ensures verdict_by_the_meaning { result ≡ verdict_of M.Member.lawful (B.Book.meaning book.now) member.now }
{
    let lawful = Lawful::of(member).ok_or(JobFault::Unlawful)?;
    if !book.takes(&lawful) {
        return Err(JobFault::NotTaken);
    }
    Ok(lowest_broken(book, &lawful))
}

// The lowest broken article, or a certificate where none is broken. No inclusive range: it would test at each article whether the
// last was reached.
fn lowest_broken<M: Member, B: Book<M>>(book: &B, member: &Lawful<'_, M>) -> Verdict
    ensures names_the_lowest_broken { result ≡ lowest ((B.Book.meaning book.now).finding member.now) 1 (B.Book.meaning book.now).count }
{
    for article in 1..book.count() + 1 {
        if let Finding::Broken(sides) = book.finding(member, article) {
            return Verdict::Breaks(article, sides);
        }
    }
    Verdict::Certificate
}
