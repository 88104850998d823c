// From a message to the line that answers it.
ghost use Rattle.std.specs.Prelude.{◌≡◌};
ghost use Rattle.messages.specs.Messages.{decoded};
ghost use Rattle.books.specs.Verdicts.{verdict_of, Says};
ghost use Rattle.members.specs.Members.{lawful_wall};
ghost use Rattle.walls.specs.Articles.{wall_meaning};
ghost use Rattle.report.specs.Answers.{SheetTold, Told, answered, sheet_verdict};

use crate::line::Line;
use beams::articles::BeamBook;
use books::answers::Verdict;
use books::judgement::verdict;
use columns::articles::ColumnBook;
use faults::fault::JobFault;
use members::member::{Beam, Column, Wall};
use messages::message::decode;
use sheets::sheet::{Sheet, WallSheet};
use walls::articles::WallBook;

// The line that answers a message: the verdict of the book of its kind, or the refusal.
pub fn reply(message: &[u8]) -> Line
    ensures line_of_the_answer { result.answer ≡ answered (decoded message.now) }
    ensures says_what_the_message_earns { Told message.now (decoded message.now) result.answer }
{
    let answer = answer_to(message);
    Line { answer }
}

// The answer to a message, by which the line is made.
fn answer_to(message: &[u8]) -> Result<Verdict, JobFault>
    ensures verdict_or_refusal { result ≡ answered (decoded message.now) }
    ensures says_what_the_message_earns { Told message.now (decoded message.now) result }
{
    let sheet = decode(message)?;
    verdict_on(sheet)
}

// The verdict of the book of its kind on the member of this sheet; a wall carries its sheet's shear. Kept as a match of three
// arms: each book and each member has a type of its own.
fn verdict_on(sheet: Sheet) -> Result<Verdict, JobFault>
    ensures verdict_of_its_book { result ≡ sheet_verdict sheet }
    ensures says_what_the_sheet_earns { SheetTold sheet result }
{
    match sheet {
        Sheet::Beam(sheet) => verdict(&BeamBook, &Beam { sheet }),
        Sheet::Column(sheet) => verdict(&ColumnBook, &Column { sheet }),
        Sheet::Wall(sheet) => wall_verdict(sheet),
    }
}

// The verdict of the wall book on a wall that carries its sheet's shear.
fn wall_verdict(sheet: WallSheet) -> Result<Verdict, JobFault>
    ensures verdict_of_the_wall_book { result ≡ verdict_of lawful_wall wall_meaning (record { sheet = sheet; carried = sheet.shear }) }
    ensures certificate_or_lowest_broken { Says lawful_wall wall_meaning (record { sheet = sheet; carried = sheet.shear }) result }
{
    let carried = sheet.shear;
    verdict(&WallBook, &Wall { sheet, carried })
}
