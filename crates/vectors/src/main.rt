// Runs figures from another tool: reads one message a line, in hexadecimal, and prints for each the line that answers
// it and, where it carries a sheet, what each article from 0 to one past the count finds on the member. A sheet that is
// not written back as the message that it came from gets a line of its own, which no stored output has.
#![tactic(auto)]

use beams::articles::BeamBook;
use books::answers::{Finding, Sides};
use books::book::{Book, Lawful, Member};
use columns::articles::ColumnBook;
use members::member::{Beam, Column, Wall};
use messages::message::{decode, encode};
use report::answer::reply;
use sheets::sheet::Sheet;
use std::alloc::{AllocError, Global};
use std::io::{BufRead, BufReader};
use std::{fmt, io};
use walls::articles::WallBook;

// The value of a hexadecimal digit, or none. Kept: `to_digit` would take capital letters too.
fn digit(c: u8) -> Option<u8> {
    match c {
        b'0'..=b'9' => Some(c - b'0'),
        b'a'..=b'f' => Some(c - b'a' + 10),
        _ => None,
    }
}

// The bytes that the text spells, two digits each, up to the first pair that is none. Kept: the crate `hex` refuses a text
// that spells no bytes, where this program reads what comes before.
fn bytes_of(heap: Global, text: &[u8]) -> Result<Vec<u8>, AllocError> {
    let mut bytes = Vec::new(heap);
    for pair in text.chunks_exact(2) {
        let (Some(high), Some(low)) = (digit(pair[0]), digit(pair[1])) else {
            break;
        };
        bytes.push((high & 15) * 16 + (low & 15))?;
    }
    Ok(bytes)
}

// A finding in the figures: `h`, `b` or `n` with both sides.
#[derive(Clone, Copy)]
struct Figure(Finding);

impl fmt::Display for Figure {
    fn fmt<W: fmt::Write>(&self, f: &mut fmt::Formatter<W>) -> fmt::Result {
        let letter = match self.0 {
            Finding::Held(_) => 'h',
            Finding::Broken(_) => 'b',
            Finding::NotApplicable => 'n',
        };
        let Sides { left, right } = self.0.sides();
        write!(f, "{letter}:{left}:{right}")
    }
}

// What each article from 0 to one past the count finds, on one line.
fn print_findings<M: Member, B: Book<M>>(rt: &impl Print, book: &B, member: &M) -> io::Result<()> {
    if let Some(lawful) = Lawful::of(member) {
        print!(rt; "{}", Figure(book.finding(&lawful, 0)))?;
        for article in 1..=book.count() + 1 {
            print!(rt; " {}", Figure(book.finding(&lawful, article)))?;
        }
    }
    println!(rt; "")
}

// Whether the sheet's message, written into a buffer that is longer, is these bytes. Kept as a buffer: it is lent to writing.
fn is_message_of(sheet: &Sheet, bytes: &[u8]) -> bool {
    let mut buffer = [0xaau8; 300];
    match encode(sheet, &mut buffer) {
        Ok(size) => size <= 256 && &buffer[0..size] == bytes && buffer[size] == 0xaa,
        Err(_) => false,
    }
}

// The lines for one message. Kept as a match of three arms: each book and each member has a type of its own.
fn print_answer(rt: &impl Print, message: &[u8]) -> io::Result<()> {
    let line = reply(message);
    println!(rt; "{line}")?;
    let read = decode(message);
    if let Ok(sheet) = &read {
        if !is_message_of(sheet, message) {
            println!(rt; "written otherwise")?;
        }
    }
    match read {
        Ok(Sheet::Beam(sheet)) => print_findings(rt, &BeamBook, &Beam { sheet }),
        Ok(Sheet::Column(sheet)) => print_findings(rt, &ColumnBook, &Column { sheet }),
        Ok(Sheet::Wall(sheet)) => {
            let carried = sheet.shear;
            print_findings(rt, &WallBook, &Wall { sheet, carried })
        }
        Err(_) => Ok(()),
    }
}

// One message a line in, one or two lines out.
fn main(rt: HostRuntime) -> anyhow::Result<()> {
    for line in BufReader::new(rt.alloc(), rt.stdin())?.lines(rt.alloc()) {
        let text = line?;
        let message = bytes_of(rt.alloc(), text.as_bytes())?;
        print_answer(&rt, message.as_slice())?;
    }
    Ok(())
}
