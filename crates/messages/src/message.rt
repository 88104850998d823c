// Messages: a run of fields, each a one-byte tag, a two-byte length and that many bytes, high byte first. The first
// field, tag 1, has one byte, the kind; the sheet's numbers follow in order, four bytes each, tags 16, 17 and so on.
// Arrays of N numbers are kept: a message is read and written without a heap. That N is at most 240, so that each number has a
// tag of one byte, is a law of `NumberedSheet<N>`; `read_numbers`, `write_fields` and `write_message`, which take arrays and no
// sheet, keep it as a clause.
ghost use Rattle.std.specs.Prelude.{◌≡◌, ◌+◌, ◌*◌, ◌≤◌, true, [], ◌∷◌, ◌++◌, length, take, drop, IfOk, IfErr, Ok, Err, MatchResult};
ghost use Rattle.sheets.specs.declared.sheet.Sheet.{Sheet};
ghost use Rattle.tables.specs.Codes.{kind_number};
ghost use Rattle.messages.specs.Faulty.{FaultAt};
ghost use Rattle.messages.specs.Messages.{field, four_bytes, cut, body_due, kind_due, number_due, numbers_due, ended, size_due, sheet_due, then, all_due, decoded, number_fields, message_of, message, put, put_length, lawful_sheet, Canonical, ReadsBack};

use faults::fault::{JobFault, MessageFault, SheetFault};
use sheets::sheet::{BeamSheet, ColumnSheet, NumberedSheet, Sheet, WallSheet};
use tables::codes::Kind;
use tables::limits::Limit;

// A field cut off the front of a run of fields.
#[derive(Drop)]
struct Field<'a> {
    tag: u8,
    body: &'a [u8],
    rest: &'a [u8],
}

// Cuts the first field off the bytes that stand at this offset.
fn cut_field<'a>(bytes: &'a [u8], at: usize) -> Result<Field<'a>, MessageFault>
    ensures cuts_the_first_field { MatchResult result (λ f. cut at bytes.now ≡ Ok (record { tag = f.tag; body = f.body.now; rest = f.rest.now })) (λ e. cut at bytes.now ≡ Err e) }
{
    let [tag, hi, lo, rest @ ..] = bytes else {
        return Err(if bytes.is_empty() {
            MessageFault::NotDue(at)
        } else {
            MessageFault::CutShort(at)
        });
    };
    let length = usize::from(u16::from_be_bytes([*hi, *lo]));
    if rest.len() < length {
        return Err(MessageFault::CutShort(at));
    }
    let (body, after) = rest.split_at(length);
    Ok(Field {
        tag: *tag,
        body,
        rest: after,
    })
}

// The body of the field that is due, and the bytes after the field.
fn due_body<'a>(bytes: &'a [u8], tag: u8, at: usize) -> Result<(&'a [u8], &'a [u8]), MessageFault>
    ensures body_of_the_field_due { MatchResult result (λ due. body_due tag at bytes.now ≡ Ok (due.0.now, due.1.now)) (λ e. body_due tag at bytes.now ≡ Err e) }
{
    let field = cut_field(bytes, at)?;
    if field.tag != tag {
        return Err(MessageFault::NotDue(at));
    }
    Ok((field.body, field.rest))
}

// The kind, and the bytes after its field.
fn read_kind<'a>(bytes: &'a [u8]) -> Result<(Kind, &'a [u8]), SheetFault>
    ensures reads_the_kind_due { MatchResult result (λ due. kind_due bytes.now ≡ Ok (due.0, due.1.now)) (λ e. kind_due bytes.now ≡ Err e) }
{
    let (body, rest) = due_body(bytes, 1, 0)?;
    let [number] = body else {
        return Err(MessageFault::Length(0).into());
    };
    let kind = Kind::try_from(u32::from(*number)).map_err(|_| SheetFault::Value(0))?;
    Ok((kind, rest))
}

// The number that is due, and the bytes after its field.
fn read_number<'a>(
    bytes: &'a [u8],
    tag: u8,
    at: usize,
    limit: Limit,
) -> Result<(u32, &'a [u8]), SheetFault>
    ensures reads_the_number_due { MatchResult result (λ due. number_due limit tag at bytes.now ≡ Ok (due.0, due.1.now)) (λ e. number_due limit tag at bytes.now ≡ Err e) }
{
    let (body, rest) = due_body(bytes, tag, at)?;
    let [a, b, c, d] = body else {
        return Err(MessageFault::Length(at).into());
    };
    let number = u32::from_be_bytes([*a, *b, *c, *d]);
    if !limit.admits(number) {
        return Err(SheetFault::Value(at));
    }
    Ok((number, rest))
}

// Bytes left over are a fault at the first of them.
fn at_end(rest: &[u8], at: usize) -> Result<(), MessageFault>
    ensures nothing_is_left { result ≡ ended at rest.now }
{
    if rest.is_empty() {
        Ok(())
    } else {
        Err(MessageFault::NotDue(at))
    }
}

// The numbers that are due after the kind, in order, and nothing after them.
fn read_numbers<const N: usize>(bytes: &[u8], limits: &[Limit; N]) -> Result<[u32; N], SheetFault>
    requires tags_fit_a_byte { N ≤ 240 }
    ensures reads_all_the_numbers_due { MatchResult result (λ numbers. all_due limits.now bytes.now ≡ Ok numbers) (λ e. all_due limits.now bytes.now ≡ Err e) }
{
    let mut numbers = [0; N];
    let mut rest = bytes;
    for (i, limit) in limits.iter().enumerate() {
        let (number, after) = read_number(rest, 16 + i as u8, 4 + 7 * i, *limit)?;
        numbers[i] = number;
        rest = after;
    }
    at_end(rest, 4 + 7 * N)?;
    Ok(numbers)
}

// The sheet of a kind, after the kind's field.
fn read_sheet(kind: Kind, bytes: &[u8]) -> Result<Sheet, SheetFault>
    ensures reads_the_sheet_of_the_kind { result ≡ sheet_due kind bytes.now }
{
    match kind {
        Kind::Beam => read_all::<BeamSheet, 16>(bytes),
        Kind::Column => read_all::<ColumnSheet, 11>(bytes),
        Kind::Wall => read_all::<WallSheet, 20>(bytes),
    }
}

// The sheet of all the numbers that are due, and nothing after them.
fn read_all<S: NumberedSheet<N>, const N: usize>(bytes: &[u8]) -> Result<Sheet, SheetFault>
    ensures reads_all_that_is_due { result ≡ then (all_due S.limits_of bytes.now) (λ ns. Ok (S.sheet_with (S.sheet_of ns))) }
{
    let numbers = read_numbers(bytes, S::limits())?;
    Ok(S::of_numbers(numbers).into_sheet())
}

// The sheet that a message carries, or the first fault in it.
#[tactic(auto, using(crate::proofs::Canonicals::accepted, crate::proofs::Canonicals::refused, crate::proofs::ReadBack::reads_back))]
pub fn decode(message: &[u8]) -> Result<Sheet, SheetFault>
    ensures sheet_or_first_fault { result ≡ decoded message.now }
    ensures accepted_bytes_are_the_sheets_message { IfOk result (λ sheet. Canonical message.now sheet) }
    ensures refused_where_it_is_at_fault { IfErr result (λ fault. FaultAt message.now fault) }
    ensures lawful_sheets_read_back { (sheet : Sheet) → ReadsBack sheet }
{
    read_message(message)
}

// The whole reading: the size, the kind, the sheet.
fn read_message(message: &[u8]) -> Result<Sheet, SheetFault>
    ensures sheet_or_first_fault { result ≡ decoded message.now }
{
    sized(message)?;
    let (kind, rest) = read_kind(message)?;
    read_sheet(kind, rest)
}

// A message has 1 to 256 bytes.
fn sized(message: &[u8]) -> Result<(), MessageFault>
    ensures one_to_256_bytes { result ≡ size_due (length message.now) }
{
    if message.is_empty() || message.len() > 256 {
        Err(MessageFault::Size)
    } else {
        Ok(())
    }
}

// Puts the bytes into the buffer at this offset.
fn put_at(buffer: &mut [u8], at: usize, bytes: &[u8])
    requires bytes_fit { at + length bytes.now ≤ length buffer.old }
    ensures the_rest_is_untouched { buffer.new ≡ take at buffer.old ++ (bytes.now ++ drop (at + length bytes.now) buffer.old) }
{
    buffer[at..at + bytes.len()].copy_from_slice(bytes);
}

// The field of a kind. Kept beside `number_field`: one text for both would need the length of its array computed.
fn kind_field(kind: Kind) -> [u8; 4]
    ensures field_of_the_kind { result ≡ field 1 (kind_number kind ∷ []) }
{
    [1, 0, 1, u32::from(kind) as u8]
}

// The field of number i of a sheet.
fn number_field(i: usize, number: u32) -> [u8; 7]
    requires tag_fits_a_byte { i ≤ 239 }
    ensures field_of_the_number { result ≡ field (16 + i) (four_bytes number) }
{
    let [a, b, c, d] = number.to_be_bytes();
    [16 + i as u8, 0, 4, a, b, c, d]
}

// How long the message of so many numbers is.
fn message_length(numbers: usize) -> usize
    requires as_many_as_there_are_tags { numbers ≤ 240 }
    ensures four_and_seven_for_each { result ≡ 4 + 7 * numbers }
{
    4 + 7 * numbers
}

// Writes the fields of a sheet's numbers, in order, after the four bytes of the kind's field.
#[tactic(auto, using(crate::proofs::Written::filled_none, crate::proofs::Written::filled_more, crate::proofs::Written::filled_all))]
fn write_fields<const N: usize>(numbers: &[u32; N], buffer: &mut [u8])
    requires tags_fit_a_byte { N ≤ 240 }
    requires fields_fit { 4 + 7 * length numbers.now ≤ length buffer.old }
    ensures fields_between_what_was_there { buffer.new ≡ (take 4 buffer.old ++ number_fields 0 numbers.now) ++ drop (4 + 7 * length numbers.now) buffer.old }
{
    for (i, number) in numbers.iter().enumerate() {
        put_at(buffer, 4 + 7 * i, &number_field(i, *number));
    }
}

// Writes the message of a kind and its numbers to the front of the buffer.
#[tactic(auto, using(crate::proofs::Written::length_fields))]
fn write_message<const N: usize>(
    kind: Kind,
    numbers: &[u32; N],
    buffer: &mut [u8],
) -> Result<usize, JobFault>
    requires tags_fit_a_byte { N ≤ 240 }
    ensures length_or_too_short { result ≡ put_length (message_of kind numbers.now) buffer.old }
    ensures message_then_the_rest_untouched { buffer.new ≡ put (message_of kind numbers.now) buffer.old }
{
    let length = message_length(N);
    if buffer.len() < length {
        return Err(JobFault::Argument);
    }
    put_at(buffer, 0, &kind_field(kind));
    write_fields(numbers, buffer);
    Ok(length)
}

// Writes the sheet's message to the front of the buffer and answers its length.
pub fn encode(sheet: &Sheet, buffer: &mut [u8]) -> Result<usize, JobFault>
    ensures length_or_too_short { result ≡ put_length (message sheet.now) buffer.old }
    ensures message_then_the_rest_untouched { buffer.new ≡ put (message sheet.now) buffer.old }
    ensures what_is_written_reads_back { IfOk result (λ size. (lawful_sheet sheet.now ≡ true → decoded (take size buffer.new) ≡ Ok sheet.now)) }
{
    write_sheet(sheet, buffer)
}

// The message of each kind.
fn write_sheet(sheet: &Sheet, buffer: &mut [u8]) -> Result<usize, JobFault>
    ensures length_or_too_short { result ≡ put_length (message sheet.now) buffer.old }
    ensures message_then_the_rest_untouched { buffer.new ≡ put (message sheet.now) buffer.old }
{
    match sheet {
        Sheet::Beam(beam) => write_all(Kind::Beam, beam, buffer),
        Sheet::Column(column) => write_all(Kind::Column, column, buffer),
        Sheet::Wall(wall) => write_all(Kind::Wall, wall, buffer),
    }
}

// The message of a kind and all the numbers of a sheet.
fn write_all<S: NumberedSheet<N>, const N: usize>(
    kind: Kind,
    sheet: &S,
    buffer: &mut [u8],
) -> Result<usize, JobFault>
    ensures length_or_too_short { result ≡ put_length (message_of kind (S.numbers_of sheet.now)) buffer.old }
    ensures message_then_the_rest_untouched { buffer.new ≡ put (message_of kind (S.numbers_of sheet.now)) buffer.old }
{
    write_message(kind, &sheet.numbers(), buffer)
}
