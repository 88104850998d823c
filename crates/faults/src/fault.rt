// The grounds of refusal, layer inside layer: a message fault inside a sheet fault inside a job fault.
// `Rattle.faults.specs.Faults` gives case by case the number, the layer and the place that a refusal answers.
ghost use Rattle.std.specs.Prelude.{◌≡◌, Some};
ghost use Rattle.faults.specs.Faults.{from_input, from_state, message_refusal, sheet_refusal, job_refusal, refusal_text, fault_text};
ghost use Rattle.faults.specs.declared.fault.SheetFault.TheVariants.{Message};
ghost use Rattle.faults.specs.declared.fault.JobFault.TheVariants.{Sheet, Argument};

use std::fmt;
use tables::codes::Unlisted;

// Whether a refusal comes from the input or from the state, with the letter before its number.
#[derive(Clone, Copy, Debug, PartialEq, Eq)]
pub enum Origin {
    Input,
    State,
}

// What a refusal answers: its number, as I3 or S7, the layer that refused (1 message, 2 sheet, 3 job) and the place,
// a byte offset in the message, or 0 where it has none. Kept as numbers: the format fixes these numbers, which are what is
// answered and printed; the grounds and their layers are the enums below.
#[derive(Clone, Copy, Debug, PartialEq, Eq)]
pub struct Refusal {
    pub origin: Origin,
    pub number: u32,
    pub layer: u32,
    pub place: usize,
}

// Layer 1: the bytes are not a run of the fields that are due.
#[derive(Clone, Copy, Debug, PartialEq, Eq)]
pub enum MessageFault {
    // I1: the message is empty or over 256 bytes
    Size,
    // I2: the field at this offset is cut short
    CutShort(usize),
    // I3: at this offset stands no field, a field with another tag than is due, or bytes where none are due
    NotDue(usize),
    // I4: the field at this offset has another length than is due
    Length(usize),
}

// Layer 2: a message fault, or a number that the sheet does not admit.
#[derive(Clone, Copy, Debug, PartialEq, Eq)]
pub enum SheetFault {
    Message(MessageFault),
    // I5: the value of the field at this offset is outside its limits
    Value(usize),
}

// Layer 3: a sheet fault, or a call that the job refuses.
#[derive(Clone, Copy, Debug, PartialEq, Eq)]
pub enum JobFault {
    Sheet(SheetFault),
    // I6: an argument is outside its limits, or the buffer is too short
    Argument,
    // S1: no row is free, or eight rules are there already
    Full,
    // S2: the mark is filed already in its register
    Filed,
    // S3: no such mark
    Unknown,
    // S4: the row or the member is unlawful
    Unlawful,
    // S5: the hand or the job has shear already
    InHand,
    // S6: the hand is empty or differs from the job's note
    HandDiffers,
    // S7: the wall would keep under seven tenths of its sheet's shear
    UnderSevenTenths,
    // S8: the wall is on another storey
    OtherStorey,
    // S9: more than the hand has
    OverHand,
    // S10: the wall would carry over 10,000,000 N
    OverLoad,
    // S11: the wall's carried shear differs from its sheet's, or shear in hand came from it
    ShearMoved,
    // S12: the book does not take the member
    NotTaken,
}

// What a message fault answers.
impl From<MessageFault> for Refusal {
    ghost from_gives = { λ fault r. r ≡ message_refusal fault };

    fn from(fault: MessageFault) -> Refusal
        ensures number_layer_and_place { result ≡ message_refusal fault }
    {
        match fault {
            MessageFault::Size => input(1, 1, 0),
            MessageFault::CutShort(place) => input(2, 1, place),
            MessageFault::NotDue(place) => input(3, 1, place),
            MessageFault::Length(place) => input(4, 1, place),
        }
    }
}

// What a sheet fault answers; a message fault inside keeps its number, layer and place.
impl From<SheetFault> for Refusal {
    ghost from_gives = { λ fault r. r ≡ sheet_refusal fault };

    fn from(fault: SheetFault) -> Refusal
        ensures number_layer_and_place { result ≡ sheet_refusal fault }
    {
        match fault {
            SheetFault::Message(message) => Refusal::from(message),
            SheetFault::Value(place) => input(5, 2, place),
        }
    }
}

// What a job fault answers; a sheet fault inside keeps its number, layer and place.
impl From<JobFault> for Refusal {
    ghost from_gives = { λ fault r. r ≡ job_refusal fault };

    fn from(fault: JobFault) -> Refusal
        ensures number_layer_and_place { result ≡ job_refusal fault }
    {
        match fault {
            JobFault::Sheet(sheet) => Refusal::from(sheet),
            JobFault::Argument => input(6, 3, 0),
            JobFault::Full => state(1),
            JobFault::Filed => state(2),
            JobFault::Unknown => state(3),
            JobFault::Unlawful => state(4),
            JobFault::InHand => state(5),
            JobFault::HandDiffers => state(6),
            JobFault::UnderSevenTenths => state(7),
            JobFault::OtherStorey => state(8),
            JobFault::OverHand => state(9),
            JobFault::OverLoad => state(10),
            JobFault::ShearMoved => state(11),
            JobFault::NotTaken => state(12),
        }
    }
}

// A refusal is written as its number, its layer and its place, as `I3 1 116`.
impl fmt::Display for Refusal {
    ghost output = { λ r. Some (refusal_text r) };

    fn fmt<W: fmt::Write>(&self, f: &mut fmt::Formatter<W>) -> fmt::Result {
        let number = self.number;
        let layer = self.layer;
        let place = self.place;
        match self.origin {
            Origin::Input => write!(f, "I{number} {layer} {place}"),
            Origin::State => write!(f, "S{number} {layer} {place}"),
        }
    }
}

// A job fault is written as `refused` and what it answers, as `refused I3 1 116`.
impl fmt::Display for JobFault {
    ghost output = { λ fault. Some (fault_text fault) };

    fn fmt<W: fmt::Write>(&self, f: &mut fmt::Formatter<W>) -> fmt::Result {
        write!(f, "refused {}", Refusal::from(*self))
    }
}

// A ground from the input.
fn input(number: u32, layer: u32, place: usize) -> Refusal
    ensures from_the_input { result ≡ from_input number layer place }
{
    Refusal {
        origin: Origin::Input,
        number,
        layer,
        place,
    }
}

// A ground from the state: always layer 3, place 0.
fn state(number: u32) -> Refusal
    ensures from_the_state { result ≡ from_state number }
{
    Refusal {
        origin: Origin::State,
        number,
        layer: 3,
        place: 0,
    }
}

// `?` puts a message fault whole into a sheet fault.
impl From<MessageFault> for SheetFault {
    ghost from_gives = { λ fault r. r ≡ Message fault };

    fn from(below: MessageFault) -> SheetFault {
        SheetFault::Message(below)
    }
}

// `?` puts a sheet fault whole into a job fault.
impl From<SheetFault> for JobFault {
    ghost from_gives = { λ fault r. r ≡ Sheet fault };

    fn from(below: SheetFault) -> JobFault {
        JobFault::Sheet(below)
    }
}

// `?` answers a number that stands for none of its closed list as an argument outside its limits.
impl From<Unlisted> for JobFault {
    ghost from_gives = { λ _ r. r ≡ Argument };

    fn from(_unlisted: Unlisted) -> Self {
        Self::Argument
    }
}
