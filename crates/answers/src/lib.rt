// What a call answers where it refuses: the question that got a 'no', with what document 01 has it carry. A new question is a case here,
// its numbers in specs/Refusals and the words that tell it in specs/Message and words.rt.
#![tactic(auto)]

ghost use Rattle.std.specs.Prelude.{◌≡◌};
ghost use Rattle.answers.specs.Refusals.{refusal_of, question_of};

mod words;

use std::fmt;
pub use words::{LINE_ROOM, message};

// The questions by document 01's names, where it has one.
#[derive(Clone, Copy, Debug, PartialEq, Eq, Hash)]
pub enum Refusal {
    NoRecord,
    CutPayload,
    WrongLength,
    WrongOpening,
    NodeTooLarge,
    NotAscending,
    WrongMeasurement,
    BytesLeft,
    NotOneMember,
    ModeNotSearched,
    WrongShape,
    NoSuchEquation,
    InvalidFlowCodomain { node: u8 },
    InvalidFlowDomain { node: u8 },
    ExcessiveNonZeroLayer { node: u8, layer: u16 },
    ExcessiveZeroLayer { node: u8 },
    InvalidMeasurementSpec { node: u8 },
    InconsistentFlowOrder { node: u8, other: u8 },
    InconsistentFlowPlane { node: u8 },
    ResultTooLong,
    // A loop, or an edge or a node given twice.
    GivenTwice,
    // Signal lists that are not those of the flow.
    WrongSignals,
    // An angle that is below 0, not below 2 or not a number, or that of an output, other than positive zero.
    WrongAngle,
    // Angles, which are for the owner, read out or written by another.
    NotTheOwner,
}

// What record 001F carries: the number of a question, then a and b, 0 where unused. Any three numbers, also those that no question has.
#[derive(Clone, Copy, Debug, PartialEq, Eq, Hash)]
pub struct RefusalRecord {
    pub number: u8,
    pub a: u8,
    pub b: u16,
}

fn numbered(number: u8, a: u8, b: u16) -> RefusalRecord
    ensures { refusal_of result ≡ record { number = number; a = a; b = b } }
{
    RefusalRecord { number, a, b }
}

impl From<Refusal> for RefusalRecord {
    ghost from_gives = { λ q r. refusal_of r ≡ question_of q };

    fn from(q: Refusal) -> RefusalRecord {
        match q {
            Refusal::NoRecord => numbered(1, 0, 0),
            Refusal::CutPayload => numbered(2, 0, 0),
            Refusal::WrongLength => numbered(3, 0, 0),
            Refusal::WrongOpening => numbered(4, 0, 0),
            Refusal::NodeTooLarge => numbered(5, 0, 0),
            Refusal::NotAscending => numbered(6, 0, 0),
            Refusal::WrongMeasurement => numbered(7, 0, 0),
            Refusal::BytesLeft => numbered(8, 0, 0),
            Refusal::NotOneMember => numbered(9, 0, 0),
            Refusal::ModeNotSearched => numbered(10, 0, 0),
            Refusal::WrongShape => numbered(11, 0, 0),
            Refusal::NoSuchEquation => numbered(12, 0, 0),
            Refusal::InvalidFlowCodomain { node } => numbered(13, node, 0),
            Refusal::InvalidFlowDomain { node } => numbered(14, node, 0),
            Refusal::ExcessiveNonZeroLayer { node, layer } => numbered(15, node, layer),
            Refusal::ExcessiveZeroLayer { node } => numbered(16, node, 0),
            Refusal::InvalidMeasurementSpec { node } => numbered(17, node, 0),
            Refusal::InconsistentFlowOrder { node, other } => numbered(18, node, u16::from(other)),
            Refusal::InconsistentFlowPlane { node } => numbered(19, node, 0),
            Refusal::ResultTooLong => numbered(20, 0, 0),
            Refusal::GivenTwice => numbered(21, 0, 0),
            Refusal::WrongSignals => numbered(22, 0, 0),
            Refusal::WrongAngle => numbered(23, 0, 0),
            Refusal::NotTheOwner => numbered(24, 0, 0),
        }
    }
}

/// The line of the three numbers.
impl fmt::Display for RefusalRecord {
    ghost use Rattle.std.specs.Prelude.{Some};
    ghost use Rattle.answers.specs.Message.{line};

    ghost output = { λ q. Some (line (refusal_of q)) };

    fn fmt<W: fmt::Write>(&self, f: &mut fmt::Formatter<W>) -> fmt::Result {
        f.write_str(&words::line_of(*self))
    }
}

impl fmt::Display for Refusal {
    ghost use Rattle.std.specs.Prelude.{Some};
    ghost use Rattle.answers.specs.Message.{line};

    ghost output = { λ q. Some (line (question_of q)) };

    fn fmt<W: fmt::Write>(&self, f: &mut fmt::Formatter<W>) -> fmt::Result {
        RefusalRecord::from(*self).fmt(f)
    }
}

impl std::error::Error for Refusal {}
