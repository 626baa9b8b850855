// Why a text makes no job file.
ghost use Rattle.std.specs.Prelude.{◌≡◌};
ghost use Rattle.texts.specs.declared.faults.TextError.TheVariants.{Refused, Faulty};

use answers::Refusal;

/// What a text may not say.
#[derive(Clone, Copy, Debug, PartialEq, Eq)]
pub enum Fault {
    /// Nodes and then mode come first, one number each.
    OutOfOrder,
    /// Edges are written as 0-1, all else as one number.
    WrongShape,
    /// Neither a name nor a number from 0 to 255 nor an edge.
    NoWord,
    /// More numbers than any job has.
    TooMany,
}

/// A fault, and how many lines of the text stand before its own.
#[derive(Clone, Copy, Debug, PartialEq, Eq)]
pub struct FaultyLine {
    pub before: usize,
    pub fault: Fault,
}

#[derive(Clone, Copy, Debug, PartialEq, Eq)]
pub enum TextError {
    /// The lists of the text make no job.
    Refused(Refusal),
    Faulty(FaultyLine),
}

impl From<Refusal> for TextError {
    ghost from_gives = { λ q e. e ≡ Refused q };

    fn from(q: Refusal) -> TextError {
        TextError::Refused(q)
    }
}

impl From<FaultyLine> for TextError {
    ghost from_gives = { λ f e. e ≡ Faulty f };

    fn from(f: FaultyLine) -> TextError {
        TextError::Faulty(f)
    }
}
