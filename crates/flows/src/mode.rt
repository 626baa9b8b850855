// What kind of flow a job is searched and verified for.

ghost use Rattle.std.specs.Prelude.{◌≡◌};
ghost use Rattle.answers.specs.Refusals.{given};
ghost use Rattle.flows.specs.Numbers.{mode_number, mode_of};

use answers::Refusal;

/// The flow that a job asks for: a causal one, all nodes measured in XY; one for the three planes; or one for planes and Paulis.
#[derive(Clone, Copy, Debug, PartialEq, Eq)]
pub enum Mode {
    Causal = 1,
    Planes = 2,
    Pauli = 3,
}

impl From<Mode> for u8 {
    ghost from_gives = { λ m number. number ≡ mode_number m };

    fn from(m: Mode) -> u8 {
        m as u8
    }
}

/// A byte that is no mode's number gets 4.
impl TryFrom<u8> for Mode {
    type Error = Refusal;

    ghost try_from_gives = { λ byte r. given mode_number r ≡ mode_of byte };

    fn try_from(byte: u8) -> Result<Self, Refusal> {
        match byte {
            1 => Ok(Mode::Causal),
            2 => Ok(Mode::Planes),
            3 => Ok(Mode::Pauli),
            _ => Err(Refusal::WrongOpening),
        }
    }
}
