// The names of a text, and the word that each is written by.
ghost use Rattle.std.specs.Prelude.{◌≡◌, ◌-◌, ◌<◌, ◌≤◌, [], get_or, MatchOption};
ghost use Rattle.texts.specs.Words.{names, name_count, place_in, first_measurement, outputs_name};
ghost use Rattle.texts.specs.Views.{place_of};

use flows::{PAULI_X, PAULI_Y, PAULI_Z, PLANE_XY, PLANE_XZ, PLANE_YZ};

/// What the numbers behind a name are.
#[derive(Clone, Copy, Debug, Default, PartialEq, Eq)]
pub(crate) enum Name {
    #[default]
    Nodes,
    Mode,
    Edges,
    Inputs,
    Outputs,
    Xy,
    Yz,
    Xz,
    X,
    Y,
    Z,
}

impl Name {
    pub(crate) const ALL: [Name; 11] = [
        Name::Nodes,
        Name::Mode,
        Name::Edges,
        Name::Inputs,
        Name::Outputs,
        Name::Xy,
        Name::Yz,
        Name::Xz,
        Name::X,
        Name::Y,
        Name::Z,
    ];

    /// The word that is the name, in reading and in showing.
    #[tactic(auto, unfolding(answers::specs::Message::codes, crate::specs::Pieces::pieces))]
    pub(crate) fn word(self) -> &'static str
        ensures { result.now ≡ get_or names (place_of self) [] }
    {
        match self {
            Name::Nodes => "nodes",
            Name::Mode => "mode",
            Name::Edges => "edges",
            Name::Inputs => "inputs",
            Name::Outputs => "outputs",
            Name::Xy => "XY",
            Name::Yz => "YZ",
            Name::Xz => "XZ",
            Name::X => "X",
            Name::Y => "Y",
            Name::Z => "Z",
        }
    }

    /// The name that a word is.
    pub(crate) fn of(word: &[u8]) -> Option<Name>
        ensures { MatchOption result (place_in names word.now ≡ name_count) (λ name. place_in names word.now ≡ place_of name) }
    {
        Name::ALL
            .iter()
            .copied()
            .find(|name| name.word().as_bytes() == word)
    }

    /// The byte of a measurement, where nodes behind the name are measured so.
    pub(crate) fn measurement(self) -> Option<u8>
        ensures { MatchOption result (place_of self < first_measurement) (λ m. (first_measurement ≤ place_of self) × (m ≡ place_of self - outputs_name)) }
    {
        match self {
            Name::Xy => Some(PLANE_XY),
            Name::Yz => Some(PLANE_YZ),
            Name::Xz => Some(PLANE_XZ),
            Name::X => Some(PAULI_X),
            Name::Y => Some(PAULI_Y),
            Name::Z => Some(PAULI_Z),
            _ => None,
        }
    }
}
