// How a node is measured, and the branches in which its set is sought.

ghost use Rattle.std.specs.Prelude.{◌≡◌, map};
ghost use Rattle.answers.specs.Refusals.{given};
ghost use Rattle.flows.specs.Branch.{branches, in_set, in_odd};
ghost use Rattle.flows.specs.Numbers.{measurement_number, branch_number, measurement_of};

use answers::Refusal;

/// How a node is measured: in a plane, or as the Pauli X, Y or Z. Outputs are not measured, and have 0 where a measurement's number stands.
#[derive(Clone, Copy, Debug, PartialEq, Eq)]
pub enum Measurement {
    XY = 1,
    YZ = 2,
    XZ = 3,
    X = 4,
    Y = 5,
    Z = 6,
}

/// The plane in which a measurement is tried: a Pauli lies in two of them.
#[derive(Clone, Copy, Debug, PartialEq, Eq)]
pub enum Branch {
    XY = 1,
    YZ = 2,
    XZ = 3,
}

/// The branches that each measurement tries, in order: a row for each of XY, YZ, XZ, X, Y, Z.
pub const BRANCHES: [&[Branch]; 6] = [
    &[Branch::XY],
    &[Branch::YZ],
    &[Branch::XZ],
    &[Branch::XY, Branch::XZ],
    &[Branch::XY, Branch::YZ],
    &[Branch::YZ, Branch::XZ],
];

impl Measurement {
    /// Its row of `BRANCHES`.
    #[tactic(auto, unfolding(crate::specs::Branch::branches))]
    pub fn branches(self) -> &'static [Branch]
        ensures { map branch_number result.now ≡ branches (measurement_number self) }
    {
        BRANCHES[self as usize - 1]
    }
}

impl From<Measurement> for u8 {
    ghost from_gives = { λ m number. number ≡ measurement_number m };

    fn from(m: Measurement) -> u8 {
        m as u8
    }
}

/// A byte that is no measurement's number gets 7, also 0, which stands for an output.
impl TryFrom<u8> for Measurement {
    type Error = Refusal;

    ghost try_from_gives = { λ byte r. given measurement_number r ≡ measurement_of byte };

    fn try_from(byte: u8) -> Result<Self, Refusal> {
        match byte {
            1 => Ok(Measurement::XY),
            2 => Ok(Measurement::YZ),
            3 => Ok(Measurement::XZ),
            4 => Ok(Measurement::X),
            5 => Ok(Measurement::Y),
            6 => Ok(Measurement::Z),
            _ => Err(Refusal::WrongMeasurement),
        }
    }
}

impl Branch {
    /// Is the node a member of its own set?
    pub fn in_set(self) -> bool
        ensures { result ≡ in_set (branch_number self) }
    {
        matches!(self, Branch::YZ | Branch::XZ)
    }

    /// Is the node in Odd of its set?
    pub fn in_odd(self) -> bool
        ensures { result ≡ in_odd (branch_number self) }
    {
        matches!(self, Branch::XY | Branch::XZ)
    }
}

impl From<Branch> for u8 {
    ghost from_gives = { λ b number. number ≡ branch_number b };

    fn from(b: Branch) -> u8 {
        b as u8
    }
}
