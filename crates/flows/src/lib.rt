//! Jobs, the two searches and their laws: definitions and theorems. Of code there are the measurements, their branches and the modes.
#![tactic(auto)]

pub mod measurement;
pub mod mode;

use measurement::Measurement;

// The numbers as bytes, for where any byte is taken (`find`, `infer_bits`) and for the verifier's match on a node's byte, which document 01 names.
pub const PLANE_XY: u8 = Measurement::XY as u8;

pub const PLANE_YZ: u8 = Measurement::YZ as u8;

pub const PLANE_XZ: u8 = Measurement::XZ as u8;

pub const PAULI_X: u8 = Measurement::X as u8;

pub const PAULI_Y: u8 = Measurement::Y as u8;

pub const PAULI_Z: u8 = Measurement::Z as u8;
