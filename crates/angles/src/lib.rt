// Angles, in units of pi: question 23, and the Paulis hidden in them.
#![tactic(auto)]

ghost use Rattle.std.specs.Prelude.{◌≡◌, ◌&&◌, ◌++◌, ◌+◌, ◌*◌, ◌≤◌, eqb, length, drop};
ghost use Rattle.nodes.specs.NodeSet.{member};
ghost use Rattle.flows.specs.Numbers.{measurement_number};
ghost use Rattle.angles.specs.Angle.{is_whole, is_half, inferred_in, inferred, inferred_byte, read_bits, in_range, entry_allowed};
ghost use Rattle.angles.specs.AngleRecord.{angle_bytes, bits_at, angles_allowed, inferred_from, inferred_bytes, inferred_into};

use flows::measurement::Measurement;
use flows::{PLANE_XY, PLANE_XZ, PLANE_YZ};
use nodes::utils::{NodeSet, SET_WORDS};

/// A measurement: its plane, with an angle in units of pi.
#[derive(Clone, Copy, Debug, PartialEq)]
pub enum PlaneAngle {
    XY(f64),
    YZ(f64),
    XZ(f64),
}

// ---- The inferred measurement. Comparisons are exact: an angle that is off by one bit keeps its plane.

// 0 or 1; negative zero equals 0.
fn is_whole(x: f64) -> bool
    ensures { result ≡ is_whole x }
{
    x == 0.0 || x == 1.0
}

// 0.5 or 1.5.
fn is_half(x: f64) -> bool
    ensures { result ≡ is_half x }
{
    x == 0.5 || x == 1.5
}

// In a plane, with the Paulis that whole and half angles mean there.
#[tactic(auto, unfolding(crate::specs::Angle::inferred_in))]
fn inferred_in(x: f64, plane: Measurement, whole: Measurement, half: Measurement) -> Measurement
    ensures { measurement_number result ≡ inferred_in x (measurement_number plane) (measurement_number whole) (measurement_number half) }
{
    if is_whole(x) {
        whole
    } else if is_half(x) {
        half
    } else {
        plane
    }
}

/// X, Y or Z where the angle is exactly that of one, and else the plane.
pub fn infer(m: PlaneAngle) -> Measurement
    ensures { measurement_number result ≡ inferred m }
{
    use Measurement::{X, XY, XZ, Y, YZ, Z};
    match m {
        PlaneAngle::XY(x) => inferred_in(x, XY, X, Y),
        PlaneAngle::YZ(x) => inferred_in(x, YZ, Z, Y),
        PlaneAngle::XZ(x) => inferred_in(x, XZ, Z, X),
    }
}

// The same from the byte of the plane; what is no plane stays. A byte, since `infer_bits` takes any.
#[tactic(auto, unfolding(crate::specs::Angle::inferred_byte))]
fn infer_value(plane: u8, x: f64) -> u8
    ensures { result ≡ inferred_byte plane x }
{
    match plane {
        PLANE_XY => infer(PlaneAngle::XY(x)).into(),
        PLANE_YZ => infer(PlaneAngle::YZ(x)).into(),
        PLANE_XZ => infer(PlaneAngle::XZ(x)).into(),
        _ => plane,
    }
}

// ---- An angle by its bits.

// All bits but the sign.
const UNSIGNED: u64 = 0x7fff_ffff_ffff_ffff;

// The bits of infinity.
const INFINITY: u64 = 0x7ff0_0000_0000_0000;

/// The number with these bits; what lies above infinity, whatever its sign, is none.
pub fn read_bits(bits: u64) -> Option<f64>
    ensures { result ≡ read_bits bits }
{
    if bits & UNSIGNED > INFINITY {
        return None;
    }
    Some(f64::from_bits(bits))
}

// Neither below 0 nor not below 2.
#[tactic(auto, unfolding(crate::specs::Angle::in_range))]
fn in_range(x: f64) -> bool
    ensures { result ≡ in_range x }
{
    !(x < 0.0) && x < 2.0
}

/// Question 23 of one entry: at an output positive zero, whose bits are all 0, and else an angle from 0 to below 2.
#[tactic(auto, unfolding(crate::specs::Angle::entry_allowed))]
pub fn entry_allowed(output: bool, bits: u64) -> bool
    ensures { result ≡ entry_allowed output bits }
{
    if output {
        return bits == 0;
    }
    read_bits(bits).is_some_and(in_range)
}

/// The measurement byte to work with, from that of the plane; what is not a number infers nothing.
pub fn infer_bits(plane: u8, bits: u64) -> u8
    ensures { result ≡ inferred_from plane (read_bits bits) }
{
    match read_bits(bits) {
        Some(x) => infer_value(plane, x),
        None => plane,
    }
}

// ---- The record of angles: for each node its bytes, lowest first.

/// The bytes of an angle.
pub const ANGLE_BYTES: usize = 8;

// The bits of node u's angle.
fn bits_at(angles: &[u8], u: usize) -> u64
    requires { angle_bytes * u + angle_bytes ≤ length angles.now }
    ensures { result ≡ bits_at angles.now u }
{
    let at = ANGLE_BYTES * u;
    let mut bytes = [0; ANGLE_BYTES];
    bytes.copy_from_slice(&angles[at..at + ANGLE_BYTES]);
    u64::from_le_bytes(bytes)
}

// Is the record that of n nodes? Its length is divided: n may be any number, and a product of it could wrap.
fn length_suits(n: usize, angles: &[u8]) -> bool
    ensures { result ≡ eqb (length angles.now) (angle_bytes * n) }
{
    angles.len() % ANGLE_BYTES == 0 && angles.len() / ANGLE_BYTES == n
}

// Question 23 of each node's entry.
#[tactic(auto, unfolding(crate::specs::AngleRecord::angles_allowed))]
fn all_allowed(n: usize, outputs: NodeSet<SET_WORDS>, angles: &[u8]) -> bool
    requires { length angles.now ≡ angle_bytes * n }
    ensures { result ≡ angles_allowed n (member outputs) angles.now }
{
    for u in 0..n {
        if !entry_allowed(outputs.has(u), bits_at(angles, u)) {
            return false;
        }
    }
    true
}

/// Question 23 of the whole record; a record of another length is not allowed either.
pub fn angles_allowed(n: usize, outputs: NodeSet<SET_WORDS>, angles: &[u8]) -> bool
    ensures { result ≡ (eqb (length angles.now) (angle_bytes * n) && angles_allowed n (member outputs) angles.now) }
{
    length_suits(n, angles) && all_allowed(n, outputs, angles)
}

// The measurement bytes to work with, at the front of `out`.
#[tactic(auto, unfolding(crate::specs::AngleRecord::inferred_bytes))]
fn infer_each(planes: &[u8], angles: &[u8], out: &mut [u8])
    requires { (length angles.now ≡ angle_bytes * length planes.now) × (length planes.now ≤ length out.old) }
    ensures { out.new ≡ inferred_bytes planes.now angles.now ++ drop (length planes.now) out.old }
{
    for u in 0..planes.len() {
        out[u] = infer_bits(planes[u], bits_at(angles, u));
    }
}

/// The same where the record suits the planes and `out` has room; else `out` stays as it was.
#[tactic(auto, unfolding(crate::specs::AngleRecord::inferred_into))]
pub fn infer_all(planes: &[u8], angles: &[u8], out: &mut [u8])
    ensures { out.new ≡ inferred_into planes.now angles.now out.old }
{
    if length_suits(planes.len(), angles) && planes.len() <= out.len() {
        infer_each(planes, angles, out);
    }
}
