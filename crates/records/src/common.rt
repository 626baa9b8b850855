// The records of job and flow files: their kinds, sizes and modes; bytes and nodes of a payload, and bytes at a place.
ghost use Rattle.std.specs.Prelude.{◌≡◌, ◌&&◌, ◌<◌, leb, get_or};
ghost use Rattle.nodes.specs.NodeSet.{member, highest};
ghost use Rattle.nodes.specs.Lists.{has};
ghost use Rattle.records.specs.Places.{bytes_at};

use flows::mode::Mode;
use nodes::utils::{CAPACITY, NodeSet, SET_WORDS};

// The bytes of a record's length and kind.
pub const HEAD_BYTES: usize = 6;

// The bytes of the opening: number of nodes and mode.
pub(crate) const OPENING_BYTES: usize = 2;

// The bytes of a layer of the wide kind.
pub const WIDE_LAYER_BYTES: usize = 2;

// The bytes of an entry's node and count.
pub const ENTRY_HEAD_BYTES: usize = 2;

// Kinds are numbers, no enum: `write_record` takes any, and the definitions of the files name them so.
pub(crate) const KIND_OPENING: u16 = 0x0001;

pub(crate) const KIND_EDGES: u16 = 0x0002;

pub(crate) const KIND_INPUTS: u16 = 0x0003;

pub(crate) const KIND_OUTPUTS: u16 = 0x0004;

pub(crate) const KIND_MEASUREMENTS: u16 = 0x0005;

pub const KIND_LAYERS: u16 = 0x0011;

pub(crate) const KIND_SETS: u16 = 0x0012;

pub const KIND_NO_FLOW: u16 = 0x0013;

pub const KIND_ACCEPTED: u16 = 0x0014;

pub const KIND_REFUSAL: u16 = 0x001F;

pub const KIND_WIDE_LAYERS: u16 = 0x0021;

pub(crate) const KIND_SET_SIGNALS: u16 = 0x0022;

pub(crate) const KIND_ODD_SIGNALS: u16 = 0x0023;

pub const KIND_ANGLES: u16 = 0x0024;

// As many nodes as a set can have.
pub const MOST_NODES: usize = CAPACITY;

pub(crate) const MODE_CAUSAL: u8 = Mode::Causal as u8;

pub(crate) const MODE_PAULI: u8 = Mode::Pauli as u8;

/// Where bytes lie in a file.
#[derive(Clone, Copy, Debug, PartialEq, Eq)]
pub struct Place {
    pub start: usize,
    pub end: usize,
}

// A byte as a number.
pub fn number(x: u8) -> usize
    ensures { (result ≡ x) × (result < 256) }
{
    usize::from(x)
}

// The byte at i; past the end it is 0.
pub fn byte_at(bytes: &[u8], i: usize) -> u8
    ensures { result ≡ get_or bytes.now i 0 }
{
    bytes.get(i).copied().unwrap_or(0)
}

/// The bytes of the file at a place; of a place past its end there are none.
#[tactic(auto, using(crate::proofs::Places::clipped))]
pub fn payload(file: &[u8], place: Place) -> &[u8]
    ensures { result.now ≡ bytes_at place file.now }
{
    let end = place.end.min(file.len());
    let start = place.start.min(end);
    &file[start..end]
}

// The nodes of a payload as a set; a set has no room for those past its highest.
pub fn set_of(nodes: &[u8]) -> NodeSet<SET_WORDS>
    ensures { member result ≡ (λ u. has nodes.now u && leb u highest) }
{
    let mut s = NodeSet::empty();
    for &v in nodes {
        s = s.with(usize::from(v));
    }
    s
}
