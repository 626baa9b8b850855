// Questions 3 to 7, 9 and 23, each of a whole payload; and those of each record in order.
ghost use Rattle.std.specs.Prelude.{◌≡◌, true, ◌*◌, ◌%◌, ◌≤◌, ℕ, List, Bool, eqb, ltb, length, get_or};
ghost use Rattle.answers.specs.Answer.{Answer};
ghost use Rattle.nodes.specs.Lists.{has, all};
ghost use Rattle.nodes.specs.NodeSet.{member};
ghost use Rattle.nodes.specs.Row.{count};
ghost use Rattle.records.specs.Records.{each_asks};
ghost use Rattle.records.specs.BitRows.{row_width};
ghost use Rattle.records.specs.JobFile.{most_nodes, mode_causal, mode_pauli, rises, pairs_rise, highest_of, has_angles, all_allowed, opening_allowed, opening_asks, edges_asks, nodes_asks, measurements_asks, angles_asks};
ghost use Rattle.records.specs.FlowFile.{layer_width, entries_of, listed, all_entries, sets_asks, entry_asks};
ghost use Rattle.answers.specs.Refusals.{passed};
ghost use Rattle.flows.specs.Numbers.{mode_number};
ghost use Rattle.records.specs.Views.{IsOutputs};

use crate::bit_rows::row_width;
use crate::common::{
    ENTRY_HEAD_BYTES, MODE_CAUSAL, MODE_PAULI, MOST_NODES, WIDE_LAYER_BYTES, set_of,
};
use crate::entries::Entries;
use angles::{ANGLE_BYTES, angles_allowed};
use answers::Refusal;
use flows::mode::Mode;
use flows::{PAULI_Z, PLANE_XY, PLANE_XZ};
use nodes::utils::{NodeSet, SET_WORDS};

// What a payload is asked: the code's side of a payload's format.
pub(crate) trait Questions {
    ghost asks: { Self → List ℕ → Answer Bool };

    fn ask(&self, payload: &[u8]) -> Result<(), Refusal>
        ensures { passed result ≡ asks self.now payload.now };
}

// The number of nodes and the mode.
#[derive(Clone, Copy, Debug, PartialEq, Eq)]
pub(crate) struct Opening;

#[derive(Clone, Copy, Debug, PartialEq, Eq)]
pub(crate) struct Edges {
    pub(crate) n: usize,
}

// Inputs or outputs.
#[derive(Clone, Copy, Debug, PartialEq, Eq)]
pub(crate) struct Nodes {
    pub(crate) n: usize,
}

// Outputs that have been asked: nodes below n, so many distinct. In a file all are, in an editor's list, where a node may
// stand twice, perhaps fewer.
#[derive(Clone, Copy, Debug, PartialEq, Eq)]
pub(crate) struct Outputs<'a> {
    pub(crate) n: usize,
    pub(crate) nodes: &'a [u8],
    pub(crate) distinct: usize,
    ghost few: { n ≤ most_nodes },
    ghost asked: { IsOutputs n nodes.now distinct },
}

#[derive(Clone, Copy, Debug, PartialEq, Eq)]
pub(crate) struct Measurements<'a> {
    pub(crate) mode: Mode,
    pub(crate) outputs: Outputs<'a>,
}

#[derive(Clone, Copy, Debug, PartialEq, Eq)]
pub(crate) struct Angles<'a> {
    pub(crate) outputs: Outputs<'a>,
}

// The layers of n nodes, in either kind.
#[derive(Clone, Copy, Debug, PartialEq, Eq)]
pub(crate) struct Layers {
    pub(crate) wide: bool,
    pub(crate) n: usize,
}

// The entries of a flow for n nodes.
#[derive(Clone, Copy, Debug, PartialEq, Eq)]
pub(crate) struct Sets {
    pub(crate) n: usize,
}

// n rows of n bits.
#[derive(Clone, Copy, Debug, PartialEq, Eq)]
pub(crate) struct BitRows {
    pub(crate) n: usize,
}

// ---- One question, asked of the whole payload.

// Is each node below n? Asked of the greatest: a loop that always runs to its end takes many bytes at a time, and `all` stops at the first
// that is not.
pub(crate) fn below(nodes: &[u8], n: usize) -> bool
    ensures { result ≡ all (λ v. ltb v n) nodes.now }
{
    if n == 0 {
        return nodes.len() == 0;
    }
    let mut top: u8 = 0;
    for &v in nodes {
        if v > top {
            top = v;
        }
    }
    usize::from(top) < n
}

// Are the nodes strictly ascending? This loop, too, always runs to its end, over indices: `windows(2)` makes a slice of each pair.
pub(crate) fn rising(nodes: &[u8]) -> bool
    ensures { result ≡ rises 0 nodes.now }
{
    let mut ok = true;
    for i in 1..nodes.len() {
        if nodes[i - 1] >= nodes[i] {
            ok = false;
        }
    }
    ok
}

// Is a < b in each edge, and are the edges strictly ascending by a, then b? As numbers 256 a + b they rise from above 0.
fn pairs_rising(edges: &[u8]) -> bool
    requires { length edges.now % 2 ≡ 0 }
    ensures { result ≡ pairs_rise 0 edges.now }
{
    let mut last = 0;
    for edge in edges.chunks_exact(2) {
        let a = usize::from(edge[0]);
        let b = usize::from(edge[1]);
        let key = 256 * a + b;
        if a >= b || key <= last {
            return false;
        }
        last = key;
    }
    true
}

// The highest measurement byte that the mode allows; the lowest of each is that of XY.
fn highest_of(mode: Mode) -> u8
    ensures { result ≡ highest_of (mode_number mode) }
{
    match mode {
        Mode::Causal => PLANE_XY,
        Mode::Planes => PLANE_XZ,
        Mode::Pauli => PAULI_Z,
    }
}

// How many bytes are 0? This loop, too, always runs to its end; it counts in a byte, where `count` takes a word for each.
fn zeros(bytes: &[u8]) -> usize
    requires { length bytes.now ≤ most_nodes }
    ensures { result ≡ count (length bytes.now) (λ u. eqb (get_or bytes.now u 0) 0) }
{
    let mut found: u8 = 0;
    for &byte in bytes {
        if byte == 0 {
            found += 1;
        }
    }
    usize::from(found)
}

// Is the byte of each of these nodes 0?
#[tactic(auto, using(crate::proofs::ReadingLoops::all_end, crate::proofs::ReadingLoops::all_next, crate::proofs::Records::below_at))]
fn zero_at(bytes: &[u8], nodes: &[u8]) -> bool
    requires { all (λ v. ltb v (length bytes.now)) nodes.now ≡ true }
    ensures { result ≡ all (λ u. eqb (get_or bytes.now u 0) 0) nodes.now }
{
    for &u in nodes {
        if bytes[usize::from(u)] != 0 {
            return false;
        }
    }
    true
}

// Is each measurement byte allowed? None may be above the mode's highest, and the zeros are those of the outputs:
// as many as there are distinct outputs, and one at each.
fn all_allowed(measurements: &[u8], mode: Mode, outputs: &Outputs<'_>) -> bool
    requires { length measurements.now ≡ outputs.now.n }
    ensures { result ≡ all_allowed (mode_number mode) (has outputs.now.nodes.now) 0 measurements.now }
{
    let past = usize::from(highest_of(mode)) + 1;
    if !below(measurements, past) {
        return false;
    }
    if zeros(measurements) != outputs.distinct {
        return false;
    }
    zero_at(measurements, outputs.nodes)
}

// Has each entry one member? Bytes that are no entries hold none.
pub fn one_member(sets: &[u8]) -> bool
    ensures { result ≡ all_entries (λ e. eqb (length e.set) 1) (listed (entries_of sets.now)) }
{
    Entries::of(sets).all(|e| e.members.len() == 1)
}

// ---- The questions of each kind, in order.

// Are the number of nodes and the mode allowed?
pub(crate) fn opening_allowed(n: usize, mode: usize) -> bool
    ensures { result ≡ opening_allowed n mode }
{
    if n > MOST_NODES {
        return false;
    }
    if mode < usize::from(MODE_CAUSAL) {
        return false;
    }
    mode <= usize::from(MODE_PAULI)
}

// The mode of a number that question 4 lets through.
pub(crate) fn mode_of(number: u8) -> Mode
    requires { (mode_causal ≤ number) × (number ≤ mode_pauli) }
    ensures { mode_number result ≡ number }
{
    match number {
        1 => Mode::Causal,
        2 => Mode::Planes,
        _ => Mode::Pauli,
    }
}

// Can a job of this mode have angles?
pub(crate) fn has_angles(mode: Mode) -> bool
    ensures { result ≡ has_angles (mode_number mode) }
{
    matches!(mode, Mode::Planes)
}

#[tactic(auto, unfolding(crate::specs::JobFile::opening_asks))]
impl Questions for Opening {
    ghost asks = { λ o. opening_asks };

    fn ask(&self, payload: &[u8]) -> Result<(), Refusal> {
        if payload.len() != 2 {
            return Err(Refusal::WrongLength);
        }
        if !opening_allowed(usize::from(payload[0]), usize::from(payload[1])) {
            return Err(Refusal::WrongOpening);
        }
        Ok(())
    }
}

#[tactic(auto, unfolding(crate::specs::JobFile::edges_asks))]
impl Questions for Edges {
    ghost asks = { λ e. edges_asks e.n };

    fn ask(&self, payload: &[u8]) -> Result<(), Refusal> {
        if payload.len() % 2 != 0 {
            return Err(Refusal::WrongLength);
        }
        if !below(payload, self.n) {
            return Err(Refusal::NodeTooLarge);
        }
        if !pairs_rising(payload) {
            return Err(Refusal::NotAscending);
        }
        Ok(())
    }
}

#[tactic(auto, unfolding(crate::specs::JobFile::nodes_asks))]
impl Questions for Nodes {
    ghost asks = { λ k. nodes_asks k.n };

    fn ask(&self, payload: &[u8]) -> Result<(), Refusal> {
        if !below(payload, self.n) {
            return Err(Refusal::NodeTooLarge);
        }
        if !rising(payload) {
            return Err(Refusal::NotAscending);
        }
        Ok(())
    }
}

#[tactic(auto, unfolding(crate::specs::JobFile::measurements_asks))]
impl Questions for Measurements<'_> {
    ghost asks = { λ m. measurements_asks m.outputs.n (mode_number m.mode) (has m.outputs.nodes.now) };

    fn ask(&self, payload: &[u8]) -> Result<(), Refusal> {
        if payload.len() != self.outputs.n {
            return Err(Refusal::WrongLength);
        }
        if !all_allowed(payload, self.mode, &self.outputs) {
            return Err(Refusal::WrongMeasurement);
        }
        Ok(())
    }
}

// Is there an angle for each of n nodes (3), and is each allowed (23)? The angle of an output is asked for otherwise than that of a measured node.
#[tactic(auto, unfolding(crate::specs::JobFile::angles_asks, crate::specs::Records::each_asks))]
pub(crate) fn ask_angles(
    n: usize,
    outputs: NodeSet<SET_WORDS>,
    angles: &[u8],
) -> Result<(), Refusal>
    ensures { passed result ≡ angles_asks n (member outputs) angles.now }
{
    if !length_is(angles.len(), ANGLE_BYTES, n) {
        return Err(Refusal::WrongLength);
    }
    if !angles_allowed(n, outputs, angles) {
        return Err(Refusal::WrongAngle);
    }
    Ok(())
}

impl Questions for Angles<'_> {
    ghost asks = { λ a. angles_asks a.outputs.n (has a.outputs.nodes.now) };

    fn ask(&self, payload: &[u8]) -> Result<(), Refusal> {
        ask_angles(self.outputs.n, self.outputs.set(), payload)
    }
}

#[tactic(auto, unfolding(crate::specs::Records::each_asks))]
impl Questions for Layers {
    ghost asks = { λ l. each_asks (layer_width l.wide) l.n };

    fn ask(&self, payload: &[u8]) -> Result<(), Refusal> {
        let width = if self.wide { WIDE_LAYER_BYTES } else { 1 };
        if !length_is(payload.len(), width, self.n) {
            return Err(Refusal::WrongLength);
        }
        Ok(())
    }
}

#[tactic(auto, unfolding(crate::specs::Records::each_asks))]
impl Questions for BitRows {
    ghost asks = { λ b. each_asks (row_width b.n) b.n };

    fn ask(&self, payload: &[u8]) -> Result<(), Refusal> {
        if !length_is(payload.len(), row_width(self.n), self.n) {
            return Err(Refusal::WrongLength);
        }
        Ok(())
    }
}

#[tactic(auto, unfolding(crate::specs::FlowFile::sets_asks))]
impl Questions for Sets {
    ghost asks = { λ k. sets_asks k.n };

    fn ask(&self, payload: &[u8]) -> Result<(), Refusal> {
        let Some(entries) = Entries::whole(payload) else {
            return Err(Refusal::WrongLength);
        };
        if !entries.below(self.n) {
            return Err(Refusal::NodeTooLarge);
        }
        if !entries.rising() {
            return Err(Refusal::NotAscending);
        }
        Ok(())
    }
}

impl Outputs<'_> {
    // The nodes as a set.
    fn set(&self) -> NodeSet<SET_WORDS>
        ensures { member result ≡ has self.now.nodes.now }
    {
        set_of(self.nodes)
    }
}

// Are there so many bytes for each of n nodes?
#[tactic(auto, using(crate::proofs::ReadingLoops::width_none, crate::proofs::ReadingLoops::width_not, crate::proofs::ReadingLoops::width_divides))]
fn length_is(len: usize, width: usize, n: usize) -> bool
    ensures { result ≡ eqb len (width * n) }
{
    if width == 0 {
        return len == 0;
    }
    len % width == 0 && len / width == n
}

// The questions of an entry that is lent alone: those of a sets record that is this entry and nothing more.
pub fn ask_entry(entry: &[u8], n: usize) -> Result<(), Refusal>
    ensures { passed result ≡ entry_asks n entry.now }
{
    if entry.len() < ENTRY_HEAD_BYTES {
        return Err(Refusal::WrongLength);
    }
    if usize::from(entry[1]) != entry.len() - ENTRY_HEAD_BYTES {
        return Err(Refusal::WrongLength);
    }
    Sets { n }.ask(entry)
}
