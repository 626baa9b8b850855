// The parts of job and flow files as values that are written, and the files put together from them.
ghost use Rattle.std.specs.Prelude.{◌≡◌, [], ◌∷◌, ◌+◌, ◌*◌, ◌/◌, ◌%◌, ◌<◌, ◌≤◌, length};
ghost use Rattle.answers.specs.Refusals.{given};
ghost use Rattle.nodes.specs.Row.{members, count};
ghost use Rattle.nodes.specs.NodeSet.{member, capacity};
ghost use Rattle.nodes.specs.SetTable.{set_at};
ghost use Rattle.records.specs.Records.{written, in_two_bytes};
ghost use Rattle.records.specs.Encoding.{job_bytes};
ghost use Rattle.records.specs.JobLists.{pairs_with, pairs_among, job_with};
ghost use Rattle.records.specs.Writing.{set_bytes, flow_records};
ghost use Rattle.records.specs.Splice.{splice, put_front, put_answer};
ghost use Rattle.records.specs.Views.{option_of};

use crate::common::{
    ENTRY_HEAD_BYTES, KIND_ANGLES, KIND_EDGES, KIND_INPUTS, KIND_MEASUREMENTS, KIND_OPENING,
    KIND_OUTPUTS, KIND_SETS, KIND_WIDE_LAYERS, WIDE_LAYER_BYTES,
};
use crate::encode::{Encode, Record, Then, plain_record, write};
use answers::Refusal;
use nodes::utils::{NodeSet, SET_WORDS, set_at};

fn put_byte(out: &mut [u8], at: usize, x: u8)
    requires { at < length out.old }
    ensures { out.new ≡ splice at (x ∷ []) out.old }
{
    out[at] = x;
}

// ---- The layers, two bytes each.

fn put_layers(out: &mut [u8], at: usize, layers: &[u16])
    requires { at + 2 * length layers.now ≤ length out.old }
    ensures { out.new ≡ splice at (in_two_bytes layers.now) out.old }
{
    let mut p = at;
    for &layer in layers {
        let [low, high] = layer.to_le_bytes();
        put_byte(out, p, low);
        put_byte(out, p + 1, high);
        p += WIDE_LAYER_BYTES;
    }
}

// ---- The sets: an entry for each of the nodes, ascending.

// The members, ascending; the place behind them.
fn put_members(out: &mut [u8], at: usize, s: NodeSet<SET_WORDS>) -> usize
    requires { at + count capacity (member s) ≤ length out.old }
    ensures out_after { out.new ≡ splice at (members capacity (member s)) out.old }
    ensures value { result ≡ at + count capacity (member s) }
{
    let mut p = at;
    for k in s.iter() {
        put_byte(out, p, k as u8);
        p += 1;
    }
    p
}

// An entry: node, count, members; the place behind it.
fn put_entry(out: &mut [u8], at: usize, u: usize, s: NodeSet<SET_WORDS>) -> usize
    requires { (u < capacity) × (at + 2 + count capacity (member s) ≤ length out.old) }
    ensures out_after { out.new ≡ splice at (u ∷ count capacity (member s) ∷ members capacity (member s)) out.old }
    ensures value { result ≡ at + 2 + count capacity (member s) }
{
    put_byte(out, at, u as u8);
    put_byte(out, at + 1, s.count() as u8);
    put_members(out, at + ENTRY_HEAD_BYTES, s)
}

// The place behind them.
fn put_entries(out: &mut [u8], at: usize, sets: &[u64], nodes: NodeSet<SET_WORDS>) -> usize
    requires { at + length (set_bytes capacity (set_at sets.now) (members capacity (member nodes))) ≤ length out.old }
    ensures out_after { out.new ≡ splice at (set_bytes capacity (set_at sets.now) (members capacity (member nodes))) out.old }
    ensures value { result ≡ at + length (set_bytes capacity (set_at sets.now) (members capacity (member nodes))) }
{
    let mut p = at;
    for u in nodes.iter() {
        p = put_entry(out, p, u, set_at(sets, u));
    }
    p
}

// The bytes that the entries take.
fn entries_len(sets: &[u64], nodes: NodeSet<SET_WORDS>) -> usize
    ensures { result ≡ length (set_bytes capacity (set_at sets.now) (members capacity (member nodes))) }
{
    let mut len = 0;
    for u in nodes.iter() {
        len += ENTRY_HEAD_BYTES + set_at(sets, u).count();
    }
    len
}

// ---- The edges of a job: each node with those of its neighbours that are above it, ascending.

// Node a with each member, ascending; the place behind them.
fn put_pairs(out: &mut [u8], at: usize, a: usize, s: NodeSet<SET_WORDS>) -> usize
    requires { (a < capacity) × (at + 2 * count capacity (member s) ≤ length out.old) }
    ensures out_after { out.new ≡ splice at (pairs_with a (members capacity (member s))) out.old }
    ensures value { result ≡ at + 2 * count capacity (member s) }
{
    let mut p = at;
    for b in s.iter() {
        put_byte(out, p, a as u8);
        put_byte(out, p + 1, b as u8);
        p += 2;
    }
    p
}

// The place behind them.
fn put_edges(out: &mut [u8], at: usize, graph: &[u64], nodes: NodeSet<SET_WORDS>) -> usize
    requires { at + length (pairs_among (set_at graph.now) (members capacity (member nodes))) ≤ length out.old }
    ensures out_after { out.new ≡ splice at (pairs_among (set_at graph.now) (members capacity (member nodes))) out.old }
    ensures value { result ≡ at + length (pairs_among (set_at graph.now) (members capacity (member nodes))) }
{
    let mut left = nodes;
    let mut p = at;
    for a in nodes.iter() {
        left = left.without(a);
        p = put_pairs(out, p, a, set_at(graph, a).intersection(left));
    }
    p
}

// The bytes that the edges among these nodes take.
pub fn edges_len(graph: &[u64], nodes: NodeSet<SET_WORDS>) -> usize
    ensures { result ≡ length (pairs_among (set_at graph.now) (members capacity (member nodes))) }
{
    let mut left = nodes;
    let mut len = 0;
    for a in nodes.iter() {
        left = left.without(a);
        len += 2 * set_at(graph, a).intersection(left).count();
    }
    len
}

// ---- The parts as values that are written.

// The members of a set, ascending.
#[derive(Clone, Copy, Debug, PartialEq, Eq)]
pub struct Members {
    pub set: NodeSet<SET_WORDS>,
}

impl Encode for Members {
    ghost bytes = { λ m. members capacity (member m.set) };

    #[tactic(auto, using(crate::proofs::WritingLoops::count_length))]
    fn room_left(&self, room: usize) -> Option<usize> {
        room.checked_sub(self.set.count())
    }

    #[tactic(auto, using(crate::proofs::Splice::splice_front, crate::proofs::WritingLoops::count_length))]
    fn put(&self, out: &mut [u8]) -> usize {
        put_members(out, 0, self.set)
    }
}

// Numbers in two bytes each.
#[derive(Clone, Copy, Debug, PartialEq, Eq)]
pub struct TwoBytes<'a> {
    pub numbers: &'a [u16],
}

impl Encode for TwoBytes<'_> {
    ghost bytes = { λ t. in_two_bytes t.numbers.now };

    #[tactic(auto, using(crate::proofs::Layers::in_length))]
    fn room_left(&self, room: usize) -> Option<usize> {
        room.checked_sub(WIDE_LAYER_BYTES * self.numbers.len())
    }

    #[tactic(auto, using(crate::proofs::Splice::splice_front, crate::proofs::Layers::in_length))]
    fn put(&self, out: &mut [u8]) -> usize {
        put_layers(out, 0, self.numbers);
        WIDE_LAYER_BYTES * self.numbers.len()
    }
}

// An entry for each of the nodes.
#[derive(Clone, Copy, Debug, PartialEq, Eq)]
pub struct SetEntries<'a> {
    pub sets: &'a [u64],
    pub nodes: NodeSet<SET_WORDS>,
}

impl Encode for SetEntries<'_> {
    ghost bytes = { λ e. set_bytes capacity (set_at e.sets.now) (members capacity (member e.nodes)) };

    fn room_left(&self, room: usize) -> Option<usize> {
        room.checked_sub(entries_len(self.sets, self.nodes))
    }

    #[tactic(auto, using(crate::proofs::Splice::splice_front))]
    fn put(&self, out: &mut [u8]) -> usize {
        put_entries(out, 0, self.sets, self.nodes)
    }
}

// The edges among the nodes, each once.
#[derive(Clone, Copy, Debug, PartialEq, Eq)]
pub struct EdgePairs<'a> {
    pub graph: &'a [u64],
    pub nodes: NodeSet<SET_WORDS>,
}

impl Encode for EdgePairs<'_> {
    ghost bytes = { λ e. pairs_among (set_at e.graph.now) (members capacity (member e.nodes)) };

    fn room_left(&self, room: usize) -> Option<usize> {
        room.checked_sub(edges_len(self.graph, self.nodes))
    }

    #[tactic(auto, using(crate::proofs::Splice::splice_front))]
    fn put(&self, out: &mut [u8]) -> usize {
        put_edges(out, 0, self.graph, self.nodes)
    }
}

// ---- Whole files, at the front of the buffer, where there is room for all of it.

// One record.
pub fn write_record(out: &mut [u8], kind: u16, payload: &[u8]) -> Result<usize, Refusal>
    ensures result_value { given (λ k. k) result ≡ put_answer (written kind payload.now) out.old }
    ensures out_after { out.new ≡ put_front (written kind payload.now) out.old }
{
    write(&plain_record(kind, payload), out)
}

// A flow file: the layers, and an entry for each of the nodes.
#[tactic(auto, using(crate::proofs::WritingLoops::two_records))]
pub fn write_flow(
    out: &mut [u8],
    layers: &[u16],
    sets: &[u64],
    nodes: NodeSet<SET_WORDS>,
) -> Result<usize, Refusal>
    ensures result_value { given (λ k. k) result ≡ put_answer (flow_records layers.now capacity (set_at sets.now) (members capacity (member nodes))) out.old }
    ensures out_after { out.new ≡ put_front (flow_records layers.now capacity (set_at sets.now) (members capacity (member nodes))) out.old }
{
    let flow = Then {
        first: Record {
            kind: KIND_WIDE_LAYERS,
            payload: TwoBytes { numbers: layers },
        },
        second: Record {
            kind: KIND_SETS,
            payload: SetEntries { sets, nodes },
        },
    };
    write(&flow, out)
}

// Its parameters stay apart: it is public, and its callers hold sets and tables, not lists. A job file: the edges among the nodes, inputs and outputs ascending, the angles behind it where there are any.
pub fn write_job(
    out: &mut [u8],
    n: u8,
    mode: u8,
    graph: &[u64],
    nodes: NodeSet<SET_WORDS>,
    inputs: NodeSet<SET_WORDS>,
    outputs: NodeSet<SET_WORDS>,
    measurements: &[u8],
    angles: Option<&[u8]>,
) -> Result<usize, Refusal>
    ensures result_value { given (λ k. k) result ≡ put_answer (job_bytes (job_with n mode (pairs_among (set_at graph.now) (members capacity (member nodes))) (members capacity (member inputs)) (members capacity (member outputs)) measurements.now (option_of angles.entry))) out.old }
    ensures out_after { out.new ≡ put_front (job_bytes (job_with n mode (pairs_among (set_at graph.now) (members capacity (member nodes))) (members capacity (member inputs)) (members capacity (member outputs)) measurements.now (option_of angles.entry))) out.old }
{
    let opening = [n, mode];
    let angles = match angles {
        Some(a) => Some(plain_record(KIND_ANGLES, a)),
        None => None,
    };
    let last = Then {
        first: plain_record(KIND_MEASUREMENTS, measurements),
        second: angles,
    };
    let nodes_of = Then {
        first: Record {
            kind: KIND_INPUTS,
            payload: Members { set: inputs },
        },
        second: Then {
            first: Record {
                kind: KIND_OUTPUTS,
                payload: Members { set: outputs },
            },
            second: last,
        },
    };
    let job = Then {
        first: plain_record(KIND_OPENING, &opening),
        second: Then {
            first: Record {
                kind: KIND_EDGES,
                payload: EdgePairs { graph, nodes },
            },
            second: nodes_of,
        },
    };
    write(&job, out)
}
