// One loader for all calls: from what the records hold to what searches and verifiers work on.
ghost use Rattle.std.specs.Prelude.{◌≡◌, true, not, ◌&&◌, ◌||◌, ℕ, ◌≤◌, ◌<◌, eqb, leb, ltb, length, get_or};
ghost use Rattle.nodes.specs.Row.{parity};
ghost use Rattle.nodes.specs.NodeSet.{member, highest, capacity};
ghost use Rattle.nodes.specs.SetTable.{set_at, table_words};
ghost use Rattle.nodes.specs.Lists.{all, zeros};
ghost use Rattle.flows.specs.Numbers.{mode_number};
ghost use Rattle.records.specs.JobFile.{working_of, has_edge, job_of};
ghost use Rattle.records.specs.FlowFile.{entries_of, listed, all_entries, entry_below, set_in, entry_in, flow_of};
ghost use Rattle.records.specs.Encoding.{IsValidJob};
ghost use Rattle.records.specs.Views.{job_held, flow_held};
ghost use Rattle.calls.specs.Loaded.{has_set, job_loaded, flow_in, within, IsLoaded};

use crate::job::{Flow, Job};
use angles::infer_all;
use flows::mode::Mode;
use nodes::utils::{
    NodeSet, SET_WORDS, WORD_BITS, clear_table, mask, odd_neighbors, put_set, set_at,
};
use records::common::{byte_at, set_of};
use records::encode::{Plain, write};
use records::entries::Entries;
use records::flow_file::FlowFile;
use records::job_file::JobFile;

// Tables of sets stay words: `set_at` and `find` take them so, and answer for any length (docs/DECISIONS.md).

// The nodes of more join set u, where the table has it.
fn add_set(table: &mut [u64], u: usize, more: NodeSet<SET_WORDS>)
    ensures { (v w : ℕ) → set_at table.new v w ≡ set_at table.old v w || ((eqb v u && member more w) && has_set table.old u) }
{
    let old = set_at(table, u);
    put_set(table, u, old.union(more));
}

// Node b becomes a neighbour of a: its digit is in one word of a's set.
fn join(graph: &mut [u64], a: usize, b: usize)
    requires { (length graph.old ≡ table_words) × (a < capacity) × (b < capacity) }
    ensures { (u v : ℕ) → set_at graph.new u v ≡ set_at graph.old u v || (eqb u a && eqb v b) }
{
    let at = SET_WORDS * a + b / WORD_BITS;
    graph[at] |= mask(b);
}

// Each edge joins both ways.
pub(crate) fn load_graph(edges: &[u8], graph: &mut [u64])
    requires { (length graph.old ≡ table_words) × (all (λ v. ltb v capacity) edges.now ≡ true) }
    ensures { (u v : ℕ) → set_at graph.new u v ≡ has_edge edges.now u v }
{
    clear_table(graph);
    for edge in edges.chunks_exact(2) {
        let a = usize::from(edge[0]);
        let b = usize::from(edge[1]);
        join(graph, a, b);
        join(graph, b, a);
    }
}

// The members of each entry go into its node's set; the answer is the nodes that have an entry. Bytes that are no entries have no set.
fn load_sets(sets: &[u8], table: &mut [u64]) -> NodeSet<SET_WORDS>
    requires { (length table.old ≡ table_words) × (all_entries (entry_below capacity) (listed (entries_of sets.now)) ≡ true) }
    ensures by_index { (u v : ℕ) → set_at table.new u v ≡ set_in (listed (entries_of sets.now)) u v }
    ensures by_index_2 { (u : ℕ) → member result u ≡ entry_in (listed (entries_of sets.now)) u }
{
    clear_table(table);
    let mut entries = NodeSet::empty();
    for e in Entries::of(sets) {
        let u = usize::from(e.node);
        add_set(table, u, set_of(e.members));
        entries = entries.with(u);
    }
    entries
}

// ---- Numbers of the nodes; past those in the file the buffer stays 0.

pub(crate) fn load_bytes(bytes: &[u8], to: &mut [u8])
    requires { (length bytes.now ≤ length to.old) × (to.old ≡ zeros (length to.old)) }
    ensures { (u : ℕ) → get_or to.new u 0 ≡ get_or bytes.now u 0 }
{
    // The writer's copy, which is no call of memmove; that the bytes fit is known.
    let _fits = write(&Plain { bytes }, to);
}

// The layers, whichever kind holds them.
fn load_layers(flow: &FlowFile<'_>, to: &mut [u16])
    requires { (length (flow_held flow.now).layers ≤ length to.old) × (to.old ≡ zeros (length to.old)) }
    ensures { (u : ℕ) → get_or to.new u 0 ≡ get_or (flow_held flow.now).layers u 0 }
{
    for u in 0..flow.layer_count() {
        to[u] = flow.layer_of(u);
    }
}

// ---- Job and flow, for every call.

// The mode to work with: a job with angles, whatever they are, is searched and verified in mode 3.
fn working_mode(job: &JobFile<'_>) -> Mode
    ensures { mode_number result ≡ (working_of (job_held job.now)).mode }
{
    if job.angles.is_some() {
        return Mode::Pauli;
    }
    job.mode
}

// The measurements to work with: those of the file, or those that the angles infer.
pub(crate) fn load_measured(job: &JobFile<'_>, to: &mut [u8])
    requires { IsValidJob (job_held job.now) × (to.old ≡ zeros capacity) }
    ensures { (u : ℕ) → get_or to.new u 0 ≡ get_or (working_of (job_held job.now)).measurements u 0 }
{
    let Some(angles) = job.angles else {
        load_bytes(job.measurements, to);
        return;
    };
    infer_all(job.measurements, angles, to);
}

impl<'a> Job<'a> {
    // The job that was read, over its graph and its measurements. This is the one place that gives the mode to work with; nothing
    // behind it reads the file's.
    pub(crate) fn over(job: &JobFile<'_>, graph: &'a [u64], measured: &'a [u8]) -> Job<'a>
        requires { IsLoaded (job_held job.now) graph.now measured.now }
        ensures job_value { job_loaded result ≡ job_of (job_held job.now) }
        ensures mode_value { mode_number result.mode ≡ (working_of (job_held job.now)).mode }
    {
        Job {
            n: job.n,
            mode: working_mode(job),
            inputs: set_of(job.inputs),
            outputs: set_of(job.outputs),
            graph,
            measured,
        }
    }

    // The node's measurement; past the last it is 0.
    pub(crate) fn measurement_of(&self, u: usize) -> u8
        ensures { result ≡ get_or self.now.measured.now u 0 }
    {
        byte_at(self.measured, u)
    }

    // The nodes whose measurement's byte is low or more.
    pub(crate) fn measured_from(&self, low: u8) -> NodeSet<SET_WORDS>
        ensures { member result ≡ (λ v. within self.now.n v && leb low (get_or self.now.measured.now v 0)) }
    {
        let mut s = NodeSet::empty();
        for v in 0..self.n {
            s = with_if(s, v, low <= self.measurement_of(v));
        }
        s
    }

    // Odd of the set, of whose members the job's nodes count.
    pub(crate) fn odd_of(&self, set: NodeSet<SET_WORDS>) -> NodeSet<SET_WORDS>
        ensures { member result ≡ (λ v. parity self.now.n (λ k. set_at self.now.graph.now k v && member set k)) }
    {
        odd_neighbors(self.graph, set.intersection(NodeSet::below(self.n)))
    }
}

impl Flow<'_> {
    // The node's layer; past the last it is 0.
    pub(crate) fn layer_of(&self, u: usize) -> u16
        ensures { result ≡ get_or self.now.layers.now u 0 }
    {
        self.layers.get(u).copied().unwrap_or(0)
    }

    // The node's set; past the last it is empty.
    pub(crate) fn set_of(&self, u: usize) -> NodeSet<SET_WORDS>
        ensures { member result ≡ set_at self.now.sets.now u }
    {
        set_at(self.sets, u)
    }

    // The nodes of the job that lie in this layer or above it. It stands beside `measured_from`: one function for bytes and layers would need
    // a bound that says what their conversion gives, and would be no plainer.
    fn layers_from(&self, job: &Job<'_>, low: u16) -> NodeSet<SET_WORDS>
        ensures { member result ≡ (λ v. within job.now.n v && leb low (get_or self.now.layers.now v 0)) }
    {
        let mut s = NodeSet::empty();
        for v in 0..job.n {
            s = with_if(s, v, low <= self.layer_of(v));
        }
        s
    }

    // The nodes of the job other than i that are not later than i.
    pub(crate) fn not_later(&self, job: &Job<'_>, i: usize) -> NodeSet<SET_WORDS>
        ensures { member result ≡ (λ v. (within job.now.n v && leb (get_or self.now.layers.now i 0) (get_or self.now.layers.now v 0)) && not (eqb v i)) }
    {
        self.layers_from(job, self.layer_of(i)).without(i)
    }
}

// The set, with v where it is to be put in.
fn with_if(s: NodeSet<SET_WORDS>, v: usize, put: bool) -> NodeSet<SET_WORDS>
    ensures { member result ≡ (λ u. member s u || (put && (eqb u v && leb v highest))) }
{
    if put {
        return s.with(v);
    }
    s
}

// Layers and sets go into the lent buffers; the answer is the nodes that have an entry.
pub(crate) fn load_flow(
    flow: &FlowFile<'_>,
    layers: &mut [u16],
    sets: &mut [u64],
) -> NodeSet<SET_WORDS>
    requires flow_len_bound { (length (flow_held flow.now).layers ≤ capacity) × (all_entries (entry_below capacity) (flow_held flow.now).sets ≡ true) }
    requires layers_value { (layers.old ≡ zeros capacity) × (length sets.old ≡ table_words) }
    ensures { flow_in layers.new result sets.new ≡ flow_of (flow_held flow.now) }
{
    load_layers(flow, layers);
    load_sets(flow.sets, sets)
}
