// Signal lists: for every node the nodes whose outcomes flip it. Lists are built column by column, a column for each entry.
ghost use Rattle.std.specs.Prelude.{◌≡◌, true, false, cond, [], ℕ, ◌+◌, ◌*◌, ◌/◌, ◌%◌, ◌^◌, ◌≤◌, ◌<◌, T, eqb, length};
ghost use Rattle.nodes.specs.NodeSet.{member, capacity};
ghost use Rattle.nodes.specs.SetTable.{set_at};
ghost use Rattle.nodes.specs.Lists.{has, zeros};
ghost use Rattle.records.specs.JobFile.{nodes_below, rises, job_of};
ghost use Rattle.records.specs.FlowFile.{entries_of, listed, set_in};
ghost use Rattle.records.specs.BitRows.{byte_bits, row_width, with_column};
ghost use Rattle.records.specs.SignalLists.{edited_list, with_signals};
ghost use Rattle.records.specs.Encoding.{flow_file_bytes};
ghost use Rattle.records.specs.Views.{job_held, flow_held};
ghost use Rattle.demands.specs.Calls.{put};
ghost use Rattle.demands.specs.Roles.{adding_lists, called};
ghost use Rattle.calls.specs.Loaded.{flipped_by, list_for, stored_match, set_bit, set_bits, digits_from, odd_among, IsEntriesFor, IsRead};
ghost use Rattle.calls.specs.Replies.{reply_of};

use crate::both::read_both;
use crate::job::Job;
use crate::load::load_graph;
use answers::Refusal;
use nodes::utils::{CAPACITY, NodeSet, SET_WORDS, TABLE_WORDS, set_at};
use records::bit_rows::{BYTE_BITS, row_width};
use records::common::HEAD_BYTES;
use records::entries::Entries;
use records::flow_file::FlowFile;
use records::job_file::JobFile;
use records::signals::{same_bytes, write_signals};

// The bytes of the longest list.
pub(crate) const MOST_LIST: usize = CAPACITY / BYTE_BITS * CAPACITY;

// ---- Bits and columns of a list. A list stays a parameter beside n: the contracts name what the lent buffer holds at the end, and a struct
// around it would owe in each method that it is still the same buffer.

// The mask of bit i within its byte; std has no method for it.
fn byte_mask(i: usize) -> u8
    ensures { result ≡ 2 ^ (i % byte_bits) }
{
    1 << (i % BYTE_BITS)
}

// In a list of n rows bit i becomes 0 in each row.
pub(crate) fn clear_column(list: &mut [u8], n: usize, i: usize)
    requires { (n ≤ capacity) × (i < n) × (length list.old ≡ row_width n * n) }
    ensures { list.new ≡ with_column n i (λ j. false) list.old }
{
    let width = row_width(n);
    let keep = 255 - byte_mask(i);
    for j in 0..n {
        list[width * j + i / BYTE_BITS] &= keep;
    }
}

// In a list with rows of so many bytes bit i of row j becomes 1.
fn set_bit(list: &mut [u8], width: usize, j: usize, i: usize)
    requires { width * j + i / byte_bits < length list.old }
    ensures { list.new ≡ set_bit width i j list.old }
{
    let k = width * j + i / BYTE_BITS;
    list[k] |= byte_mask(i);
}

// The same, unless i is j: no node flips itself.
fn set_other(list: &mut [u8], width: usize, j: usize, i: usize)
    requires { width * j + i / byte_bits < length list.old }
    ensures { list.new ≡ cond (eqb j i) list.old (set_bit width i j list.old) }
{
    if j == i {
        return;
    }
    set_bit(list, width, j, i);
}

// In a list of n rows whose bit i is 0 in each row it becomes 1 in the rows of s.
fn add_column(list: &mut [u8], n: usize, i: usize, s: NodeSet<SET_WORDS>)
    requires n_le_capacity { (n ≤ capacity) × (i < n) × ((j : ℕ) → T (member s j) → j < n) }
    requires list_value { with_column n i (λ j. false) list.old ≡ list.old }
    ensures { list.new ≡ with_column n i (member s) list.old }
{
    let width = row_width(n);
    for j in s.iter() {
        set_bit(list, width, j, i);
    }
}

// Bit i, 0 in each row, becomes 1 in the rows of the members other than i.
fn add_members(list: &mut [u8], n: usize, i: usize, members: &[u8])
    requires n_le_capacity { (n ≤ capacity) × (i < n) × (nodes_below n members.now ≡ true) }
    requires list_value { with_column n i (λ j. false) list.old ≡ list.old }
    ensures { list.new ≡ edited_list n i (has members.now) list.old }
{
    let width = row_width(n);
    for &k in members {
        set_other(list, width, usize::from(k), i);
    }
}

// The nodes with an odd number of neighbours in the list. The graph is a table of words here and below, as `set_at` takes it.
fn odd_of_members(graph: &[u64], members: &[u8]) -> NodeSet<SET_WORDS>
    ensures { member result ≡ (λ v. odd_among (λ k. set_at graph.now k v) members.now) }
{
    let mut odd = NodeSet::empty();
    for &k in members {
        odd = odd.xor(set_at(graph, usize::from(k)));
    }
    odd
}

// ---- The lists of a flow.

// Of an entry: node i flips each member but itself, and each node of Odd but itself.
pub(crate) fn add_entry(
    rows: &mut [u8],
    odds: &mut [u8],
    n: usize,
    graph: &[u64],
    i: usize,
    members: &[u8],
)
    requires n_le_capacity { (n ≤ capacity) × (i < n) × (nodes_below n members.now ≡ true) × (rises 0 members.now ≡ true) }
    requires rows_value { (with_column n i (λ j. false) rows.old ≡ rows.old) × (with_column n i (λ j. false) odds.old ≡ odds.old) }
    ensures rows_after { rows.new ≡ edited_list n i (flipped_by n (set_at graph.now) false (has members.now)) rows.old }
    ensures odds_after { odds.new ≡ edited_list n i (flipped_by n (set_at graph.now) true (has members.now)) odds.old }
{
    add_members(rows, n, i, members);
    let flippable = NodeSet::below(n).without(i);
    let odd = odd_of_members(graph, members);
    add_column(odds, n, i, odd.intersection(flippable));
}

// Two lists of zeros become those of the entries' sets and of Odd of them.
fn add_entries(rows: &mut [u8], odds: &mut [u8], n: usize, graph: &[u64], sets: &[u8])
    requires n_le_capacity { (n ≤ capacity) × IsEntriesFor n sets.now }
    requires rows_value { (rows.old ≡ zeros (row_width n * n)) × (odds.old ≡ zeros (row_width n * n)) }
    ensures rows_after { rows.new ≡ list_for n (set_at graph.now) false (set_in (listed (entries_of sets.now))) }
    ensures odds_after { odds.new ≡ list_for n (set_at graph.now) true (set_in (listed (entries_of sets.now))) }
{
    for e in Entries::of(sets) {
        add_entry(rows, odds, n, graph, usize::from(e.node), e.members);
    }
}

// Are the stored lists, where there are any, those of the flow (22)?
pub(crate) fn lists_match(flow: &FlowFile<'_>, job: &Job<'_>) -> bool
    requires { IsEntriesFor job.now.n (flow.now.sets.now) }
    ensures { result ≡ stored_match job.now.n (set_at job.now.graph.now) (set_in (flow_held flow.now).sets) (flow_held flow.now).signals }
{
    let Some(stored) = flow.signals else {
        return true;
    };
    let n = job.n;
    let size = row_width(n) * n;
    // Fixed arrays: what C calls takes no heap.
    let mut rows = [0u8; MOST_LIST];
    let mut odds = [0u8; MOST_LIST];
    add_entries(
        &mut rows[..size],
        &mut odds[..size],
        n,
        job.graph,
        flow.sets,
    );
    same_bytes(&rows[..size], stored.rows) && same_bytes(&odds[..size], stored.odds)
}

// ---- Adding: the flow file with both lists, anew where they stand.

fn add_read(job: &JobFile<'_>, flow: &FlowFile<'_>, out: &mut [u8]) -> Result<usize, Refusal>
    requires { IsRead job.now flow.now }
    ensures { record { answer = reply_of result; work = []; out = out.new } ≡ put [] (flow_file_bytes (with_signals (job_of (job_held job.now)) (flow_held flow.now))) out.old }
{
    let n = job.n;
    // Fixed arrays: what C calls takes no heap.
    let mut graph = [0u64; TABLE_WORDS];
    load_graph(job.edges, &mut graph);
    let size = row_width(n) * n;
    let mut rows = [0u8; MOST_LIST];
    let mut odds = [0u8; MOST_LIST];
    add_entries(&mut rows[..size], &mut odds[..size], n, &graph, flow.sets);
    let kept = &job.after[..2 * HEAD_BYTES + flow.layers.len() + flow.sets.len()];
    write_signals(out, kept, &rows[..size], &odds[..size])
}

// A job and the flow file behind it: the flow file with its signal lists goes to the lent buffer; a refusal leaves it untouched. Open to
// every role.
#[tactic(auto, unfolding(demands::specs::Calls::add_signals_call))]
pub fn add_signals(role: u64, file: &[u8], out: &mut [u8]) -> Result<usize, Refusal>
    ensures { record { answer = reply_of result; work = []; out = out.new } ≡ called role (adding_lists out.old) file.now }
{
    let (job, flow) = read_both(file)?;
    add_read(&job, &flow, out)
}
