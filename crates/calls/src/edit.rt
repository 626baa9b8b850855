// Editing one node's set: its entry is replaced or put in, and in stored signal lists its bits follow the new set.
ghost use Rattle.std.specs.Prelude.{◌≡◌, true, false, [], ◌*◌, ◌≤◌, ◌<◌, length};
ghost use Rattle.std.proofs.Math.Option.{some};
ghost use Rattle.nodes.specs.NodeSet.{capacity};
ghost use Rattle.nodes.specs.SetTable.{set_at};
ghost use Rattle.nodes.specs.Lists.{has, zeros};
ghost use Rattle.answers.specs.Answer.{gives};
ghost use Rattle.records.specs.JobFile.{job_of};
ghost use Rattle.records.specs.FlowFile.{entry_of, entry_asks};
ghost use Rattle.records.specs.Encoding.{flow_file_bytes, ListsFit};
ghost use Rattle.records.specs.BitRows.{row_width, with_column};
ghost use Rattle.records.specs.SignalLists.{edited_list, edited};
ghost use Rattle.records.specs.Views.{job_held, flow_held, lists_held};
ghost use Rattle.demands.specs.Calls.{put, edit_set_call};
ghost use Rattle.demands.specs.Roles.{editing, called};
ghost use Rattle.calls.specs.Loaded.{flipped_by, IsRead, edited_with};
ghost use Rattle.calls.specs.Replies.{reply_of};

use crate::both::{one_each, read_both};
use crate::load::{load_bytes, load_graph};
use crate::signals::{MOST_LIST, add_entry, clear_column};
use answers::Refusal;
use nodes::utils::TABLE_WORDS;
use records::bit_rows::row_width;
use records::common::{ENTRY_HEAD_BYTES, HEAD_BYTES, byte_at};
use records::entries::Entries;
use records::flow_file::{FlowFile, Signals};
use records::job_file::JobFile;
use records::questions::ask_entry;
use records::signals::write_edited;

// ---- What is written.

// A stored list goes into a buffer of zeros, and there bit i becomes 0 in each row.
fn load_cleared(stored: &[u8], list: &mut [u8], n: usize, i: usize)
    requires { (n ≤ capacity) × (i < n) × (length stored.now ≡ row_width n * n) × (list.old ≡ zeros (row_width n * n)) }
    ensures { list.new ≡ with_column n i (λ j. false) stored.now }
{
    load_bytes(stored, list);
    clear_column(list, n, i);
}

// The sets record around the entry, and both lists where they are stored.
fn write_entry(
    out: &mut [u8],
    job: &JobFile<'_>,
    flow: &FlowFile<'_>,
    entry: &[u8],
    signals: Option<Signals<'_>>,
) -> Result<usize, Refusal>
    requires { IsRead job.now flow.now × (entry_asks job.now.n entry.now ≡ gives true) }
    ensures { record { answer = reply_of result; work = []; out = out.new } ≡ put [] (flow_file_bytes (edited_with (flow_held flow.now) (entry_of entry.now) (lists_held signals.entry))) out.old }
{
    let (before, behind) = Entries::of(flow.sets).around(usize::from(byte_at(entry, 0)));
    let kept = &job.after[..HEAD_BYTES + flow.layers.len()];
    write_edited(out, kept, before, entry, behind, signals)
}

// Both stored lists go into buffers of zeros; there the bits of the entry's node follow its set.
fn edit_lists(
    rows: &mut [u8],
    odds: &mut [u8],
    n: usize,
    graph: &[u64],
    stored: &Signals<'_>,
    entry: &[u8],
)
    requires n_le_capacity { (n ≤ capacity) × (entry_asks n entry.now ≡ gives true) × ListsFit n (some (stored.now.rows.now, stored.now.odds.now)) }
    requires rows_value { (rows.old ≡ zeros (row_width n * n)) × (odds.old ≡ zeros (row_width n * n)) }
    ensures rows_after { rows.new ≡ edited_list n (entry_of entry.now).node (has (entry_of entry.now).set) stored.now.rows.now }
    ensures odds_after { odds.new ≡ edited_list n (entry_of entry.now).node (flipped_by n (set_at graph.now) true (has (entry_of entry.now).set)) stored.now.odds.now }
{
    let i = usize::from(byte_at(entry, 0));
    load_cleared(stored.rows, rows, n, i);
    load_cleared(stored.odds, odds, n, i);
    add_entry(rows, odds, n, graph, i, &entry[ENTRY_HEAD_BYTES..]);
}

// With stored lists.
fn edit_listed(
    job: &JobFile<'_>,
    flow: &FlowFile<'_>,
    stored: &Signals<'_>,
    entry: &[u8],
    out: &mut [u8],
) -> Result<usize, Refusal>
    requires { IsRead job.now flow.now × (entry_asks job.now.n entry.now ≡ gives true) × ((flow_held flow.now).signals ≡ some (stored.now.rows.now, stored.now.odds.now)) }
    ensures { record { answer = reply_of result; work = []; out = out.new } ≡ put [] (flow_file_bytes (edited (job_of (job_held job.now)) (entry_of entry.now) (flow_held flow.now))) out.old }
{
    let n = job.n;
    // Fixed arrays: what C calls takes no heap.
    let mut graph = [0u64; TABLE_WORDS];
    load_graph(job.edges, &mut graph);
    let size = row_width(n) * n;
    let mut rows = [0u8; MOST_LIST];
    let mut odds = [0u8; MOST_LIST];
    edit_lists(
        &mut rows[..size],
        &mut odds[..size],
        n,
        &graph,
        stored,
        entry,
    );
    let lists = Signals {
        rows: &rows[..size],
        odds: &odds[..size],
    };
    write_entry(out, job, flow, entry, Some(lists))
}

fn edit_read(
    job: &JobFile<'_>,
    flow: &FlowFile<'_>,
    entry: &[u8],
    out: &mut [u8],
) -> Result<usize, Refusal>
    requires { IsRead job.now flow.now × (entry_asks job.now.n entry.now ≡ gives true) }
    ensures { record { answer = reply_of result; work = []; out = out.new } ≡ put [] (flow_file_bytes (edited (job_of (job_held job.now)) (entry_of entry.now) (flow_held flow.now))) out.old }
{
    let Some(stored) = flow.signals else {
        return write_entry(out, job, flow, entry, None);
    };
    edit_listed(job, flow, &stored, entry, out)
}

// ---- The call.

// A job and the flow file behind it, and one entry: the flow file with that entry goes to the lent buffer; a refusal leaves it untouched. Open
// to every role. Of the lent entry: is it one (3), are its nodes below n (5), do its members ascend (6), has it one member in mode 1 (9)?
#[tactic(auto, unfolding(demands::specs::Calls::edit_set_call, demands::specs::Calls::edit_asks))]
pub fn edit_set(role: u64, file: &[u8], entry: &[u8], out: &mut [u8]) -> Result<usize, Refusal>
    ensures { record { answer = reply_of result; work = []; out = out.new } ≡ called role (editing entry.now out.old) file.now }
{
    let (job, flow) = read_both(file)?;
    ask_entry(entry, job.n)?;
    if !one_each(job.mode, entry) {
        return Err(Refusal::NotOneMember);
    }
    edit_read(&job, &flow, entry, out)
}
