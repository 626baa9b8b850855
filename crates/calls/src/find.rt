// The finder: a job file is read and searched, and a flow file or 0013 is written.
ghost use Rattle.std.specs.Prelude.{◌≡◌, true, not, ◌||◌, ◌≤◌, eqb, length};
ghost use Rattle.nodes.specs.NodeSet.{member, capacity};
ghost use Rattle.nodes.specs.SetTable.{table_words};
ghost use Rattle.nodes.specs.Lists.{zeros};
ghost use Rattle.flows.specs.Numbers.{mode_number};
ghost use Rattle.finder.specs.Searches.{with_paulis, planes_given};
ghost use Rattle.records.specs.JobFile.{mode_planes, mode_pauli};
ghost use Rattle.records.specs.Encoding.{IsValidJob};
ghost use Rattle.records.specs.Views.{job_held};
ghost use Rattle.records.specs.Splice.{put_front, put_answer};
ghost use Rattle.records.specs.Writing.{flow_bytes};
ghost use Rattle.solver.specs.Solver.{work_bytes};
ghost use Rattle.demands.specs.Calls.{progress_by_mode, found_bytes, put, find_call};
ghost use Rattle.demands.specs.Roles.{finding, called};
ghost use Rattle.calls.specs.Loaded.{job_loaded};
ghost use Rattle.calls.specs.Replies.{reply_of, records_for};

use crate::job::Job;
use crate::load::{load_graph, load_measured};
use crate::write_bare;
use answers::Refusal;
use finder::search;
use finder::search::{Rule, Search};
use flows::mode::Mode;
use nodes::utils::{CAPACITY, NodeSet, TABLE_WORDS};
use records::common::KIND_NO_FLOW;
use records::job_file::{JobFile, read_job};
use records::writer::write_flow;
use solver::gf2_linalg::WORK_BYTES;

// The flow file of a finished search: an entry for each node that is no output.
fn write_found(
    job: &Job<'_>,
    layers: &[u16],
    sets: &[u64],
    out: &mut [u8],
) -> Result<usize, Refusal>
    requires { job.now.n ≤ length layers.now }
    ensures result_value { reply_of result ≡ put_answer (records_for job.now.n (member job.now.outputs) layers.now sets.now) out.old }
    ensures out_after { out.new ≡ put_front (records_for job.now.n (member job.now.outputs) layers.now sets.now) out.old }
{
    let nodes = NodeSet::below(job.n).difference(job.outputs);
    write_flow(out, &layers[0..job.n], sets, nodes)
}

fn rule_of(mode: Mode) -> Rule
    ensures { with_paulis result ≡ not (eqb (mode_number mode) mode_planes) }
{
    match mode {
        Mode::Planes => Rule::Planes,
        Mode::Causal | Mode::Pauli => Rule::Paulis,
    }
}

// The search on a job that was loaded, mode 2 by planes and mode 3 by Paulis, and what is written of it.
fn find_loaded(job: &Job<'_>, work: &mut [u8], out: &mut [u8]) -> Result<usize, Refusal>
    requires work_fits { length work.old ≡ work_bytes }
    requires measured_value { (not (eqb (mode_number job.now.mode) mode_planes) || planes_given (job_loaded job.now)) ≡ true }
    ensures { record { answer = reply_of result; work = work.new; out = out.new } ≡ put (zeros work_bytes) (flow_bytes (job_loaded job.now) (progress_by_mode (mode_number job.now.mode) (job_loaded job.now))) out.old }
{
    // Fixed arrays: what C calls takes no heap.
    let mut layers = [0u16; CAPACITY];
    let mut sets = [0u64; TABLE_WORDS];
    // No job is refused here: the questions before the search see to the arguments.
    match search::find(
        rule_of(job.mode),
        job.graph,
        job.n,
        job.inputs,
        job.outputs,
        job.measured,
        work,
        &mut layers,
        &mut sets,
    )? {
        Search::Flow => write_found(job, &layers, &sets, out),
        Search::NoFlow => write_bare(out, KIND_NO_FLOW),
    }
}

// The search on a job that passed all questions before it.
fn find_job(job: &JobFile<'_>, work: &mut [u8], out: &mut [u8]) -> Result<usize, Refusal>
    requires { IsValidJob (job_held job.now) × (length work.old ≡ work_bytes) }
    ensures { record { answer = reply_of result; work = work.new; out = out.new } ≡ put (zeros work_bytes) (found_bytes (job_held job.now)) out.old }
{
    // Fixed arrays: what C calls takes no heap.
    let mut graph = [0u64; TABLE_WORDS];
    let mut measured = [0u8; CAPACITY];
    load_graph(job.edges, &mut graph);
    load_measured(job, &mut measured);
    find_loaded(&Job::over(job, &graph, &measured), work, out)
}

// Is the mode 2 or 3? Asked of the file's own mode: whether there is a search is decided before one knows what to work with.
fn has_search(mode: Mode) -> bool
    ensures { result ≡ (eqb (mode_number mode) mode_planes || eqb (mode_number mode) mode_pauli) }
{
    matches!(mode, Mode::Planes | Mode::Pauli)
}

// Is nothing left (8)? Is the mode 2 or 3 (10)? Is the work buffer right (11)? Open to every role.
#[tactic(auto, using(crate::proofs::Finding::find_goes), unfolding(demands::specs::Calls::find_call, demands::specs::Calls::find_asks))]
pub fn find(role: u64, file: &[u8], work: &mut [u8], out: &mut [u8]) -> Result<usize, Refusal>
    ensures { record { answer = reply_of result; work = work.new; out = out.new } ≡ called role (finding work.old out.old) file.now }
{
    let job = read_job(file)?;
    if !job.after.is_empty() {
        return Err(Refusal::BytesLeft);
    }
    if !has_search(job.mode) {
        return Err(Refusal::ModeNotSearched);
    }
    if work.len() != WORK_BYTES {
        return Err(Refusal::WrongShape);
    }
    find_job(&job, work, out)
}
