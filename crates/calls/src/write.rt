// The job writers: an editor's lists, in any order, with angles or without, become the one file of the job that they mean.
ghost use Rattle.std.specs.Prelude.{◌≡◌, true, []};
ghost use Rattle.std.proofs.Math.Option.{none, some};
ghost use Rattle.answers.specs.Answer.{gives};
ghost use Rattle.records.specs.JobLists.{given, lists_ask};
ghost use Rattle.records.specs.Views.{given_held, option_of};
ghost use Rattle.demands.specs.Calls.{owner, write_job_call};
ghost use Rattle.demands.specs.Roles.{writing, called};
ghost use Rattle.calls.specs.Replies.{reply_of};

use crate::OWNER;
use crate::load::load_graph;
use answers::Refusal;
use nodes::utils::{NodeSet, TABLE_WORDS};
use records::common::set_of;
use records::lists::{JobLists, ask_lists};
use records::writer;
use records::writer::edges_len;

// After the questions of each list: a loop or an edge twice leaves fewer edges in the graph than the list has, a node twice fewer
// nodes in its set (21).
fn write_asked(job: &JobLists<'_>, out: &mut [u8]) -> Result<usize, Refusal>
    requires { lists_ask (given_held job.now) ≡ gives true }
    ensures { record { answer = reply_of result; work = []; out = out.new } ≡ write_job_call owner (given_held job.now) out.old }
{
    let nodes = NodeSet::below(job.n);
    // Fixed arrays: what C calls takes no heap.
    let mut graph = [0u64; TABLE_WORDS];
    load_graph(job.edges, &mut graph);
    if edges_len(&graph, nodes) != job.edges.len() {
        return Err(Refusal::GivenTwice);
    }
    let ins = set_of(job.inputs);
    if ins.count() != job.inputs.len() {
        return Err(Refusal::GivenTwice);
    }
    let outs = set_of(job.outputs);
    if outs.count() != job.outputs.len() {
        return Err(Refusal::GivenTwice);
    }
    // ask_lists has seen to it that both fit a byte: n and the mode are what an editor hands over, any numbers.
    writer::write_job(
        out,
        job.n as u8,
        job.mode as u8,
        &graph,
        nodes,
        ins,
        outs,
        job.measurements,
        job.angles,
    )
}

// The angles count where they are given.
#[tactic(auto, unfolding(demands::specs::Calls::write_job_call, demands::specs::Calls::write_job_asks))]
fn write_lists(job: &JobLists<'_>, out: &mut [u8]) -> Result<usize, Refusal>
    ensures { record { answer = reply_of result; work = []; out = out.new } ≡ write_job_call owner (given_held job.now) out.old }
{
    ask_lists(job)?;
    write_asked(job, out)
}

// The lists as they are handed over. They share a lifetime here, and in no public signature, so that the two calls can be handed on as closures.
fn write_given<'a>(
    n: usize,
    mode: usize,
    edges: &'a [u8],
    inputs: &'a [u8],
    outputs: &'a [u8],
    measurements: &'a [u8],
    angles: Option<&'a [u8]>,
    out: &mut [u8],
) -> Result<usize, Refusal>
    ensures { record { answer = reply_of result; work = []; out = out.new } ≡ write_job_call owner (given n mode edges.now inputs.now outputs.now measurements.now (option_of angles.entry)) out.old }
{
    let job = JobLists {
        n,
        mode,
        edges,
        inputs,
        outputs,
        measurements,
        angles,
    };
    write_lists(&job, out)
}

// Without angles it is open to every role.
pub fn write_job(
    role: u64,
    n: usize,
    mode: usize,
    edges: &[u8],
    inputs: &[u8],
    outputs: &[u8],
    measurements: &[u8],
    out: &mut [u8],
) -> Result<usize, Refusal>
    ensures { record { answer = reply_of result; work = []; out = out.new } ≡ called role (writing out.old) (given n mode edges.now inputs.now outputs.now measurements.now none) }
{
    write_given(n, mode, edges, inputs, outputs, measurements, None, out)
}

// With an angle for each node, 8 bytes each; in mode 2 only. Is it the owner who writes them (24)?
pub fn write_job_angles(
    role: u64,
    n: usize,
    mode: usize,
    edges: &[u8],
    inputs: &[u8],
    outputs: &[u8],
    measurements: &[u8],
    angles: &[u8],
    out: &mut [u8],
) -> Result<usize, Refusal>
    ensures { record { answer = reply_of result; work = []; out = out.new } ≡ called role (writing out.old) (given n mode edges.now inputs.now outputs.now measurements.now (some angles.now)) }
{
    if role != OWNER {
        return Err(Refusal::NotTheOwner);
    }
    write_given(
        n,
        mode,
        edges,
        inputs,
        outputs,
        measurements,
        Some(angles),
        out,
    )
}
