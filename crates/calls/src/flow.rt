// Checking a causal flow, mode 1 of document 01.
ghost use Rattle.std.specs.Prelude.{◌≡◌, ◌<◌};
ghost use Rattle.nodes.specs.NodeSet.{capacity};
ghost use Rattle.records.specs.JobFile.{mode_causal};
ghost use Rattle.verdicts.specs.Verdict.{each, causal_ask, definition_ask};
ghost use Rattle.answers.specs.Refusals.{asked_of};
ghost use Rattle.calls.specs.Loaded.{job_loaded, flow_loaded};

use crate::job::{Flow, Job};
use crate::validate::in_order;
use answers::Refusal;
use nodes::utils::{NodeSet, set_at};

// A node goes into a refusal by a cast: it lies below capacity, so it fits the byte, and usize has no From to u8.

// Node i with f(i) = k: is f(i) later, are its neighbours other than i later, are the two adjacent (18)?
fn check_pair(job: &Job<'_>, flow: &Flow<'_>, i: usize, k: usize) -> Result<(), Refusal>
    requires { (i < capacity) × (k < capacity) }
    ensures { asked_of result ≡ causal_ask (job_loaded job.now) (flow_loaded flow.now) i k }
{
    if flow.layer_of(k) >= flow.layer_of(i) {
        return Err(Refusal::InconsistentFlowOrder {
            node: i as u8,
            other: k as u8,
        });
    }
    let around = set_at(job.graph, k);
    in_order(i, around.intersection(flow.not_later(job, i)))?;
    if !around.has(i) {
        return Err(Refusal::InconsistentFlowOrder {
            node: i as u8,
            other: k as u8,
        });
    }
    Ok(())
}

// Node i, where it is no output, with each member of its set: there is one, by question 9.
fn check_node(job: &Job<'_>, flow: &Flow<'_>, i: usize) -> Result<(), Refusal>
    requires { i < capacity }
    ensures { asked_of result ≡ definition_ask (job_loaded job.now) (flow_loaded flow.now) mode_causal i }
{
    if job.outputs.has(i) {
        return Ok(());
    }
    let s = flow.set_of(i).intersection(NodeSet::below(job.n));
    for k in s.iter() {
        check_pair(job, flow, i, k)?;
    }
    Ok(())
}

#[tactic(auto, using(crate::proofs::Asking::each_step, crate::proofs::Asking::each_end))]
pub(crate) fn check_nodes(job: &Job<'_>, flow: &Flow<'_>) -> Result<(), Refusal>
    ensures { asked_of result ≡ each job.now.n (definition_ask (job_loaded job.now) (flow_loaded flow.now) mode_causal) }
{
    for i in 0..job.n {
        check_node(job, flow, i)?;
    }
    Ok(())
}
