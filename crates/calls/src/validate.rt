// The questions on a flow's domain and layers, 13 to 16 of document 01, and what the three definitions share.
ghost use Rattle.std.specs.Prelude.{◌≡◌, ◌<◌, cond, ◌||◌, eqb, ltb};
ghost use Rattle.nodes.specs.NodeSet.{member, capacity};
ghost use Rattle.flows.specs.Job.{own};
ghost use Rattle.flows.specs.Numbers.{mode_number};
ghost use Rattle.verdicts.specs.Verdict.{ask, each, measured_ask, input_ask, domain_ask, check_domain, check_initial};
ghost use Rattle.records.specs.JobFile.{mode_pauli};
ghost use Rattle.answers.specs.Refusals.{asked_of};
ghost use Rattle.calls.specs.Loaded.{job_loaded, flow_loaded, first_in};

use crate::job::{Flow, Job};
use answers::Refusal;
use flows::mode::Mode;
use flows::{PAULI_X, PAULI_Y, PAULI_Z, PLANE_XY, PLANE_XZ, PLANE_YZ};
use nodes::utils::{NodeSet, SET_WORDS};

// ---- Questions that more than one definition asks. A node goes into a refusal by a cast: it lies below capacity, so it fits the byte, and usize has no From to u8.

// Question 18 of node i: the least of the nodes that should be later and are not.
#[tactic(auto, unfolding(crate::specs::Loaded::first_in))]
pub(crate) fn in_order(i: usize, early: NodeSet<SET_WORDS>) -> Result<(), Refusal>
    requires { i < capacity }
    ensures { asked_of result ≡ first_in (member early) (λ k. record { number = 18; a = i; b = k }) }
{
    if early.is_empty() {
        return Ok(());
    }
    Err(Refusal::InconsistentFlowOrder {
        node: i as u8,
        other: early.lowest() as u8,
    })
}

// Does a node's own measurement hold, by whether it is in its set and in Odd of it? The measurement is a byte, since `own` is defined of any,
// also of an output's 0.
pub(crate) fn own_holds(measurement: u8, inside: bool, odd: bool) -> bool
    ensures { result ≡ own measurement inside odd }
{
    match measurement {
        PLANE_XY => !inside && odd,
        PLANE_YZ => inside && !odd,
        PLANE_XZ => inside && odd,
        PAULI_X => odd,
        PAULI_Y => inside != odd,
        PAULI_Z => inside,
        _ => false,
    }
}

// Has each entry a measurement (17)?
pub(crate) fn check_measured(job: &Job<'_>, flow: &Flow<'_>) -> Result<(), Refusal>
    ensures { asked_of result ≡ each job.now.n (measured_ask (job_loaded job.now) (flow_loaded flow.now)) }
{
    let all = NodeSet::below(job.n);
    let some = job.measured_from(PLANE_XY);
    let bare = flow.entries.intersection(all).difference(some);
    if bare.is_empty() {
        return Ok(());
    }
    Err(Refusal::InvalidMeasurementSpec {
        node: bare.lowest() as u8,
    })
}

// ---- Domain and layers.

// Is each member no input, the node itself excepted (13)?
fn check_codomain(job: &Job<'_>, flow: &Flow<'_>) -> Result<(), Refusal>
    ensures { asked_of result ≡ each job.now.n (λ u. each job.now.n (input_ask (job_loaded job.now) (flow_loaded flow.now) u)) }
{
    for u in 0..job.n {
        let all = NodeSet::below(job.n);
        let wrong = flow
            .set_of(u)
            .intersection(job.inputs)
            .intersection(all)
            .without(u);
        if !wrong.is_empty() {
            return Err(Refusal::InvalidFlowCodomain { node: u as u8 });
        }
    }
    Ok(())
}

// Are the nodes with a non-empty set exactly the non-outputs (14)?
fn check_members(job: &Job<'_>, flow: &Flow<'_>) -> Result<(), Refusal>
    ensures { asked_of result ≡ each job.now.n (domain_ask (job_loaded job.now) (flow_loaded flow.now)) }
{
    for u in 0..job.n {
        let all = NodeSet::below(job.n);
        let empty = flow.set_of(u).intersection(all).is_empty();
        if empty != job.outputs.has(u) {
            return Err(Refusal::InvalidFlowDomain { node: u as u8 });
        }
    }
    Ok(())
}

pub(crate) fn check_domain(job: &Job<'_>, flow: &Flow<'_>) -> Result<(), Refusal>
    ensures { asked_of result ≡ check_domain (job_loaded job.now) (flow_loaded flow.now) }
{
    check_codomain(job, flow)?;
    check_members(job, flow)
}

// An output lies in layer 0 (15); another node lies above it, where the mode asks that (16).
#[tactic(auto, unfolding(verdicts::specs::Verdict::ask))]
fn check_layer(mode: Mode, output: bool, u: usize, layer: u16) -> Result<(), Refusal>
    requires { u < capacity }
    ensures { asked_of result ≡ cond output (ask (eqb layer 0) 15 u layer) (ask (eqb (mode_number mode) mode_pauli || ltb 0 layer) 16 u 0) }
{
    if output && layer != 0 {
        return Err(Refusal::ExcessiveNonZeroLayer {
            node: u as u8,
            layer,
        });
    }
    if !output && !matches!(mode, Mode::Pauli) && layer == 0 {
        return Err(Refusal::ExcessiveZeroLayer { node: u as u8 });
    }
    Ok(())
}

#[tactic(auto, using(crate::proofs::Asking::each_step, crate::proofs::Asking::each_end))]
pub(crate) fn check_initial(job: &Job<'_>, flow: &Flow<'_>) -> Result<(), Refusal>
    ensures { asked_of result ≡ check_initial (job_loaded job.now) (flow_loaded flow.now) (mode_number job.now.mode) }
{
    for u in 0..job.n {
        check_layer(job.mode, job.outputs.has(u), u, flow.layer_of(u))?;
    }
    Ok(())
}
