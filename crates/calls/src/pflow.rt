// Checking a generalized flow or a Pauli flow, modes 2 and 3 of document 01: mode 2 is mode 3 with nobody excused.
ghost use Rattle.std.specs.Prelude.{◌≡◌, false, ◌<◌, eqb};
ghost use Rattle.nodes.specs.NodeSet.{member, capacity};
ghost use Rattle.flows.specs.Job.{own};
ghost use Rattle.flows.specs.Numbers.{mode_number};
ghost use Rattle.records.specs.JobFile.{mode_causal, mode_pauli};
ghost use Rattle.verdicts.specs.Verdict.{ask, ◌next◌, each, definition_ask};
ghost use Rattle.answers.specs.Refusals.{asked_of};
ghost use Rattle.calls.specs.Loaded.{job_loaded, flow_loaded, first_in, IsExcusedBy};

use crate::job::{Flow, Job};
use crate::validate::{in_order, own_holds};
use answers::Refusal;
use flows::mode::Mode;
use flows::{PAULI_X, PAULI_Y, PAULI_Z};
use nodes::utils::{NodeSet, SET_WORDS};

// The nodes that need not be later: as members those measured X or Y, in Odd those measured Y or Z. Of the Y nodes question 19
// asks instead. In mode 2 there are none of them.
#[derive(Clone, Copy, Debug, PartialEq, Eq)]
struct Excused {
    members: NodeSet<SET_WORDS>,
    odds: NodeSet<SET_WORDS>,
    ys: NodeSet<SET_WORDS>,
}

// Does the mode have nodes that need not be later?
fn excuses(mode: Mode) -> bool
    ensures { result ≡ eqb (mode_number mode) mode_pauli }
{
    matches!(mode, Mode::Pauli)
}

fn excused_by(job: &Job<'_>) -> Excused
    ensures { IsExcusedBy job.now result }
{
    if !excuses(job.mode) {
        let none = NodeSet::empty();
        return Excused {
            members: none,
            odds: none,
            ys: none,
        };
    }
    let x = job.measured_from(PAULI_X);
    let y = job.measured_from(PAULI_Y);
    let z = job.measured_from(PAULI_Z);
    let past = job.measured_from(PAULI_Z + 1);
    Excused {
        members: x.difference(z),
        odds: y.difference(past),
        ys: y.difference(z),
    }
}

// A node goes into a refusal by a cast: it lies below capacity, so it fits the byte, and usize has no From to u8.

// Question 19 of the Y nodes other than i that are in just one of set and Odd, and of i's own measurement.
fn check_measurement(
    i: usize,
    measurement: u8,
    set: NodeSet<SET_WORDS>,
    odd: NodeSet<SET_WORDS>,
    wrong: NodeSet<SET_WORDS>,
) -> Result<(), Refusal>
    requires { i < capacity }
    ensures { asked_of result ≡ (first_in (member wrong) (λ k. record { number = 19; a = i; b = 0 }) next ask (own measurement (member set i) (member odd i)) 19 i 0) }
{
    if !wrong.is_empty() {
        return Err(Refusal::InconsistentFlowPlane { node: i as u8 });
    }
    if !own_holds(measurement, set.has(i), odd.has(i)) {
        return Err(Refusal::InconsistentFlowPlane { node: i as u8 });
    }
    Ok(())
}

// Node i, where it is no output: is each member other than i later or excused, and each node of Odd (18)? Do the Y nodes and
// its own measurement hold (19)?
fn check_node(job: &Job<'_>, flow: &Flow<'_>, excused: &Excused, i: usize) -> Result<(), Refusal>
    requires node_below { (i < capacity) × (eqb (mode_number job.now.mode) mode_causal ≡ false) }
    requires excused_by { IsExcusedBy job.now excused.now }
    ensures { asked_of result ≡ definition_ask (job_loaded job.now) (flow_loaded flow.now) (mode_number job.now.mode) i }
{
    if job.outputs.has(i) {
        return Ok(());
    }
    let early = flow.not_later(job, i);
    let set = flow.set_of(i);
    in_order(i, set.intersection(early.difference(excused.members)))?;
    let odd = job.odd_of(set);
    in_order(i, odd.intersection(early.difference(excused.odds)))?;
    let wrong = set.xor(odd).intersection(excused.ys).intersection(early);
    check_measurement(i, job.measurement_of(i), set, odd, wrong)
}

#[tactic(auto, using(crate::proofs::Asking::each_step, crate::proofs::Asking::each_end))]
pub(crate) fn check_nodes(job: &Job<'_>, flow: &Flow<'_>) -> Result<(), Refusal>
    requires { eqb (mode_number job.now.mode) mode_causal ≡ false }
    ensures { asked_of result ≡ each job.now.n (definition_ask (job_loaded job.now) (flow_loaded flow.now) (mode_number job.now.mode)) }
{
    let excused = excused_by(job);
    for i in 0..job.n {
        check_node(job, flow, &excused, i)?;
    }
    Ok(())
}
