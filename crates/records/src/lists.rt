// What is asked of an editor's lists, of each in turn: questions 3, 4, 5, 7 and 23.
ghost use Rattle.std.specs.Prelude.{◌≡◌};
ghost use Rattle.nodes.specs.Lists.{has};
ghost use Rattle.nodes.specs.NodeSet.{member};
ghost use Rattle.flows.specs.Numbers.{mode_number};
ghost use Rattle.records.specs.JobLists.{angles_given, lists_ask};
ghost use Rattle.answers.specs.Refusals.{passed};
ghost use Rattle.records.specs.Views.{option_of, given_held};

use crate::common::set_of;
use crate::questions::{
    Measurements, Outputs, Questions, ask_angles, below, has_angles, mode_of, opening_allowed,
};
use answers::Refusal;
use flows::mode::Mode;
use nodes::utils::{NodeSet, SET_WORDS};

// A job as an editor holds it: its lists in any order, and the angles where they are given. The mode may be any number: question 4
// asks for it, as it does for n.
#[derive(Clone, Copy, Debug, PartialEq, Eq)]
pub struct JobLists<'a> {
    pub n: usize,
    pub mode: usize,
    pub edges: &'a [u8],
    pub inputs: &'a [u8],
    pub outputs: &'a [u8],
    pub measurements: &'a [u8],
    pub angles: Option<&'a [u8]>,
}

// Angles, where they are given, go with mode 2 only (4); then 3 and 23.
#[tactic(auto, unfolding(crate::specs::JobLists::angles_given))]
fn ask_given(
    angles: Option<&[u8]>,
    mode: Mode,
    outputs: &Outputs<'_>,
    set: NodeSet<SET_WORDS>,
) -> Result<(), Refusal>
    requires { member set ≡ has outputs.now.nodes.now }
    ensures { passed result ≡ angles_given outputs.now.n (mode_number mode) (has outputs.now.nodes.now) (option_of angles.entry) }
{
    let Some(angles) = angles else {
        return Ok(());
    };
    if !has_angles(mode) {
        return Err(Refusal::WrongOpening);
    }
    ask_angles(outputs.n, set, angles)
}

#[tactic(auto, unfolding(crate::specs::JobLists::lists_ask))]
pub fn ask_lists(job: &JobLists<'_>) -> Result<(), Refusal>
    ensures { passed result ≡ lists_ask (given_held job.now) }
{
    let n = job.n;
    if !opening_allowed(n, job.mode) {
        return Err(Refusal::WrongOpening);
    }
    if job.edges.len() % 2 != 0 {
        return Err(Refusal::WrongLength);
    }
    if !below(job.edges, n) || !below(job.inputs, n) || !below(job.outputs, n) {
        return Err(Refusal::NodeTooLarge);
    }
    // Made once, for 7 and 23: a list may be long, since a node may stand in it often.
    let set = set_of(job.outputs);
    let outputs = Outputs {
        n,
        nodes: job.outputs,
        distinct: set.count(),
    };
    let mode = mode_of(job.mode as u8);
    Measurements { mode, outputs }.ask(job.measurements)?;
    ask_given(job.angles, mode, &outputs, set)
}
