// The search for planes and for Paulis, round by round: that for planes is that for Paulis with nobody excused, from round 1 on.
ghost use Rattle.std.specs.Prelude.{◌≡◌, false, ◌≤◌, length};
ghost use Rattle.nodes.specs.NodeSet.{member, capacity};
ghost use Rattle.nodes.specs.Lists.{zeros};
ghost use Rattle.nodes.specs.SetTable.{table_words};
ghost use Rattle.flows.specs.Search.{start};
ghost use Rattle.finder.specs.WorkMatrix.{IsBlank};
ghost use Rattle.finder.specs.Tries.{TablesFit};
ghost use Rattle.finder.specs.Visits.{IsSized, progress_in, cut_to};
ghost use Rattle.answers.specs.Answer.{gives};
ghost use Rattle.answers.specs.Refusals.{given};
ghost use Rattle.finder.specs.Searches.{with_paulis, job_in, progress_at, is_flow, answer_of, search_call};

use crate::job::Job;
pub use crate::job::Rule;
use crate::matrix::Support;
use crate::round::State;
use answers::Refusal;
use nodes::utils::{NodeSet, SET_WORDS, TABLE_WORDS, clear_table};
use solver::column_basis::Basis;
use solver::gf2_linalg::clear;

/// What a search finds, for planes and for Paulis.
#[derive(Clone, Copy, Debug, PartialEq, Eq)]
pub enum Search {
    Flow,
    NoFlow,
}

// At the start the outputs are solved, with layer 0, no node has a set, and nothing is known of the graph by rows.
fn begin(n: usize, outputs: NodeSet<SET_WORDS>, layers: &mut [u16], sets: &mut [u64]) -> State
    requires { (n ≤ capacity) × (length layers.old ≡ capacity) × (length sets.old ≡ table_words) }
    ensures sets_after { progress_in result.solved layers.new sets.new ≡ cut_to n (start (member outputs)) }
    ensures columns_value { (member result.support.columns ≡ (λ k. false)) × (length layers.new ≡ capacity) × (length sets.new ≡ table_words) }
{
    layers.fill(0);
    clear_table(sets);
    let solved = outputs.intersection(NodeSet::below(n));
    let none = NodeSet::empty();
    let support = Support {
        columns: none,
        rows: none,
    };
    State { solved, support }
}

impl Job<'_> {
    // For Paulis rounds start at 0, where no node is later. From round 1 on the outputs and the solved nodes are. A round behind which
    // no more nodes are later ends the search; round 0 only where no node is an output or solved, and round 1 would find the same.
    fn rounds(
        &self,
        work: &mut [u8],
        layers: &mut [u16],
        sets: &mut [u64],
        transposed: &mut [u64],
        basis: &mut Basis<'_>,
    ) -> NodeSet<SET_WORDS>
        requires { IsSized self.now.n self.now.measured.now work.old layers.old sets.old × IsBlank transposed.old × TablesFit basis.old.kernel.now basis.old.reduced.now basis.old.preimage.now }
        ensures sets_after { progress_in result layers.new sets.new ≡ cut_to self.now.n (progress_at (with_paulis self.now.rule) (job_in self.now.n self.now.graph.now self.now.inputs self.now.outputs self.now.measured.now)) }
        ensures sized { IsSized self.now.n self.now.measured.now work.new layers.new sets.new }
    {
        let kinds = self.kinds();
        let mut state = begin(self.n, self.outputs, layers, sets);
        let mut later = state.solved;
        let mut r: u16 = 1;
        if self.rule.with_paulis() {
            later = NodeSet::empty();
            r = 0;
        }
        loop {
            state = self.advance(
                &kinds, later, &state, r, work, layers, sets, transposed, basis,
            );
            let solved = state.solved;
            if solved.same(later) {
                return solved;
            }
            later = solved;
            r += 1;
        }
    }
}

// A node still unsolved at the end means no flow. The work matrix is left zero.
fn conclude(n: usize, solved: NodeSet<SET_WORDS>, work: &mut [u8]) -> Search
    requires { n ≤ capacity }
    ensures result_value { gives (is_flow result) ≡ answer_of n (member solved) }
    ensures work_after { work.new ≡ zeros (length work.old) }
{
    clear(work);
    if NodeSet::below(n).difference(solved).is_empty() {
        return Search::Flow;
    }
    Search::NoFlow
}

/// A layer and a set for each node that is solved, of a job whose nodes are measured in planes, or in planes or Paulis.
pub fn find(
    rule: Rule,
    graph: &[u64],
    n: usize,
    inputs: NodeSet<SET_WORDS>,
    outputs: NodeSet<SET_WORDS>,
    measured: &[u8],
    work: &mut [u8],
    layers: &mut [u16],
    sets: &mut [u64],
) -> Result<Search, Refusal>
    ensures { record { answer = given is_flow result; work = work.new; layers = layers.new; sets = sets.new } ≡ search_call (with_paulis rule) n graph.now inputs outputs measured.now work.old layers.old sets.old }
{
    let job = Job {
        rule,
        n,
        graph,
        inputs,
        outputs,
        measured,
    };
    if !job.fits(work, layers, sets) {
        return Err(Refusal::WrongShape);
    }
    let mut transposed = [0; TABLE_WORDS];
    let mut kernel = [0; TABLE_WORDS];
    let mut reduced = [0; TABLE_WORDS];
    let mut preimage = [0; TABLE_WORDS];
    let mut basis = Basis {
        kernel: &mut kernel,
        reduced: &mut reduced,
        preimage: &mut preimage,
        pivots: NodeSet::empty(),
        free: NodeSet::empty(),
    };
    let solved = job.rounds(work, layers, sets, &mut transposed, &mut basis);
    Ok(conclude(n, solved, work))
}
