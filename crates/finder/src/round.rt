// A round: one elimination serves all its nodes, which are visited one after the other.
ghost use Rattle.std.specs.Prelude.{◌≡◌, ℕ, ◌≤◌, ◌<◌, length, get_or, T, eqb};
ghost use Rattle.nodes.specs.NodeSet.{member, capacity};
ghost use Rattle.nodes.specs.SetTable.{table_words};
ghost use Rattle.solver.specs.Solver.{work_bytes};
ghost use Rattle.solver.specs.BasisCalls.{TablesSolve, solution_of};
ghost use Rattle.finder.specs.WorkMatrix.{context_of, HasRowsApart, Reaches, IsTransposed};
ghost use Rattle.finder.specs.Tries.{round_system, TablesFit, try_for};
ghost use Rattle.finder.specs.Visits.{IsSized, IsRoundContext, unsolved, progress_in, cut_to, placed, visited};
ghost use Rattle.finder.specs.Searches.{with_paulis, IsKindsOf, IsAdvanced};

use crate::branch::Round;
use crate::job::{Job, Kinds};
use crate::matrix::{Context, Support, fill, transpose};
use nodes::utils::{NodeSet, SET_WORDS, put_set};
use solver::column_basis::Basis;

// How far a search has come, layers and sets aside: the solved nodes, and what is known of the graph by rows.
#[derive(Clone, Copy)]
pub(crate) struct State {
    pub(crate) solved: NodeSet<SET_WORDS>,
    pub(crate) support: Support,
}

// The round's equations are laid out once, and their columns brought to a basis in the lent tables. A row at which no column has
// a bit is left out.
fn open_round(
    work: &mut [u8],
    transposed: &[u64],
    s: &Context,
    rows: NodeSet<SET_WORDS>,
    basis: &mut Basis<'_>,
)
    requires { (length work.old ≡ work_bytes) × HasRowsApart s.now × TablesFit basis.old.kernel.now basis.old.reduced.now basis.old.preimage.now × Reaches transposed.now s.now rows }
    ensures tables_solve { TablesSolve (round_system transposed.now s.now) (record { pivots = basis.new.pivots; free = basis.new.free }) basis.new.kernel.now basis.new.reduced.now basis.new.preimage.now }
    ensures work_len { (length work.new ≡ work_bytes) × TablesFit basis.new.kernel.now basis.new.reduced.now basis.new.preimage.now }
{
    let upper = s.upper.intersection(rows);
    let lower = s.lower;
    let columns = s.columns;
    let filled = Context {
        columns,
        upper,
        lower,
    };
    fill(work, transposed, &filled);
    match basis.form(work, upper, lower, columns) {
        Ok(()) => {}
        // the equations fit, so this does not come about
        Err(_) => {}
    }
}

// A node whose try gave a set is solved: it takes the round as layer, and its set.
fn place(
    solved: NodeSet<SET_WORDS>,
    u: usize,
    r: u16,
    t: Option<NodeSet<SET_WORDS>>,
    layers: &mut [u16],
    sets: &mut [u64],
) -> NodeSet<SET_WORDS>
    requires { (u < capacity) × (length layers.old ≡ capacity) × (length sets.old ≡ table_words) }
    ensures sets_after { progress_in result layers.new sets.new ≡ placed u r (solution_of t) (progress_in solved layers.old sets.old) }
    ensures layers_len { (length layers.new ≡ capacity) × (length sets.new ≡ table_words) }
{
    match t {
        Some(s) => {
            layers[u] = r;
            put_set(sets, u, s);
            solved.with(u)
        }
        None => solved,
    }
}

impl Round<'_> {
    // Each unsolved node is visited, in ascending order. All of them meet the sets of the round's start: the nodes that are solved here
    // are no columns before the next round. A node in XY has an answer only if its row is a pivot.
    fn visit(
        &self,
        measured: &[u8],
        plain: NodeSet<SET_WORDS>,
        solved: NodeSet<SET_WORDS>,
        r: u16,
        layers: &mut [u16],
        sets: &mut [u64],
    ) -> NodeSet<SET_WORDS>
        requires { IsRoundContext self.now.n measured.now solved self.now.context plain × (self.now.n ≤ length measured.now) × (length layers.old ≡ capacity) × (length sets.old ≡ table_words) }
        ensures sets_after { progress_in result layers.new sets.new ≡ visited (unsolved self.now.n (member solved)) (λ u. try_for self.now.n self.now.graph.now (context_of self.now.context) u (get_or measured.now u 0)) r (progress_in solved layers.old sets.old) }
        ensures layers_len { (length layers.new ≡ capacity) × (length sets.new ≡ table_words) }
    {
        let all = NodeSet::below(self.n).difference(solved);
        let left = all.difference(plain.difference(self.basis.pivots));
        let mut q = solved;
        for u in left.iter() {
            let t = self.try_for(u, measured[u]);
            q = place(q, u, r, t, layers, sets);
        }
        q
    }
}

impl Job<'_> {
    // One round, with the nodes that are later than all of it, solved ones. Where nothing is unsolved it would solve nothing. The buffers
    // stand apart, since the contract of `find` says what each of them holds in the end.
    pub(crate) fn advance(
        &self,
        kinds: &Kinds,
        later: NodeSet<SET_WORDS>,
        state: &State,
        r: u16,
        work: &mut [u8],
        layers: &mut [u16],
        sets: &mut [u64],
        transposed: &mut [u64],
        basis: &mut Basis<'_>,
    ) -> State
        requires sized { IsSized self.now.n self.now.measured.now work.old layers.old sets.old × TablesFit basis.old.kernel.now basis.old.reduced.now basis.old.preimage.now × IsTransposed self.now.graph.now state.now.support transposed.old }
        requires kinds_of { IsKindsOf (with_paulis self.now.rule) self.now.n self.now.measured.now kinds.now × ((v : ℕ) → T (member later v) → T (member state.now.solved v)) × (progress_in state.now.solved layers.old sets.old ≡ cut_to self.now.n (progress_in state.now.solved layers.old sets.old)) }
        ensures advanced { IsAdvanced (with_paulis self.now.rule) self.now.n self.now.graph.now self.now.inputs self.now.measured.now (member later) r (progress_in state.now.solved layers.old sets.old) (progress_in result.solved layers.new sets.new) }
        ensures sized_2 { IsSized self.now.n self.now.measured.now work.new layers.new sets.new × TablesFit basis.new.kernel.now basis.new.reduced.now basis.new.preimage.now × IsTransposed self.now.graph.now result.support transposed.new }
    {
        let s = self.context(kinds, later);
        let columns = s.columns;
        let unsolved = NodeSet::below(self.n).difference(state.solved);
        if unsolved.is_empty() {
            return *state;
        }
        let support = transpose(self.graph, &state.support, columns, transposed);
        open_round(work, transposed, &s, support.rows, basis);
        let round = Round {
            n: self.n,
            graph: self.graph,
            transposed,
            context: s,
            basis: &basis.view(),
        };
        let solved = round.visit(self.measured, kinds.plain, state.solved, r, layers, sets);
        State { solved, support }
    }
}
