// The tries of a node in an open round: the equations of a branch have a right side of their own, and at most one row more.
ghost use Rattle.std.specs.Prelude.{◌≡◌, map, not, ◌&&◌, ◌<◌, eqb};
ghost use Rattle.nodes.specs.NodeSet.{member, capacity};
ghost use Rattle.solver.specs.BasisCalls.{solution_of};
ghost use Rattle.flows.specs.Branch.{branches, in_set, in_odd, with_node, try_branch};
ghost use Rattle.flows.specs.Numbers.{branch_number};
ghost use Rattle.flows.specs.Round.{for_node, has_row};
ghost use Rattle.finder.specs.WorkMatrix.{context_of};
ghost use Rattle.finder.specs.Tries.{graph_job, side_bit, asked_columns, IsReady, IsTrying, try_for};

use crate::matrix::Context;
use flows::measurement::{Branch, Measurement};
use nodes::utils::{NodeSet, SET_WORDS, set_at};
use solver::column_basis::BasisView;

// The branches of a measurement by its number; 0 and numbers above 6 have none.
fn branches(number: u8) -> &'static [Branch]
    ensures { map branch_number result.now ≡ branches number }
{
    match Measurement::try_from(number) {
        Ok(measurement) => measurement.branches(),
        Err(_) => &[],
    }
}

// ---- a try
// Odd of the set of u has u in branches XY and XZ.
fn odd_of(u: usize, b: Branch) -> NodeSet<SET_WORDS>
    requires { u < capacity }
    ensures { member result ≡ (λ v. eqb v u && in_odd (branch_number b)) }
{
    let none = NodeSet::empty();
    if b.in_odd() {
        return none.with(u);
    }
    none
}

// What the rows ask for, for u in branch b: where u is a member, it has its part already.
fn side_of(graph: &[u64], u: usize, b: Branch) -> NodeSet<SET_WORDS>
    requires { u < capacity }
    ensures { member result ≡ side_bit graph.now u (branch_number b) }
{
    let odd = odd_of(u, b);
    if b.in_set() {
        return odd.xor(set_at(graph, u));
    }
    odd
}

fn asked_odd(side: NodeSet<SET_WORDS>, u: usize, present: bool) -> bool
    ensures { result ≡ not present && member side u }
{
    !present && side.has(u)
}

// The set of u: in branches YZ and XZ with u itself.
fn with_node(f: Option<NodeSet<SET_WORDS>>, u: usize, b: Branch) -> Option<NodeSet<SET_WORDS>>
    requires { u < capacity }
    ensures { solution_of result ≡ with_node (in_set (branch_number b)) u (solution_of f) }
{
    let x = f?;
    if b.in_set() {
        return Some(x.with(u));
    }
    Some(x)
}

// What a try meets in an open round: the graph, also by rows, the columns and rows of the round, and the basis of its equations.
#[derive(Drop)]
pub(crate) struct Round<'a> {
    pub(crate) n: usize,
    pub(crate) graph: &'a [u64],
    pub(crate) transposed: &'a [u64],
    pub(crate) context: Context,
    pub(crate) basis: &'a BasisView<'a>,
    ghost ready: { IsReady n graph.now context (record { pivots = basis.now.pivots; free = basis.now.free }) basis.now.kernel.now basis.now.reduced.now basis.now.preimage.now transposed.now },
}

impl Round<'_> {
    // What is asked of the columns besides: where u has a row, that u is no member; else what the upper row of u asks.
    fn asked_columns(&self, u: usize, present: bool) -> NodeSet<SET_WORDS>
        requires { (u < capacity) × (present ≡ has_row (context_of self.now.context) u) }
        ensures { member result ≡ asked_columns self.now.transposed.now self.now.context u }
    {
        if present {
            return NodeSet::empty().with(u);
        }
        set_at(self.transposed, u).intersection(self.context.columns)
    }

    // One try of u in branch b.
    fn try_branch(&self, u: usize, b: Branch) -> Option<NodeSet<SET_WORDS>>
        requires { IsTrying self.now.n self.now.context u }
        ensures { solution_of result ≡ try_branch (graph_job self.now.n self.now.graph.now) (for_node (context_of self.now.context) u) u (branch_number b) }
    {
        let rows = self.context.upper.union(self.context.lower);
        let side = side_of(self.graph, u, b);
        let present = rows.has(u);
        let asked = self.asked_columns(u, present);
        let odd = asked_odd(side, u, present);
        let found = self.basis.answer(side.intersection(rows), asked, odd);
        with_node(found, u, b)
    }

    // The branches of u's measurement m in order; the first that is solvable counts. For u, u joins the upper rows and leaves the lower
    // rows and the columns.
    pub(crate) fn try_for(&self, u: usize, m: u8) -> Option<NodeSet<SET_WORDS>>
        requires { IsTrying self.now.n self.now.context u }
        ensures { solution_of result ≡ try_for self.now.n self.now.graph.now (context_of self.now.context) u m }
    {
        for &b in branches(m) {
            if let Some(s) = self.try_branch(u, b) {
                return Some(s);
            }
        }
        None
    }
}
