// What is searched: a job and the rule of the search, what is asked of them, and how the nodes are measured.
ghost use Rattle.std.specs.Prelude.{◌≡◌, not, ◌&&◌, ◌||◌, ◌≤◌, ◌<◌, length, get_or, eqb, ltb};
ghost use Rattle.nodes.specs.Row.{all_below};
ghost use Rattle.nodes.specs.NodeSet.{member, capacity};
ghost use Rattle.finder.specs.Visits.{unsolved};
ghost use Rattle.finder.specs.Searches.{with_paulis, sizes_fit, is_plane, IsKindsOf};

use crate::matrix::Context;
use flows::{PAULI_X, PAULI_Y, PAULI_Z, PLANE_XY, PLANE_XZ, PLANE_YZ};
use nodes::utils::{CAPACITY, NodeSet, SET_WORDS, TABLE_WORDS};
use solver::gf2_linalg::WORK_BYTES;

/// All nodes are measured in planes; or some in Paulis, and then nodes are excused.
#[derive(Clone, Copy, Debug, PartialEq, Eq)]
pub enum Rule {
    Planes,
    Paulis,
}

impl Rule {
    pub(crate) fn with_paulis(self) -> bool
        ensures { result ≡ with_paulis self }
    {
        match self {
            Rule::Planes => false,
            Rule::Paulis => true,
        }
    }
}

// What is searched. The graph has a set of neighbours for each node.
#[derive(Drop)]
pub(crate) struct Job<'a> {
    pub(crate) rule: Rule,
    pub(crate) n: usize,
    pub(crate) graph: &'a [u64],
    pub(crate) inputs: NodeSet<SET_WORDS>,
    pub(crate) outputs: NodeSet<SET_WORDS>,
    pub(crate) measured: &'a [u8],
}

// The nodes that are excused: those measured in X or Y, in Y or Z, and in Y. Beside them those measured in XY.
#[derive(Clone, Copy)]
pub(crate) struct Kinds {
    pub(crate) xy: NodeSet<SET_WORDS>,
    pub(crate) yz: NodeSet<SET_WORDS>,
    pub(crate) y: NodeSet<SET_WORDS>,
    pub(crate) plain: NodeSet<SET_WORDS>,
}

fn is_plane(m: u8) -> bool
    ensures { result ≡ is_plane m }
{
    m == PLANE_XY || m == PLANE_YZ || m == PLANE_XZ
}

fn is_either(m: u8, a: u8, b: u8) -> bool
    ensures { result ≡ (eqb m a || eqb m b) }
{
    m == a || m == b
}

// v is added where `yes` says so.
fn with_if(s: NodeSet<SET_WORDS>, v: usize, yes: bool) -> NodeSet<SET_WORDS>
    requires { v < capacity }
    ensures { member result ≡ (λ u. member s u || (yes && eqb u v)) }
{
    if yes {
        return s.with(v);
    }
    s
}

impl Job<'_> {
    // No more nodes than a set can have, a measurement for each, and buffers of exact length.
    #[tactic(auto, unfolding(crate::specs::Searches::sizes_fit))]
    fn sizes_fit(&self, work: &[u8], layers: &[u16], sets: &[u64]) -> bool
        ensures { result ≡ sizes_fit self.now.n self.now.graph.now self.now.measured.now work.now layers.now sets.now }
    {
        self.n <= CAPACITY
            && self.graph.len() == TABLE_WORDS
            && self.n <= self.measured.len()
            && work.len() == WORK_BYTES
            && layers.len() == CAPACITY
            && sets.len() == TABLE_WORDS
    }

    // An output needs no measurement.
    fn is_given(&self, u: usize) -> bool
        requires { u < length self.now.measured.now }
        ensures { result ≡ (member self.now.outputs u || is_plane (get_or self.now.measured.now u 0)) }
    {
        self.outputs.has(u) || is_plane(self.measured[u])
    }

    fn planes_given(&self) -> bool
        requires { (self.now.n ≤ capacity) × (self.now.n ≤ length self.now.measured.now) }
        ensures { result ≡ all_below self.now.n (λ u. member self.now.outputs u || is_plane (get_or self.now.measured.now u 0)) }
    {
        for u in 0..self.n {
            if !self.is_given(u) {
                return false;
            }
        }
        true
    }

    // The sizes are right, and for planes each node that is no output is measured in one.
    pub(crate) fn fits(&self, work: &[u8], layers: &[u16], sets: &[u64]) -> bool
        ensures { result ≡ (sizes_fit self.now.n self.now.graph.now self.now.measured.now work.now layers.now sets.now && (with_paulis self.now.rule || all_below self.now.n (λ u. member self.now.outputs u || is_plane (get_or self.now.measured.now u 0)))) }
    {
        if !self.sizes_fit(work, layers, sets) {
            return false;
        }
        match self.rule {
            Rule::Planes => self.planes_given(),
            Rule::Paulis => true,
        }
    }

    // The nodes that are measured in a or b.
    fn measured_in(&self, a: u8, b: u8) -> NodeSet<SET_WORDS>
        requires { (self.now.n ≤ capacity) × (self.now.n ≤ length self.now.measured.now) }
        ensures { member result ≡ (λ u. ltb u self.now.n && (eqb (get_or self.now.measured.now u 0) a || eqb (get_or self.now.measured.now u 0) b)) }
    {
        let mut found = NodeSet::empty();
        for u in 0..self.n {
            found = with_if(found, u, is_either(self.measured[u], a, b));
        }
        found
    }

    // For planes nobody is excused.
    pub(crate) fn kinds(&self) -> Kinds
        requires { (self.now.n ≤ capacity) × (self.now.n ≤ length self.now.measured.now) }
        ensures { IsKindsOf (with_paulis self.now.rule) self.now.n self.now.measured.now result }
    {
        let plain = self.measured_in(PLANE_XY, PLANE_XY);
        match self.rule {
            Rule::Planes => {
                let none = NodeSet::empty();
                Kinds {
                    xy: none,
                    yz: none,
                    y: none,
                    plain,
                }
            }
            Rule::Paulis => Kinds {
                xy: self.measured_in(PAULI_X, PAULI_Y),
                yz: self.measured_in(PAULI_Y, PAULI_Z),
                y: self.measured_in(PAULI_Y, PAULI_Y),
                plain,
            },
        }
    }

    // Columns: the nodes that are later and those measured in X or Y that are no inputs. Upper rows: the nodes that are not later and
    // not measured in Y or Z. Lower rows: the Y nodes that are not later.
    pub(crate) fn context(&self, kinds: &Kinds, later: NodeSet<SET_WORDS>) -> Context
        ensures { (member result.columns ≡ (λ k. (member later k || member kinds.now.xy k) && not (member self.now.inputs k))) × (member result.upper ≡ (λ v. unsolved self.now.n (member later) v && not (member kinds.now.yz v))) × (member result.lower ≡ (λ v. member kinds.now.y v && not (member later v))) }
    {
        Context {
            columns: later.union(kinds.xy).difference(self.inputs),
            upper: NodeSet::below(self.n)
                .difference(later)
                .difference(kinds.yz),
            lower: kinds.y.difference(later),
        }
    }
}
