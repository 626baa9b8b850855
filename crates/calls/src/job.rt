// Job and flow as searches and verifiers work on them; their methods stand in load.rt.
ghost use Rattle.std.specs.Prelude.{◌≡◌, ◌≤◌, length};
ghost use Rattle.nodes.specs.NodeSet.{capacity};
ghost use Rattle.nodes.specs.SetTable.{table_words};

use flows::mode::Mode;
use nodes::utils::{NodeSet, SET_WORDS};

// A job as searches and verifiers work on it: the mode to work with, a set of neighbours for each node, and the measurements to
// work with.
#[derive(Clone, Copy, Debug, PartialEq, Eq)]
pub(crate) struct Job<'a> {
    pub(crate) n: usize,
    pub(crate) mode: Mode,
    pub(crate) inputs: NodeSet<SET_WORDS>,
    pub(crate) outputs: NodeSet<SET_WORDS>,
    pub(crate) graph: &'a [u64],
    pub(crate) measured: &'a [u8],
    ghost few: { n ≤ capacity },
    ghost table: { length graph.now ≡ table_words },
    ghost measured_each: { n ≤ length measured.now },
}

// A flow as verifiers work on it: the layers, the nodes that have an entry, and a set for each node.
#[derive(Clone, Copy, Debug, PartialEq, Eq)]
pub(crate) struct Flow<'a> {
    pub(crate) layers: &'a [u16],
    pub(crate) entries: NodeSet<SET_WORDS>,
    pub(crate) sets: &'a [u64],
}
