// From payloads to the picture that they are of. No function demands anything of what it reads. The loader of crate calls is its own: it fills
// tables that its callers lend, under clauses of theirs.
use angles::infer_all;
use arrayvec::ArrayVec;
use flows::measurement::Measurement;
use nodes::utils::{NodeSet, SET_WORDS, TABLE_WORDS, odd_neighbors, put_set, set_at};
use records::common::{MOST_NODES, byte_at, set_of};
use records::entries::Entries;
use records::flow_file::FlowFile;
use records::job_file::JobFile;

// A node: what the job says of it, and its layer and set in the flow. An output is not measured.
#[derive(Clone, Copy, Default)]
pub(crate) struct Node {
    pub(crate) input: bool,
    pub(crate) output: bool,
    pub(crate) measurement: Option<Measurement>,
    pub(crate) layer: u16,
    pub(crate) set: Option<NodeSet<SET_WORDS>>,
}

// What is drawn of a job and its flow. The mode is its number in the file, which the caption shows.
#[derive(Drop)]
pub(crate) struct Picture {
    pub(crate) mode: u8,
    pub(crate) angled: bool,
    pub(crate) nodes: ArrayVec<Node, MOST_NODES>,
    graph: [u64; TABLE_WORDS],
}

impl Picture {
    pub(crate) fn of(job: &JobFile<'_>, flow: &FlowFile<'_>) -> Picture {
        Picture {
            mode: u8::from(job.mode),
            angled: job.angles.is_some(),
            nodes: nodes_of(job, flow),
            graph: graph_of(job.edges),
        }
    }

    // The nodes that have an edge to node v.
    pub(crate) fn neighbors(&self, v: usize) -> NodeSet<SET_WORDS> {
        set_at(&self.graph, v)
    }

    // The nodes that have an edge to an odd number of nodes of the set.
    pub(crate) fn odd_of(&self, set: NodeSet<SET_WORDS>) -> NodeSet<SET_WORDS> {
        odd_neighbors(&self.graph, set)
    }
}

// No job has more nodes than there is room for.
fn nodes_of(job: &JobFile<'_>, flow: &FlowFile<'_>) -> ArrayVec<Node, MOST_NODES> {
    let inputs = set_of(job.inputs);
    let outputs = set_of(job.outputs);
    let measurements = measurements_of(job);
    let mut nodes = ArrayVec::new();
    for v in 0..job.n {
        let _ = nodes.try_push(Node {
            input: inputs.has(v),
            output: outputs.has(v),
            measurement: Measurement::try_from(byte_at(&measurements, v)).ok(),
            layer: flow.layer_of(v),
            set: None,
        });
    }
    put_sets(nodes.as_mut_slice(), flow.sets);
    nodes
}

// The measurements to work with: those of the file, or those that the angles infer. Nothing else here reads the angles.
fn measurements_of(job: &JobFile<'_>) -> [u8; MOST_NODES] {
    // `infer_all` fills what it is lent.
    let mut measurements = [0u8; MOST_NODES];
    match job.angles {
        Some(angles) => infer_all(job.measurements, angles, &mut measurements),
        None => copy(job.measurements, &mut measurements),
    }
    measurements
}

fn copy(from: &[u8], to: &mut [u8]) {
    for (byte, &x) in to.iter_mut().zip(from) {
        *byte = x;
    }
}

// Each node that has an entry gets its set.
fn put_sets(nodes: &mut [Node], sets: &[u8]) {
    for entry in Entries::of(sets) {
        if let Some(node) = nodes.get_mut(usize::from(entry.node)) {
            node.set = Some(set_of(entry.members));
        }
    }
}

// Each edge joins both ways, in a table as `odd_neighbors` takes it.
fn graph_of(edges: &[u8]) -> [u64; TABLE_WORDS] {
    let mut graph = [0u64; TABLE_WORDS];
    for edge in edges.chunks_exact(2) {
        let a = usize::from(edge[0]);
        let b = usize::from(edge[1]);
        join(&mut graph, a, b);
        join(&mut graph, b, a);
    }
    graph
}

// Node b becomes a neighbour of a.
fn join(graph: &mut [u64], a: usize, b: usize) {
    let old = set_at(graph, a);
    put_set(graph, a, old.with(b));
}
