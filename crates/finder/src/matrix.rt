// The equations of a round: the graph by rows, and the work matrix that is filled from it.
ghost use Rattle.std.specs.Prelude.{◌≡◌, true, false, ◌&&◌, ℕ, ◌+◌, ◌*◌, ◌<◌, ◌≤◌, length, drop, T, eqb};
ghost use Rattle.nodes.specs.Bit.{◌⊕◌};
ghost use Rattle.nodes.specs.Row.{count};
ghost use Rattle.nodes.specs.NodeSet.{member, capacity};
ghost use Rattle.nodes.specs.SetTable.{set_at};
ghost use Rattle.solver.specs.Solver.{row_bytes};
ghost use Rattle.finder.specs.WorkMatrix.{WordPut, RowPut, row_bit, IsLaidOut, IsTransposed};

use nodes::utils::{NodeSet, SET_WORDS, WORD_BYTES, add_to, set_at};
use solver::gf2_linalg::ROW_BYTES;

// What a try meets: the columns, and the nodes of the upper and of the lower rows.
#[derive(Clone, Copy)]
pub(crate) struct Context {
    pub(crate) columns: NodeSet<SET_WORDS>,
    pub(crate) upper: NodeSet<SET_WORDS>,
    pub(crate) lower: NodeSet<SET_WORDS>,
}

// Of the graph by rows: the columns that are in it, and the rows at which one of them has a bit.
#[derive(Clone, Copy)]
pub(crate) struct Support {
    pub(crate) columns: NodeSet<SET_WORDS>,
    pub(crate) rows: NodeSet<SET_WORDS>,
}

// ---- the graph by rows
// The neighbours of the new columns join the graph by rows.
pub(crate) fn transpose(
    graph: &[u64],
    support: &Support,
    columns: NodeSet<SET_WORDS>,
    transposed: &mut [u64],
) -> Support
    requires { IsTransposed graph.now support.now transposed.old }
    ensures { IsTransposed graph.now result transposed.new × ((k : ℕ) → T (member columns k) → T (member result.columns k)) }
{
    let known = support.columns;
    let new = columns.difference(known);
    let mut rows = support.rows;
    for k in new.iter() {
        let near = set_at(graph, k);
        add_to(transposed, near, NodeSet::empty().with(k));
        rows = rows.union(near);
    }
    Support {
        columns: known.union(columns),
        rows,
    }
}

// ---- the work matrix
// A word as eight bytes, lowest first.
fn put_word(work: &mut [u8], at: usize, word: u64)
    requires { at + 8 ≤ length work.old }
    ensures { WordPut at word work.old work.new }
{
    let mut left = word;
    for i in 0..WORD_BYTES {
        work[at + i] = (left % 256) as u8;
        left = left >> 8;
    }
}

fn put_row(work: &mut [u8], row: usize, s: NodeSet<SET_WORDS>)
    requires { row * row_bytes + row_bytes ≤ length work.old }
    ensures { RowPut row (member s) work.old work.new }
{
    let at = row * ROW_BYTES;
    let words = s.words();
    put_word(work, at, words[0]);
    put_word(work, at + WORD_BYTES, words[1]);
}

// The row of v: the columns that have v as a neighbour, and in a lower row v itself too. No node is its own neighbour.
fn row_of(transposed: &[u64], v: usize, lower: bool) -> NodeSet<SET_WORDS>
    requires { v < capacity }
    ensures { member result ≡ (λ k. set_at transposed.now v k ⊕ (lower && eqb k v)) }
{
    let near = set_at(transposed, v);
    if lower {
        return near.xor(NodeSet::empty().with(v));
    }
    near
}

// Both finders put columns in ascending node order: column k is the bit of node k. The rows are those of the members, ascending.
fn put_rows(
    work: &mut [u8],
    transposed: &[u64],
    rows: NodeSet<SET_WORDS>,
    columns: NodeSet<SET_WORDS>,
    lower: bool,
)
    requires { count capacity (member rows) * row_bytes ≤ length work.old }
    ensures { IsLaidOut (member rows) (row_bit transposed.now (member columns) lower) work.new × (length work.new ≡ length work.old) }
{
    let mut i = 0;
    for v in rows.iter() {
        let row = row_of(transposed, v, lower);
        put_row(work, i, row.intersection(columns));
        i += 1;
    }
}

// The lower rows follow the upper ones in the same work matrix.
pub(crate) fn fill(work: &mut [u8], transposed: &[u64], s: &Context)
    requires { (count capacity (member s.now.upper) + count capacity (member s.now.lower)) * row_bytes ≤ length work.old }
    ensures laid_out { IsLaidOut (member s.now.upper) (row_bit transposed.now (member s.now.columns) false) work.new }
    ensures laid_out_2 { IsLaidOut (member s.now.lower) (row_bit transposed.now (member s.now.columns) true) (drop (count capacity (member s.now.upper) * row_bytes) work.new) × (length work.new ≡ length work.old) }
{
    let upper = s.upper;
    let lower = s.lower;
    let columns = s.columns;
    put_rows(work, transposed, upper, columns, false);
    let start = upper.count() * ROW_BYTES;
    put_rows(&mut work[start..], transposed, lower, columns, true);
}
