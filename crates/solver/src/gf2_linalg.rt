// The solver of equations mod 2: rows of bits, coefficient columns first and then the right sides. The matrix and the out bits are bytes
// that a caller of `bolz_solve` lends, with the numbers of rows, columns and right sides beside them: the C interface.
ghost use Rattle.std.specs.Prelude.{◌≡◌, ◌≢◌, true, ◌&&◌, ◌||◌, ◌+◌, ◌-◌, ◌*◌, ◌<◌, ◌≤◌, length, eqb, ltb};
ghost use Rattle.answers.specs.Answer.{gives};
ghost use Rattle.answers.specs.Refusals.{given};
ghost use Rattle.nodes.specs.Row.{lowest_from};
ghost use Rattle.nodes.specs.NodeSet.{member};
ghost use Rattle.nodes.specs.Lists.{zeros};
ghost use Rattle.solver.specs.Reduced.{lead, leads};
ghost use Rattle.solver.specs.WorkMatrix.{entry_of, row_within_width, within_width};
ghost use Rattle.solver.specs.Steps.{xor_row, add_pivot_row, clear_one, clear_column, eliminate_column, eliminate_columns};
ghost use Rattle.solver.specs.Steps.{inconsistent_row, no_solution, read_column, lead_bytes, set_bit};
ghost use Rattle.solver.specs.Solver.{row_bytes, most_columns, matrix_fits, both_fit, well_shaped};
ghost use Rattle.solver.specs.Solver.{MatrixAfter, is_solvable, eliminate_call, outcome, read_off_call, solve_asks, solve_call};

use answers::Refusal;
use nodes::utils::{CAPACITY, NodeSet, SET_WORDS, mask};

/// Each row, and the out bits, have a bit for each node, lowest bit first.
pub const ROW_BYTES: usize = CAPACITY / 8;

const MOST_ROWS: usize = CAPACITY;

const MOST_COLUMNS: usize = 8 * ROW_BYTES;

/// The bytes of a work matrix with all its rows.
pub const WORK_BYTES: usize = MOST_ROWS * ROW_BYTES;

#[derive(Clone, Copy, Debug, PartialEq, Eq)]
pub enum Solved {
    Solvable,
    Unsolvable,
}

// Whether the row has a bit in the column.
fn has(matrix: &[u8], row: usize, col: usize) -> bool
    requires { (row * row_bytes + row_bytes ≤ length matrix.now) × (col < most_columns) }
    ensures { result ≡ entry_of row_bytes matrix.now row col }
{
    (matrix[row * ROW_BYTES + col / 8] >> ((col % 8) as u8)) & 1 != 0
}

// Row src is added to row dst.
fn xor_row(matrix: &mut [u8], dst: usize, src: usize)
    requires { (dst * row_bytes + row_bytes ≤ length matrix.old) × (src * row_bytes + row_bytes ≤ length matrix.old)
        × (dst ≢ src) }
    ensures { matrix.new ≡ xor_row row_bytes matrix.old dst src }
{
    let d = dst * ROW_BYTES;
    let s = src * ROW_BYTES;
    for j in 0..ROW_BYTES {
        matrix[d + j] ^= matrix[s + j];
    }
}

// The first row from `from` on that has the column, and `rows` where there is none.
fn find_pivot(matrix: &[u8], from: usize, rows: usize, col: usize) -> usize
    requires { (rows * row_bytes ≤ length matrix.now) × (from ≤ rows) × (col < most_columns) }
    ensures { result ≡ lowest_from from (rows - from) (λ i. entry_of row_bytes matrix.now i col) }
{
    for i in from..rows {
        if has(matrix, i, col) {
            return i;
        }
    }
    rows
}

// Row p is added to the row at the rank, which then has the pivot's bit; no rows change places.
fn add_pivot_row(matrix: &mut [u8], rank: usize, p: usize)
    requires { (rank * row_bytes + row_bytes ≤ length matrix.old) × (p * row_bytes + row_bytes ≤ length matrix.old) }
    ensures { matrix.new ≡ add_pivot_row row_bytes matrix.old rank p }
{
    if p == rank {
        return;
    }
    xor_row(matrix, rank, p);
}

fn clear_one(matrix: &mut [u8], row: usize, pivot: usize, col: usize)
    requires { (row * row_bytes + row_bytes ≤ length matrix.old) × (pivot * row_bytes + row_bytes ≤ length matrix.old)
        × (col < most_columns) }
    ensures { matrix.new ≡ clear_one row_bytes pivot col row matrix.old }
{
    if row == pivot {
        return;
    }
    if has(matrix, row, col) {
        xor_row(matrix, row, pivot);
    }
}

// The pivot's row clears the column in the rows above and below it.
fn clear_column(matrix: &mut [u8], rows: usize, pivot: usize, col: usize)
    requires { (rows * row_bytes ≤ length matrix.old) × (pivot < rows) × (col < most_columns) }
    ensures { matrix.new ≡ clear_column row_bytes matrix.old rows pivot col }
{
    for i in 0..rows {
        clear_one(matrix, i, pivot, col);
    }
}

// One column: the rank grows where a row from it on has the column.
fn eliminate_column(matrix: &mut [u8], rows: usize, col: usize, rank: usize) -> usize
    requires { (rows * row_bytes ≤ length matrix.old) × (rank ≤ rows) × (col < most_columns) }
    ensures matrix_after { record { rank = result; rows = matrix.new }
        ≡ eliminate_column row_bytes rows col (record { rank = rank; rows = matrix.old }) }
    ensures upper_bound { result ≤ rows }
{
    let p = find_pivot(matrix, rank, rows, col);
    if p >= rows {
        return rank;
    }
    add_pivot_row(matrix, rank, p);
    clear_column(matrix, rows, rank, col);
    rank + 1
}

// The coefficient columns in turn.
fn eliminate_columns(matrix: &mut [u8], rows: usize, cols: usize)
    requires { (rows * row_bytes ≤ length matrix.old) × (cols ≤ most_columns) }
    ensures { matrix.new ≡ (eliminate_columns row_bytes matrix.old rows cols).rows }
{
    let mut rank = 0;
    for col in 0..cols {
        rank = eliminate_column(matrix, rows, col, rank);
    }
}

// The first coefficient column at which the row has a bit, and `cols` where it has none.
fn lead(matrix: &[u8], row: usize, cols: usize) -> usize
    requires { (row * row_bytes + row_bytes ≤ length matrix.now) × (cols ≤ most_columns) }
    ensures { result ≡ lead (entry_of row_bytes matrix.now) cols row }
{
    let start = row * ROW_BYTES;
    for q in 0..ROW_BYTES {
        let byte = matrix[start + q];
        if byte != 0 {
            let k = 8 * q + u8::trailing_zeros(byte) as usize;
            if k < cols {
                return k;
            }
            return cols;
        }
    }
    cols
}

fn add_pivot(
    pivots: NodeSet<SET_WORDS>,
    matrix: &[u8],
    row: usize,
    cols: usize,
) -> NodeSet<SET_WORDS>
    requires { (row * row_bytes + row_bytes ≤ length matrix.now) × (cols ≤ most_columns) }
    ensures { member result
        ≡ (λ k. member pivots k || (ltb k cols && eqb (lead (entry_of row_bytes matrix.now) cols row) k)) }
{
    let k = lead(matrix, row, cols);
    if k >= cols {
        return pivots;
    }
    pivots.with(k)
}

// The columns at which the rows of an eliminated matrix begin.
fn pivot_columns(matrix: &[u8], rows: usize, cols: usize) -> NodeSet<SET_WORDS>
    requires { (rows * row_bytes ≤ length matrix.now) × (cols ≤ most_columns) }
    ensures { member result ≡ leads rows cols (entry_of row_bytes matrix.now) (λ i. true) }
{
    let mut pivots = NodeSet::empty();
    for i in 0..rows {
        pivots = add_pivot(pivots, matrix, i, cols);
    }
    pivots
}

// A row without a coefficient asks for 1, which no solution gives: the right side is in the column `asked`.
fn inconsistent_row(matrix: &[u8], row: usize, cols: usize, asked: usize) -> bool
    requires { (row * row_bytes + row_bytes ≤ length matrix.now) × (cols ≤ most_columns) × (asked < most_columns) }
    ensures { result ≡ inconsistent_row row_bytes matrix.now cols asked row }
{
    if !has(matrix, row, asked) {
        return false;
    }
    lead(matrix, row, cols) == cols
}

// Whether some row does.
fn no_solution(matrix: &[u8], rows: usize, cols: usize, asked: usize) -> bool
    requires { (rows * row_bytes ≤ length matrix.now) × (cols ≤ most_columns) × (asked < most_columns) }
    ensures { result ≡ no_solution row_bytes matrix.now rows cols asked }
{
    for i in 0..rows {
        if inconsistent_row(matrix, i, cols, asked) {
            return true;
        }
    }
    false
}

/// Every byte becomes 0.
pub fn clear(bytes: &mut [u8])
    ensures { bytes.new ≡ zeros (length bytes.old) }
{
    bytes.fill(0);
}

fn set_bit(out: &mut [u8], k: usize)
    requires { (length out.old ≡ row_bytes) × (k < most_columns) }
    ensures { out.new ≡ set_bit out.old k }
{
    let at = k / 8;
    out[at] |= mask(k % 8) as u8;
}

// A row that asks for 1 has its first coefficient column set.
fn put_lead(matrix: &[u8], out: &mut [u8], row: usize, cols: usize, asked: usize)
    requires { (row * row_bytes + row_bytes ≤ length matrix.now) × (cols ≤ most_columns) × (asked < most_columns)
        × (out.old ≡ lead_bytes row_bytes matrix.now cols asked row) }
    ensures { out.new ≡ lead_bytes row_bytes matrix.now cols asked (row + 1) }
{
    if !has(matrix, row, asked) {
        return;
    }
    let k = lead(matrix, row, cols);
    if k >= cols {
        return;
    }
    set_bit(out, k);
}

// Out bits that no row sets, those past the last column too, become zero.
fn put_leads(matrix: &[u8], out: &mut [u8], rows: usize, cols: usize, asked: usize)
    requires { (rows * row_bytes ≤ length matrix.now) × (cols ≤ most_columns) × (asked < most_columns)
        × (length out.old ≡ row_bytes) }
    ensures { out.new ≡ lead_bytes row_bytes matrix.now cols asked rows }
{
    clear(out);
    for i in 0..rows {
        put_lead(matrix, out, i, cols, asked);
    }
}

// 'No solution' keeps the out bits.
#[tactic(auto, using(crate::proofs::Leads::read_none, crate::proofs::Leads::read_some))]
fn answer(matrix: &[u8], out: &mut [u8], rows: usize, cols: usize, asked: usize) -> Solved
    requires { (rows * row_bytes ≤ length matrix.now) × (cols ≤ most_columns) × (asked < most_columns)
        × (length out.old ≡ row_bytes) }
    ensures { record { answer = gives (is_solvable result); out = out.new }
        ≡ outcome (gives (read_column row_bytes matrix.now rows cols asked)) out.old }
{
    if no_solution(matrix, rows, cols, asked) {
        return Solved::Unsolvable;
    }
    put_leads(matrix, out, rows, cols, asked);
    Solved::Solvable
}

// No bit of the row at or beyond the width: `inside` bits of the byte looked at may be there.
fn row_within_width(matrix: &[u8], row: usize, width: usize) -> bool
    requires { (row * row_bytes + row_bytes ≤ length matrix.now) × (width ≤ most_columns) }
    ensures { result ≡ row_within_width row_bytes matrix.now width row }
{
    let start = row * ROW_BYTES;
    let mut inside = width % 8;
    for q in width / 8..ROW_BYTES {
        if (matrix[start + q] >> (inside as u8)) != 0 {
            return false;
        }
        inside = 0;
    }
    true
}

fn within_width(matrix: &[u8], rows: usize, width: usize) -> bool
    requires { (rows * row_bytes ≤ length matrix.now) × (width ≤ most_columns) }
    ensures { result ≡ within_width row_bytes matrix.now rows width }
{
    for i in 0..rows {
        if !row_within_width(matrix, i, width) {
            return false;
        }
    }
    true
}

// Each bound is asked before a sum or product of the numbers is made, which then can't wrap.
#[tactic(auto, unfolding(crate::specs::Solver::matrix_fits))]
fn matrix_fits(matrix: &[u8], rows: usize, cols: usize, sides: usize) -> bool
    ensures { result ≡ matrix_fits matrix.now rows cols sides }
{
    rows <= MOST_ROWS
        && cols <= MOST_COLUMNS
        && sides <= MOST_COLUMNS - cols
        && matrix.len() == rows * ROW_BYTES
}

#[tactic(auto, unfolding(crate::specs::Solver::both_fit))]
fn both_fit(matrix: &[u8], out: &[u8], rows: usize, cols: usize, sides: usize) -> bool
    ensures { result ≡ both_fit matrix.now out.now rows cols sides }
{
    matrix_fits(matrix, rows, cols, sides) && out.len() == ROW_BYTES
}

// Question 11.
#[tactic(auto, using(crate::proofs::Solver::fits_out, crate::proofs::Solver::both_fit_out), unfolding(crate::specs::Solver::well_shaped))]
fn well_shaped(matrix: &[u8], out: &[u8], rows: usize, cols: usize, sides: usize) -> bool
    ensures { result ≡ well_shaped matrix.now out.now rows cols sides }
{
    rows > 0
        && sides > 0
        && both_fit(matrix, out, rows, cols, sides)
        && within_width(matrix, rows, cols + sides)
}

/// The matrix is brought to reduced form by adding rows to each other; the answer is the set of its pivot columns.
#[tactic(auto, using(crate::proofs::Solver::fits_out, crate::proofs::Solver::is_eliminated), unfolding(crate::specs::Solver::eliminate_call))]
pub fn eliminate(
    matrix: &mut [u8],
    rows: usize,
    cols: usize,
    sides: usize,
) -> Result<NodeSet<SET_WORDS>, Refusal>
    ensures result_value { given member result ≡ eliminate_call matrix.old rows cols sides }
    ensures matrix_after { MatrixAfter (eliminate_call matrix.old rows cols sides) rows cols sides
        matrix.old matrix.new }
{
    if !matrix_fits(matrix, rows, cols, sides) {
        return Err(Refusal::WrongShape);
    }
    eliminate_columns(matrix, rows, cols);
    Ok(pivot_columns(matrix, rows, cols))
}

/// What an eliminated matrix answers for one right side.
#[tactic(auto, using(crate::proofs::Solver::fits_out, crate::proofs::Solver::both_fit_out), unfolding(crate::specs::Solver::read_off_asks))]
pub fn read_off(
    matrix: &[u8],
    out: &mut [u8],
    rows: usize,
    cols: usize,
    sides: usize,
    side: usize,
) -> Result<Solved, Refusal>
    ensures { record { answer = given is_solvable result; out = out.new }
        ≡ read_off_call matrix.now out.old rows cols sides side }
{
    if !both_fit(matrix, out, rows, cols, sides) {
        return Err(Refusal::WrongShape);
    }
    if side >= sides {
        return Err(Refusal::NoSuchEquation);
    }
    Ok(answer(matrix, out, rows, cols, cols + side))
}

/// Both questions are asked before anything is touched.
pub fn solve_in_place(
    matrix: &mut [u8],
    out: &mut [u8],
    rows: usize,
    cols: usize,
    sides: usize,
    side: usize,
) -> Result<Solved, Refusal>
    ensures out_after { record { answer = given is_solvable result; out = out.new }
        ≡ solve_call matrix.old out.old rows cols sides side }
    ensures matrix_after { MatrixAfter (solve_asks matrix.old out.old rows cols sides side) rows cols sides
        matrix.old matrix.new }
{
    if !well_shaped(matrix, out, rows, cols, sides) {
        return Err(Refusal::WrongShape);
    }
    if side >= sides {
        return Err(Refusal::NoSuchEquation);
    }
    eliminate_columns(matrix, rows, cols);
    Ok(answer(matrix, out, rows, cols, cols + side))
}
