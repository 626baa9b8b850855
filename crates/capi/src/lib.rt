// The calls as a program in C sees them; crate capi_c exports each under its name. A slice is a pointer and a length, and the answer is one number. All but
// the solver's, which no job reaches, carry the role of the caller.
#![tactic(auto)]

ghost use Rattle.std.specs.Prelude.{◌≡◌, []};
ghost use Rattle.std.proofs.Math.Option.{none, some};
ghost use Rattle.solver.specs.Solver.{MatrixAfter, is_solvable, solve_asks, solve_call};
ghost use Rattle.answers.specs.Refusals.{question_of};
ghost use Rattle.answers.specs.Refusals as Views;
ghost use Rattle.records.specs.JobLists.{given};
ghost use Rattle.demands.specs.Roles.{finding, verifying, adding_lists, editing, reading_out, writing, called};
ghost use Rattle.calls.specs.Replies.{reply_of};
ghost use Rattle.capi.specs.Codes.{refusal_code, answer_code, coded, counted, coded_bits};

use answers::{Refusal, RefusalRecord};
use calls::edit::edit_set;
use calls::find::find;
use calls::readout::read_angles;
use calls::signals::add_signals;
use calls::verify::verify;
use calls::write::{write_job, write_job_angles};
use solver::gf2_linalg::{Solved, solve_in_place};

// The places of a refusal's number and of a.
const NUMBER_UNIT: u64 = 4294967296;

const A_UNIT: u64 = 65536;

// A refusal as one number.
fn refusal_code(q: Refusal) -> u64
    ensures { result ≡ refusal_code (question_of q) }
{
    let record = RefusalRecord::from(q);
    record.number as u64 * NUMBER_UNIT + record.a as u64 * A_UNIT + record.b as u64
}

fn reply_code(reply: Result<usize, Refusal>) -> u64
    ensures { result ≡ answer_code (reply_of reply) }
{
    match reply {
        Ok(k) => k as u64,
        Err(q) => refusal_code(q),
    }
}

fn solved_code(solved: Result<Solved, Refusal>) -> u64
    ensures { result ≡ answer_code (counted (Views.given is_solvable solved)) }
{
    match solved {
        Ok(Solved::Solvable) => 1,
        Ok(Solved::Unsolvable) => 0,
        Err(q) => refusal_code(q),
    }
}

// The finder: the count of bytes written, or the refusal.
pub fn bolz_find(role: u64, file: &[u8], work: &mut [u8], out: &mut [u8]) -> u64
    ensures { record { code = result; work = work.new; out = out.new } ≡ coded (called role (finding work.old out.old) file.now) }
{
    reply_code(find(role, file, work, out))
}

// The verifier: the count of bytes written, or the refusal.
pub fn bolz_verify(role: u64, file: &[u8], out: &mut [u8]) -> u64
    ensures { record { code = result; work = []; out = out.new } ≡ coded (called role (verifying out.old) file.now) }
{
    reply_code(verify(role, file, out))
}

// The signal lists beside a flow: the count of bytes written, or the refusal.
pub fn bolz_add_signals(role: u64, file: &[u8], out: &mut [u8]) -> u64
    ensures { record { code = result; work = []; out = out.new } ≡ coded (called role (adding_lists out.old) file.now) }
{
    reply_code(add_signals(role, file, out))
}

// One node's set edited: the count of bytes written, or the refusal.
pub fn bolz_edit_set(role: u64, file: &[u8], entry: &[u8], out: &mut [u8]) -> u64
    ensures { record { code = result; work = []; out = out.new } ≡ coded (called role (editing entry.now out.old) file.now) }
{
    reply_code(edit_set(role, file, entry, out))
}

// The job writer: the count of bytes written, or the refusal.
pub fn bolz_write_job(
    role: u64,
    n: usize,
    mode: usize,
    edges: &[u8],
    inputs: &[u8],
    outputs: &[u8],
    measurements: &[u8],
    out: &mut [u8],
) -> u64
    ensures { record { code = result; work = []; out = out.new }
        ≡ coded (called role (writing out.old) (given n mode edges.now inputs.now outputs.now measurements.now none)) }
{
    reply_code(write_job(role, n, mode, edges, inputs, outputs, measurements, out))
}

// The job writer with angles: the count of bytes written, or the refusal.
pub fn bolz_write_job_angles(
    role: u64,
    n: usize,
    mode: usize,
    edges: &[u8],
    inputs: &[u8],
    outputs: &[u8],
    measurements: &[u8],
    angles: &[u8],
    out: &mut [u8],
) -> u64
    ensures { record { code = result; work = []; out = out.new }
        ≡ coded (called role (writing out.old) (given n mode edges.now inputs.now outputs.now measurements.now (some angles.now))) }
{
    reply_code(write_job_angles(
        role,
        n,
        mode,
        edges,
        inputs,
        outputs,
        measurements,
        angles,
        out,
    ))
}

// The angles read out: the count of bytes written, or the refusal.
pub fn bolz_read_angles(role: u64, file: &[u8], out: &mut [u8]) -> u64
    ensures { record { code = result; work = []; out = out.new } ≡ coded (called role (reading_out out.old) file.now) }
{
    reply_code(read_angles(role, file, out))
}

// The solver: 1 for solvable, 0 for not, or the refusal.
pub fn bolz_solve(
    matrix: &mut [u8],
    bits: &mut [u8],
    rows: usize,
    cols: usize,
    sides: usize,
    side: usize,
) -> u64
    ensures bits_after { record { code = result; out = bits.new }
        ≡ coded_bits (solve_call matrix.old bits.old rows cols sides side) }
    ensures matrix_after { MatrixAfter (solve_asks matrix.old bits.old rows cols sides side) rows cols sides
        matrix.old matrix.new }
{
    solved_code(solve_in_place(matrix, bits, rows, cols, sides, side))
}
