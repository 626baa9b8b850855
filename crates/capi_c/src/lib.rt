// The entries as symbols for C: each is the function of crate capi under the same name, with the same promise. The archive that
// this crate makes is the library for C.
#![tactic(auto)]

ghost use Rattle.std.specs.Prelude.{◌≡◌, []};
ghost use Rattle.std.proofs.Math.Option.{none, some};
ghost use Rattle.solver.specs.Solver.{MatrixAfter, solve_asks, solve_call};
ghost use Rattle.records.specs.JobLists.{given};
ghost use Rattle.demands.specs.Roles.{finding, verifying, adding_lists, editing, reading_out, writing, called};
ghost use Rattle.capi.specs.Codes.{coded, coded_bits};

// The finder: the count of bytes written, or the refusal.
#[unsafe(no_mangle)]
pub extern "C" fn bolz_find(role: u64, file: &[u8], work: &mut [u8], out: &mut [u8]) -> u64
    ensures { record { code = result; work = work.new; out = out.new } ≡ coded (called role (finding work.old out.old) file.now) }
{
    capi::bolz_find(role, file, work, out)
}

// The verifier: the count of bytes written, or the refusal.
#[unsafe(no_mangle)]
pub extern "C" fn bolz_verify(role: u64, file: &[u8], out: &mut [u8]) -> u64
    ensures { record { code = result; work = []; out = out.new } ≡ coded (called role (verifying out.old) file.now) }
{
    capi::bolz_verify(role, file, out)
}

// The signal lists beside a flow: the count of bytes written, or the refusal.
#[unsafe(no_mangle)]
pub extern "C" fn bolz_add_signals(role: u64, file: &[u8], out: &mut [u8]) -> u64
    ensures { record { code = result; work = []; out = out.new } ≡ coded (called role (adding_lists out.old) file.now) }
{
    capi::bolz_add_signals(role, file, out)
}

// One node's set edited: the count of bytes written, or the refusal.
#[unsafe(no_mangle)]
pub extern "C" fn bolz_edit_set(role: u64, file: &[u8], entry: &[u8], out: &mut [u8]) -> u64
    ensures { record { code = result; work = []; out = out.new } ≡ coded (called role (editing entry.now out.old) file.now) }
{
    capi::bolz_edit_set(role, file, entry, out)
}

// The job writer: the count of bytes written, or the refusal.
#[unsafe(no_mangle)]
pub extern "C" fn bolz_write_job(
    role: u64,
    n: usize,
    mode: usize,
    edges: &[u8],
    inputs: &[u8],
    outputs: &[u8],
    measurements: &[u8],
    out: &mut [u8],
) -> u64
    ensures { record { code = result; work = []; out = out.new }
        ≡ coded (called role (writing out.old) (given n mode edges.now inputs.now outputs.now measurements.now none)) }
{
    capi::bolz_write_job(role, n, mode, edges, inputs, outputs, measurements, out)
}

// The job writer with angles: the count of bytes written, or the refusal.
#[unsafe(no_mangle)]
pub extern "C" fn bolz_write_job_angles(
    role: u64,
    n: usize,
    mode: usize,
    edges: &[u8],
    inputs: &[u8],
    outputs: &[u8],
    measurements: &[u8],
    angles: &[u8],
    out: &mut [u8],
) -> u64
    ensures { record { code = result; work = []; out = out.new }
        ≡ coded (called role (writing out.old) (given n mode edges.now inputs.now outputs.now measurements.now (some angles.now))) }
{
    capi::bolz_write_job_angles(
        role,
        n,
        mode,
        edges,
        inputs,
        outputs,
        measurements,
        angles,
        out,
    )
}

// The angles read out: the count of bytes written, or the refusal.
#[unsafe(no_mangle)]
pub extern "C" fn bolz_read_angles(role: u64, file: &[u8], out: &mut [u8]) -> u64
    ensures { record { code = result; work = []; out = out.new } ≡ coded (called role (reading_out out.old) file.now) }
{
    capi::bolz_read_angles(role, file, out)
}

// The solver: 1 for solvable, 0 for not, or the refusal.
#[unsafe(no_mangle)]
pub extern "C" fn bolz_solve(
    matrix: &mut [u8],
    bits: &mut [u8],
    rows: usize,
    cols: usize,
    sides: usize,
    side: usize,
) -> u64
    ensures bits_after { record { code = result; out = bits.new }
        ≡ coded_bits (solve_call matrix.old bits.old rows cols sides side) }
    ensures matrix_after { MatrixAfter (solve_asks matrix.old bits.old rows cols sides side) rows cols sides
        matrix.old matrix.new }
{
    capi::bolz_solve(matrix, bits, rows, cols, sides, side)
}
