// The verifier: a job and a flow file on standard input; 0014 or 001F on standard output.
// With 001F goes its line in words on standard error.
#![tactic(auto)]

use answers::LINE_ROOM;
use programs::output::{JUDGED_BYTES, MOST_OUTPUT};
use programs::verify_program;
use std::env::Env;
use std::io::{Stderr, Stdout};
use streams::{only_usage, read_input, write_error, write_output};

// What the verifier says of the file, on both streams; flow_find says why these lines stand in both.
fn verify(out: Stdout, err: Stderr, file: &[u8]) {
    // Lent, since what is proved of both streams is proved of lent bytes, with no heap.
    let mut output = [0u8; MOST_OUTPUT];
    let mut line = [0u8; LINE_ROOM];
    let counts = verify_program(file, &mut output, &mut line);
    write_output(out, err, &output[..counts.output]);
    write_error(err, &line[..counts.error]);
}

// Each program has these lines: only its own `main` is given the runtime.
fn main(rt: HostRuntime) {
    let out = rt.stdout();
    let err = rt.stderr();
    if only_usage(
        rt.arg(1, &mut []),
        out,
        err,
        b"flow_verify reads a job (records 1 to 5) and a flow file behind it on standard input.\nIt writes 0014 (accepted) or 001F (refused) on standard output.\n",
    ) {
        return;
    }
    // Fixed memory: no input waits for an allocation.
    let mut input = [0u8; JUDGED_BYTES];
    if let Some(n) = read_input(rt.stdin(), err, &mut input) {
        verify(out, err, &input[..n]);
    }
}
