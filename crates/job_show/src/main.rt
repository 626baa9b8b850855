// A job file on standard input as text on standard output, which job_write reads back as the same file.
// A refusal is told in one line on standard error, and nothing is shown. A job with angles is for its owner only (24): the text has none, and would be another job.
#![tactic(auto)]

use answers::RefusalRecord;
use std::env::Env;
use std::io::{Stderr, Stdout};
use streams::{only_usage, read_input, tell, write_output};
use texts::show::{TEXT_ROOM, show_text};

// As much as the finder reads.
const MOST_BYTES: usize = 65536;

fn show(out: Stdout, err: Stderr, file: &[u8]) {
    let mut text = [0u8; TEXT_ROOM];
    match show_text(file, &mut text) {
        Ok(k) => write_output(out, err, &text[..k]),
        Err(q) => tell(err, RefusalRecord::from(q)),
    }
}

fn main(rt: HostRuntime) {
    let out = rt.stdout();
    let err = rt.stderr();
    if only_usage(
        rt.arg(1, &mut []),
        out,
        err,
        b"job_show reads a job file without angles on standard input.\nIt writes it as text on standard output, as job_write reads it.\n",
    ) {
        return;
    }
    let mut input = [0u8; MOST_BYTES];
    if let Some(n) = read_input(rt.stdin(), err, &mut input) {
        show(out, err, &input[..n]);
    }
}
