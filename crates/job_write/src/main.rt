// The job writer: a job as text on standard input, its file on standard output.
// A fault of the text, or a refusal, is told in one line on standard error, and nothing is written.
#![tactic(auto)]

use answers::RefusalRecord;
use std::env::Env;
use std::io::{Stderr, Stdout};
use streams::{error_number, only_usage, read_input, tell, write_error, write_output};
use texts::show::TEXT_ROOM;
use texts::{Fault, FaultyLine, MOST_JOB, TextError, write_text};

// A text is shorter: no job is shown by half as many bytes.
const MOST_TEXT: usize = 2 * TEXT_ROOM;

fn words(fault: Fault) -> &'static [u8] {
    match fault {
        Fault::OutOfOrder => b"nodes and then mode come first, one number each\n",
        Fault::WrongShape => b"edges are written as 0-1, all else as one number\n",
        Fault::NoWord => b"neither a name nor a number from 0 to 255 nor an edge\n",
        Fault::TooMany => b"more numbers than any job has\n",
    }
}

// The line that the fault stands in, from 1 on, and what it is.
fn tell_fault(err: Stderr, line: FaultyLine) {
    write_error(err, b"line ");
    error_number(err, line.before.min(MOST_TEXT - 1) + 1);
    write_error(err, b": ");
    write_error(err, words(line.fault));
}

fn write(out: Stdout, err: Stderr, text: &[u8]) {
    let mut file = [0u8; MOST_JOB];
    match write_text(text, &mut file) {
        Ok(k) => write_output(out, err, &file[..k]),
        Err(TextError::Refused(q)) => tell(err, RefusalRecord::from(q)),
        Err(TextError::Faulty(line)) => tell_fault(err, line),
    }
}

fn main(rt: HostRuntime) {
    let out = rt.stdout();
    let err = rt.stderr();
    if only_usage(
        rt.arg(1, &mut []),
        out,
        err,
        b"job_write reads a job as text on standard input: nodes and mode, edges, inputs, outputs, and nodes behind the name of their measurement.\nIt writes the job's file on standard output.\n",
    ) {
        return;
    }
    let mut text = [0u8; MOST_TEXT];
    match read_input(rt.stdin(), err, &mut text) {
        Some(MOST_TEXT) => write_error(err, b"the text has 262144 bytes or more\n"),
        Some(n) => write(out, err, &text[..n]),
        None => {}
    }
}
