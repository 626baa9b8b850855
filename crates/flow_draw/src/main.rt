// The drawer: a job and a flow file on standard input, one picture (SVG) of both on standard output.
// It works as operator. A flow that can be read and is refused is drawn too, and the caption says why; what cannot be read is not
// drawn, and its line in words goes to standard error.
#![tactic(auto)]

mod draw; // draw.rt: the pieces of the picture
mod layout; // layout.rt: where each node stands
mod load; // load.rt: what the records hold

use answers::{Refusal, RefusalRecord};
use calls::OPERATOR;
use calls::verify::verify;
use draw::Drawing;
use layout::Layout;
use load::Picture;
use records::common::HEAD_BYTES;
use records::flow_file::FlowFile;
use records::job_file::read_job;
use std::env::Env;
use std::io;
use std::io::{Stderr, Write};
use streams::{only_usage, output_failed, read_input, tell};

// More than any job with its flow has.
const MOST_BYTES: usize = 65536;

// Is it a question of the verifier, asked of a flow that was read?
fn is_verdict(q: Refusal) -> bool {
    matches!(
        q,
        Refusal::InvalidFlowCodomain { .. }
            | Refusal::InvalidFlowDomain { .. }
            | Refusal::ExcessiveNonZeroLayer { .. }
            | Refusal::ExcessiveZeroLayer { .. }
            | Refusal::InvalidMeasurementSpec { .. }
            | Refusal::InconsistentFlowOrder { .. }
            | Refusal::InconsistentFlowPlane { .. }
            | Refusal::WrongSignals
    )
}

// What the verifier could read is read again for its payloads.
fn draw_read(out: &mut impl Write, file: &[u8], reply: Result<usize, Refusal>) -> io::Result<()> {
    let Ok(job) = read_job(file) else {
        return Ok(());
    };
    let Ok(flow) = FlowFile::read(job.after, job.n) else {
        return Ok(());
    };
    let picture = Picture::of(&job, &flow);
    let layout = Layout::of(&picture);
    let drawing = Drawing {
        picture: &picture,
        layout: &layout,
    };
    drawing.write(out, reply)
}

// A write that fails ends it.
fn draw_file(out: &mut impl Write, err: Stderr, file: &[u8]) -> io::Result<()> {
    // The verifier writes into a lent buffer.
    let mut verdict = [0u8; HEAD_BYTES];
    let reply = verify(OPERATOR, file, &mut verdict);
    match reply {
        Err(q) if !is_verdict(q) => {
            tell(err, RefusalRecord::from(q));
            Ok(())
        }
        _ => draw_read(out, file, reply),
    }
}

// Each program has these lines: only its own `main` is given the runtime.
fn main(rt: HostRuntime) {
    let mut out = rt.stdout();
    let err = rt.stderr();
    if only_usage(
        rt.arg(1, &mut []),
        out,
        err,
        b"flow_draw reads a job and a flow file behind it on standard input.\nIt writes a picture of both, an SVG file, on standard output.\n",
    ) {
        return;
    }
    // Fixed memory: no input waits for an allocation.
    let mut input = [0u8; MOST_BYTES];
    let Some(n) = read_input(rt.stdin(), err, &mut input) else {
        return;
    };
    if let Err(e) = draw_file(&mut out, err, &input[..n]) {
        output_failed(err, e);
    }
}
