// What the two programs write, and flow files with signal lists, as text on standard output: a line for each node of a flow file, and
// behind these one for each node of each list.
// Of a file that is cut, and of any other, it says so on standard error and shows nothing.
#![tactic(auto)]

mod judge; // judge.rt: what a file is

ghost use Rattle.std.specs.Prelude.{◌+◌, ◌*◌, ◌≡◌, get_or};
ghost use Rattle.answers.specs.Refusals.{refusal_of};

use answers::RefusalRecord;
use judge::{Judged, behind, tail, two_bytes};
use records::bit_rows::{BYTE_BITS, row_width};
use records::common::{ENTRY_HEAD_BYTES, HEAD_BYTES, byte_at};
use records::flow_file::FlowFile;
use std::env::Env;
use std::io::{Stderr, Write};
use std::{fmt, io};
use streams::{only_usage, output_failed, read_input, write_error};

// More than any file of the two programs has, and any flow file.
const MOST_BYTES: usize = 65536;

// The members of the entry at the front, each behind a space. Past the end of the bytes a member is 0.
#[derive(Clone, Copy)]
struct Members<'a> {
    entry: &'a [u8],
    count: u8,
}

impl fmt::Display for Members<'_> {
    fn fmt<W: fmt::Write>(&self, f: &mut fmt::Formatter<W>) -> fmt::Result {
        for i in 0..usize::from(self.count) {
            write!(f, " {}", byte_at(self.entry, ENTRY_HEAD_BYTES + i))?;
        }
        Ok(())
    }
}

// How many members the entry at the front has, where it is that of node v.
fn count_of(bytes: &[u8], v: usize) -> Option<u8> {
    if usize::from(*bytes.first()?) != v {
        return None;
    }
    Some(byte_at(bytes, 1))
}

// A line for each node. The entries are read to the end of the file and not by the walk that records has, so that where none is left the head
// of a signal list may be taken for one, of the node of its first byte: kept, since the programs do what they did on every input.
fn show_nodes(out: &mut impl Write, flow: &FlowFile<'_>, entries: &[u8]) -> io::Result<()> {
    let mut rest = entries;
    for v in 0..flow.layer_count() {
        write!(out, "node {v}  layer {}", flow.layer_of(v))?;
        if let Some(count) = count_of(rest, v) {
            write!(out, "  corrected by{}", Members { entry: rest, count })?;
            rest = tail(rest, ENTRY_HEAD_BYTES + usize::from(count));
        }
        writeln!(out)?;
    }
    Ok(())
}

// The nodes whose bits are set in a row of n bits, each behind a space.
#[derive(Clone, Copy)]
struct Row<'a> {
    bits: &'a [u8],
    n: usize,
}

impl Row<'_> {
    fn has(&self, i: usize) -> bool {
        byte_at(self.bits, i / BYTE_BITS) >> (i % BYTE_BITS) & 1 == 1
    }
}

impl fmt::Display for Row<'_> {
    fn fmt<W: fmt::Write>(&self, f: &mut fmt::Formatter<W>) -> fmt::Result {
        for i in 0..self.n {
            if self.has(i) {
                write!(f, " {i}")?;
            }
        }
        Ok(())
    }
}

// A row for each node.
fn show_list(out: &mut impl Write, list: &[u8], n: usize, words: &str) -> io::Result<()> {
    let width = row_width(n).max(1);
    for (v, bits) in list.chunks_exact(width).enumerate() {
        writeln!(out, "node {v}{words}{}", Row { bits, n })?;
    }
    Ok(())
}

// An outcome flips the nodes of its set by X, those of Odd of it by Z.
fn show_flow(out: &mut impl Write, file: &[u8], flow: &FlowFile<'_>) -> io::Result<()> {
    show_nodes(out, flow, tail(behind(file), HEAD_BYTES))?;
    if let Some(lists) = flow.signals {
        let n = flow.layer_count();
        show_list(out, lists.rows, n, "  X flip by")?;
        show_list(out, lists.odds, n, "  Z flip by")?;
    }
    Ok(())
}

// What 001F tells.
fn refusal_in(file: &[u8]) -> RefusalRecord
    ensures { refusal_of result ≡ record { number = get_or file.now 6 0; a = get_or file.now 7 0; b = get_or file.now 8 0 + 256 * get_or file.now 9 0 } }
{
    RefusalRecord {
        number: byte_at(file, HEAD_BYTES),
        a: byte_at(file, HEAD_BYTES + 1),
        b: two_bytes(file, HEAD_BYTES + 2),
    }
}

// A write that fails ends it.
fn show(out: &mut impl Write, err: Stderr, file: &[u8]) -> io::Result<()> {
    match Judged::of(file) {
        Judged::Flow(flow) => show_flow(out, file, &flow)?,
        Judged::NoFlow => out.write_all(b"no flow\n")?,
        Judged::Accepted => out.write_all(b"accepted\n")?,
        Judged::Refusal => write!(out, "{}", refusal_in(file))?,
        Judged::Cut => write_error(err, b"the file is cut off\n"),
        Judged::Other => write_error(err, b"no file of flow_find or flow_verify\n"),
    }
    Ok(())
}

// Each program has these lines: only its own `main` is given the runtime.
fn main(rt: HostRuntime) {
    let mut out = rt.stdout();
    let err = rt.stderr();
    if only_usage(
        rt.arg(1, &mut []),
        out,
        err,
        b"flow_show reads on standard input what flow_find or flow_verify wrote, or a flow file with signal lists.\nIt writes it as text on standard output.\n",
    ) {
        return;
    }
    // Fixed memory: no input waits for an allocation.
    let mut input = [0u8; MOST_BYTES];
    let Some(n) = read_input(rt.stdin(), err, &mut input) else {
        return;
    };
    if let Err(e) = show(&mut out, err, &input[..n]) {
        output_failed(err, e);
    }
}
