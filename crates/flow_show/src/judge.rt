// What a file is, judged by the heads of its records, its length and the entries of its sets.
ghost use Rattle.std.specs.Prelude.{◌+◌, ◌*◌, ◌<◌, ◌≤◌, ◌≡◌, length, get_or};

use answers::Refusal;
use records::bit_rows::row_width;
use records::common::{
    HEAD_BYTES, KIND_ACCEPTED, KIND_LAYERS, KIND_NO_FLOW, KIND_REFUSAL, KIND_WIDE_LAYERS,
    MOST_NODES, WIDE_LAYER_BYTES, byte_at,
};
use records::flow_file::FlowFile;

// The payload of 001F.
const REFUSAL_PAYLOAD: usize = 4;

#[derive(Clone, Copy)]
pub(crate) enum Judged<'a> {
    Flow(FlowFile<'a>),
    NoFlow,
    Accepted,
    Refusal,
    Cut,
    Other,
}

// The number in the two bytes from this place on.
pub(crate) fn two_bytes(file: &[u8], at: usize) -> u16
    requires { at ≤ 8 }
    ensures { result ≡ get_or file.now at 0 + 256 * get_or file.now (at + 1) 0 }
{
    u16::from_le_bytes([byte_at(file, at), byte_at(file, at + 1)])
}

// The length in the head of a record. The reader of records asks for a whole head; here bytes that are missing count as 0.
fn length_field(file: &[u8]) -> usize
    ensures { result < 4294967296 }
{
    let bytes = [
        byte_at(file, 0),
        byte_at(file, 1),
        byte_at(file, 2),
        byte_at(file, 3),
    ];
    u32::from_le_bytes(bytes) as usize
}

// The bytes from this place on; past the end there are none.
pub(crate) fn tail(bytes: &[u8], at: usize) -> &[u8]
    ensures { length result.now ≤ length bytes.now }
{
    &bytes[at.min(bytes.len())..]
}

// The bytes behind the record at the front; where that is cut, none.
pub(crate) fn behind(file: &[u8]) -> &[u8]
    ensures { length result.now ≤ length file.now }
{
    tail(file, HEAD_BYTES + length_field(file))
}

// A file of one record whose payload should have so many bytes.
fn judge_single<'a>(file: &[u8], payload: usize, whole: Judged<'a>) -> Judged<'a>
    requires { payload ≤ 4 }
{
    if length_field(file) != payload || file.len() > HEAD_BYTES + payload {
        return Judged::Other;
    }
    if file.len() < HEAD_BYTES + payload {
        return Judged::Cut;
    }
    whole
}

// Are these bytes behind the sets too few for a head, and do they begin as that of a signal list, with its length?
fn head_cut(left: &[u8], n: usize) -> bool
    requires { n ≤ 128 }
{
    let len = row_width(n) * n;
    match left.len() {
        1 => length_field(left) == len % 256,
        2..=5 => length_field(left) == len,
        _ => false,
    }
}

// A flow that was read: is nothing behind it?
fn judge_end(flow: FlowFile<'_>, n: usize) -> Judged<'_>
    requires { n ≤ 128 }
{
    if flow.after.is_empty() {
        return Judged::Flow(flow);
    }
    if flow.signals.is_none() && head_cut(flow.after, n) {
        return Judged::Cut;
    }
    Judged::Other
}

// Where a record is missing: is it the second list, behind the first, that the file is too short for?
fn second_cut(file: &[u8], n: usize) -> bool {
    let lists = behind(behind(file));
    let flow = FlowFile::read(&file[..file.len() - lists.len()], n);
    flow.is_ok() && behind(lists).len() < HEAD_BYTES
}

// A flow that the verifier would refuse to read: is it cut?
fn judge_refused(file: &[u8], q: Refusal, n: usize) -> Judged<'_> {
    match q {
        Refusal::CutPayload => Judged::Cut,
        Refusal::NoRecord if second_cut(file, n) => Judged::Cut,
        _ => Judged::Other,
    }
}

// A flow file of n nodes, whose layers take so many bytes: its records as the verifier reads them, and nothing behind them.
fn judge_flow(file: &[u8], n: usize, layers: usize) -> Judged<'_>
    requires { layers ≤ 2 * n }
{
    if n > MOST_NODES {
        return Judged::Other;
    }
    if file.len() < 2 * HEAD_BYTES + layers {
        return Judged::Cut;
    }
    match FlowFile::read(file, n) {
        Ok(flow) => judge_end(flow, n),
        Err(q) => judge_refused(file, q, n),
    }
}

// A flow file with layers of the wide kind; no node has half a layer.
fn judge_wide(file: &[u8], layers: usize) -> Judged<'_> {
    if layers % WIDE_LAYER_BYTES != 0 {
        return Judged::Other;
    }
    judge_flow(file, layers / WIDE_LAYER_BYTES, layers)
}

impl<'a> Judged<'a> {
    pub(crate) fn of(file: &'a [u8]) -> Judged<'a> {
        if file.len() < HEAD_BYTES {
            return Judged::Cut;
        }
        let len = length_field(file);
        match two_bytes(file, 4) {
            KIND_LAYERS => judge_flow(file, len, len),
            KIND_WIDE_LAYERS => judge_wide(file, len),
            KIND_NO_FLOW => judge_single(file, 0, Judged::NoFlow),
            KIND_ACCEPTED => judge_single(file, 0, Judged::Accepted),
            KIND_REFUSAL => judge_single(file, REFUSAL_PAYLOAD, Judged::Refusal),
            _ => Judged::Other,
        }
    }
}
