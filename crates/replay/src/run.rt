// The call of one entry on filled buffers: is its answer, and is each byte that it leaves, as stored?
use crate::ask::{ask, solve};
use crate::entry::{Call, Entry, Kind, two_bytes};
use crate::flow::{is_flow, same_flow};
use compare::holds;
use records::common::byte_at;

// Numbers of refusals as entries store them, where a refusal would have its nodes.
const ORDER: u8 = 18;

const PLANE: u64 = 19;

const RESULT_TOO_LONG: u8 = 20;

// The places of a refusal's number and of a.
const NUMBER_UNIT: u64 = 4294967296;

const A_UNIT: u64 = 65536;

// What every lent byte holds before a call.
const FILL: u8 = 0xA5;

// No buffer that is lent here is longer.
const MOST_WORK: usize = 2304;

const MOST_OUT: usize = 21036;

// Where a job has its number of nodes.
const NODES_AT: usize = 6;

// What stands before the matrix.
const SHAPE_BYTES: usize = 8;

// The kind of a call, and the length of the first query in two bytes, stand before the two queries of a pair.
const PAIR_HEAD_BYTES: usize = 3;

// The buffers of a call, and what they hold.
#[derive(Clone, Copy, PartialEq, Eq)]
struct Buffers {
    works: [u8; MOST_WORK],
    outs: [u8; MOST_OUT],
}

impl Buffers {
    fn filled() -> Buffers {
        Buffers {
            works: [FILL; MOST_WORK],
            outs: [FILL; MOST_OUT],
        }
    }

    fn ask(&mut self, call: Call, entry: &Entry<'_>, query: &[u8]) -> Option<u64> {
        ask(call, entry, query, &mut self.works, &mut self.outs)
    }
}

// The answer that is stored: a count, or number, a and b.
fn code_of(entry: &Entry<'_>, count: usize) -> u64 {
    if entry.number == 0 {
        return count as u64;
    }
    u64::from(entry.number) * NUMBER_UNIT + u64::from(entry.a) * A_UNIT + u64::from(entry.b)
}

// What the finder leaves in each byte of its work buffer.
fn left_in_work(number: u8) -> u8 {
    match number {
        0 | RESULT_TOO_LONG => 0,
        _ => FILL,
    }
}

// A flow that is stored is compared after reading, with the bytes behind it as they were; 0013 and what a refusal leaves as bytes.
fn found_as_stored(got: u64, entry: &Entry<'_>, outs: &[u8]) -> bool {
    let n = usize::from(byte_at(entry.query, NODES_AT));
    if !is_flow(entry.stored, n) {
        return got == code_of(entry, entry.stored.len()) && holds(outs, entry.stored, FILL);
    }
    let Ok(count) = usize::try_from(got) else {
        return false;
    };
    let Some((file, behind)) = outs.split_at_checked(count) else {
        return false;
    };
    same_flow(file, entry.stored, n) && holds(behind, b"", FILL)
}

fn find_as_stored(entry: &Entry<'_>, buffers: &mut Buffers) -> bool {
    let Some(got) = buffers.ask(Call::Find, entry, entry.query) else {
        return false;
    };
    let Some((lent, rest)) = buffers.works.split_at_checked(entry.work_len) else {
        return false;
    };
    found_as_stored(got, entry, &buffers.outs)
        && holds(lent, b"", left_in_work(entry.number))
        && holds(rest, b"", FILL)
}

// 0014, a flow file, a job file or the record of angles; or a refusal.
fn call_as_stored(call: Call, entry: &Entry<'_>, buffers: &mut Buffers) -> bool {
    let got = buffers.ask(call, entry, entry.query);
    got == Some(code_of(entry, entry.stored.len())) && holds(&buffers.outs, entry.stored, FILL)
}

// Accepted by both, or refused by both: by the same number from 13 to 17.
fn verdict_as_stored(entry: &Entry<'_>, buffers: &mut Buffers) -> bool {
    let Some(got) = buffers.ask(Call::Verify, entry, entry.query) else {
        return false;
    };
    let number = got / NUMBER_UNIT;
    number == u64::from(entry.number) || number == PLANE && entry.number == ORDER
}

// One call of two queries, each on buffers of its own that are filled alike: is what both are answered, and what they leave in every byte, the
// same? Number and a are the numbers of the two answers; where these are others, there is nothing to say.
fn answered_alike(entry: &Entry<'_>, buffers: &mut Buffers) -> Option<bool> {
    let (head, queries) = entry.query.split_at_checked(PAIR_HEAD_BYTES)?;
    let (query, other_query) = queries.split_at_checked(two_bytes(head, 1))?;
    let call = Call::try_from(byte_at(head, 0)).ok()?;
    let mut others = Buffers::filled();
    let got = buffers.ask(call, entry, query)?;
    let other = others.ask(call, entry, other_query)?;
    if got / NUMBER_UNIT != u64::from(entry.number) || other / NUMBER_UNIT != u64::from(entry.a) {
        return None;
    }
    Some(got == other && *buffers == others)
}

// Solvable with the stored out bits; or, where none are stored, not solvable or refused, with the out bits as they were and,
// refused, the matrix too. The solver answers 1 where there are out bits to write.
fn solve_as_stored(entry: &Entry<'_>, buffers: &mut Buffers) -> bool {
    let got = solve(entry, &mut buffers.works, &mut buffers.outs);
    let solvable = usize::from(!entry.stored.is_empty());
    got == Some(code_of(entry, solvable))
        && holds(&buffers.outs, entry.stored, FILL)
        && (entry.number == 0 || holds(&buffers.works, matrix_of(entry), FILL))
}

fn matrix_of<'a>(entry: &Entry<'a>) -> &'a [u8] {
    match entry.query.split_at_checked(SHAPE_BYTES) {
        Some((_, matrix)) => matrix,
        None => &[],
    }
}

pub(crate) fn as_stored(entry: &Entry<'_>) -> bool {
    let mut buffers = Buffers::filled();
    match entry.kind {
        Some(Kind::Call(Call::Find)) => find_as_stored(entry, &mut buffers),
        Some(Kind::Call(call)) => call_as_stored(call, entry, &mut buffers),
        Some(Kind::Solve) => solve_as_stored(entry, &mut buffers),
        Some(Kind::Original) => verdict_as_stored(entry, &mut buffers),
        Some(Kind::Twins) => answered_alike(entry, &mut buffers) == Some(true),
        Some(Kind::Apart) => answered_alike(entry, &mut buffers) == Some(false),
        None => false,
    }
}
