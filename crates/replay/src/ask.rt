// The call that an entry asks for, by its role, on the buffers that it lends.
ghost use Rattle.std.specs.Prelude.{◌<◌};

use crate::entry::{Call, Entry, two_bytes};
use capi::{
    bolz_add_signals, bolz_edit_set, bolz_find, bolz_read_angles, bolz_solve, bolz_verify,
    bolz_write_job, bolz_write_job_angles,
};

// n and mode, eight bytes each, and the lengths of the four lists, two bytes each, stand before the lists; behind them the angles, where they
// are given.
const LISTS_HEAD_BYTES: usize = 24;

// The length of a lent entry, two bytes, stands before it.
const LENT_HEAD_BYTES: usize = 2;

// Rows, columns, right sides and the right side that is asked for, two bytes each, stand before the matrix.
const SHAPE_BYTES: usize = 8;

// What a job is written from, and the bytes behind the lists.
#[derive(Clone, Copy)]
struct Lists<'a> {
    n: usize,
    mode: usize,
    edges: &'a [u8],
    inputs: &'a [u8],
    outputs: &'a [u8],
    measurements: &'a [u8],
    angles: &'a [u8],
}

// A number of any size, lowest byte first, and the bytes behind it.
fn split_number(bytes: &[u8]) -> Option<(usize, &[u8])> {
    let (&number, rest) = bytes.split_first_chunk::<8>()?;
    Some((usize::from_le_bytes(number), rest))
}

impl<'a> Lists<'a> {
    fn read(query: &'a [u8]) -> Option<Lists<'a>> {
        let (head, lists) = query.split_at_checked(LISTS_HEAD_BYTES)?;
        let (n, rest) = split_number(head)?;
        let (mode, _) = split_number(rest)?;
        let (edges, rest) = lists.split_at_checked(two_bytes(head, 16))?;
        let (inputs, rest) = rest.split_at_checked(two_bytes(head, 18))?;
        let (outputs, rest) = rest.split_at_checked(two_bytes(head, 20))?;
        let (measurements, angles) = rest.split_at_checked(two_bytes(head, 22))?;
        Some(Lists {
            n,
            mode,
            edges,
            inputs,
            outputs,
            measurements,
            angles,
        })
    }

    // The file of the lists, where nothing stands behind them.
    fn write(&self, role: u64, out: &mut [u8]) -> Option<u64> {
        if !self.angles.is_empty() {
            return None;
        }
        Some(bolz_write_job(
            role,
            self.n,
            self.mode,
            self.edges,
            self.inputs,
            self.outputs,
            self.measurements,
            out,
        ))
    }

    // The file of the lists with angles.
    fn write_angles(&self, role: u64, out: &mut [u8]) -> u64 {
        bolz_write_job_angles(
            role,
            self.n,
            self.mode,
            self.edges,
            self.inputs,
            self.outputs,
            self.measurements,
            self.angles,
            out,
        )
    }
}

// The flow file with the lent entry.
fn edit(role: u64, query: &[u8], out: &mut [u8]) -> Option<u64> {
    let (head, rest) = query.split_at_checked(LENT_HEAD_BYTES)?;
    let (lent, file) = rest.split_at_checked(two_bytes(head, 0))?;
    Some(bolz_edit_set(role, file, lent, out))
}

// What the call answers, or nothing where the query has not its parts, or a buffer is too short. The call lends as much of either buffer as the
// entry says.
pub(crate) fn ask(
    call: Call,
    entry: &Entry<'_>,
    query: &[u8],
    works: &mut [u8],
    outs: &mut [u8],
) -> Option<u64> {
    let role = entry.role;
    let work = works.get_mut(..entry.work_len)?;
    let out = outs.get_mut(..entry.out_len)?;
    match call {
        Call::Find => Some(bolz_find(role, query, work, out)),
        Call::Verify => Some(bolz_verify(role, query, out)),
        Call::Add => Some(bolz_add_signals(role, query, out)),
        Call::Edit => edit(role, query, out),
        Call::ReadOut => Some(bolz_read_angles(role, query, out)),
        Call::Write => Lists::read(query)?.write(role, out),
        Call::WriteAngles => Some(Lists::read(query)?.write_angles(role, out)),
    }
}

// A size of the shape; the largest stands for one that two bytes cannot hold, and that adding one to it would wrap.
fn size(shape: &[u8], at: usize) -> usize
    requires { at < 65536 }
{
    match two_bytes(shape, at) {
        65535 => usize::MAX,
        itself => itself,
    }
}

// What the solver answers, its matrix and its out bits in the buffers; nothing where the entry has not its parts, or a buffer is too short.
pub(crate) fn solve(entry: &Entry<'_>, works: &mut [u8], outs: &mut [u8]) -> Option<u64> {
    let (shape, given) = entry.query.split_at_checked(SHAPE_BYTES)?;
    let matrix = works.get_mut(..given.len())?;
    let bits = outs.get_mut(..entry.out_len)?;
    matrix.copy_from_slice(given);
    Some(bolz_solve(
        matrix,
        bits,
        size(shape, 0),
        size(shape, 2),
        size(shape, 4),
        size(shape, 6),
    ))
}
