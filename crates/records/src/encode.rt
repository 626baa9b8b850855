// What is written, as values that know their bytes: one function writes them all.
ghost use Rattle.std.specs.Prelude.{◌≡◌, ◌≤◌, ◌++◌, ℕ, List, drop, length};
ghost use Rattle.records.specs.Records.{head_of, written, in_two_bytes};
ghost use Rattle.records.specs.Splice.{left_of, Puts, option_bytes, put_front, put_answer};
ghost use Rattle.answers.specs.Refusals.{given};

use crate::common::HEAD_BYTES;
use answers::Refusal;

// A value that is written as bytes.
pub trait Encode {
    ghost bytes: { Self → List ℕ };

    // What is left of so much room, where the bytes fit.
    fn room_left(&self, room: usize) -> Option<usize>
        ensures { result ≡ left_of (bytes self.now) room };

    // The bytes at the front of a buffer that has room; how many.
    fn put(&self, out: &mut [u8]) -> usize
        requires { length (bytes self.now) ≤ length out.old }
        ensures { Puts (bytes self.now) out.old out.new result };
}

// The bytes at the front of a buffer that has room. One by one, where `copy_from_slice` would do: that is a call of memmove, which the library
// for C would then want of the firmware that it is linked into.
fn put_bytes(out: &mut [u8], bytes: &[u8])
    requires { length bytes.now ≤ length out.old }
    ensures { out.new ≡ bytes.now ++ drop (length bytes.now) out.old }
{
    for i in 0..bytes.len() {
        out[i] = bytes[i];
    }
}

// Bytes as they stand.
#[derive(Clone, Copy, Debug, PartialEq, Eq)]
pub struct Plain<'a> {
    pub bytes: &'a [u8],
}

impl Encode for Plain<'_> {
    ghost bytes = { λ p. p.bytes.now };

    fn room_left(&self, room: usize) -> Option<usize> {
        room.checked_sub(self.bytes.len())
    }

    fn put(&self, out: &mut [u8]) -> usize {
        put_bytes(out, self.bytes);
        self.bytes.len()
    }
}

// One after the other.
#[derive(Clone, Copy, Debug, PartialEq, Eq)]
pub struct Then<A, B> {
    pub first: A,
    pub second: B,
}

impl<A: Encode, B: Encode> Encode for Then<A, B> {
    ghost bytes = { λ p. A.bytes p.first ++ B.bytes p.second };

    fn room_left(&self, room: usize) -> Option<usize> {
        self.second.room_left(self.first.room_left(room)?)
    }

    #[tactic(auto, using(crate::proofs::Splice::front_twice))]
    fn put(&self, out: &mut [u8]) -> usize {
        let n = self.first.put(out);
        n + self.second.put(&mut out[n..])
    }
}

impl<A: Encode> Encode for Option<A> {
    ghost bytes = { option_bytes A.bytes };

    fn room_left(&self, room: usize) -> Option<usize> {
        match self {
            Some(a) => a.room_left(room),
            None => Some(room),
        }
    }

    fn put(&self, out: &mut [u8]) -> usize {
        match self {
            Some(a) => a.put(out),
            None => 0,
        }
    }
}

// A record: the head, then the payload.
#[derive(Clone, Copy, Debug, PartialEq, Eq)]
pub struct Record<P> {
    pub kind: u16,
    pub payload: P,
}

// A record's length and kind, lowest byte first.
fn put_head(out: &mut [u8], len: usize, kind: u16)
    requires { length out.old ≡ 6 }
    ensures { out.new ≡ head_of len kind }
{
    out[..4].copy_from_slice(&len.to_le_bytes()[..4]);
    out[4..].copy_from_slice(&kind.to_le_bytes());
}

impl<P: Encode> Encode for Record<P> {
    ghost bytes = { λ r. written r.kind (P.bytes r.payload) };

    #[tactic(auto, using(crate::proofs::Splice::record_length))]
    fn room_left(&self, room: usize) -> Option<usize> {
        self.payload.room_left(room.checked_sub(HEAD_BYTES)?)
    }

    #[tactic(auto, using(crate::proofs::Splice::record_length, crate::proofs::Splice::record_front))]
    fn put(&self, out: &mut [u8]) -> usize {
        let (head, rest) = out.split_at_mut(HEAD_BYTES);
        let n = self.payload.put(rest);
        put_head(head, n, self.kind);
        HEAD_BYTES + n
    }
}

// Bytes as they stand, as a record of this kind.
pub fn plain_record(kind: u16, bytes: &[u8]) -> Record<Plain<'_>>
    ensures { (result.kind ≡ kind) × (result.payload.bytes.now ≡ bytes.now) }
{
    Record {
        kind,
        payload: Plain { bytes },
    }
}

// At the front of the buffer, where there is room for all of it: how many bytes.
pub fn write<E: Encode>(value: &E, out: &mut [u8]) -> Result<usize, Refusal>
    ensures result_value { given (λ k. k) result ≡ put_answer (E.bytes value.now) out.old }
    ensures out_after { out.new ≡ put_front (E.bytes value.now) out.old }
{
    if value.room_left(out.len()).is_none() {
        return Err(Refusal::ResultTooLong);
    }
    Ok(value.put(out))
}
