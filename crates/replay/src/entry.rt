// An entry: a head of sixteen bytes, then its name, the query and the result. The head: kind, role, number, a, and lowest byte first, two
// bytes each, b and the lengths of work buffer, result buffer, name, query and result. An answer has number 0; most entries have no name.
ghost use Rattle.std.specs.Prelude.{◌<◌, ◌≤◌};

use records::common::byte_at;

pub(crate) const HEAD_BYTES: usize = 16;

// No entry is longer: its head, and a name, a query and a result of 65,535 bytes each.
pub(crate) const MOST_ENTRY: usize = 196621;

// A call through the library's entries for C.
#[derive(Clone, Copy)]
pub(crate) enum Call {
    Find,
    Verify,
    Add,
    Edit,
    ReadOut,
    Write,
    WriteAngles,
}

// What an entry is: a call, and four that are more or none.
#[derive(Clone, Copy)]
pub(crate) enum Kind {
    Call(Call),
    // The solver, which has no role.
    Solve,
    // The original's verdict. Its choice between 18 and 19 varies, and its nodes do: 18 is stored for either.
    Original,
    // One call of two queries that it may not tell apart.
    Twins,
    // One call of two queries to which it must answer differently.
    Apart,
}

// A letter that stands for nothing here.
#[derive(Clone, Copy)]
pub(crate) struct UnknownLetter;

impl TryFrom<u8> for Call {
    type Error = UnknownLetter;

    fn try_from(letter: u8) -> Result<Call, UnknownLetter> {
        match letter {
            b'f' => Ok(Call::Find),
            b'v' => Ok(Call::Verify),
            b'a' => Ok(Call::Add),
            b'e' => Ok(Call::Edit),
            b'o' => Ok(Call::ReadOut),
            b'w' => Ok(Call::Write),
            b'W' => Ok(Call::WriteAngles),
            _ => Err(UnknownLetter),
        }
    }
}

impl TryFrom<u8> for Kind {
    type Error = UnknownLetter;

    fn try_from(letter: u8) -> Result<Kind, UnknownLetter> {
        match letter {
            b's' => Ok(Kind::Solve),
            b'r' => Ok(Kind::Original),
            b't' => Ok(Kind::Twins),
            b'd' => Ok(Kind::Apart),
            _ => Ok(Kind::Call(Call::try_from(letter)?)),
        }
    }
}

// What an entry holds. `stored` is the result: what the call left in its buffer.
#[derive(Clone, Copy)]
pub(crate) struct Entry<'a> {
    pub(crate) kind: Option<Kind>,
    pub(crate) role: u64,
    pub(crate) number: u8,
    pub(crate) a: u8,
    pub(crate) b: u16,
    pub(crate) work_len: usize,
    pub(crate) out_len: usize,
    pub(crate) name: &'a [u8],
    pub(crate) query: &'a [u8],
    pub(crate) stored: &'a [u8],
}

impl<'a> Entry<'a> {
    // The entry at the front of the bytes, where all of it is there.
    pub(crate) fn read(bytes: &'a [u8]) -> Option<Entry<'a>> {
        let (head, rest) = bytes.split_first_chunk::<HEAD_BYTES>()?;
        let (name, rest) = rest.split_at_checked(two_bytes(head, 10))?;
        let (query, rest) = rest.split_at_checked(two_bytes(head, 12))?;
        let (stored, _) = rest.split_at_checked(two_bytes(head, 14))?;
        Some(Entry {
            kind: Kind::try_from(head[0]).ok(),
            role: role_of(head[1]),
            number: head[2],
            a: head[3],
            b: u16::from_le_bytes([head[4], head[5]]),
            work_len: two_bytes(head, 6),
            out_len: two_bytes(head, 8),
            name,
            query,
            stored,
        })
    }
}

// The bytes behind a head that is all there.
pub(crate) fn behind(head: &[u8]) -> usize
    ensures { result ≤ 196605 }
{
    two_bytes(head, 10) + two_bytes(head, 12) + two_bytes(head, 14)
}

// The role of the caller, one byte: 8, 16, 32 and 63 stand for the role that has only this bit, 255 for the largest number; any other for itself.
fn role_of(byte: u8) -> u64 {
    match byte {
        255 => u64::MAX,
        63 => 1 << 63,
        32 => 1 << 32,
        16 => 1 << 16,
        8 => 1 << 8,
        itself => u64::from(itself),
    }
}

// The number in the two bytes from this place on; bytes that are missing count as 0.
pub(crate) fn two_bytes(bytes: &[u8], at: usize) -> usize
    requires { at < 65536 }
    ensures { result ≤ 65535 }
{
    usize::from(u16::from_le_bytes([byte_at(bytes, at), byte_at(bytes, at + 1)]))
}
