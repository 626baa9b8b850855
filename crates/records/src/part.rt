// A record at the front of some bytes: questions 1 and 2 of document 01, then those of its payload.
ghost use Rattle.std.specs.Prelude.{◌≡◌, ◌≤◌, ◌<◌, true, cond, length, ◌++◌, IfOk};
ghost use Rattle.records.specs.Format.{plain, record_of, optional_if};
ghost use Rattle.records.specs.Records.{carries, length_field, head_bytes, part, all_yes, checked, written};
ghost use Rattle.records.specs.Encoding.{IsBytes};
ghost use Rattle.answers.specs.Refusals.{given};
ghost use Rattle.records.specs.Views.{part_of, optional_of, either_of, either_asks};

use crate::common::HEAD_BYTES;
use crate::questions::Questions;
use answers::Refusal;

// A record's payload, and the bytes behind it.
#[derive(Clone, Copy, Debug, PartialEq, Eq)]
pub struct Part<'a> {
    pub payload: &'a [u8],
    pub rest: &'a [u8],
}

// The payload's length, which the first four bytes tell, lowest first.
#[tactic(auto, unfolding(crate::specs::Records::length_field))]
fn length_field(head: &[u8]) -> usize
    requires { head_bytes ≤ length head.now }
    ensures value { result ≡ length_field head.now }
    ensures fits { result < 4294967296 }
{
    u32::from_le_bytes([head[0], head[1], head[2], head[3]]) as usize
}

// Are six bytes left with this kind?
pub(crate) fn carried(file: &[u8], kind: u16) -> bool
    ensures { result ≡ carries kind file.now }
{
    file.len() >= HEAD_BYTES && u16::from_le_bytes([file[4], file[5]]) == kind
}

// The record of this kind: is it there (1), and its whole payload (2)?
#[tactic(auto, unfolding(crate::specs::Records::part, crate::specs::Records::length_field))]
pub(crate) fn front(file: &[u8], kind: u16) -> Result<Part<'_>, Refusal>
    ensures value { given part_of result ≡ part kind file.now }
    ensures bytes { IfOk result (λ p. IsBytes p.payload.now) }
{
    if !carried(file, kind) {
        return Err(Refusal::NoRecord);
    }
    let end = HEAD_BYTES + length_field(file);
    if end > file.len() {
        return Err(Refusal::CutPayload);
    }
    Ok(Part {
        payload: &file[HEAD_BYTES..end],
        rest: &file[end..],
    })
}

// The record of this kind, whose payload is handed on to its questions.
#[tactic(auto, unfolding(crate::specs::Records::checked))]
pub(crate) fn record<'a, Q: Questions>(
    file: &'a [u8],
    kind: u16,
    questions: &Q,
) -> Result<Part<'a>, Refusal>
    ensures value { given part_of result ≡ checked kind (Q.asks questions.now) file.now }
    ensures asked { IfOk result (λ p. all_yes (Q.asks questions.now p.payload.now) ≡ true) }
    ensures bytes { IfOk result (λ p. IsBytes p.payload.now) }
    ensures laid_out { IfOk result (λ p. file.now ≡ written kind p.payload.now ++ p.rest.now) }
{
    let part = front(file, kind)?;
    questions.ask(part.payload)?;
    Ok(part)
}

// The payload of the record of this kind, where it has a place here and is there, and the bytes behind it. `here` is the flag of the
// definition, `optional_if`.
pub(crate) fn optional<'a, Q: Questions>(
    file: &'a [u8],
    here: bool,
    kind: u16,
    questions: &Q,
) -> Result<(Option<&'a [u8]>, &'a [u8]), Refusal>
    ensures { given optional_of result ≡ (optional_if here kind (record_of kind (plain (Q.asks questions.now)))).decode file.now }
{
    if !here || !carried(file, kind) {
        return Ok((None, file));
    }
    let part = record(file, kind, questions)?;
    Ok((Some(part.payload), part.rest))
}

// Of two kinds in one place the second, where the next six bytes carry it, else the first; whether it is the second.
pub(crate) fn either<'a, P: Questions, Q: Questions>(
    file: &'a [u8],
    first: u16,
    questions: &P,
    second: u16,
    others: &Q,
) -> Result<(bool, Part<'a>), Refusal>
    ensures value { given either_of result ≡ either_asks first (P.asks questions.now) second (Q.asks others.now) file.now }
    ensures asked { IfOk result (λ p. all_yes (cond p.0 (Q.asks others.now p.1.payload.now) (P.asks questions.now p.1.payload.now)) ≡ true) }
    ensures bytes { IfOk result (λ p. IsBytes p.1.payload.now) }
    ensures laid_out { IfOk result (λ p. file.now ≡ written (cond p.0 second first) p.1.payload.now ++ p.1.rest.now) }
{
    if carried(file, second) {
        return Ok((true, record(file, second, others)?));
    }
    Ok((false, record(file, first, questions)?))
}
