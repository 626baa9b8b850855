// What a word is: one of the names, a number, or an edge.
ghost use Rattle.std.specs.Prelude.{◌≡◌};
ghost use Rattle.std.proofs.Math.Option.{some};
ghost use Rattle.texts.specs.Pieces.{parting, until, past};
ghost use Rattle.texts.specs.Words.{with_digit, value_of, edge_of, word_of};
ghost use Rattle.texts.specs.Views.{value_in, edge_held, word_held};

use crate::names::Name;
use crate::pieces::{Stop, split};

#[derive(Clone, Copy, Debug, PartialEq, Eq)]
pub(crate) enum Word {
    Name(Name),
    Number(u8),
    Edge(u8, u8),
}

// ---- Numbers.

fn with_digit(v: u8, c: u8) -> Option<u8>
    ensures { value_in result ≡ with_digit (some v) c }
{
    if !c.is_ascii_digit() {
        return None;
    }
    v.checked_mul(10)?.checked_add(c - b'0')
}

fn value_of(digits: &[u8]) -> Option<u8>
    ensures { value_in result ≡ value_of digits.now }
{
    if digits.is_empty() {
        return None;
    }
    let mut v = 0;
    for &c in digits {
        v = with_digit(v, c)?;
    }
    Some(v)
}

// ---- Words.

/// Two numbers joined by a dash.
fn edge_of(word: &[u8]) -> Option<(u8, u8)>
    ensures { edge_held result ≡ edge_of (value_of (until (parting Stop.Dash) word.now)) (value_of (past (parting Stop.Dash) word.now)) }
{
    let (first, second) = split(word, Stop::Dash);
    Some((value_of(first)?, value_of(second)?))
}

/// None of these is no word of a text.
pub(crate) fn word_of(word: &[u8]) -> Option<Word>
    ensures { word_held result ≡ word_of word.now }
{
    if let Some(name) = Name::of(word) {
        return Some(Word::Name(name));
    }
    if let Some(x) = value_of(word) {
        return Some(Word::Number(x));
    }
    let (a, b) = edge_of(word)?;
    Some(Word::Edge(a, b))
}
