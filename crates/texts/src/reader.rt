// A text read line by line and word by word: the numbers that it says, each with the name that it stands behind.
ghost use Rattle.std.specs.Prelude.{◌≡◌, ◌*◌, true};
ghost use Rattle.texts.specs.JobText.{number_bytes, most_numbers, in_order, in_shape, after_word, after_line, read_text};
ghost use Rattle.texts.specs.Views.{is_named, place_of, bytes_of, reading_of, told, text_told, IsNameFor, IsMore};

use crate::faults::{Fault, FaultyLine};
use crate::lists::Numbers;
use crate::names::Name;
use crate::pieces::{Pieces, Stop, split};
use crate::words::{Word, word_of};

// The numbers that stand first: those of nodes and mode.
const OPENING_NUMBERS: usize = 2;

// The last name, and the numbers so far. There is one of it for a text, never copied, compared or printed.
#[derive(Drop)]
struct Reader {
    name: Option<Name>,
    numbers: Numbers,
    ghost named: { is_named name numbers.items ≡ true },
}

// Nodes and mode come first, once each.
fn in_order(name: Name, count: usize) -> bool
    ensures { result ≡ in_order (place_of name) (number_bytes * count) }
{
    match name {
        Name::Nodes => count == 0,
        Name::Mode => count == 1,
        _ => count >= OPENING_NUMBERS,
    }
}

// More numbers behind those that were read, where there is room.
#[tactic(auto, using(crate::proofs::Numbers::bytes_long, crate::proofs::Numbers::bytes_both))]
fn add(numbers: &mut Numbers, more: &[(Name, u8)]) -> Result<(), Fault>
    ensures { IsMore result (bytes_of numbers.old.items) (bytes_of more.now) (bytes_of numbers.new.items) }
{
    match numbers.try_extend_from_slice(more) {
        Ok(()) => Ok(()),
        Err(_) => Err(Fault::TooMany),
    }
}

// Behind `edges` stand edges, behind every other name numbers. Which of the two is a bool, as in the definition `in_shape`.
fn in_shape(name: Name, edge: bool) -> bool
    ensures { result ≡ in_shape (place_of name) edge }
{
    match name {
        Name::Edges => edge,
        _ => !edge,
    }
}

impl Reader {
    // The name that a number, or an edge, may stand behind now.
    fn name_for(&self, edge: bool) -> Result<Name, Fault>
        ensures { IsNameFor result self.now.name (bytes_of self.now.numbers.items) edge }
    {
        let Some(name) = self.name else {
            return Err(Fault::OutOfOrder);
        };
        if !in_order(name, self.numbers.len()) {
            return Err(Fault::OutOfOrder);
        }
        if !in_shape(name, edge) {
            return Err(Fault::WrongShape);
        }
        Ok(name)
    }

    fn take_word(&mut self, word: &[u8]) -> Result<(), Fault>
        ensures { told result (reading_of self.new.name self.new.numbers.items) ≡ after_word (number_bytes * most_numbers) (reading_of self.old.name self.old.numbers.items) word.now }
    {
        if word.is_empty() {
            return Ok(());
        }
        match word_of(word) {
            Some(Word::Name(name)) => {
                self.name = Some(name);
                Ok(())
            }
            Some(Word::Number(x)) => {
                let name = self.name_for(false)?;
                add(&mut self.numbers, &[(name, x)])
            }
            Some(Word::Edge(a, b)) => {
                let name = self.name_for(true)?;
                add(&mut self.numbers, &[(name, a), (name, b)])
            }
            None => Err(Fault::NoWord),
        }
    }

    // The words of a line, up to its comment.
    fn take_line(&mut self, line: &[u8]) -> Result<(), Fault>
        ensures { told result (reading_of self.new.name self.new.numbers.items) ≡ after_line (number_bytes * most_numbers) (reading_of self.old.name self.old.numbers.items) line.now }
    {
        let (words, _) = split(line, Stop::Comment);
        for word in Pieces::of(words, Stop::Blank) {
            self.take_word(word)?;
        }
        Ok(())
    }
}

/// The numbers that a text says.
pub(crate) fn read_text(text: &[u8]) -> Result<Numbers, FaultyLine>
    ensures { text_told result ≡ read_text (number_bytes * most_numbers) text.now }
{
    let mut reader = Reader {
        name: None,
        numbers: Numbers::new(),
    };
    let mut before = 0;
    for line in Pieces::of(text, Stop::LineFeed) {
        if let Err(fault) = reader.take_line(line) {
            return Err(FaultyLine { before, fault });
        }
        before += 1;
    }
    if reader.numbers.len() < OPENING_NUMBERS {
        let fault = Fault::OutOfOrder;
        return Err(FaultyLine { before, fault });
    }
    Ok(reader.numbers)
}
