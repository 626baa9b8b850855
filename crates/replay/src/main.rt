// Stored answers, run again on the library through its entries for C. Standard input holds entries one after another, each a
// call and what it should answer and leave: cases A to N of document 01 and its edges, by name; the original's answers; each refusal at
// its boundary, flows by either kind of layers; jobs written from lists; signal lists added, judged and edited; jobs with angles; every role; and twins, jobs
// that differ in angles and that no operator can tell apart. oracle/README.md says how they were made. One entry is wrong on purpose: a run that does not
// report it compares nothing.
#![tactic(auto)]

mod ask; // ask.rt: the call of one entry
mod entry; // entry.rt: what the head of an entry says
mod flow; // flow.rt: the flow of the finder, compared after reading
mod run; // run.rt: what the call answers and leaves, compared

ghost use Rattle.std.specs.Prelude.{◌≤◌, length};

use entry::{Entry, HEAD_BYTES, Kind, MOST_ENTRY, behind};
use run::as_stored;
use std::io::{Read, Stdin, Stdout};

// No more entries are read.
const MOST_ENTRIES: u64 = 1048576;

// The numbers of all questions, and 0 for an answer.
const NUMBERS: usize = 25;

// How many entries were as stored: of each number, twins, and pairs that are told apart.
#[derive(Clone, Copy)]
struct Tally {
    numbers: [u64; NUMBERS],
    twins: u64,
    apart: u64,
}

impl Tally {
    fn new() -> Tally {
        Tally {
            numbers: [0; NUMBERS],
            twins: 0,
            apart: 0,
        }
    }

    // One more. No entry is as stored whose number is past the last.
    fn count(&mut self, entry: &Entry<'_>) {
        match entry.kind {
            Some(Kind::Twins) => self.twins = self.twins.saturating_add(1),
            Some(Kind::Apart) => self.apart = self.apart.saturating_add(1),
            _ => {
                if let Some(count) = self.numbers.get_mut(usize::from(entry.number)) {
                    *count = count.saturating_add(1);
                }
            }
        }
    }
}

// A write that fails is not told: what is missing on standard output is not as stored.

fn print_tally(out: Stdout, tally: &Tally, entries: u64) {
    for (number, count) in tally.numbers.iter().enumerate() {
        let _ = print!(out; "number {number}: {count} as stored\n");
    }
    let _ = print!(out; "twins: {} as stored\n", tally.twins);
    let _ = print!(out; "pairs told apart: {} as stored\n", tally.apart);
    let _ = print!(out; "entries: {entries}\n");
}

// An entry with a name is told in any case, another by its place among all where it is different.
fn print_entry(out: Stdout, name: &[u8], place: u64, same: bool) {
    let words = if same {
        "as the documents say"
    } else {
        "DIFFERENT"
    };
    if !name.is_empty() {
        let _ = out.write_all(name);
        let _ = print!(out; ": {words}\n");
    } else if !same {
        let _ = print!(out; "entry {place}: {words}\n");
    }
}

// Standard input until the buffer is full, or to its end, or to a read that fails; how many bytes are there. An entry that a failed read cuts is
// told as cut off, so that what came before counts, where `read_input` of crate streams gives the error.
fn read_full(mut stdin: Stdin, bytes: &mut [u8]) -> usize
    ensures { result ≤ length bytes.new }
{
    let mut done = 0;
    // No `for`: only a read of no bytes tells that a stream has ended.
    while done < bytes.len() {
        match stdin.read(&mut bytes[done..]) {
            Ok(0) | Err(_) => {
                return done;
            }
            Ok(more) => {
                done += more;
            }
        }
    }
    done
}

// The next entry goes to the front of the buffer; the answer is how many of its bytes are there, 0 where the input has ended.
fn read_entry(stdin: Stdin, bytes: &mut [u8; MOST_ENTRY]) -> usize
    ensures { result ≤ 196621 }
{
    let got = read_full(stdin, &mut bytes[..HEAD_BYTES]);
    if got < HEAD_BYTES {
        return got;
    }
    let end = HEAD_BYTES + behind(&bytes[..HEAD_BYTES]);
    HEAD_BYTES + read_full(stdin, &mut bytes[HEAD_BYTES..end])
}

// All entries in turn; the answer is how many there are.
fn replay(stdin: Stdin, out: Stdout, tally: &mut Tally) -> u64 {
    // Fixed memory: an entry is compared, or cut off, whatever the allocator says.
    let mut bytes = [0u8; MOST_ENTRY];
    for place in 0..MOST_ENTRIES {
        let len = read_entry(stdin, &mut bytes);
        if len == 0 {
            return place;
        }
        let Some(entry) = Entry::read(&bytes[..len]) else {
            let _ = print!(out; "an entry is cut off\n");
            return place;
        };
        let same = as_stored(&entry);
        print_entry(out, entry.name, place, same);
        if same {
            tally.count(&entry);
        }
    }
    MOST_ENTRIES
}

fn main(rt: HostRuntime) {
    let out = rt.stdout();
    let mut tally = Tally::new();
    let entries = replay(rt.stdin(), out, &mut tally);
    print_tally(out, &tally, entries);
}
