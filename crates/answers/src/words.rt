// A refusal in words: one line for the person at the bench, from number, a and b alone.

ghost use Rattle.std.specs.Prelude.{◌≡◌, ◌+◌, ◌≤◌, ◌++◌, length};
ghost use Rattle.answers.specs.Refusals.{refusal_of};
ghost use Rattle.answers.specs.Message.{in_decimal, questions, words_in, codes, filled, line, line_room, put_whole};
ghost use Rattle.answers.specs.Pieces.{piece_told, told};

use crate::RefusalRecord;
use arrayvec::ArrayString;
use itoa::Buffer;

/// A buffer of so many bytes has room for every line.
pub const LINE_ROOM: usize = 83;

// A piece of what a line says: words, and behind them nothing, a or b.
enum Piece {
    Text(&'static str),
    A(&'static str),
    B(&'static str),
}

use Piece::{A, B, Text};

// What is said of a 'no' to the question of the refusal's number.
fn told_of(q: RefusalRecord) -> &'static [Piece]
    ensures { told (refusal_of q) result.now ≡ filled (refusal_of q) (codes (words_in questions q.number)) }
{
    match q.number {
        1 => &[Text("the next record is missing or of another kind")],
        2 => &[Text("the payload of a record is cut off")],
        3 => &[Text("the length of a record, list or entry does not suit its kind")],
        4 => &[Text("the number of nodes or the mode is not allowed")],
        5 => &[Text("a node is not below the number of nodes")],
        6 => &[Text("nodes or edges are not strictly ascending")],
        7 => &[Text("a measurement byte is not allowed")],
        8 => &[Text("bytes are left after the last record")],
        9 => &[Text("a causal entry does not have exactly one member")],
        10 => &[Text("only modes 2 and 3 have a search")],
        11 => &[Text("a lent buffer or matrix has the wrong shape")],
        12 => &[Text("there is no right side of the equation's number")],
        13 => &[A("the set of node "), A(" holds an input other than ")],
        14 => &[A("node "), Text(" has a set and is an output, or neither")],
        15 => &[A("output "), B(" is in layer "), Text(", not in layer 0")],
        16 => &[A("node "), Text(" is no output and is in layer 0")],
        17 => &[A("node "), Text(" has an entry and no measurement")],
        18 => &[
            B("node "),
            A(" is not later than node "),
            Text(", or in mode 1 not its neighbour"),
        ],
        19 => &[
            A("node "),
            Text("'s set does not suit its or a Y measurement"),
        ],
        20 => &[Text("the result does not fit the lent buffer")],
        21 => &[Text("a loop, or an edge or node given twice")],
        22 => &[Text("the signal lists are not those of the flow")],
        23 => &[Text("an angle is not from 0 to below 2, or at an output not positive zero")],
        24 => &[Text("only the owner may read angles out or write them")],
        _ => &[Text("unknown question")],
    }
}

type Line = ArrayString<LINE_ROOM>;

// Words, and behind them a number in decimal.
#[tactic(auto, using(crate::proofs::Decimal::decimal_as_std, crate::proofs::Pieces::both_long, crate::proofs::Pieces::one_behind_another))]
fn push_numbered(line: &mut Line, words: &str, number: u16)
    requires { length line.old.bytes + length (words.now ++ in_decimal number) ≤ line_room }
    ensures { line.new.bytes ≡ line.old.bytes ++ (words.now ++ in_decimal number) }
{
    line.push_str(words);
    line.push_str(Buffer::new().format(number));
}

fn push_piece(line: &mut Line, piece: &Piece, q: RefusalRecord)
    requires { length line.old.bytes + length (piece_told (refusal_of q) piece.now) ≤ line_room }
    ensures { line.new.bytes ≡ line.old.bytes ++ piece_told (refusal_of q) piece.now }
{
    match piece {
        Text(words) => line.push_str(words),
        A(words) => push_numbered(line, words, u16::from(q.a)),
        B(words) => push_numbered(line, words, q.b),
    }
}

// The line of a refusal, whole.
pub(crate) fn line_of(q: RefusalRecord) -> Line
    ensures { result.bytes ≡ line (refusal_of q) }
{
    let mut line = Line::new();
    line.push_str("refused ");
    line.push_str(Buffer::new().format(q.number));
    line.push_str(": ");
    for piece in told_of(q) {
        push_piece(&mut line, piece, q);
    }
    line.push_str("\n");
    line
}

/// The line of a refusal at the front of the buffer; how many bytes it takes, or 0 where it does not fit.
#[tactic(auto, unfolding(crate::specs::Message::put_whole))]
pub fn message(q: RefusalRecord, out: &mut [u8]) -> usize
    ensures { record { count = result; out = out.new } ≡ put_whole (line (refusal_of q)) out.old }
{
    let line = line_of(q);
    if out.len() < line.len() {
        return 0;
    }
    out[..line.len()].copy_from_slice(line.as_bytes());
    line.len()
}
