// The standard streams of the programs. Where reading or writing fails, a line on standard error says so.
#![tactic(auto)]

ghost use Rattle.std.specs.Prelude.{◌≤◌, length, IfOk, IfSome};

use answers::{LINE_ROOM, RefusalRecord, message};
use std::env::FillError;
use std::io;
use std::io::{Cursor, Read, Stderr, Stdin, Stdout, Write};

// ---- What failed.

// What the system says of an error is shorter.
const MOST_WORDS: usize = 128;

// Behind the system's reason stands its number.
const BEFORE_NUMBER: &[u8; 11] = b" (os error ";

// Where the reason ends.
fn reason_end(words: &[u8]) -> usize
    ensures { result ≤ length words.now }
{
    for i in 0..words.len() {
        if words[i..].starts_with(BEFORE_NUMBER) {
            return i;
        }
    }
    words.len()
}

// A line on standard error: what failed, and the system's reason. A fixed buffer, so that no failure is left untold for want of memory.
fn fail(err: Stderr, what: &[u8], e: io::Error) {
    let mut words = [0u8; MOST_WORDS];
    let mut cursor = Cursor::new(&mut words[..]);
    let _ = write!(cursor, "{e}");
    let k = (cursor.position() as usize).min(MOST_WORDS);
    write_error(err, what);
    write_error(err, b": ");
    write_error(err, &words[..reason_end(&words[..k])]);
    write_error(err, b"\n");
}

// ---- Reading.

// Standard input to its end, or as far as the buffer goes: how many bytes were read to the front of the buffer.
fn read_full(mut stdin: Stdin, buf: &mut [u8]) -> io::Result<usize>
    ensures { IfOk result (λ n. n ≤ length buf.new) }
{
    let mut done = 0;
    // No `for`: only a read of no bytes tells that a stream has ended.
    while done < buf.len() {
        let more = stdin.read(&mut buf[done..])?;
        if more == 0 {
            return Ok(done);
        }
        done += more;
    }
    Ok(done)
}

/// Standard input to its end, or as far as the buffer goes: how many bytes were read to the front of the buffer. The first read that fails ends
/// it and is told, and the answer is none. The buffer is lent, so that no input, however long, needs memory.
pub fn read_input(stdin: Stdin, err: Stderr, buf: &mut [u8]) -> Option<usize>
    ensures { IfSome result (λ n. n ≤ length buf.new) }
{
    match read_full(stdin, buf) {
        Ok(n) => Some(n),
        Err(e) => {
            fail(err, b"cannot read standard input", e);
            None
        }
    }
}

// ---- Writing.

/// A write that failed: the line names the system's reason.
pub fn output_failed(err: Stderr, e: io::Error) {
    fail(err, b"cannot write standard output", e);
}

/// The bytes on standard output; a write that fails is told.
pub fn write_output(out: Stdout, err: Stderr, bytes: &[u8]) {
    if let Err(e) = out.write_all(bytes) {
        output_failed(err, e);
    }
}

/// The bytes on standard error. A failure here has no stream left to be told on.
pub fn write_error(err: Stderr, bytes: &[u8]) {
    let _ = err.write_all(bytes);
}

/// A number in decimal on standard error.
pub fn error_number(err: Stderr, x: usize) {
    let _ = err.print(x);
}

/// The line of a refusal on standard error: the bytes of `message`, in one piece.
pub fn tell(err: Stderr, q: RefusalRecord) {
    let mut line = [0u8; LINE_ROOM];
    let k = message(q, &mut line);
    write_error(err, &line[..k]);
}

/// A program takes no arguments: with any it writes the text, which says what it reads and writes, and ends. `first` is what std's `arg` answers
/// of argument 1.
pub fn only_usage(first: Result<usize, FillError>, out: Stdout, err: Stderr, text: &[u8]) -> bool {
    let none = matches!(first, Err(FillError::NotPresent));
    if !none {
        write_output(out, err, text);
    }
    !none
}
