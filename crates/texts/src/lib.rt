// A job as text: its words become the lists of an editor, and these the job file; and a job file becomes text again.
#![tactic(auto)]

mod faults; // faults.rt: why a text makes no job file
mod lists; // lists.rt: the numbers that were read, and the lists in them
mod names; // names.rt: the names, and the words that they are written by
mod pieces; // pieces.rt: bytes parted by a letter: lines, words, the ends of an edge
mod reader; // reader.rt: a text, line by line and word by word
pub mod show; // show.rt: a job file as text
mod words; // words.rt: what a word is

ghost use Rattle.std.specs.Prelude.{◌≡◌};
ghost use Rattle.answers.specs.Answer.{gives};
ghost use Rattle.texts.specs.JobText.{node_count, made_of, made_from, write_text};
ghost use Rattle.texts.specs.JobText.{numbers as numbers_read};
ghost use Rattle.texts.specs.Views.{bytes_of, ending_of, answer_of};

use angles::ANGLE_BYTES;
use answers::Refusal;
use calls::OPERATOR;
use calls::write::write_job;
pub use faults::{Fault, FaultyLine, TextError};
use lists::{Numbers, behind, measure, number_at};
use names::Name;
use reader::read_text;
use records::common::{HEAD_BYTES, MOST_NODES};

/// No job file is longer: the heads of six records, n and mode, an edge for each pair of nodes, a byte for each node in three lists, and its angle,
/// which a text has not.
pub const MOST_JOB: usize = 6 * HEAD_BYTES
    + 2
    + MOST_NODES * (MOST_NODES - 1)
    + 3 * MOST_NODES
    + ANGLE_BYTES * MOST_NODES;

// Where the first two numbers stand.
const NODES_AT: usize = 0;

const MODE_AT: usize = 1;

// More than any number of a text: a table for the nodes of every text, in fixed memory since nothing here is on the heap.
const BYTE_VALUES: usize = 256;

// The job writer's call, as operator, with the lists in the numbers.
fn write_lists(
    numbers: &Numbers,
    n: usize,
    measurements: &[u8],
    out: &mut [u8],
) -> Result<usize, Refusal>
    requires { n ≡ node_count (bytes_of numbers.now.items) }
    ensures { record { ending = answer_of result; out = out.new } ≡ made_of (bytes_of numbers.now.items) (gives measurements.now) out.old }
{
    let mode = usize::from(number_at(numbers.as_slice(), MODE_AT));
    let edges = behind(numbers, Name::Edges);
    let inputs = behind(numbers, Name::Inputs);
    let outputs = behind(numbers, Name::Outputs);
    write_job(
        OPERATOR,
        n,
        mode,
        edges.as_slice(),
        inputs.as_slice(),
        outputs.as_slice(),
        measurements,
        out,
    )
}

fn write_numbers(numbers: &Numbers, out: &mut [u8]) -> Result<usize, Refusal>
    ensures { record { ending = answer_of result; out = out.new } ≡ made_from (numbers_read (bytes_of numbers.now.items)) out.old }
{
    let n = usize::from(number_at(numbers.as_slice(), NODES_AT));
    let mut measurements = [0u8; BYTE_VALUES];
    let table = &mut measurements[..n];
    measure(numbers.as_slice(), table)?;
    write_lists(numbers, n, table, out)
}

/// A text becomes a job file at the front of the buffer; how many bytes it takes. Nothing is written with an error.
pub fn write_text(text: &[u8], out: &mut [u8]) -> Result<usize, TextError>
    ensures { record { ending = ending_of result; out = out.new } ≡ write_text text.now out.old }
{
    let numbers = read_text(text)?;
    Ok(write_numbers(&numbers, out)?)
}
