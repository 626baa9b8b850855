// A job file as text, which reads back as the same job.
ghost use Rattle.std.specs.Prelude.{◌≡◌, ◌+◌, ◌%◌, ◌≤◌, cond, [], ◌++◌, eqb, get_or, length};
ghost use Rattle.answers.specs.Answer.{gives};
ghost use Rattle.answers.specs.Message.{codes, in_decimal};
ghost use Rattle.records.specs.JobFile.{read_job, most_nodes};
ghost use Rattle.records.specs.Encoding.{IsValidJob};
ghost use Rattle.records.specs.Views.{job_held};
ghost use Rattle.demands.specs.Calls.{put};
ghost use Rattle.calls.specs.Replies.{reply_of};
ghost use Rattle.texts.specs.Shown.{shown_number, shown_nodes, edges_in_line, shown_edge, shown_edges, shown_measured, shown_measurements, shown_opening, shown_text, show_text};
ghost use Rattle.texts.specs.Words.{names};
ghost use Rattle.texts.specs.Views.{place_of, line_for};
ghost use Rattle.texts.specs.Placed.{HasRoom, Puts};

use crate::names::Name;
use answers::Refusal;
use arrayvec::ArrayVec;
use records::encode::{Plain, write};
use records::job_file::{JobFile, read_job};

/// The text of every job has room here.
pub const TEXT_ROOM: usize = 131072;

// Bytes, pushed one by one: an `ArrayString` copies each piece by a call, and with pieces of one to three bytes that took three times as long (measured).
type Text = ArrayVec<u8, TEXT_ROOM>;

const EDGES_IN_LINE: usize = 8;

// ---- Words and numbers.

// Byte by byte in place of one copy, for speed, as `Text` says.
fn push_word(text: &mut Text, word: &str)
    requires { HasRoom word.now text.old.items }
    ensures { Puts word.now text.old.items text.new.items }
{
    for &byte in word.as_bytes() {
        text.push(byte);
    }
}

// Digit by digit in place of itoa, whose digits are a piece to copy (speed, as of `Text`). No number of a job has more than three.
#[tactic(auto, using(answers::proofs::Decimal::decimal_one, crate::proofs::Decimals::decimal_two, crate::proofs::Decimals::decimal_three, answers::proofs::Pieces::one_behind_another))]
fn push_decimal(text: &mut Text, x: u8)
    requires { HasRoom (in_decimal x) text.old.items }
    ensures { Puts (in_decimal x) text.old.items text.new.items }
{
    if x < 10 {
        text.push(b'0' + x);
    } else if x < 100 {
        text.push(b'0' + x / 10);
        text.push(b'0' + x % 10);
    } else {
        text.push(b'0' + x / 100);
        text.push(b'0' + x / 10 % 10);
        text.push(b'0' + x % 10);
    }
}

// A number behind a blank.
fn push_number(text: &mut Text, x: u8)
    requires { HasRoom (shown_number x) text.old.items }
    ensures { Puts (shown_number x) text.old.items text.new.items }
{
    text.push(b' ');
    push_decimal(text, x);
}

// ---- Lists.

fn push_nodes(text: &mut Text, nodes: &[u8])
    requires { HasRoom (shown_nodes nodes.now) text.old.items }
    ensures { Puts (shown_nodes nodes.now) text.old.items text.new.items }
{
    for &v in nodes {
        push_number(text, v);
    }
}

// The name that begins a line.
#[tactic(auto, unfolding(answers::specs::Message::codes))]
fn push_name(text: &mut Text, name: Name)
    requires { HasRoom (codes "\n" ++ get_or names (place_of name) []) text.old.items }
    ensures { Puts (codes "\n" ++ get_or names (place_of name) []) text.old.items text.new.items }
{
    text.push(b'\n');
    push_word(text, name.word());
}

// What begins a line of edges, before the first of them.
#[tactic(auto, unfolding(answers::specs::Message::codes))]
fn push_beginning(text: &mut Text, i: usize)
    requires { HasRoom (cond (eqb (i % edges_in_line) 0) (codes "\nedges") []) text.old.items }
    ensures { Puts (cond (eqb (i % edges_in_line) 0) (codes "\nedges") []) text.old.items text.new.items }
{
    if i % EDGES_IN_LINE == 0 {
        push_word(text, "\nedges");
    }
}

#[tactic(auto, unfolding(answers::specs::Message::codes))]
fn push_edge(text: &mut Text, i: usize, a: u8, b: u8)
    requires { HasRoom (shown_edge i a b) text.old.items }
    ensures { Puts (shown_edge i a b) text.old.items text.new.items }
{
    push_beginning(text, i);
    push_number(text, a);
    text.push(b'-');
    push_decimal(text, b);
}

fn push_edges(text: &mut Text, edges: &[u8])
    requires { HasRoom (shown_edges 0 edges.now) text.old.items }
    ensures { Puts (shown_edges 0 edges.now) text.old.items text.new.items }
{
    for (i, edge) in edges.chunks_exact(2).enumerate() {
        push_edge(text, i, edge[0], edge[1]);
    }
}

// ---- Measurements.

// The nodes that are measured so: m is a byte of the payload, as the definition `shown_measured` has it.
fn push_measured(text: &mut Text, m: u8, measurements: &[u8])
    requires few { length measurements.now ≤ most_nodes }
    requires room { HasRoom (shown_measured m 0 measurements.now) text.old.items }
    ensures { Puts (shown_measured m 0 measurements.now) text.old.items text.new.items }
{
    for (v, &measurement) in measurements.iter().enumerate() {
        if measurement == m {
            push_number(text, v as u8);
        }
    }
}

// The line of a measurement, with its name.
#[tactic(auto, unfolding(answers::specs::Message::codes))]
fn push_line(text: &mut Text, name: Name, m: u8, measurements: &[u8])
    requires few { length measurements.now ≤ most_nodes }
    requires room { HasRoom (codes "\n" ++ (get_or names (place_of name) [] ++ shown_measured m 0 measurements.now)) text.old.items }
    ensures { Puts (codes "\n" ++ (get_or names (place_of name) [] ++ shown_measured m 0 measurements.now)) text.old.items text.new.items }
{
    push_name(text, name);
    push_measured(text, m, measurements);
}

// A line for the measurement of a name, where it has one and it is there.
fn push_measurement(text: &mut Text, name: Name, measurements: &[u8])
    requires few { length measurements.now ≤ most_nodes }
    requires room { HasRoom (line_for name measurements.now) text.old.items }
    ensures { Puts (line_for name measurements.now) text.old.items text.new.items }
{
    let Some(m) = name.measurement() else {
        return;
    };
    if measurements.contains(&m) {
        push_line(text, name, m, measurements);
    }
}

fn push_measurements(text: &mut Text, measurements: &[u8])
    requires few { length measurements.now ≤ most_nodes }
    requires room { HasRoom (shown_measurements measurements.now) text.old.items }
    ensures { Puts (shown_measurements measurements.now) text.old.items text.new.items }
{
    for name in Name::ALL {
        push_measurement(text, name, measurements);
    }
}

// ---- The whole text.

#[tactic(auto, unfolding(answers::specs::Message::codes))]
fn push_opening(text: &mut Text, n: u8, mode: u8)
    requires { HasRoom (codes "nodes" ++ (shown_number n ++ (codes " mode" ++ shown_number mode))) text.old.items }
    ensures { Puts (codes "nodes" ++ (shown_number n ++ (codes " mode" ++ shown_number mode))) text.old.items text.new.items }
{
    push_word(text, "nodes");
    push_number(text, n);
    push_word(text, " mode");
    push_number(text, mode);
}

// The nodes of a list behind its name, on a line.
#[tactic(auto, unfolding(answers::specs::Message::codes))]
fn push_list(text: &mut Text, name: Name, nodes: &[u8])
    requires { HasRoom (codes "\n" ++ (get_or names (place_of name) [] ++ shown_nodes nodes.now)) text.old.items }
    ensures { Puts (codes "\n" ++ (get_or names (place_of name) [] ++ shown_nodes nodes.now)) text.old.items text.new.items }
{
    push_name(text, name);
    push_nodes(text, nodes);
}

fn push_job(text: &mut Text, job: &JobFile<'_>)
    requires valid { IsValidJob (job_held job.now) }
    requires room { HasRoom (shown_text (job_held job.now)) text.old.items }
    ensures { Puts (shown_text (job_held job.now)) text.old.items text.new.items }
{
    push_opening(text, job.n as u8, u8::from(job.mode));
    push_edges(text, job.edges);
    push_list(text, Name::Inputs, job.inputs);
    push_list(text, Name::Outputs, job.outputs);
    push_measurements(text, job.measurements);
    text.push(b'\n');
}

// The file is that of the job alone, and has no angles.
fn show_job(file: &[u8], job: &JobFile<'_>, out: &mut [u8]) -> Result<usize, Refusal>
    requires { (read_job file.now ≡ gives (job_held job.now)) × ((job_held job.now).after ≡ []) }
    ensures { record { answer = reply_of result; work = []; out = out.new } ≡ put [] (shown_text (job_held job.now)) out.old }
{
    let mut text = Text::new();
    push_job(&mut text, job);
    let bytes = text.as_slice();
    write(&Plain { bytes }, out)
}

/// The text goes to the front of the lent buffer; how many bytes it takes. A refusal leaves the buffer untouched.
/// Behind the questions of the job: is nothing left (8)? Are there no angles, which a text has not and an operator may not see (24)?
#[tactic(auto, unfolding(crate::specs::Shown::show_text, crate::specs::Shown::show_asks))]
pub fn show_text(file: &[u8], out: &mut [u8]) -> Result<usize, Refusal>
    ensures { record { answer = reply_of result; work = []; out = out.new } ≡ show_text file.now out.old }
{
    let job = read_job(file)?;
    if !job.after.is_empty() {
        return Err(Refusal::BytesLeft);
    }
    if job.angles.is_some() {
        return Err(Refusal::NotTheOwner);
    }
    show_job(file, &job, out)
}
