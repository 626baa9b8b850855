// The two programs on lent bytes, both streams of each: what goes to standard output and what to standard error.
#![tactic(auto)]

pub mod output; // output.rt: what each writes on standard output, in a buffer of any length

ghost use Rattle.std.specs.Prelude.{◌≡◌};
ghost use Rattle.answers.specs.Message.{put_whole};
ghost use Rattle.demands.specs.Programs.{error_of};
ghost use Rattle.demands.specs.Roles.{operator, finder_program, verifier_program, called};
ghost use Rattle.programs.specs.Printing.{refused_of};

use answers::{RefusalRecord, message};
use output::{find_bytes, verify_bytes};

// How many bytes of each buffer a program writes.
#[derive(Clone, Copy, Debug, PartialEq, Eq)]
pub struct Counts {
    pub output: usize,
    pub error: usize,
}

// The line of a refusal, where it fits; nothing of a result.
fn report(refused: Option<RefusalRecord>, error: &mut [u8]) -> usize
    ensures { record { count = result; out = error.new } ≡ put_whole (error_of (refused_of refused)) error.old }
{
    match refused {
        None => 0,
        Some(q) => message(q, error),
    }
}

// All that the finder writes: a flow file, 0013 or 001F, and with 001F its line.
pub fn find_program(input: &[u8], output: &mut [u8], error: &mut [u8]) -> Counts
    ensures { record { output = record { count = result.output; out = output.exit.now }; error = record { count = result.error; out = error.new } } ≡ called operator (finder_program output.entry.now error.old) input.now }
{
    let answer = find_bytes(input, output);
    Counts {
        output: answer.count,
        error: report(answer.refused, error),
    }
}

// All that the verifier writes: 0014 or 001F, and with 001F its line.
pub fn verify_program(input: &[u8], output: &mut [u8], error: &mut [u8]) -> Counts
    ensures { record { output = record { count = result.output; out = output.exit.now }; error = record { count = result.error; out = error.new } } ≡ called operator (verifier_program output.entry.now error.old) input.now }
{
    let answer = verify_bytes(input, output);
    Counts {
        output: answer.count,
        error: report(answer.refused, error),
    }
}
