// The calls: the public entries, from files to files.
#![tactic(auto)]

mod both; // both.rt: reading a job and the flow file behind it
pub mod edit; // edit.rt: one node's set edited
pub mod find; // find.rt: the finder, from a job file to a flow file
mod flow; // flow.rt: checking a causal flow
mod job; // job.rt: job and flow as searches and verifiers work on them
mod load; // load.rt: what the records hold, for every call
mod pflow; // pflow.rt: checking a generalized flow or a Pauli flow
pub mod readout; // readout.rt: the angles of a job, read out
pub mod signals; // signals.rt: signal lists, built, compared and added
mod validate; // validate.rt: what every flow is asked
pub mod verify; // verify.rt: the verifier, from a job and a flow to a verdict
pub mod write; // write.rt: the job writers, from lists to a job file

ghost use Rattle.std.specs.Prelude.{◌≡◌, []};
ghost use Rattle.records.specs.Records.{written};
ghost use Rattle.records.specs.Splice.{put_front, put_answer};
ghost use Rattle.calls.specs.Replies.{reply_of};

use answers::Refusal;
use records::writer::write_record;

// Every entry carries the role of its caller: 0 is the owner, any other number an operator. No enum: a caller in C may hand over any number.
pub const OWNER: u64 = 0;

pub const OPERATOR: u64 = 1;

// A record that is its kind alone.
fn write_bare(out: &mut [u8], kind: u16) -> Result<usize, Refusal>
    ensures result_value { reply_of result ≡ put_answer (written kind []) out.old }
    ensures out_after { out.new ≡ put_front (written kind []) out.old }
{
    write_record(out, kind, b"")
}
