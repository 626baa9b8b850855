// The angles of a job, read out of its file.
ghost use Rattle.std.specs.Prelude.{◌≡◌, []};
ghost use Rattle.demands.specs.Calls.{read_angles_call};
ghost use Rattle.demands.specs.Roles.{reading_out, called};
ghost use Rattle.calls.specs.Replies.{reply_of};

use crate::OWNER;
use answers::Refusal;
use records::common::KIND_ANGLES;
use records::job_file::read_job;
use records::writer::write_record;

// Is it the owner who asks (24)? Is there a record of angles in its place (1)? Is nothing left (8)? Then the record of angles, with its head, goes to the lent buffer; a refusal leaves it untouched.
#[tactic(auto, unfolding(demands::specs::Calls::read_angles_call, demands::specs::Calls::read_angles_asks, demands::specs::Calls::put))]
pub fn read_angles(role: u64, file: &[u8], out: &mut [u8]) -> Result<usize, Refusal>
    ensures { record { answer = reply_of result; work = []; out = out.new } ≡ called role (reading_out out.old) file.now }
{
    if role != OWNER {
        return Err(Refusal::NotTheOwner);
    }
    let job = read_job(file)?;
    let Some(angles) = job.angles else {
        return Err(Refusal::NoRecord);
    };
    if !job.after.is_empty() {
        return Err(Refusal::BytesLeft);
    }
    write_record(out, KIND_ANGLES, angles)
}
