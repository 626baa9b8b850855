// Reading a job and the flow file behind it, for every call that takes both: questions 1 to 9.
ghost use Rattle.std.specs.Prelude.{◌≡◌, not, ◌||◌, eqb, length};
ghost use Rattle.flows.specs.Numbers.{mode_number};
ghost use Rattle.records.specs.JobFile.{mode_causal};
ghost use Rattle.records.specs.FlowFile.{entries_of, listed, all_entries};
ghost use Rattle.records.specs.Views.{flow_held};
ghost use Rattle.demands.specs.Calls.{read_both, verdict};
ghost use Rattle.answers.specs.Refusals.{given, asked_of};
ghost use Rattle.calls.specs.Loaded.{whole_asks, both_held, IsBothRead};

use answers::Refusal;
use flows::mode::Mode;
use records::flow_file::FlowFile;
use records::job_file::{JobFile, read_job};
use records::questions::one_member;

// Has each causal entry one member (9)? Rightly asked of the file's own mode: it is a question of reading.
pub(crate) fn one_each(mode: Mode, sets: &[u8]) -> bool
    ensures { result ≡ (not (eqb (mode_number mode) mode_causal) || all_entries (λ e. eqb (length e.set) 1) (listed (entries_of sets.now))) }
{
    !matches!(mode, Mode::Causal) || one_member(sets)
}

// Is nothing left (8)? Then 9.
#[tactic(auto, unfolding(crate::specs::Loaded::whole_asks))]
fn ask_whole(mode: Mode, flow: &FlowFile<'_>) -> Result<(), Refusal>
    ensures { verdict (asked_of result) ≡ whole_asks (mode_number mode) (flow_held flow.now) }
{
    if !flow.after.is_empty() {
        return Err(Refusal::BytesLeft);
    }
    if !one_each(mode, flow.sets) {
        return Err(Refusal::NotOneMember);
    }
    Ok(())
}

// What both hold. First the records, 1 to 7. That they were read stands in the contracts and in no ghost field: a job's angles are asked by
// cases, so antt finds no proof that `IsRead` has at most one proof.
#[tactic(auto, unfolding(demands::specs::Calls::read_both, crate::specs::Loaded::whole_asks))]
pub(crate) fn read_both(file: &[u8]) -> Result<(JobFile<'_>, FlowFile<'_>), Refusal>
    ensures result_value { given both_held result ≡ read_both file.now }
    ensures both_read { IsBothRead result }
{
    let job = read_job(file)?;
    let flow = FlowFile::read(job.after, job.n)?;
    ask_whole(job.mode, &flow)?;
    Ok((job, flow))
}
