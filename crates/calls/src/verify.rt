// The verifier: a job and the flow file behind it are read and judged, and 0014 is written.
ghost use Rattle.std.specs.Prelude.{◌≡◌, []};
ghost use Rattle.flows.specs.Numbers.{mode_number};
ghost use Rattle.verdicts.specs.Verdict.{check_definition, verify as verify_of};
ghost use Rattle.demands.specs.Calls.{verdict, judge, verify_asks};
ghost use Rattle.demands.specs.Roles.{verifying, called};
ghost use Rattle.records.specs.Views.{job_held, flow_held};
ghost use Rattle.answers.specs.Refusals.{asked_of};
ghost use Rattle.calls.specs.Loaded.{job_loaded, flow_loaded, IsRead};
ghost use Rattle.calls.specs.Replies.{reply_of};

use crate::both::read_both;
use crate::job::{Flow, Job};
use crate::load::{load_flow, load_graph, load_measured};
use crate::signals::lists_match;
use crate::validate::{check_domain, check_initial, check_measured};
use crate::{flow, pflow, write_bare};
use answers::Refusal;
use flows::mode::Mode;
use nodes::utils::{CAPACITY, TABLE_WORDS};
use records::common::KIND_ACCEPTED;
use records::flow_file::FlowFile;
use records::job_file::JobFile;

// Has each entry a measurement (17)? Then node by node (18, 19): mode 1 has its own questions, and one rule serves the others.
#[tactic(auto, unfolding(verdicts::specs::Verdict::node_ask, verdicts::specs::Verdict::causal_ask))]
fn check_definition(job: &Job<'_>, flow: &Flow<'_>) -> Result<(), Refusal>
    ensures { asked_of result ≡ check_definition (job_loaded job.now) (flow_loaded flow.now) (mode_number job.now.mode) }
{
    check_measured(job, flow)?;
    match job.mode {
        Mode::Causal => flow::check_nodes(job, flow),
        Mode::Planes | Mode::Pauli => pflow::check_nodes(job, flow),
    }
}

// Questions 13 to 19 in their order.
#[tactic(auto, unfolding(verdicts::specs::Verdict::verify))]
fn verify_loaded(job: &Job<'_>, flow: &Flow<'_>) -> Result<(), Refusal>
    ensures { asked_of result ≡ verify_of (job_loaded job.now) (flow_loaded flow.now) (mode_number job.now.mode) }
{
    check_domain(job, flow)?;
    check_initial(job, flow)?;
    check_definition(job, flow)
}

// Job and flow are loaded. After all other questions: are stored lists those of the flow (22)?
fn verify_held(job: &JobFile<'_>, flow: &FlowFile<'_>) -> Result<(), Refusal>
    requires { IsRead job.now flow.now }
    ensures { verdict (asked_of result) ≡ judge (job_held job.now) (flow_held flow.now) }
{
    // Fixed arrays: what C calls takes no heap.
    let mut graph = [0u64; TABLE_WORDS];
    let mut measured = [0u8; CAPACITY];
    load_graph(job.edges, &mut graph);
    load_measured(job, &mut measured);
    let loaded = Job::over(job, &graph, &measured);
    let mut layers = [0u16; CAPACITY];
    let mut sets = [0u64; TABLE_WORDS];
    let entries = load_flow(flow, &mut layers, &mut sets);
    let claim = Flow {
        layers: &layers,
        entries,
        sets: &sets,
    };
    verify_loaded(&loaded, &claim)?;
    if !lists_match(flow, &loaded) {
        return Err(Refusal::WrongSignals);
    }
    Ok(())
}

// All questions but the writer's: first reading, 1 to 9.
#[tactic(auto, unfolding(demands::specs::Calls::verify_asks))]
fn verify_file(file: &[u8]) -> Result<(), Refusal>
    ensures { verdict (asked_of result) ≡ verify_asks file.now }
{
    let (job, flow) = read_both(file)?;
    verify_held(&job, &flow)
}

// Does the flow file behind the job satisfy the job's mode? The answer 0014 goes to the lent buffer; a refusal
// leaves it untouched. Open to every role.
#[tactic(auto, unfolding(demands::specs::Calls::verify_call, records::specs::Splice::put_answer, records::specs::Splice::put_front))]
pub fn verify(role: u64, file: &[u8], out: &mut [u8]) -> Result<usize, Refusal>
    ensures { record { answer = reply_of result; work = []; out = out.new } ≡ called role (verifying out.old) file.now }
{
    verify_file(file)?;
    write_bare(out, KIND_ACCEPTED)
}
