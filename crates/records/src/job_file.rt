// Reading a job: five records in order, each once, and in mode 2 perhaps the angles.
ghost use Rattle.std.specs.Prelude.{◌≡◌, ◌++◌, IfOk};
ghost use Rattle.records.specs.JobFile.{read_job};
ghost use Rattle.records.specs.Encoding.{job_bytes};
ghost use Rattle.answers.specs.Refusals.{given};
ghost use Rattle.records.specs.Views.{job_held};
ghost use Rattle.records.specs.Places.{IsJobPlaced};

use crate::common::{
    KIND_ANGLES, KIND_EDGES, KIND_INPUTS, KIND_MEASUREMENTS, KIND_OPENING, KIND_OUTPUTS, byte_at,
};
use crate::part::{optional, record};
use crate::questions::{Angles, Edges, Measurements, Nodes, Opening, Outputs, has_angles, mode_of};
use answers::Refusal;
use flows::mode::Mode;

// What the records of a job hold, and the bytes behind them.
#[derive(Clone, Copy, Debug, PartialEq, Eq)]
pub struct JobFile<'a> {
    pub n: usize,
    pub mode: Mode,
    pub edges: &'a [u8],
    pub inputs: &'a [u8],
    pub outputs: &'a [u8],
    pub measurements: &'a [u8],
    pub angles: Option<&'a [u8]>,
    pub after: &'a [u8],
}

// The records in order.
#[tactic(auto, unfolding(crate::specs::JobFile::read_job, crate::specs::Format::decode_then))]
fn read_records(file: &[u8]) -> Result<JobFile<'_>, Refusal>
    ensures { given job_held result ≡ read_job file.now }
{
    let opening = record(file, KIND_OPENING, &Opening)?;
    let n = usize::from(byte_at(opening.payload, 0));
    let mode = mode_of(byte_at(opening.payload, 1));
    let edges = record(opening.rest, KIND_EDGES, &Edges { n })?;
    let inputs = record(edges.rest, KIND_INPUTS, &Nodes { n })?;
    let outputs = record(inputs.rest, KIND_OUTPUTS, &Nodes { n })?;
    let asked = Outputs {
        n,
        nodes: outputs.payload,
        distinct: outputs.payload.len(),
    };
    let allowed = Measurements {
        mode,
        outputs: asked,
    };
    let measurements = record(outputs.rest, KIND_MEASUREMENTS, &allowed)?;
    let (angles, after) = optional(
        measurements.rest,
        has_angles(mode),
        KIND_ANGLES,
        &Angles { outputs: asked },
    )?;
    Ok(JobFile {
        n,
        mode,
        edges: edges.payload,
        inputs: inputs.payload,
        outputs: outputs.payload,
        measurements: measurements.payload,
        angles,
        after,
    })
}

/// The job at the front of the bytes: questions 1 to 7 and 23. Its records, one behind the other, and `after` are the bytes again. Each payload
/// lies where the heads of the records say.
pub fn read_job(file: &[u8]) -> Result<JobFile<'_>, Refusal>
    ensures value { given job_held result ≡ read_job file.now }
    ensures laid_out { IfOk result (λ f. file.now ≡ job_bytes (job_held f) ++ f.after.now) }
    ensures placed { IfOk result (λ f. IsJobPlaced file.now f) }
{
    read_records(file)
}
