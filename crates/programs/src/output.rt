// The two programs on lent bytes: all that each writes for the bytes of its standard input. Both call as operator.
ghost use Rattle.std.specs.Prelude.{◌≡◌, None, Some};
ghost use Rattle.std.proofs.Math.Option.{some};
ghost use Rattle.answers.specs.Refusals.{refusal_of};
ghost use Rattle.demands.specs.Programs.{refusal_bytes, printed, find_printed, verify_printed};
ghost use Rattle.programs.specs.Printing.{output_of};

use answers::RefusalRecord;
use calls::OPERATOR;
use calls::find::find;
use calls::verify::verify;
use records::common::{HEAD_BYTES, KIND_REFUSAL, MOST_NODES, WIDE_LAYER_BYTES};
use records::writer::write_record;
use solver::gf2_linalg::WORK_BYTES;

// Each judges the first 65,536 bytes.
pub const JUDGED_BYTES: usize = 65536;

// With a buffer of so many bytes no call ends with 20: the heads of two records, a layer for each node, and entries of node,
// count and members.
pub const MOST_OUTPUT: usize = 2 * HEAD_BYTES
    + WIDE_LAYER_BYTES * MOST_NODES
    + MOST_NODES * (MOST_NODES + 2);

// The writer's question, by its number: what the definitions ask is the number that 001F would carry (`find_printed`).
const TOO_LONG: u8 = 20;

// How many bytes were written at the front of the buffer: of a result, or of 001F and then the refusal that it tells. With 20 nothing
// is written.
#[derive(Clone, Copy, Debug, PartialEq, Eq)]
pub struct Output {
    pub count: usize,
    pub refused: Option<RefusalRecord>,
}

// A result of so many bytes.
fn wrote(count: usize) -> Output
    ensures { result ≡ record { count = count; refused = None } }
{
    Output {
        count,
        refused: None,
    }
}

// A refusal, of which so many bytes were written.
fn refused(count: usize, q: RefusalRecord) -> Output
    ensures { result ≡ record { count = count; refused = Some q } }
{
    Output {
        count,
        refused: Some(q),
    }
}

// 001F at the front of the buffer, or 20 where it does not fit.
fn write_refusal(out: &mut [u8], q: RefusalRecord) -> Output
    ensures { output_of result out.new ≡ printed (some (refusal_of q)) (refusal_bytes (refusal_of q)) out.old }
{
    let payload = [q.number, q.a, (q.b % 256) as u8, (q.b / 256) as u8];
    match write_record(out, KIND_REFUSAL, &payload) {
        Ok(k) => refused(k, q),
        Err(short) => refused(0, RefusalRecord::from(short)),
    }
}

// All that the finder's program writes. Where the result does not fit (20), neither is 001F written.
pub fn find_bytes(input: &[u8], out: &mut [u8]) -> Output
    ensures { output_of result out.new ≡ find_printed input.now out.old }
{
    let n = JUDGED_BYTES.min(input.len());
    let mut work = [0u8; WORK_BYTES];
    match find(OPERATOR, &input[..n], &mut work, out) {
        Ok(k) => wrote(k),
        Err(q) => {
            let record = RefusalRecord::from(q);
            if record.number == TOO_LONG {
                return refused(0, record);
            }
            write_refusal(out, record)
        }
    }
}

// All that the verifier's program writes. Where 0014 does not fit (20), 001F does not either: it is longer.
pub fn verify_bytes(input: &[u8], out: &mut [u8]) -> Output
    ensures { output_of result out.new ≡ verify_printed input.now out.old }
{
    let n = JUDGED_BYTES.min(input.len());
    match verify(OPERATOR, &input[..n], out) {
        Ok(k) => wrote(k),
        Err(q) => write_refusal(out, RefusalRecord::from(q)),
    }
}
