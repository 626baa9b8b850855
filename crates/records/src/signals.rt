// Flow files with signal lists, and with one set edited: new parts between those of a file that are kept byte for byte.
ghost use Rattle.std.specs.Prelude.{◌≡◌, ◌++◌};
ghost use Rattle.std.proofs.Math.Option.{some};
ghost use Rattle.nodes.specs.Lists.{equal};
ghost use Rattle.answers.specs.Refusals.{given};
ghost use Rattle.records.specs.Records.{written, kind_sets};
ghost use Rattle.records.specs.Splice.{put_answer, put_front};
ghost use Rattle.records.specs.Views.{lists_held};
ghost use Rattle.records.specs.Writing.{signal_bytes};

use crate::common::{KIND_ODD_SIGNALS, KIND_SET_SIGNALS, KIND_SETS};
use crate::encode::{Plain, Record, Then, plain_record, write};
use crate::flow_file::Signals;
use answers::Refusal;

// Are the bytes the same?
pub fn same_bytes(a: &[u8], b: &[u8]) -> bool
    ensures { result ≡ equal a.now b.now }
{
    a == b
}

// A kept part of the file, and both lists behind it.
pub fn write_signals(
    out: &mut [u8],
    kept: &[u8],
    rows: &[u8],
    odds: &[u8],
) -> Result<usize, Refusal>
    ensures result_value { given (λ k. k) result ≡ put_answer (kept.now ++ signal_bytes (some (rows.now, odds.now))) out.old }
    ensures out_after { out.new ≡ put_front (kept.now ++ signal_bytes (some (rows.now, odds.now))) out.old }
{
    let lists = Then {
        first: plain_record(KIND_SET_SIGNALS, rows),
        second: plain_record(KIND_ODD_SIGNALS, odds),
    };
    let all = Then {
        first: Plain { bytes: kept },
        second: lists,
    };
    write(&all, out)
}

/// A kept part of the file, a sets record in which an entry stands between kept ones, and both lists where there are any.
// Its parameters stay apart: each is a part of the file that its contract names by itself.
pub fn write_edited(
    out: &mut [u8],
    kept: &[u8],
    before: &[u8],
    entry: &[u8],
    behind: &[u8],
    signals: Option<Signals<'_>>,
) -> Result<usize, Refusal>
    ensures result_value { given (λ k. k) result ≡ put_answer (kept.now ++ (written kind_sets (before.now ++ (entry.now ++ behind.now)) ++ signal_bytes (lists_held signals.entry))) out.old }
    ensures out_after { out.new ≡ put_front (kept.now ++ (written kind_sets (before.now ++ (entry.now ++ behind.now)) ++ signal_bytes (lists_held signals.entry))) out.old }
{
    let entries = Then {
        first: Plain { bytes: before },
        second: Then {
            first: Plain { bytes: entry },
            second: Plain { bytes: behind },
        },
    };
    let sets = Record {
        kind: KIND_SETS,
        payload: entries,
    };
    let lists = match signals {
        Some(s) => Some(Then {
            first: plain_record(KIND_SET_SIGNALS, s.rows),
            second: plain_record(KIND_ODD_SIGNALS, s.odds),
        }),
        None => None,
    };
    let all = Then {
        first: Plain { bytes: kept },
        second: Then {
            first: sets,
            second: lists,
        },
    };
    write(&all, out)
}
