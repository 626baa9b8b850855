// Reading a flow: the records of layers and of sets, and both signal lists or neither.
ghost use Rattle.std.specs.Prelude.{◌≡◌, true, length, get_or, drop, ◌++◌, IfOk};
ghost use Rattle.records.specs.Records.{kind_set_signals, all_yes, each_asks, from_two_bytes};
ghost use Rattle.records.specs.Format.{optional};
ghost use Rattle.records.specs.FlowFile.{layer_width, sets_asks, read_flow, signals};
ghost use Rattle.records.specs.Encoding.{IsBytes};
ghost use Rattle.answers.specs.Refusals.{given};
ghost use Rattle.records.specs.Views.{flow_held, signals_of, lists_written, IsLaidOut};
ghost use Rattle.records.specs.Places.{IsFlowPlaced};

use crate::common::{
    KIND_LAYERS, KIND_ODD_SIGNALS, KIND_SET_SIGNALS, KIND_SETS, KIND_WIDE_LAYERS, WIDE_LAYER_BYTES,
    byte_at,
};
use crate::part::{carried, either, record};
use crate::questions::{BitRows, Layers, Sets};
use answers::Refusal;

// Both signal lists, those of the sets and those of Odd.
#[derive(Clone, Copy, Debug, PartialEq, Eq)]
pub struct Signals<'a> {
    pub rows: &'a [u8],
    pub odds: &'a [u8],
}

// What the records of a flow hold, and the bytes behind them. Whether its layers are of the wide kind is a flag in the definition of a flow
// file too: an edit keeps the kind.
#[derive(Clone, Copy, Debug, PartialEq, Eq)]
pub struct FlowFile<'a> {
    pub wide: bool,
    pub layers: &'a [u8],
    pub sets: &'a [u8],
    pub signals: Option<Signals<'a>>,
    pub after: &'a [u8],
}

// Both lists, where the next six bytes carry the kind of the first, and the bytes behind them.
#[tactic(auto, unfolding(crate::specs::Format::decode_then))]
fn signal_lists(file: &[u8], n: usize) -> Result<(Option<Signals<'_>>, &[u8]), Refusal>
    ensures value { given signals_of result ≡ (optional kind_set_signals (signals n)).decode file.now }
    ensures laid_out { IfOk result (λ p. file.now ≡ lists_written p.0 ++ p.1.now) }
{
    if !carried(file, KIND_SET_SIGNALS) {
        return Ok((None, file));
    }
    let rows = record(file, KIND_SET_SIGNALS, &BitRows { n })?;
    let odds = record(rows.rest, KIND_ODD_SIGNALS, &BitRows { n })?;
    let both = Signals {
        rows: rows.payload,
        odds: odds.payload,
    };
    Ok((Some(both), odds.rest))
}

// Of numbers in two bytes each the one at i; past the last it is 0.
#[tactic(auto, using(crate::proofs::Layers::from_length, crate::proofs::Layers::from_at))]
fn pair_at(bytes: &[u8], i: usize) -> u16
    ensures { result ≡ get_or (from_two_bytes bytes.now) i 0 }
{
    if i >= bytes.len() / 2 {
        return 0;
    }
    u16::from_le_bytes([bytes[2 * i], bytes[2 * i + 1]])
}

impl<'a> FlowFile<'a> {
    // The flow for n nodes at the front of the bytes; each payload lies where the heads of the records say.
    #[tactic(auto, using(crate::proofs::Layers::layers_asked), unfolding(crate::specs::FlowFile::read_flow, crate::specs::Format::decode_then))]
    pub fn read(file: &'a [u8], n: usize) -> Result<FlowFile<'a>, Refusal>
        ensures value { given flow_held result ≡ read_flow n file.now }
        ensures payloads { IfOk result (λ f. (all_yes (each_asks (layer_width f.wide) n f.layers.now) ≡ true) × (all_yes (sets_asks n f.sets.now) ≡ true)) }
        ensures bytes { IfOk result (λ f. IsBytes f.layers.now) }
        ensures laid_out { IfOk result (λ f. IsLaidOut file.now f) }
        ensures placed { IfOk result (λ f. IsFlowPlaced file.now 0 f) }
    {
        let narrow = Layers { wide: false, n };
        let broad = Layers { wide: true, n };
        let (wide, layers) = either(file, KIND_LAYERS, &narrow, KIND_WIDE_LAYERS, &broad)?;
        let sets = record(layers.rest, KIND_SETS, &Sets { n })?;
        let (signals, after) = signal_lists(sets.rest, n)?;
        Ok(FlowFile {
            wide,
            layers: layers.payload,
            sets: sets.payload,
            signals,
            after,
        })
    }

    // How many layers the flow has.
    #[tactic(auto, using(crate::proofs::Layers::from_length))]
    pub fn layer_count(&self) -> usize
        ensures { result ≡ length (flow_held self.now).layers }
    {
        let len = self.layers.len();
        if self.wide {
            return len / WIDE_LAYER_BYTES;
        }
        len
    }

    // The layer of node u; past the last it is 0.
    pub fn layer_of(&self, u: usize) -> u16
        ensures { result ≡ get_or (flow_held self.now).layers u 0 }
    {
        if self.wide {
            return pair_at(self.layers, u);
        }
        u16::from(byte_at(self.layers, u))
    }
}

// The flow for n nodes that starts at this place; past the end of the file there is none.
pub fn read_flow(file: &[u8], at: usize, n: usize) -> Result<FlowFile<'_>, Refusal>
    ensures value { given flow_held result ≡ read_flow n (drop at file.now) }
    ensures payloads { IfOk result (λ f. (all_yes (each_asks (layer_width f.wide) n f.layers.now) ≡ true) × (all_yes (sets_asks n f.sets.now) ≡ true)) }
    ensures bytes { IfOk result (λ f. IsBytes f.layers.now) }
    ensures laid_out { IfOk result (λ f. IsLaidOut (drop at file.now) f) }
    ensures placed { IfOk result (λ f. IsFlowPlaced file.now at f) }
{
    if at > file.len() {
        return FlowFile::read(&file[..0], n);
    }
    FlowFile::read(&file[at..], n)
}
