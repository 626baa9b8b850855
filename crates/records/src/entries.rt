// The entries of a sets record, one walk for all that go over them: node, count, members.
ghost use Rattle.std.specs.Prelude.{◌≡◌, true, eqb, cond, length, MatchOption, IfSome, ◌<◌, []};
ghost use Rattle.std.proofs.Math.Option.{none, some};
ghost use Rattle.std.specs.Iterator.{YieldsFirstBy, item_count};
ghost use Rattle.nodes.specs.Options.{is_some};
ghost use Rattle.records.specs.FlowFile.{entries_of, listed, add_entry, all_entries, entry_below, entries_rise};
ghost use Rattle.records.specs.Views.{entry_held, IsAround};

use crate::common::ENTRY_HEAD_BYTES;
use crate::questions::{below, rising};

// A node and the members of its set.
#[derive(Clone, Copy, Debug, PartialEq, Eq)]
pub struct Entry<'a> {
    pub node: u8,
    pub members: &'a [u8],
}

// The entries of bytes that end with the last one.
#[derive(Clone, Copy, Debug, PartialEq, Eq)]
pub struct Entries<'a> {
    rest: &'a [u8],
    ghost whole: { is_some (entries_of rest.now) ≡ true },
}

// The entry at the front, where it is all there, and the bytes behind it.
#[tactic(auto, using(crate::proofs::ReadingEntries::entries_short, crate::proofs::ReadingEntries::entries_cut))]
fn first_entry(bytes: &[u8]) -> Option<(Entry<'_>, &[u8])>
    ensures entry { MatchOption result (entries_of bytes.now ≡ cond (eqb (length bytes.now) 0) (some []) none) (λ p. entries_of bytes.now ≡ add_entry (entry_held p.0) (entries_of p.1.now)) }
    ensures shorter { IfSome result (λ p. length p.1.now < length bytes.now) }
{
    if bytes.len() < ENTRY_HEAD_BYTES {
        return None;
    }
    let end = ENTRY_HEAD_BYTES + usize::from(bytes[1]);
    if end > bytes.len() {
        return None;
    }
    let entry = Entry {
        node: bytes[0],
        members: &bytes[ENTRY_HEAD_BYTES..end],
    };
    Some((entry, &bytes[end..]))
}

impl<'a> Entries<'a> {
    // The entries, where they end exactly with the bytes.
    pub fn whole(sets: &'a [u8]) -> Option<Entries<'a>>
        ensures { MatchOption result (entries_of sets.now ≡ none) (λ es. es.rest.now ≡ sets.now) }
    {
        // No `for`: only here is found that the bytes end with an entry, as `Entries` says of its own.
        let mut rest = sets;
        while let Some((_, behind)) = first_entry(rest) {
            rest = behind;
        }
        if !rest.is_empty() {
            return None;
        }
        Some(Entries { rest: sets })
    }

    // The entries; bytes that are no entries hold none.
    #[tactic(auto, using(crate::proofs::ReadingEntries::entries_short))]
    pub fn of(sets: &'a [u8]) -> Entries<'a>
        ensures { listed (entries_of result.rest.now) ≡ listed (entries_of sets.now) }
    {
        let Some(entries) = Entries::whole(sets) else {
            return Entries { rest: &sets[..0] };
        };
        entries
    }

    // The bytes before the entry of node u, and those behind it: an entry of u between them takes its place, or is put in at its place.
    #[tactic(auto, using(crate::proofs::Around::up_to_start, crate::proofs::Around::around_same, crate::proofs::Around::around_before))]
    pub fn around(&self, u: usize) -> (&'a [u8], &'a [u8])
        ensures { IsAround self.now.rest.now u result.0.now result.1.now }
    {
        // No `for`: what is handed out are the bytes left at an entry.
        let sets = self.rest;
        let mut rest = sets;
        while let Some((entry, behind)) = first_entry(rest) {
            let v = usize::from(entry.node);
            if v > u {
                return (&sets[..sets.len() - rest.len()], rest);
            }
            if v == u {
                return (&sets[..sets.len() - rest.len()], behind);
            }
            rest = behind;
        }
        (&sets[..sets.len() - rest.len()], rest)
    }

    // Is each node and each member below n?
    pub(crate) fn below(&self, n: usize) -> bool
        ensures { result ≡ all_entries (entry_below n) (listed (entries_of self.now.rest.now)) }
    {
        let mut entries = *self;
        entries.all(|e| usize::from(e.node) < n && below(e.members, n))
    }

    // Are the nodes strictly ascending, and the members of each entry?
    #[tactic(auto, unfolding(crate::specs::FlowFile::entries_rise))]
    pub(crate) fn rising(&self) -> bool
        ensures { result ≡ entries_rise 0 (listed (entries_of self.now.rest.now)) }
    {
        let mut low = 0;
        for e in *self {
            if usize::from(e.node) < low || !rising(e.members) {
                return false;
            }
            low = usize::from(e.node) + 1;
        }
        true
    }
}

impl<'a> Iterator for Entries<'a> {
    type Item = Entry<'a>;

    ghost next_gives = { YieldsFirstBy entry_held (λ (it : Self). listed (entries_of it.rest.now)) };

    ghost remaining = { item_count (λ (it : Self). listed (entries_of it.rest.now)) };

    fn next(&mut self) -> Option<Entry<'a>> {
        let (entry, rest) = first_entry(self.rest)?;
        self.rest = rest;
        Some(entry)
    }
}
