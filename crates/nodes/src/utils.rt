// Sets of nodes, a digit for each node, and tables of such sets.
ghost use Rattle.std.specs.Prelude.{◌≡◌, ℕ, false, not, ◌&&◌, ◌||◌, ◌+◌, ◌-◌, ◌*◌, ◌%◌, ◌^◌, ◌<◌, ◌≤◌, ◌↔◌, eqb, leb, ltb, length, get_or, set, List, [], IsTrue};
ghost use Rattle.std.specs.Int.Bits.{bit_and, bit_or, bit_xor};
ghost use Rattle.std.specs.Iterator.{YieldsFirst, item_count};
ghost use Rattle.nodes.specs.Bit.{bit, ◌⊕◌};
ghost use Rattle.nodes.specs.Row.{any_below, all_below, count, lowest, members, parity};
ghost use Rattle.nodes.specs.NodeSet.{word_bits, IsWidth, places, highest_of, highest, capacity, member_of, words_of, member_in, member, left_of};
ghost use Rattle.nodes.specs.Lists.{zeros};
ghost use Rattle.nodes.specs.SetTable.{set_at, put_set, add_set, add_sets, raised};

use crate::masks::MASKS;
use std::marker::Model;

pub const WORD_BITS: usize = 64;

pub const WORD_BYTES: usize = WORD_BITS / 8;

/// How many nodes a job can have.
pub const CAPACITY: usize = NodeSet::<2>::HIGHEST + 1;

/// The words of a set of a job's nodes.
pub const SET_WORDS: usize = CAPACITY / WORD_BITS;

/// The words of a table with a set for each node.
pub const TABLE_WORDS: usize = CAPACITY * SET_WORDS;

/// The word with one digit, that of node v.
pub fn mask(v: usize) -> u64
    ensures { result ≡ 2 ^ (v % word_bits) }
{
    MASKS[v % WORD_BITS]
}

/// A set of nodes, of one to four words.
#[derive(Clone, Copy, Debug, PartialEq, Eq)]
pub struct NodeSet<const WORDS: usize> {
    // Public, so that a set can be a constant: no function is called in a constant's value.
    pub words: [u64; WORDS],
}

impl<const WORDS: usize> Model for NodeSet<WORDS> {
    ghost Value = { List ℕ };

    ghost view = { λ s. s.words };

    ghost invariant = { λ s. IsWidth WORDS };

    ghost inverse = { λ words. record { words = words } };
}

impl NodeSet<2> {
    pub const HIGHEST: usize = 127;
}

// Sets that are made out of nothing: at the written width, which asks nothing of a caller. In generic code they would have to ask that
// there be few words.
impl NodeSet<SET_WORDS> {
    pub fn empty() -> Self
        ensures { member result ≡ (λ u. false) }
    {
        NodeSet {
            words: [0; SET_WORDS],
        }
    }

    /// The nodes below n.
    pub fn below(n: usize) -> Self
        ensures { member result ≡ (λ u. ltb u n && leb u highest) }
    {
        let front = mask(n) - 1;
        let mut words = [0; SET_WORDS];
        for i in 0..SET_WORDS {
            if i < n / WORD_BITS {
                words[i] = !0;
            } else if i == n / WORD_BITS {
                words[i] = front;
            }
        }
        NodeSet { words }
    }

    /// The set with these words, that of the lowest nodes first.
    pub fn from_words(low_first: [u64; SET_WORDS]) -> Self
        ensures nodes { member result ≡ member_of low_first }
        ensures words { words_of result ≡ low_first }
    {
        NodeSet { words: low_first }
    }

    /// The words of the set, that of the lowest nodes first.
    pub fn words(self) -> [u64; SET_WORDS]
        ensures { result ≡ words_of self }
    {
        [self.words[0], self.words[1]]
    }
}

impl<const WORDS: usize> NodeSet<WORDS> {
    // v alone, where a set can have it; else no node.
    fn only(v: usize) -> Self
        requires { IsWidth WORDS }
        ensures { member_in WORDS result ≡ (λ u. eqb u v && leb v (highest_of WORDS)) }
    {
        let digit = mask(v);
        let mut words = [0; WORDS];
        for i in 0..WORDS {
            if i == v / WORD_BITS {
                words[i] = digit;
            }
        }
        NodeSet { words }
    }

    pub fn has(self, v: usize) -> bool
        ensures { result ≡ member_in WORDS self.entry v }
    {
        let words = &self.words;
        if v / WORD_BITS < WORDS {
            return words[v / WORD_BITS] & mask(v) != 0;
        }
        false
    }

    /// v is added where a set can have it; else the set is as it was.
    pub fn with(self, v: usize) -> Self
        ensures { member_in WORDS result ≡ (λ u. member_in WORDS self.entry u || (eqb u v && leb v (highest_of WORDS))) }
    {
        let _ = &self.words;
        self.union(NodeSet::only(v))
    }

    pub fn without(self, v: usize) -> Self
        ensures { member_in WORDS result ≡ (λ u. member_in WORDS self.entry u && not (eqb u v)) }
    {
        let _ = &self.words;
        self.difference(NodeSet::only(v))
    }

    fn word(&self, i: usize) -> u64
        requires { i < WORDS }
        ensures { result ≡ get_or self.now i 0 }
    {
        self.words[i]
    }

    // Each word of the one merged with that of the other.
    fn merged<F: Fn(u64, u64) -> u64>(mut self, o: Self, merge: F) -> Self
        requires { F.IsAlwaysCallable merge }
        ensures small { (i : ℕ) → i < WORDS → get_or o.entry i 0 < 2 ^ word_bits }
        ensures words { (i : ℕ) → i < WORDS → F.post merge (get_or self.entry i 0) (get_or o.entry i 0) (get_or result i 0) }
    {
        for i in 0..WORDS {
            self.words[i] = merge(self.words[i], o.words[i]);
        }
        self
    }

    pub fn union(mut self, o: Self) -> Self
        ensures { member_in WORDS result ≡ (λ u. member_in WORDS self.entry u || member_in WORDS o.entry u) }
    {
        for i in 0..WORDS {
            self.words[i] |= o.words[i];
        }
        self
    }

    pub fn intersection(self, o: Self) -> Self
        ensures { member_in WORDS result ≡ (λ u. member_in WORDS self.entry u && member_in WORDS o.entry u) }
    {
        self.merged(
            o,
            |a: u64, b: u64| -> u64
                ensures { result ≡ bit_and a b }
            { a & b },
        )
    }

    pub fn difference(self, o: Self) -> Self
        ensures { member_in WORDS result ≡ (λ u. member_in WORDS self.entry u && not (member_in WORDS o.entry u)) }
    {
        self.merged(
            o,
            |a: u64, b: u64| -> u64
                ensures { result ≡ bit_and a (2 ^ word_bits - 1 - b) }
            { a & !b },
        )
    }

    /// The nodes that are in one of the two and not in both.
    pub fn xor(self, o: Self) -> Self
        ensures { member_in WORDS result ≡ (λ u. member_in WORDS self.entry u ⊕ member_in WORDS o.entry u) }
    {
        self.merged(
            o,
            |a: u64, b: u64| -> u64
                ensures { result ≡ bit_xor a b }
            { a ^ b },
        )
    }

    pub fn is_empty(self) -> bool
        ensures { result ≡ not (any_below (places WORDS) (member_in WORDS self.entry)) }
    {
        let words = &self.words;
        for i in 0..WORDS {
            if words[i] != 0 {
                return false;
            }
        }
        true
    }

    pub fn same(self, o: Self) -> bool
        ensures { result ≡ all_below (places WORDS) (λ u. not (member_in WORDS self.entry u ⊕ member_in WORDS o.entry u)) }
    {
        let _ = &self.words;
        let _ = &o.words;
        self == o
    }

    pub fn count(self) -> usize
        ensures { result ≡ count (places WORDS) (member_in WORDS self.entry) }
    {
        let words = &self.words;
        let mut total = 0;
        for i in 0..WORDS {
            total += u64::count_ones(words[i]) as usize;
        }
        total
    }

    /// The least member; one past the highest node where there is none.
    pub fn lowest(self) -> usize
        ensures { result ≡ lowest (places WORDS) (member_in WORDS self.entry) }
    {
        let words = &self.words;
        for i in 0..WORDS {
            if words[i] != 0 {
                return WORD_BITS * i + u64::trailing_zeros(words[i]) as usize;
            }
        }
        WORD_BITS * WORDS
    }

    /// The least member alone.
    pub fn first(self) -> Self
        ensures { member_in WORDS result ≡ (λ u. member_in WORDS self.entry u && eqb u (lowest (places WORDS) (member_in WORDS self.entry))) }
    {
        self.difference(self.without_lowest())
    }

    /// The set without its least member: to take one from a word carries up to the lowest digit that is 1.
    pub fn without_lowest(mut self) -> Self
        ensures { member_in WORDS result ≡ (λ u. member_in WORDS self.entry u && not (eqb u (lowest (places WORDS) (member_in WORDS self.entry)))) }
    {
        let _ = &self.words;
        for i in 0..WORDS {
            if self.words[i] != 0 {
                self.words[i] &= self.words[i] - 1;
                return self;
            }
        }
        self
    }

    /// The members, ascending.
    pub fn iter(self) -> Nodes<WORDS>
        ensures { left_of result.set result.at result.left ≡ member_in WORDS self.entry }
    {
        let first = self.words[0];
        Nodes {
            set: self,
            at: 0,
            left: first,
        }
    }
}

/// The members that are left, ascending: of word `at` those in `left`, and of the words behind it all.
#[derive(Clone, Copy)]
pub struct Nodes<const WORDS: usize> {
    set: NodeSet<WORDS>,
    at: usize,
    left: u64,
    ghost within: { at < WORDS },
    ghost few: { WORDS ≤ 4 },
}

impl<const WORDS: usize> Iterator for Nodes<WORDS> {
    type Item = usize;

    ghost next_gives = { YieldsFirst (λ nodes. members (places WORDS) (left_of nodes.set nodes.at nodes.left)) };

    ghost remaining = { item_count (λ nodes. members (places WORDS) (left_of nodes.set nodes.at nodes.left)) };

    fn next(&mut self) -> Option<usize> {
        while self.left == 0 {
            if self.at + 1 == WORDS {
                return None;
            }
            self.at += 1;
            self.left = self.set.word(self.at);
        }
        let bit = self.left.trailing_zeros() as usize;
        self.left &= self.left - 1;
        Some(WORD_BITS * self.at + bit)
    }
}

// ---- tables of sets, as lent words: a table may end within a set, which `set_at` reads and the calls with tables of exact length refuse

/// Set u of a table; a word that lies past the table has no member.
pub fn set_at(table: &[u64], u: usize) -> NodeSet<SET_WORDS>
    ensures { member result ≡ set_at table.now u }
{
    if u < table.len() / SET_WORDS {
        let at = SET_WORDS * u;
        return NodeSet {
            words: [table[at], table[at + 1]],
        };
    }
    // the table ends within set u
    if u < table.len() - table.len() / SET_WORDS {
        return NodeSet {
            words: [table[SET_WORDS * u], 0],
        };
    }
    NodeSet::empty()
}

/// s becomes set u of the table, where both its words lie in it; else the table is as it was.
pub fn put_set(table: &mut [u64], u: usize, s: NodeSet<SET_WORDS>)
    ensures { table.new ≡ put_set table.old u (words_of s) }
{
    if u < table.len() / SET_WORDS {
        let at = SET_WORDS * u;
        table[at] = s.words[0];
        table[at + 1] = s.words[1];
    }
}

/// Each set of the table becomes empty.
pub fn clear_table(table: &mut [u64])
    ensures { table.new ≡ zeros (length table.old) }
{
    table.fill(0);
}

fn add_word(table: &mut [u64], at: usize, word: u64)
    ensures { table.new ≡ set table.old at (bit_xor (get_or table.old at 0) word) }
{
    if at < table.len() {
        table[at] ^= word;
    }
}

fn add_set(table: &mut [u64], u: usize, x: NodeSet<SET_WORDS>)
    requires { u ≤ capacity + word_bits }
    ensures { table.new ≡ add_set table.old u (words_of x) }
{
    let at = SET_WORDS * u;
    add_word(table, at, x.words[0]);
    add_word(table, at + 1, x.words[1]);
}

// x is added to the set of each node whose digit the word has; the word begins with node `base`.
fn add_in_word(table: &mut [u64], base: usize, word: u64, x: NodeSet<SET_WORDS>)
    requires { base ≤ capacity }
    ensures { table.new ≡ add_sets table.old (raised base (members word_bits (bit word))) (words_of x) }
{
    let mut left = word;
    while left != 0 {
        add_set(table, base + u64::trailing_zeros(left) as usize, x);
        left &= left - 1;
    }
}

/// x is added mod 2 to the set of each node in `nodes`, where the table has it.
// Word by word, and not by `iter`: that took a fifth more instructions, since the place of each set was then worked out anew.
pub fn add_to(table: &mut [u64], nodes: NodeSet<SET_WORDS>, x: NodeSet<SET_WORDS>)
    ensures { table.new ≡ add_sets table.old (members capacity (member nodes)) (words_of x) }
{
    add_in_word(table, 0, nodes.words[0], x);
    add_in_word(table, WORD_BITS, nodes.words[1], x);
}

/// The nodes that are in the sets of an odd number of kset's members: where the table has each node's
/// neighbours, those with an odd number of neighbours in kset. A node in two sets is out again, so the
/// sets are added up by xor; only the members are visited.
pub fn odd_neighbors(g: &[u64], kset: NodeSet<SET_WORDS>) -> NodeSet<SET_WORDS>
    ensures { member result ≡ (λ v. parity capacity (λ k. set_at g.now k v && member kset k)) }
{
    let mut odd = NodeSet::empty();
    for k in kset.iter() {
        odd = odd.xor(set_at(g, k));
    }
    odd
}
