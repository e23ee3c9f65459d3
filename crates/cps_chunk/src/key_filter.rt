//! A filter of keys.
ghost use Rattle.std.specs.Prelude.{◌≡◌, ◌<◌, ◌^◌, ℕ, [], ◌∷◌, true, false, flat_map, map, List};
ghost use Rattle.cps_state.specs.declared.hashing.Hashing.{Hashing as AHashing};
ghost use Rattle.cps_state.specs.declared.key.Key.{Key as AKey};
ghost use Rattle.cps_state.specs.declared.key.Key.TheVariants as key;
ghost use Rattle.cps_state.specs.Made.{content_names};
ghost use Rattle.cps_code.specs.Operand.{operand_names};
ghost use Rattle.cps_chunk.specs.KeyFilter.{has, is_set, mark_of, AreMarked, HasAll, HasBits, keys_put, keys_asked, keys_named};

use cps_code::Hole;
use cps_state::{Content, Hashing, Item, Key, Trace};
use cps_text::Name;
use std::hash::BuildHasher;

/// The bits of a filter.
const BITS: usize = 2_048;

const WORDS: usize = BITS / 64;

/// A Bloom filter of keys, two bits a key: a key of whose bits one is 0 is none of those that were marked. Several keys may have the same.
#[derive(Clone, Copy)]
pub struct KeyFilter {
    bits: [u64; WORDS],
}

/// A key's mark: the numbers of its two bits, from 0, the one 2,048 times and the other.
pub fn mark_of(hashing: Hashing, key: Key) -> usize
    ensures mark { result ≡ mark_of hashing key }
    ensures bound { result < 2 ^ 22 }
{
    (hashing.hash_one(key) >> 42) as usize
}

impl KeyFilter {
    /// Of no key.
    pub fn none() -> KeyFilter
        ensures { (mark : ℕ) → has result mark ≡ false }
    {
        KeyFilter { bits: [0; WORDS] }
    }

    /// Of all keys.
    pub fn all() -> KeyFilter
        ensures { (hashing : AHashing) (keys : List AKey) → AreMarked hashing result keys }
    {
        KeyFilter {
            bits: [u64::MAX; WORDS],
        }
    }

    /// Whether both bits of a mark are 1.
    pub fn has(&self, mark: usize) -> bool
        ensures { result ≡ has self.now mark }
    {
        self.is_set(mark / BITS) && self.is_set(mark % BITS)
    }

    /// Whether a bit is 1. One that the filter doesn't have is none.
    fn is_set(&self, bit: usize) -> bool
        ensures { result ≡ is_set self.now bit }
    {
        match self.bits.get(bit / 64) {
            Some(word) => (*word >> (bit % 64)) & 1 == 1,
            None => false,
        }
    }

    /// Marks a key.
    fn mark(&mut self, hashing: Hashing, key: Key)
        ensures marked { has self.new (mark_of hashing key) ≡ true }
        ensures kept { HasAll self.old self.new }
    {
        let mark = mark_of(hashing, key);
        self.set(mark / BITS);
        self.set(mark % BITS);
    }

    /// Sets a bit.
    fn set(&mut self, bit: usize)
        requires { bit < BITS }
        ensures set { is_set self.new bit ≡ true }
        ensures kept { HasBits self.old self.new }
    {
        self.bits[bit / 64] |= 1 << (bit % 64);
    }

    /// With all marks of others.
    pub fn join(&mut self, other: &KeyFilter)
        ensures kept { HasAll self.old self.new }
        ensures joined { HasAll other.now self.new }
    {
        for i in 0..WORDS {
            self.bits[i] |= other.bits[i];
        }
    }

    /// Marks what a line puts.
    pub fn mark_puts(&mut self, hashing: Hashing, trace: &Trace)
        ensures marked { AreMarked hashing self.new (keys_put (trace.now ∷ [])) }
        ensures kept { HasAll self.old self.new }
    {
        for put in trace.puts() {
            self.mark(hashing, put.key);
        }
    }

    /// Marks what a line asks.
    pub fn mark_asks(&mut self, hashing: Hashing, trace: &Trace)
        ensures marked { AreMarked hashing self.new (keys_asked (trace.now ∷ [])) }
        ensures kept { HasAll self.old self.new }
    {
        for asked in trace.asks() {
            self.mark(hashing, asked.key);
        }
    }

    /// Marks the labels that the contents of a line name.
    pub fn mark_names(&mut self, hashing: Hashing, trace: &Trace)
        ensures marked { AreMarked hashing self.new (keys_named (trace.now ∷ [])) }
        ensures kept { HasAll self.old self.new }
    {
        for item in trace.items() {
            self.mark_contents(hashing, item.made.contents());
        }
    }

    fn mark_contents(&mut self, hashing: Hashing, contents: &[Content])
        ensures marked { AreMarked hashing self.new (map key.Label (flat_map content_names contents.now)) }
        ensures kept { HasAll self.old self.new }
    {
        for content in contents {
            self.mark_holes(hashing, content.holes());
        }
    }

    fn mark_holes(&mut self, hashing: Hashing, holes: &[Hole])
        ensures marked { AreMarked hashing self.new (map key.Label (flat_map (λ hole. operand_names hole.operand) holes.now)) }
        ensures kept { HasAll self.old self.new }
    {
        for hole in holes {
            self.mark_labels(hashing, hole.operand.names());
        }
    }

    fn mark_labels(&mut self, hashing: Hashing, names: &[Name])
        ensures marked { AreMarked hashing self.new (map key.Label names.now) }
        ensures kept { HasAll self.old self.new }
    {
        for name in names {
            self.mark(hashing, Key::Label(*name));
        }
    }
}
