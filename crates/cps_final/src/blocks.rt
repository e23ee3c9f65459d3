//! How large the blocks of a source are.
ghost use Rattle.std.specs.Prelude.{◌≡◌, ◌↔◌, IfOk, IsTrue, ◌≤◌, ◌<◌, ◌+◌, ◌*◌, ◌^◌, [], OnOk, OnErr, IfSome, Some as Just, length, position};
ghost use Rattle.cps_code.specs.Place.{position as bits_before};
ghost use Rattle.cps_expr.specs.declared.machine.Machine.TheVariants.{Cp};
ghost use Rattle.cps_state.specs.declared.key.Key.TheVariants.{Counter};
ghost use Rattle.cps_expr.specs.Value.{same_name};
ghost use Rattle.cps_state.specs.Machines.{limit};
ghost use Rattle.cps_final.specs.Layout.{layout_of, named_by, names_put, words_before};
ghost use Rattle.cps_final.specs.Finals.{words_of_first};
ghost use Rattle.cps_final.specs.Code.Gathering.{layout_kept, grown, grown_by, grown_to};
ghost use Rattle.cps_final.specs.Code.Storage.{AreJoined, AreSameNamed};
ghost use Rattle.indexmap.specs.IndexMap.{spare, keys};

use cps_code::Place;
use cps_expr::{Machine, place_among};
use cps_state::{Hashing, Key, Put, place_of};
use cps_text::Name;
use indexmap::IndexMap;
use std::alloc::{AllocError, Global};

/// The most named blocks that are looked through one by one.
const FEW: usize = 8;

/// The words that each block has so far.
#[derive(Drop)]
pub struct Blocks {
    nominal: u32,
    named: IndexMap<Name, u32, Hashing>,
}

impl Blocks {
    pub fn new(alloc: Global, hashing: Hashing) -> Blocks
        ensures { layout_kept result.nominal result.named ≡ layout_of [] }
    {
        Blocks {
            nominal: 0,
            named: IndexMap::with_hasher(alloc, hashing),
        }
    }

    /// The same once more. Takes no memory where no block is named.
    pub fn copy(&self, alloc: Global) -> Result<Blocks, AllocError>
        ensures { IfOk result (λ copy. layout_kept copy.nominal copy.named ≡ layout_kept self.now.nominal self.now.named) }
    {
        if self.named.is_empty() {
            return Ok(Blocks {
                nominal: self.nominal,
                named: IndexMap::with_hasher(alloc, *self.named.hasher()),
            });
        }
        Ok(Blocks {
            nominal: self.nominal,
            named: self.named.clone()?,
        })
    }

    /// Whether there is no named block.
    pub fn has_no_named(&self) -> bool
        ensures { IsTrue result ↔ ((layout_kept self.now.nominal self.now.named).named ≡ []) }
    {
        self.named.is_empty()
    }

    /// Whether there are the same named blocks in both, in the same order, each with as many words.
    pub fn are_same_named(&self, other: &Blocks) -> bool
        ensures { IsTrue result → AreSameNamed (layout_kept self.now.nominal self.now.named) (layout_kept other.now.nominal other.now.named) }
    {
        self.named.as_slice() == other.named.as_slice()
    }

    /// Makes room for the named blocks whose counters are put. Puts of other keys take none.
    pub fn reserve(&mut self, puts: &[Put]) -> Result<(), AllocError>
        ensures same { layout_kept self.new.nominal self.new.named ≡ layout_kept self.old.nominal self.old.named }
        ensures room { OnOk result (length (names_put puts.now) ≤ spare self.new.named) }
    {
        let spare = self.named.capacity() - self.named.len();
        if puts.len() <= spare {
            return Ok(());
        }
        self.named.reserve(count_named(puts))
    }

    /// The words that puts give, where there is room for them.
    pub fn put_all(&mut self, puts: &[Put])
        requires { length (names_put puts.now) ≤ spare self.old.named }
        ensures { layout_kept self.new.nominal self.new.named ≡ grown_by (layout_kept self.old.nominal self.old.named) puts.now }
    {
        for put in puts {
            self.put(put);
        }
    }

    /// With the words of blocks behind these. Where there is no memory, nothing changes.
    pub fn join(&mut self, other: &Blocks) -> Result<(), AllocError>
        ensures ok { OnOk result (AreJoined self.old other.now self.new) }
        ensures err { OnErr result (layout_kept self.new.nominal self.new.named ≡ layout_kept self.old.nominal self.old.named) }
    {
        let count = other.named.len();
        self.named.reserve(count)?;
        self.put_words(None, other.nominal);
        for index in 0..count {
            let Some((name, words)) = other.named.get_index(index) else {
                unreachable!();
            };
            self.put_words(Some(*name), *words);
        }
        Ok(())
    }

    fn put(&mut self, put: &Put)
        requires { length (named_by put.now.key) ≤ spare self.old.named }
        ensures layout { layout_kept self.new.nominal self.new.named ≡ grown (layout_kept self.old.nominal self.old.named) put.now }
        ensures room { spare self.old.named ≤ spare self.new.named + length (named_by put.now.key) }
    {
        if let Key::Counter(block) = put.key {
            self.put_words(
                block,
                words_before(place_of(Some(&put.answer), Machine::Cp)),
            );
        }
    }

    fn put_words(&mut self, block: Option<Name>, words: u32)
        requires { length (named_by (Counter block)) ≤ spare self.old.named }
        ensures layout { layout_kept self.new.nominal self.new.named ≡ grown_to (layout_kept self.old.nominal self.old.named) block words }
        ensures room { spare self.old.named ≤ spare self.new.named + length (named_by (Counter block)) }
    {
        match block {
            None => self.nominal = self.nominal.max(words),
            Some(name) => match self.index_of(name) {
                Some(index) => {
                    let Some(size) = self.named.get_index_mut(index) else {
                        unreachable!();
                    };
                    *size = (*size).max(words);
                }
                None => self.insert(name, words),
            },
        }
    }

    /// With a named block that has so many words at least.
    fn insert(&mut self, name: Name, words: u32)
        requires { 1 ≤ spare self.old.named }
        ensures layout { layout_kept self.new.nominal self.new.named ≡ grown_to (layout_kept self.old.nominal self.old.named) (Just name) words }
        ensures room { spare self.old.named ≤ spare self.new.named + 1 }
    {
        let size = self.size(Some(name)).max(words);
        let Ok(_) = self.named.insert(name, size) else {
            unreachable!();
        };
    }

    /// The words of a block.
    pub fn size(&self, block: Option<Name>) -> u32
        ensures { result ≡ (layout_kept self.now.nominal self.now.named).size block }
    {
        match block {
            None => self.nominal,
            Some(name) => match self.named.get(&name) {
                Some(size) => *size,
                None => 0,
            },
        }
    }

    /// The number of named blocks before a block. A few are looked through; among more an index finds it.
    pub fn index_of(&self, name: Name) -> Option<usize>
        ensures index { result ≡ position (same_name name) (layout_kept self.now.nominal self.now.named).named }
        ensures within { IfSome result (λ index. index < length (keys self.now.named)) }
    {
        if self.named.len() > FEW {
            return self.named.get_index_of(&name);
        }
        place_among(self.named.keys().as_slice(), name)
    }

    /// The words of the first so many named blocks.
    pub fn words_of_first(&self, count: usize) -> u128
        requires { count ≤ length (keys self.now.named) }
        ensures words { result ≡ words_of_first count (layout_kept self.now.nominal self.now.named) }
        ensures bound { result ≤ 2 ^ 32 * count }
    {
        let mut words = 0;
        for index in 0..count {
            let Some((_, size)) = self.named.get_index(index) else {
                unreachable!();
            };
            words += u128::from(*size);
        }
        words
    }
}

/// How many puts are of counters of named blocks.
fn count_named(puts: &[Put]) -> usize
    ensures { result ≡ length (names_put puts.now) }
{
    let mut count = 0;
    for put in puts {
        count += count_of_name(&put.key);
    }
    count
}

/// One for the counter of a named block, none for another key.
fn count_of_name(key: &Key) -> usize
    ensures count { result ≡ length (named_by key.now) }
    ensures most { result ≤ 1 }
{
    match key {
        Key::Counter(Some(_)) => 1,
        _ => 0,
    }
}

/// The words before a place; one that is begun counts whole.
fn words_before(place: Place) -> u32
    requires { bits_before place ≤ 60 * limit Cp }
    ensures { result ≡ words_before place }
{
    if place.used > 0 {
        place.word + 1
    } else {
        place.word
    }
}
