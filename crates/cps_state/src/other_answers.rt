//! What stands at the keys at which nothing may stand too.
ghost use Rattle.std.specs.Prelude.{◌≡◌, ◌<◌, ◌≤◌, ◌+◌, true, None, OnOk, IfSome, Some as Just, length, position};
ghost use Rattle.std.specs.Option.{option_copied};
ghost use Rattle.std.specs.HashMap.{get, spare, keys};
ghost use Rattle.cps_expr.specs.Value.{same_name};
ghost use Rattle.cps_state.specs.Code.OtherAnswers.{IsPutAt, answer_of, spare_of, is_rest};
ghost use Rattle.cps_state.specs.Code.Exchange.{with_answer};
ghost use Rattle.cps_state.specs.declared.key.Key.{Key};

use crate::hashing::Hashing;
use crate::key::{Answer, Key};
use cps_expr::place_among;
use cps_text::Name;
use indexmap::IndexMap;
use std::alloc::{AllocError, Global};
use std::collections::HashMap;
use std::mem;

/// The most counters that are looked through one by one.
const FEW: usize = 8;

/// What stands at keys. The counters of named blocks and the labels are found by their names.
#[derive(Drop)]
pub struct OtherAnswers {
    counters: Counters,
    labels: HashMap<Name, Answer, Hashing>,
    rest: HashMap<Key, Answer, Hashing>,
}

impl OtherAnswers {
    /// Nothing stands anywhere. Takes no memory yet.
    pub fn new(alloc: Global, hashing: Hashing) -> OtherAnswers
        ensures { (k : Key) → answer_of result k ≡ None }
    {
        OtherAnswers {
            counters: Counters {
                places: IndexMap::with_hasher(alloc, hashing),
            },
            labels: HashMap::with_hasher(alloc, hashing),
            rest: HashMap::with_hasher(alloc, hashing),
        }
    }

    /// How its maps hash.
    pub fn hashing(&self) -> Hashing {
        *self.rest.hasher()
    }

    /// What stands at a key.
    #[inline(always)]
    pub fn answer_at(&self, key: &Key) -> Option<&Answer>
        ensures { option_copied result ≡ answer_of self.now key.now }
    {
        match key {
            Key::Counter(Some(block)) => self.counters.answer_at(*block),
            Key::Label(name) => self.labels.get(name),
            _ => self.rest.get(key),
        }
    }

    /// Makes room for so many keys more.
    pub fn reserve(&mut self, keys: usize) -> Result<(), AllocError>
        ensures answer { answer_of self.new ≡ answer_of self.old }
        ensures room { OnOk result (keys ≤ spare_of self.new) }
    {
        self.counters.places.reserve(keys)?;
        self.labels.reserve(keys)?;
        self.rest.reserve(keys)
    }

    /// Puts an answer, and gives what stood there.
    #[inline(always)]
    pub fn exchange(&mut self, key: Key, answer: Answer) -> Option<Answer>
        requires room { 0 < spare_of self.old }
        ensures old { result ≡ answer_of self.old key }
        ensures answer { answer_of self.new ≡ with_answer (answer_of self.old) key (Just answer) }
        ensures room { spare_of self.old ≤ spare_of self.new + 1 }
    {
        match key {
            Key::Counter(Some(block)) => self.counters.exchange(block, answer),
            Key::Label(name) => exchange_label(&mut self.labels, name, answer),
            key => exchange_rest(&mut self.rest, key, answer),
        }
    }

    /// Takes out what stands at a key.
    pub fn remove(&mut self, key: &Key) -> Option<Answer>
        ensures old { result ≡ answer_of self.old key.now }
        ensures answer { answer_of self.new ≡ with_answer (answer_of self.old) key.now None }
        ensures room { spare_of self.old ≤ spare_of self.new }
    {
        match key {
            Key::Counter(Some(block)) => self.counters.places.swap_remove(block),
            Key::Label(name) => self.labels.remove(name),
            _ => self.rest.remove(key),
        }
    }
}

/// Where the next words of named blocks stand. A few blocks are looked through; among more an index finds one.
#[derive(Drop)]
struct Counters {
    places: IndexMap<Name, Answer, Hashing>,
}

impl Counters {
    /// How many blocks stand before a block.
    #[inline(always)]
    fn index_of(&self, block: Name) -> Option<usize>
        ensures index { result ≡ position (same_name block) (keys self.now.places) }
        ensures within { IfSome result (λ index. index < length (keys self.now.places)) }
    {
        if self.places.len() > FEW {
            return self.places.get_index_of(&block);
        }
        place_among(self.places.keys().as_slice(), block)
    }

    #[inline(always)]
    fn answer_at(&self, block: Name) -> Option<&Answer>
        ensures { option_copied result ≡ get same_name self.now.places block }
    {
        let index = self.index_of(block)?;
        let (_, answer) = self.places.get_index(index)?;
        Some(answer)
    }

    #[inline(always)]
    fn exchange(&mut self, block: Name, answer: Answer) -> Option<Answer>
        requires room { 0 < spare self.old.places }
        ensures old { result ≡ get same_name self.old.places block }
        ensures answer { IsPutAt same_name block answer (get same_name self.old.places) (get same_name self.new.places) }
        ensures room { spare self.old.places ≤ spare self.new.places + 1 }
    {
        match self.index_of(block) {
            Some(index) => {
                let Some(kept) = self.places.get_index_mut(index) else {
                    unreachable!();
                };
                Some(mem::replace(kept, answer))
            }
            None => {
                let Ok(old) = self.places.insert(block, answer) else {
                    unreachable!();
                };
                old
            }
        }
    }
}

fn exchange_label(
    labels: &mut HashMap<Name, Answer, Hashing>,
    name: Name,
    answer: Answer,
) -> Option<Answer>
    requires room { 0 < spare labels.old }
    ensures old { result ≡ get same_name labels.old name }
    ensures answer { IsPutAt same_name name answer (get same_name labels.old) (get same_name labels.new) }
    ensures room { spare labels.old ≤ spare labels.new + 1 }
{
    let Ok(old) = labels.insert(name, answer) else {
        unreachable!();
    };
    old
}

fn exchange_rest(
    rest: &mut HashMap<Key, Answer, Hashing>,
    key: Key,
    answer: Answer,
) -> Option<Answer>
    requires room { 0 < spare rest.old }
    requires rest { is_rest key ≡ true }
    ensures old { result ≡ get ⟦<Key as PartialEq>⟧.eq rest.old key }
    ensures answer { IsPutAt ⟦<Key as PartialEq>⟧.eq key answer (get ⟦<Key as PartialEq>⟧.eq rest.old) (get ⟦<Key as PartialEq>⟧.eq rest.new) }
    ensures room { spare rest.old ≤ spare rest.new + 1 }
{
    let Ok(old) = rest.insert(key, answer) else {
        unreachable!();
    };
    old
}
