//! What a line asked and put, and what is known of a key.
ghost use Rattle.std.specs.Prelude.{◌≡◌, ◌++◌, ◌∷◌, [], ◌<◌, None, Some, IfOk, OnOk, IfSome, true, is_some, length, option_and_then, slice_get};
ghost use Rattle.std.specs.Option.{option_copied};
ghost use Rattle.std.specs.HashMap as hash;
ghost use Rattle.cps_state.specs.Keys.{State};
ghost use Rattle.cps_state.specs.Course.{last_put, last_ask};
ghost use Rattle.cps_state.specs.Code.Log.{IsIndex, Log, asked_in, known_of, put_at, asked_at, found_at};

use crate::hashing::Hashing;
use crate::key::{Answer, Key, Put, is_same_key};
use std::alloc::{AllocError, Global};
use std::collections::HashMap;
use std::marker::Model;

/// So many asks, and so many puts, are looked through from the last on; where there are more of either, there is an index.
const SHORT: usize = 16;

/// Where in a log the answer stands that is known of a key: in which of its asks, or of its puts. The first is 0.
#[derive(Clone, Copy, PartialEq, Eq)]
pub enum LogPlace {
    Asked(usize),
    Put(usize),
}

/// The keys that a line asked, and what it put. A short one is looked through, a long one has an index.
#[derive(Drop)]
pub struct Log {
    alloc: Global,
    hashing: Hashing,
    asks: Vec<Key>,
    puts: Vec<Put>,
    /// What is known of each key. None: the log is short.
    index: Option<Box<HashMap<Key, LogPlace, Hashing>>>,
}

impl Model for Log {
    ghost use Rattle.std.specs.Prelude.{IfSome};
    ghost use Rattle.std.specs.HashMap as hash;
    ghost use Rattle.cps_state.specs.Code.Log.{IsIndex, Log};

    ghost Value = { Log };

    ghost view = { λ log. record { asks = log.asks.items; puts = log.puts.items } };

    ghost invariant = { λ log. IfSome log.index (λ index. IsIndex log.asks.items log.puts.items (hash.get ⟦<Key as PartialEq>⟧.eq index.value)) };
}

impl Log {
    /// Of these asks and puts. Takes no memory.
    pub fn of(alloc: Global, hashing: Hashing, asks: Vec<Key>, puts: Vec<Put>) -> Log
        ensures { result ≡ record { asks = asks.items; puts = puts.items } }
    {
        Log {
            alloc,
            hashing,
            asks,
            puts,
            index: None,
        }
    }

    /// Where the answer stands that is known of a key.
    #[inline(always)]
    pub fn find(&self, key: Key) -> Option<LogPlace>
        ensures found { (state : State) → option_and_then (found_at state self.now) result ≡ known_of state self.now key }
        ensures is_there { (state : State) → IfSome result (λ known. is_some (found_at state self.now known) ≡ true) }
    {
        if let Some(index) = &self.index {
            return index.get(&key).copied();
        }
        match newest_put(&self.puts, &key) {
            Some(place) => Some(LogPlace::Put(place)),
            None => match newest_ask(&self.asks, &key) {
                Some(place) => Some(LogPlace::Asked(place)),
                None => None,
            },
        }
    }

    /// The key of an ask.
    pub fn key_at(&self, place: usize) -> Option<&Key>
        ensures { option_copied result ≡ slice_get self.now.asks place }
    {
        self.asks.get(place)
    }

    /// The answer of a put.
    pub fn put_answer(&self, place: usize) -> Option<&Answer>
        ensures { option_copied result ≡ put_at self.now.puts place }
    {
        match self.puts.get(place) {
            Some(put) => Some(&put.answer),
            None => None,
        }
    }

    /// One more ask, of a key of which nothing is known.
    #[inline(always)]
    pub fn push_ask(&mut self, key: Key) -> Result<LogPlace, AllocError>
        requires { (state : State) → known_of state self.old key ≡ None }
        ensures log { OnOk result (self.new ≡ record self.old { asks = self.old.asks ++ key ∷ [] }) }
        ensures answer { IfOk result (λ known. (state : State) → found_at state self.new known ≡ Some (state key)) }
    {
        let known = LogPlace::Asked(self.asks.len());
        if let Some(index) = &mut self.index {
            self.asks.reserve(1)?;
            index.insert(key, known)?;
            self.asks.push_reserved(key);
            return Ok(known);
        }
        self.asks.push(key)?;
        self.lengthen()?;
        Ok(known)
    }

    /// One more put. What may be refused lets the put go by a call: a `?` here goes through all its cases.
    #[inline(always)]
    pub fn push_put(&mut self, put: Put) -> Result<(), AllocError>
        ensures { OnOk result (self.new ≡ record self.old { puts = self.old.puts ++ put ∷ [] }) }
    {
        if let Some(index) = &mut self.index {
            let Ok(_) = self.puts.reserve(1) else {
                drop(put);
                return Err(AllocError);
            };
            let Ok(_) = index.insert(put.key, LogPlace::Put(self.puts.len())) else {
                drop(put);
                return Err(AllocError);
            };
            self.puts.push_reserved(put);
            return Ok(());
        }
        self.puts.push(put)?;
        self.lengthen()
    }

    /// How many puts.
    pub fn put_count(&self) -> usize
        ensures { result ≡ length self.now.puts }
    {
        self.puts.len()
    }

    /// The keys that were asked and what was put, in their order.
    pub fn into_parts(self) -> (Vec<Key>, Vec<Put>)
        ensures asks { result.0.items ≡ self.asks }
        ensures puts { result.1.items ≡ self.puts }
    {
        let Log {
            alloc: _,
            hashing: _,
            asks,
            puts,
            index: _,
        } = self;
        (asks, puts)
    }

    /// A short log that has become long gets its index.
    #[inline(always)]
    fn lengthen(&mut self) -> Result<(), AllocError>
        ensures { self.new ≡ self.old }
    {
        if self.puts.len() <= SHORT && self.asks.len() <= SHORT {
            return Ok(());
        }
        self.make_index()
    }

    /// The index of all asks and puts.
    #[cold]
    fn make_index(&mut self) -> Result<(), AllocError>
        ensures { self.new ≡ self.old }
    {
        let index = index_of_asks(self.alloc, self.hashing, &self.asks)?;
        let index = with_puts(index, &self.asks, &self.puts)?;
        self.index = Some(Box::new(self.alloc, index)?);
        Ok(())
    }
}

/// An index of asks.
fn index_of_asks(
    alloc: Global,
    hashing: Hashing,
    asks: &[Key],
) -> Result<HashMap<Key, LogPlace, Hashing>, AllocError>
    ensures { IfOk result (λ index. IsIndex asks.now [] (hash.get ⟦<Key as PartialEq>⟧.eq index)) }
{
    let mut index = HashMap::with_hasher(alloc, hashing);
    for place in 0..asks.len() {
        index.insert(asks[place], LogPlace::Asked(place))?;
    }
    Ok(index)
}

/// An index of asks, and of puts.
fn with_puts(
    index: HashMap<Key, LogPlace, Hashing>,
    _asks: &[Key],
    puts: &[Put],
) -> Result<HashMap<Key, LogPlace, Hashing>, AllocError>
    requires { IsIndex _asks.now [] (hash.get ⟦<Key as PartialEq>⟧.eq index) }
    ensures { IfOk result (λ index. IsIndex _asks.now puts.now (hash.get ⟦<Key as PartialEq>⟧.eq index)) }
{
    let mut index = index;
    for place in 0..puts.len() {
        index.insert(puts[place].key, LogPlace::Put(place))?;
    }
    Ok(index)
}

/// The newest put at a key.
fn newest_put(puts: &[Put], key: &Key) -> Option<usize>
    ensures found { option_and_then (put_at puts.now) result ≡ last_put puts.now key.now }
    ensures within { IfSome result (λ place. place < length puts.now) }
{
    let mut place = puts.len();
    while place > 0 {
        place -= 1;
        if is_same_key(&puts[place].key, key) {
            return Some(place);
        }
    }
    None
}

/// The newest ask of a key.
fn newest_ask(asks: &[Key], key: &Key) -> Option<usize>
    ensures found { (state : State) → option_and_then (asked_at (asked_in state asks.now)) result ≡ last_ask (asked_in state asks.now) key.now }
    ensures within { IfSome result (λ place. place < length asks.now) }
{
    let mut place = asks.len();
    while place > 0 {
        place -= 1;
        if is_same_key(&asks[place], key) {
            return Some(place);
        }
    }
    None
}
