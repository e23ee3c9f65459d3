//! Changed keys of a state.
ghost use Rattle.std.specs.Prelude.{◌≡◌, ◌↔◌, ◌^◌, ◌+◌, ◌<◌, ◌≤◌, IsTrue, OnOk, OnErr, Some as Just, is_some, true, slice_get};
ghost use Rattle.std.specs.Option.{option_copied};
ghost use Rattle.cps_state.specs.declared.key.Key.{Key as AKey};
ghost use Rattle.cps_state.specs.Code.Exchange.{room_of};
ghost use Rattle.cps_state.specs.Keys.{State as AState, overwritten};
ghost use Rattle.cps_final.specs.Changes.{no_change, changed, with_change, without, agreed};
ghost use Rattle.cps_final.specs.Code.Kept.{changes_in, count_of, keys_in, HasSameKeys, MayStandIn, taken_over};

use cps_state::{Answer, Hashing, Key, Lookup, Put, State};
use indexmap::IndexMap;
use std::alloc::{AllocError, Global};

/// Keys at which another answer stands than before, or none where one stood, with what stands there now.
pub struct Changes {
    answers: IndexMap<Key, Option<Answer>, Hashing>,
}

// Written out: what holds changes drops them by a call.
impl Drop for Changes {
    fn drop(self) {
        let Changes { answers } = self;
        drop(answers);
    }
}

impl Changes {
    /// No key is changed. Takes no memory yet.
    pub fn new(alloc: Global, hashing: Hashing) -> Changes
        ensures changes { changes_in result ≡ no_change }
        ensures count { count_of result ≡ 0 }
    {
        Changes {
            answers: IndexMap::with_hasher(alloc, hashing),
        }
    }

    /// How many keys are changed.
    pub fn count(&self) -> usize
        ensures count { result ≡ count_of self.now }
        ensures small { result < 2 ^ 63 }
    {
        self.answers.len()
    }

    /// Whether none is.
    pub fn is_empty(&self) -> bool
        ensures empty { IsTrue result ↔ (count_of self.now ≡ 0) }
        ensures changes { IsTrue result → changes_in self.now ≡ no_change }
    {
        self.answers.is_empty()
    }

    /// One of the keys, by its number from 0 in an order of their own. Each is there once.
    pub fn key(&self, i: usize) -> Key
        requires { i < count_of self.now }
        ensures key { slice_get (keys_in self.now) i ≡ Just result }
        ensures changed { is_some (changes_in self.now result) ≡ true }
    {
        let Some((key, _)) = self.answers.get_index(i) else {
            unreachable!();
        };
        *key
    }

    /// What stands at a key now, None where the key isn't changed.
    pub fn find(&self, key: &Key) -> Option<&Option<Answer>>
        ensures { option_copied result ≡ changes_in self.now key.now }
    {
        self.answers.get(key)
    }

    /// Another answer stands at a key, or none. Where there is no memory, nothing changes.
    pub fn set(&mut self, key: Key, answer: Option<Answer>) -> Result<(), AllocError>
        ensures ok { OnOk result (changes_in self.new ≡ with_change (changes_in self.old) key answer) }
        ensures err { OnErr result (changes_in self.new ≡ changes_in self.old) }
    {
        match self.answers.insert(key, answer) {
            Ok(old) => {
                drop(old);
                Ok(())
            }
            Err(_) => Err(AllocError),
        }
    }

    /// What stands at a key is what stood there before.
    pub fn forget(&mut self, key: &Key)
        ensures { changes_in self.new ≡ without (changes_in self.old) key.now }
    {
        drop(self.answers.swap_remove(key));
    }

    /// No key is changed any more.
    pub fn clear(&mut self)
        ensures changes { changes_in self.new ≡ no_change }
        ensures count { count_of self.new ≡ 0 }
    {
        self.answers.clear();
    }

    /// Goes over lines that put the same as before.
    pub fn agree(&mut self, puts: &[Put])
        ensures { changes_in self.new ≡ agreed (changes_in self.old) puts.now }
    {
        for put in puts {
            self.forget(&put.key);
        }
    }

    /// At each key that lines put stands what they put last, whether that is another answer or not. Where there is no memory, some of it may be left out.
    pub fn put_all(&mut self, puts: &[Put]) -> Result<(), AllocError>
        ensures { OnOk result ((state : AState) → changed (changes_in self.new) state ≡ overwritten (changed (changes_in self.old) state) puts.now) }
    {
        for put in puts {
            let answer = put.answer.share()?;
            self.set(put.key, Some(answer))?;
        }
        Ok(())
    }

    /// A state takes over what stands at these keys now, and gives what stood there; so the same once more undoes it.
    /// It uses room for as many keys at most.
    pub fn exchange(&mut self, state: &mut State)
        requires room { count_of self.old ≤ room_of state.old }
        requires stands { MayStandIn (changes_in self.old) }
        ensures state { ⟦<State as Lookup>⟧.answer state.new ≡ changed (changes_in self.old) (⟦<State as Lookup>⟧.answer state.old) }
        ensures back { changed (changes_in self.new) (⟦<State as Lookup>⟧.answer state.new) ≡ ⟦<State as Lookup>⟧.answer state.old }
        ensures keys { (k : AKey) → is_some (changes_in self.new k) ≡ is_some (changes_in self.old k) }
        ensures count { count_of self.new ≡ count_of self.old }
        ensures stands { MayStandIn (changes_in self.new) }
        ensures room { room_of state.old ≤ room_of state.new + count_of self.old }
    {
        for i in 0..self.answers.len() {
            let key = self.key(i);
            self.exchange_at(i, key, state);
        }
    }

    /// The same, at the key with this number.
    fn exchange_at(&mut self, i: usize, key: Key, state: &mut State)
        requires there { slice_get (keys_in self.old) i ≡ Just key }
        requires room { 0 < room_of state.old }
        requires stands { MayStandIn (changes_in self.old) }
        ensures changes { changes_in self.new ≡ with_change (changes_in self.old) key (⟦<State as Lookup>⟧.answer state.old key) }
        ensures state { ⟦<State as Lookup>⟧.answer state.new ≡ taken_over (changes_in self.old) key (⟦<State as Lookup>⟧.answer state.old) }
        ensures keys { HasSameKeys self.old self.new }
        ensures stands { MayStandIn (changes_in self.new) }
        ensures room { room_of state.old ≤ room_of state.new + 1 }
    {
        let Some(kept) = self.answers.get_index_mut(i) else {
            unreachable!();
        };
        let answer = kept.take();
        *kept = state.replace(key, answer);
    }
}
