//! Final values.
ghost use Rattle.std.specs.Prelude.{◌≡◌, ◌+◌, ◌<◌, ◌≤◌, ◌^◌, [], nat_le, IfOk, IsOk, OnOk, OnErr, IfSome};
ghost use Rattle.cps_expr.specs.Value.{IsInRange};
ghost use Rattle.cps_state.specs.Code.Exchange.{room_of};
ghost use Rattle.cps_state.specs.Keys.{overwritten};
ghost use Rattle.cps_state.specs.Machines.{limit};
ghost use Rattle.cps_final.specs.Code.Kept.{changes_in, count_of, MayStandIn};
ghost use Rattle.cps_final.specs.Finals.{Gathers, GathersAlso, machine_of, is_open_at_end, final_value, label, setting, block as block_named, literal, address_of};
ghost use Rattle.cps_final.specs.Addresses.{address_in, final_of};
ghost use Rattle.cps_final.specs.Code.FinalsPatch.{patched};
ghost use Rattle.cps_final.specs.Code.Storage.{stored};

use crate::finals_patch::FinalsPatch;
use crate::storage::{Storage, magnitude};
use cps_expr::{Machine, Names, Value};
use cps_state::{
    Hashing, Key, Lookup, Scratch, Stand, State, Trace, control_of, is_open, limit_of, value_of,
};
use cps_text::Name;
use std::alloc::{AllocError, Global};
use std::mem::swap;

/// What stands after the last line of a source: its symbols, where its blocks and literals stand, and its name.
#[derive(Drop)]
pub struct Finals {
    pub(crate) state: State,
    pub(crate) storage: Storage,
}

/// Final values to which lines are still added.
pub type Gather = Finals;

/// What was gathered of some lines.
pub trait Gathered {
    ghost use Rattle.cps_final.specs.Finals.{Finals};

    ghost gathered: { Self → Finals };
}

impl Gathered for Finals {
    ghost use Rattle.cps_final.specs.Code.Storage.{stored};

    ghost gathered = { λ finals. record (stored finals.storage) { state = ⟦<State as Lookup>⟧.answer finals.state } };
}

impl Finals {
    /// Of no line. Takes no memory yet.
    pub fn new(alloc: Global, hashing: Hashing) -> Finals
        ensures { Gathers (⟦<Finals as Gathered>⟧.gathered result) [] }
    {
        Finals {
            state: State::first(alloc, hashing),
            storage: Storage::new(alloc, hashing),
        }
    }

    /// Adds the next line. Where there is no memory, nothing changes.
    pub fn add(&mut self, trace: &Trace) -> Result<(), AllocError>
        ensures ok { OnOk result (GathersAlso (⟦<Finals as Gathered>⟧.gathered self.old) (⟦<Finals as Gathered>⟧.gathered self.new) trace.now) }
        ensures state { OnOk result ((⟦<Finals as Gathered>⟧.gathered self.new).state ≡ overwritten (⟦<Finals as Gathered>⟧.gathered self.old).state trace.now.puts) }
        ensures err { OnErr result (⟦<Finals as Gathered>⟧.gathered self.new ≡ ⟦<Finals as Gathered>⟧.gathered self.old) }
    {
        let literals = self.storage.make_room(trace.puts(), trace.items())?;
        self.state.apply(trace)?;
        self.storage.take(trace.puts(), trace.items(), &literals);
        Ok(())
    }

    /// Adds the line on a scratch, without what it asked; its puts stand there no more. Where there is no memory, nothing changes here.
    pub fn take(&mut self, scratch: &mut Scratch) -> Result<(), AllocError>
        ensures ok { OnOk result (GathersAlso (⟦<Finals as Gathered>⟧.gathered self.old) (⟦<Finals as Gathered>⟧.gathered self.new) scratch.old.line) }
        ensures scratch { OnOk result (scratch.new ≡ record scratch.old { line = record scratch.old.line { puts = [] } }) }
        ensures err { OnErr result (⟦<Finals as Gathered>⟧.gathered self.new ≡ ⟦<Finals as Gathered>⟧.gathered self.old) }
    {
        let literals = self.storage.make_room(scratch.puts(), scratch.items())?;
        self.state.reserve(scratch.puts().len())?;
        self.storage
            .take(scratch.puts(), scratch.items(), &literals);
        scratch.put_into(&mut self.state);
        Ok(())
    }

    /// The last line was added. Takes no memory.
    pub fn finish(self) -> Result<Finals, AllocError>
        ensures finals { IfOk result (λ finals. finals ≡ self) }
        ensures succeeds { IsOk result }
    {
        Ok(self)
    }

    /// What stands after the last line.
    pub fn state(&self) -> &State
        ensures { ⟦<State as Lookup>⟧.answer result.now ≡ (⟦<Finals as Gathered>⟧.gathered self.now).state }
    {
        &self.state
    }

    /// Where blocks and literals stand.
    pub fn storage(&self) -> &Storage
        ensures { record (stored result.now) { state = (⟦<Finals as Gathered>⟧.gathered self.now).state } ≡ ⟦<Finals as Gathered>⟧.gathered self.now }
    {
        &self.storage
    }

    /// How its maps hash.
    pub fn hashing(&self) -> Hashing {
        self.state.hashing()
    }

    /// The machine that the program is for.
    pub fn machine(&self) -> Machine
        ensures { result ≡ machine_of (⟦<Finals as Gathered>⟧.gathered self.now) }
    {
        control_of(self.state.ask(&Key::Control)).machine
    }

    /// Whether a range is open after the last line, or lines are skipped or kept.
    pub fn is_open_at_end(&self) -> bool
        ensures { result ≡ is_open_at_end (⟦<Finals as Gathered>⟧.gathered self.now) }
    {
        is_open(&self.state)
    }

    /// The program's name: the first that a statement gives.
    pub fn program(&self) -> Option<Name>
        ensures { result ≡ (⟦<Finals as Gathered>⟧.gathered self.now).program }
    {
        self.storage.program()
    }

    /// The literal words, in their order.
    pub fn pool(&self) -> &[u64]
        ensures { result.now ≡ (⟦<Finals as Gathered>⟧.gathered self.now).pool }
    {
        self.storage.pool()
    }

    /// The address of the first word of a block; None: the block has no put. The nominal block (None) stands at 0.
    pub fn base(&self, block: Option<Name>) -> Option<Value>
        ensures base { result ≡ final_value (⟦<Finals as Gathered>⟧.gathered self.now) (block_named block) }
        ensures range { IfSome result IsInRange }
    {
        self.storage.base(block)
    }

    /// The final value of a symbol, None for one that is not defined.
    pub fn label(&self, name: Name) -> Option<Value>
        ensures { result ≡ final_value (⟦<Finals as Gathered>⟧.gathered self.now) (label name) }
    {
        let value = self.state.value_of(name)?;
        self.final_of(value)
    }

    /// The final value of a symbol that SET gives values: the last of them.
    pub fn setting(&self, name: Name) -> Option<Value>
        ensures { result ≡ final_value (⟦<Finals as Gathered>⟧.gathered self.now) (setting name) }
    {
        let value = value_of(self.state.ask(&Key::Setting(name)))?;
        self.final_of(value)
    }

    /// The address of a literal, None for a word that is none.
    pub fn literal(&self, word: u64) -> Option<Value>
        ensures literal { result ≡ final_value (⟦<Finals as Gathered>⟧.gathered self.now) (literal word) }
        ensures range { IfSome result IsInRange }
    {
        self.storage.literal(word)
    }

    /// The address of the block in which a statement stands; without a place it is 0.
    pub fn address_in(&self, stand: Stand) -> u64
        ensures address { result ≡ address_in (final_value (⟦<Finals as Gathered>⟧.gathered self.now)) stand }
        ensures bound { result < 2 ^ 60 }
    {
        match stand {
            Stand::Nowhere => 0,
            Stand::In(block) => self.storage.address_of(block),
        }
    }

    /// The address of a literal; a word that is none counts as at 0.
    pub fn literal_address(&self, word: u64) -> u64
        ensures address { result ≡ address_of (final_value (⟦<Finals as Gathered>⟧.gathered self.now) (literal word)) }
        ensures bound { result < 2 ^ 60 }
    {
        match self.literal(word) {
            Some(address) => magnitude(address),
            None => 0,
        }
    }

    /// Whether a literal stands at or past the machine's words.
    pub fn is_far_literal(&self, machine: Machine, word: u64) -> bool
        ensures { result ≡ nat_le (limit machine) (address_of (final_value (⟦<Finals as Gathered>⟧.gathered self.now) (literal word))) }
    {
        let limit = limit_of(machine);
        // All literals stand before the pool's end, so none is looked up while that is near.
        self.storage.words_to_named() > u128::from(limit)
            && self.literal_address(word) >= u64::from(limit)
    }

    /// A value with its block at its final address.
    pub fn final_of(&self, value: Value) -> Option<Value>
        ensures { result ≡ final_of (final_value (⟦<Finals as Gathered>⟧.gathered self.now)) value }
    {
        self.storage.final_of(value)
    }

    /// Makes room for what a patch changes, once and back.
    pub fn make_room(&mut self, patch: &FinalsPatch) -> Result<(), AllocError>
        ensures same { ⟦<Finals as Gathered>⟧.gathered self.new ≡ ⟦<Finals as Gathered>⟧.gathered self.old }
        ensures room { OnOk result (count_of patch.now.changes + count_of patch.now.changes ≤ room_of self.new.state) }
    {
        let keys = patch.changes.count();
        self.state.reserve(keys + keys)
    }

    /// Takes over what a patch changes, and gives what stood there; so the same once more undoes it. Takes no memory.
    pub fn exchange(&mut self, patch: &mut FinalsPatch)
        requires room { count_of patch.old.changes ≤ room_of self.old.state }
        requires stands { MayStandIn (changes_in patch.old.changes) }
        ensures now { ⟦<Finals as Gathered>⟧.gathered self.new ≡ patched patch.old (⟦<Finals as Gathered>⟧.gathered self.old) }
        ensures back { patched patch.new (⟦<Finals as Gathered>⟧.gathered self.new) ≡ ⟦<Finals as Gathered>⟧.gathered self.old }
        ensures count { count_of patch.new.changes ≡ count_of patch.old.changes }
        ensures stands { MayStandIn (changes_in patch.new.changes) }
        ensures room { room_of self.old.state ≤ room_of self.new.state + count_of patch.old.changes }
    {
        patch.changes.exchange(&mut self.state);
        if let Some(storage) = &mut patch.storage {
            swap(&mut self.storage, storage);
        }
    }
}
