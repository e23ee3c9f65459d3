//! Lists that line after line uses.
ghost use Rattle.std.specs.Prelude.{◌≡◌, ◌≤◌, [], take, drop, length, IfOk};
ghost use Rattle.cps_state.specs.Code.Exchange.{room_of};
ghost use Rattle.cps_state.specs.Keys.{overwritten};
ghost use Rattle.cps_state.specs.Code.Scratch.{blank_scratch, statements_on};

use crate::item::Item;
use crate::key::{Asked, Key, Put};
use crate::lookup::Lookup;
use crate::state::State;
use crate::trace::Trace;
use cps_text::Name;
use std::alloc::{AllocError, Global};
use std::marker::Model;
use std::mem::replace;

/// What a line did but for its asks, behind the statements of the lines before it. The next line takes the room of the lists.
#[derive(Drop)]
pub struct Scratch {
    /// The keys that the line asked.
    keys: Vec<Key>,
    puts: Vec<Put>,
    reads: Vec<Name>,
    /// The statements of the lines before, and those of the line.
    items: Vec<Item>,
    /// How many are of the lines before.
    begun: usize,
}

impl Model for Scratch {
    ghost use Rattle.std.specs.Prelude.{◌≤◌, [], take, drop, length};
    ghost use Rattle.cps_state.specs.Code.Scratch.{Scratch};

    ghost Value = { Scratch };

    ghost view = { λ scratch. record {
      keys = scratch.keys.items;
      before = take scratch.begun scratch.items.items;
      line = record { asks = []; puts = scratch.puts.items; items = drop scratch.begun scratch.items.items; reads = scratch.reads.items };
    } };

    ghost invariant = { λ scratch. scratch.begun ≤ length scratch.items.items };
}

/// The lists of a scratch, for a line to be written in: of the keys, the puts and the reads without what was in them.
#[derive(Drop)]
pub(crate) struct Lists {
    pub(crate) keys: Vec<Key>,
    pub(crate) puts: Vec<Put>,
    pub(crate) reads: Vec<Name>,
    pub(crate) items: Vec<Item>,
}

impl Scratch {
    /// Without a line. Takes no memory.
    pub fn new(alloc: Global) -> Scratch
        ensures { result ≡ blank_scratch }
    {
        Scratch {
            keys: Vec::new(alloc),
            puts: Vec::new(alloc),
            reads: Vec::new(alloc),
            items: Vec::new(alloc),
            begun: 0,
        }
    }

    /// The keys that the line asked.
    pub(crate) fn keys(&self) -> &[Key]
        ensures { result.now ≡ self.now.keys }
    {
        self.keys.as_slice()
    }

    /// What the line put.
    pub fn puts(&self) -> &[Put]
        ensures { result.now ≡ self.now.line.puts }
    {
        self.puts.as_slice()
    }

    /// The symbols that it read in pass one.
    pub fn reads(&self) -> &[Name]
        ensures { result.now ≡ self.now.line.reads }
    {
        self.reads.as_slice()
    }

    /// Its statements.
    pub fn items(&self) -> &[Item]
        ensures { result.now ≡ self.now.line.items }
    {
        let (_, own) = self.items.split_at(self.begun);
        own
    }

    /// The statements of all lines.
    pub fn all_items(&self) -> &[Item]
        ensures { result.now ≡ statements_on self.now }
    {
        self.items.as_slice()
    }

    /// Drops the statements of all lines.
    pub fn clear_items(&mut self)
        ensures { self.new ≡ record self.old { before = []; line = record self.old.line { items = [] } } }
    {
        self.items.clear();
        self.begun = 0;
    }

    /// Puts into a state what the line put, in its order, where there is room. The puts stand here no more.
    pub fn put_into(&mut self, state: &mut State)
        requires { length self.old.line.puts ≤ room_of state.old }
        ensures state { ⟦<State as Lookup>⟧.answer state.new ≡ overwritten (⟦<State as Lookup>⟧.answer state.old) self.old.line.puts }
        ensures scratch { self.new ≡ record self.old { line = record self.old.line { puts = [] } } }
    {
        self.puts.reverse();
        state.put_all(&mut self.puts);
    }

    /// The lists, for the next line. Others without room stand in their place.
    pub(crate) fn take_lists(&mut self, alloc: Global) -> Lists
        ensures keys { result.keys.items ≡ [] }
        ensures puts { result.puts.items ≡ [] }
        ensures reads { result.reads.items ≡ [] }
        ensures items { result.items.items ≡ statements_on self.old }
    {
        self.begun = 0;
        let mut lists = Lists {
            keys: replace(&mut self.keys, Vec::new(alloc)),
            puts: replace(&mut self.puts, Vec::new(alloc)),
            reads: replace(&mut self.reads, Vec::new(alloc)),
            items: replace(&mut self.items, Vec::new(alloc)),
        };
        lists.keys.clear();
        lists.puts.clear();
        lists.reads.clear();
        lists
    }

    /// The lists of a line that is done go back, where so many statements are of the lines before.
    #[inline(always)]
    pub(crate) fn give_lists(&mut self, lists: Lists, begun: usize)
        requires { begun ≤ length lists.items.items }
        ensures { self.new ≡ record {
          keys = lists.keys.items;
          before = take begun lists.items.items;
          line = record { asks = []; puts = lists.puts.items; items = drop begun lists.items.items; reads = lists.reads.items };
        } }
    {
        let Lists {
            keys,
            puts,
            reads,
            items,
        } = lists;
        self.keys = keys;
        self.puts = puts;
        self.reads = reads;
        self.items = items;
        self.begun = begun;
    }

    /// What the line did, with what it asked, in lists without room for more, to be kept.
    pub(crate) fn take_trace(
        &mut self,
        alloc: Global,
        asks: Vec<Asked>,
    ) -> Result<Trace, AllocError>
        ensures { IfOk result (λ trace. trace ≡ record self.old.line { asks = asks.items }) }
    {
        let puts = all_of(alloc, &mut self.puts)?;
        let reads = all_of(alloc, &mut self.reads)?;
        let items = self.items.split_off(self.begun)?;
        Ok(Trace::new(asks, puts, items, reads))
    }
}

/// All that a list has, in one without room for more.
fn all_of<T: Drop>(alloc: Global, items: &mut Vec<T>) -> Result<Vec<T>, AllocError>
    ensures { IfOk result (λ all. all.items ≡ items.old.items) }
{
    let mut all = Vec::with_capacity(alloc, items.len())?;
    all.append(items)?;
    Ok(all)
}
