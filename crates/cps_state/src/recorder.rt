//! What a line has asked, put, made and read so far, over what answers its keys.
ghost use Rattle.std.specs.Prelude.{◌≡◌, ◌≤◌, [], ◌∷◌, IsTrue, OnOk, IfOk, drop, length};
ghost use Rattle.std.specs.Option.{option_copied};
ghost use Rattle.cps_state.specs.Course.{begin, first_item, dropped_item, control_puts, traced, deepest};
ghost use Rattle.cps_state.specs.Code.Line.{Goes, known_answer, line_started, line_answer, line_asked, line_put, line_stood, line_filled, line_marked, line_told, line_settled};
ghost use Rattle.cps_state.specs.Code.Log.{asked_in};
ghost use Rattle.cps_state.specs.Code.Scratch.{StandsOn, statements_on, with_dropped};

use crate::flags::Flags;
use crate::item::Item;
use crate::key::{Answer, Asked, Key, Put, is_same_key};
use crate::log::{Log, LogPlace};
use crate::lookup::Lookup;
use crate::made::Made;
use crate::scratch::{Lists, Scratch};
use crate::shared::Shared;
use crate::trace::Trace;
use cps_text::Name;
use cps_text::limits::{DEEPEST, MOST_STATEMENTS};
use std::alloc::{AllocError, Global};
use std::marker::Model;
use std::mem;

/// What a line has asked, put, made and read so far, over what answers its keys. It has the memory that the line takes.
#[derive(Drop)]
pub struct Recorder<'a, L: Lookup> {
    alloc: Global,
    state: &'a L,
    log: Log,
    settled: usize,
    /// The statements of the lines before, and those of the line that are finished.
    items: Vec<Item>,
    /// How many are of the lines before.
    begun: usize,
    present: Item,
    reads: Vec<Name>,
}

impl<'a, L: Lookup> Model for Recorder<'a, L> {
    ghost use Rattle.std.specs.Prelude.{◌≤◌, take, drop, length};
    ghost use Rattle.cps_state.specs.Code.Line.{Line};
    ghost use Rattle.cps_state.specs.Code.Log.{asked_in};

    ghost Value = { Line L };

    ghost view = { λ recorder. record {
      state = recorder.state.now;
      before = take recorder.begun recorder.items.items;
      done = record {
        asks = asked_in (L.answer recorder.state.now) recorder.log.asks;
        puts = recorder.log.puts;
        settled = recorder.settled;
        finished = drop recorder.begun recorder.items.items;
        present = recorder.present;
        reads = recorder.reads.items;
      };
    } };

    ghost invariant = { λ recorder. recorder.begun ≤ length recorder.items.items };
}

impl<'a, L: Lookup> Recorder<'a, L> {
    /// Of a line that has done nothing, over a state, on a scratch behind all statements there.
    #[inline(always)]
    pub fn new(alloc: Global, scratch: &mut Scratch, state: &'a L) -> Recorder<'a, L>
        ensures { result ≡ line_started (statements_on scratch.old) state.now }
    {
        let Lists {
            keys,
            puts,
            reads,
            items,
        } = scratch.take_lists(alloc);
        Recorder {
            alloc,
            state,
            log: Log::of(alloc, state.hashing(), keys, puts),
            settled: 0,
            begun: items.len(),
            items,
            present: Item::blank(0, Shared::empty()),
            reads,
        }
    }

    /// Where its memory is from.
    pub fn alloc(&self) -> Global {
        self.alloc
    }

    /// Where the answer at a key stands. The key is asked only where nothing is known of it: it is noted, and what stands there is looked up where it is read.
    #[inline(always)]
    pub fn note(&mut self, key: Key) -> Result<LogPlace, AllocError>
        ensures asks { OnOk result (self.new ≡ line_asked L.answer self.old key) }
        ensures answer { IfOk result (λ known. known_answer self.new known ≡ line_answer L.answer self.old key) }
    {
        match self.log.find(key) {
            Some(known) => Ok(known),
            None => self.log.push_ask(key),
        }
    }

    /// The answer that was noted, None where nothing stands at its key.
    pub fn answer(&self, known: LogPlace) -> Option<&Answer>
        ensures { option_copied result ≡ known_answer self.now known }
    {
        match known {
            LogPlace::Asked(place) => match self.log.key_at(place) {
                Some(key) => self.state.ask(key),
                None => None,
            },
            LogPlace::Put(place) => self.log.put_answer(place),
        }
    }

    /// What stands at a key for the statement at hand, None where nothing does. The line doesn't ask for it.
    pub fn peek(&self, key: &Key) -> Option<&Answer>
        ensures { option_copied result ≡ line_answer L.answer self.now key.now }
    {
        match self.log.find(*key) {
            Some(known) => self.answer(known),
            None => self.state.ask(key),
        }
    }

    /// Puts an answer.
    pub fn put(&mut self, key: Key, answer: Answer) -> Result<(), AllocError>
        ensures { OnOk result (self.new ≡ line_put self.old (record { key = key; answer = answer })) }
    {
        self.log.push_put(Put { key, answer })
    }

    /// The statement that began last has its place in a block.
    pub fn stand(&mut self, block: Option<Name>)
        ensures { self.new ≡ line_stood self.old block }
    {
        self.present.stand_in(block);
    }

    /// What the statement that began last made.
    #[inline(always)]
    pub fn fill(&mut self, made: Made)
        ensures { self.new ≡ line_filled self.old made }
    {
        self.present.fill(made);
    }

    /// More flags of the statement that began last.
    pub fn mark(&mut self, flags: Flags)
        ensures { self.new ≡ line_marked self.old flags }
    {
        self.present.mark(flags);
    }

    /// Tells a symbol that is read.
    pub fn tell(&mut self, name: Name) -> Result<(), AllocError>
        ensures { OnOk result (self.new ≡ line_told self.old name) }
    {
        self.reads.push(name)?;
        Ok(())
    }

    /// The line's own statement has put all that it puts.
    pub fn settle(&mut self)
        ensures { self.new ≡ line_settled self.old }
    {
        self.settled = self.log.put_count();
    }

    /// Begins a statement of an expansion, unless it is too much: then it answers false.
    pub fn begin(&mut self, depth: u8, text: Shared<u8>) -> Result<bool, AllocError>
        ensures begun { IfOk result (λ complete. Goes (begin depth text) complete L.answer self.old self.new) }
        ensures deep { IfOk result (λ complete. IsTrue complete → depth ≤ deepest) }
    {
        if depth > DEEPEST || self.items.len() - self.begun >= MOST_STATEMENTS {
            return Ok(false);
        }
        let Ok(_) = self.items.reserve(1) else {
            drop(text);
            return Err(AllocError);
        };
        let next = Item::blank(depth, text);
        let last = mem::replace(&mut self.present, next);
        self.items.push_reserved(last);
        Ok(true)
    }

    /// What the line did, in lists without room for more, to be kept. It is dropped where not all of it was done.
    pub fn into_trace(self, complete: bool, scratch: &mut Scratch) -> Result<Trace, AllocError>
        ensures { IfOk result (λ trace. trace ≡ traced (self.entry.done, complete)) }
    {
        let alloc = self.alloc;
        let state = self.state;
        self.write(complete, scratch)?;
        let asks = asked_in(alloc, state, scratch.keys())?;
        scratch.take_trace(alloc, asks)
    }

    /// Writes on the scratch what the line did. It is dropped where not all of it was done.
    #[inline(always)]
    pub fn write(self, complete: bool, scratch: &mut Scratch) -> Result<(), AllocError>
        ensures line { OnOk result (StandsOn scratch.new self.entry.before (traced (self.entry.done, complete))) }
        ensures keys { OnOk result (asked_in (L.answer self.entry.state) scratch.new.keys ≡ self.entry.done.asks) }
    {
        let Recorder {
            alloc,
            state: _,
            log,
            settled,
            items,
            begun,
            present,
            reads,
        } = self;
        let (keys, puts) = log.into_parts();
        let mut lists = Lists {
            keys,
            puts,
            reads,
            items,
        };
        if complete {
            let Ok(_) = lists.items.reserve(1) else {
                drop(present);
                return Err(AllocError);
            };
            lists.items.push_reserved(present);
        } else {
            lists.puts.truncate(settled);
            drop_line(alloc, &mut lists, begun, &present)?;
        }
        scratch.give_lists(lists, begun);
        Ok(())
    }
}

/// Keys with what stands there.
fn asked_in<L: Lookup>(alloc: Global, state: &L, keys: &[Key]) -> Result<Vec<Asked>, AllocError>
    ensures { IfOk result (λ asks. asks.items ≡ asked_in (L.answer state.now) keys.now) }
{
    let mut asks = Vec::with_capacity(alloc, keys.len())?;
    for key in keys {
        let answer = shared_answer(state.ask(key))?;
        asks.push(Asked { key: *key, answer })?;
    }
    Ok(asks)
}

fn shared_answer(answer: Option<&Answer>) -> Result<Option<Answer>, AllocError>
    ensures { IfOk result (λ shared. shared ≡ option_copied answer.entry) }
{
    match answer {
        Some(answer) => Ok(Some(answer.share()?)),
        None => Ok(None),
    }
}

/// The statement that began first, behind so many of the lines before.
fn first_item<'a>(items: &'a [Item], begun: usize, present: &'a Item) -> &'a Item
    ensures { result.now ≡ first_item (drop begun items.now) present.now }
{
    match items.get(begun) {
        Some(item) => item,
        None => present,
    }
}

/// Leaves of a line that is dropped what its own statement put at the control, and that statement.
#[cold]
#[inline(never)]
fn drop_line(
    alloc: Global,
    lists: &mut Lists,
    begun: usize,
    present: &Item,
) -> Result<(), AllocError>
    requires { begun ≤ length lists.old.items.items }
    ensures keys { OnOk result (lists.new.keys.items ≡ lists.old.keys.items) }
    ensures puts { OnOk result (lists.new.puts.items ≡ control_puts lists.old.puts.items) }
    ensures reads { OnOk result (lists.new.reads.items ≡ []) }
    ensures items { OnOk result (lists.new.items.items ≡ with_dropped begun lists.old.items.items present.now) }
{
    let own = dropped_item(first_item(&lists.items, begun, present));
    lists.items.truncate(begun);
    lists.items.push(own)?;
    lists.puts = control_puts(alloc, &lists.puts)?;
    lists.reads.clear();
    Ok(())
}

/// The statement of a line that is dropped.
fn dropped_item(own: &Item) -> Item
    ensures { result ≡ dropped_item own.now }
{
    let mut flags = Flags::none();
    flags.structure = true;
    Item {
        depth: 0,
        text: Shared::empty(),
        stand: own.stand,
        made: Made::nothing(flags),
    }
}

/// The puts at the control.
fn control_puts(alloc: Global, puts: &[Put]) -> Result<Vec<Put>, AllocError>
    ensures { IfOk result (λ kept. kept.items ≡ control_puts puts.now) }
{
    let mut kept = Vec::new(alloc);
    for put in puts {
        if is_same_key(&put.key, &Key::Control) {
            let answer = put.answer.share()?;
            kept.push(Put {
                key: put.key,
                answer,
            })?;
        }
    }
    Ok(kept)
}
