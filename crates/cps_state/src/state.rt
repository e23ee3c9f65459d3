//! The state of an assembly.
ghost use Rattle.std.specs.Prelude.{◌≡◌, ◌<◌, ◌≤◌, ◌+◌, true, [], OnOk, OnErr, Some as Just, length, reverse};
ghost use Rattle.cps_state.specs.Code.Exchange.{MayStand, room_of, with_answer};
ghost use Rattle.cps_state.specs.Code.KeptAnswers.{is_other};
ghost use Rattle.cps_state.specs.Keys.{first_state, with_put, overwritten};
ghost use Rattle.cps_state.specs.declared.key.Key.{Key};

use crate::answers::{first_control, first_place, value_of};
use crate::hashing::Hashing;
use crate::key::{Answer, Key, Put, share_puts};
use crate::lookup::Lookup;
use crate::other_answers::OtherAnswers;
use crate::shared::Shared;
use crate::shared_mode::SharedMode;
use crate::trace::Trace;
use cps_expr::{Names, Value};
use cps_text::Name;
use std::alloc::{AllocError, Global};
use std::mem;

/// What stands at each key between two lines. What always stands is kept apart from the rest.
#[derive(Drop)]
pub struct State {
    alloc: Global,
    control: Answer,
    nominal: Answer,
    uses: Answer,
    blocks: Answer,
    ranges: Answer,
    locals: Answer,
    others: OtherAnswers,
    /// For the answers of a line, before they are put.
    shared: Vec<Put>,
}

impl Lookup for State {
    ghost use Rattle.cps_state.specs.Code.KeptAnswers.{answers_in};
    ghost use Rattle.cps_state.specs.Code.OtherAnswers.{answer_of};

    ghost answer = { λ state. answers_in state.control state.nominal state.uses state.blocks state.ranges state.locals (answer_of state.others) };

    #[inline(always)]
    fn ask(&self, key: &Key) -> Option<&Answer> {
        match key {
            Key::Control => Some(&self.control),
            Key::Counter(None) => Some(&self.nominal),
            Key::Uses => Some(&self.uses),
            Key::Blocks => Some(&self.blocks),
            Key::Ifs => Some(&self.ranges),
            Key::Locals => Some(&self.locals),
            _ => self.others.answer_at(key),
        }
    }

    #[inline(always)]
    fn hashing(&self) -> Hashing {
        self.others.hashing()
    }
}

/// The labels, by their names.
impl Names for State {
    ghost use Rattle.cps_state.specs.Keys.{labels_of};

    ghost value = { λ state. labels_of (⟦<State as Lookup>⟧.answer state) };

    fn value_of(&self, name: Name) -> Option<Value> {
        value_of(self.ask(&Key::Label(name)))
    }
}

impl State {
    /// The state before the first line. Takes no memory yet.
    pub fn first(alloc: Global, hashing: Hashing) -> State
        ensures { ⟦<State as Lookup>⟧.answer result ≡ first_state }
    {
        State {
            alloc,
            control: Answer::Control(first_control(), SharedMode::normal()),
            nominal: Answer::Counter(first_place()),
            uses: Answer::Uses(Shared::empty()),
            blocks: Answer::Count(0),
            ranges: Answer::Ifs(Shared::empty()),
            locals: Answer::Count(0),
            others: OtherAnswers::new(alloc, hashing),
            shared: Vec::new(alloc),
        }
    }

    /// Makes room for so many keys more.
    pub fn reserve(&mut self, keys: usize) -> Result<(), AllocError>
        ensures answer { ⟦<State as Lookup>⟧.answer self.new ≡ ⟦<State as Lookup>⟧.answer self.old }
        ensures room { OnOk result (keys ≤ room_of self.new) }
    {
        self.others.reserve(keys)
    }

    /// Puts what stands at a key from now on, None where nothing does, and gives what stood there. It uses room for one key at most.
    pub fn replace(&mut self, key: Key, answer: Option<Answer>) -> Option<Answer>
        requires room { 0 < room_of self.old }
        requires stands { MayStand key answer }
        ensures old { result ≡ ⟦<State as Lookup>⟧.answer self.old key }
        ensures answer { ⟦<State as Lookup>⟧.answer self.new ≡ with_answer (⟦<State as Lookup>⟧.answer self.old) key answer }
        ensures room { room_of self.old ≤ room_of self.new + 1 }
    {
        match answer {
            Some(answer) => self.exchange(key, answer),
            None => self.others.remove(&key),
        }
    }

    /// Puts an answer, and gives what stood there.
    #[inline(always)]
    fn exchange(&mut self, key: Key, answer: Answer) -> Option<Answer>
        requires room { 0 < room_of self.old }
        ensures old { result ≡ ⟦<State as Lookup>⟧.answer self.old key }
        ensures answer { ⟦<State as Lookup>⟧.answer self.new ≡ with_answer (⟦<State as Lookup>⟧.answer self.old) key (Just answer) }
        ensures room { room_of self.old ≤ room_of self.new + 1 }
    {
        match key {
            Key::Control => Some(mem::replace(&mut self.control, answer)),
            Key::Counter(None) => Some(mem::replace(&mut self.nominal, answer)),
            Key::Uses => Some(mem::replace(&mut self.uses, answer)),
            Key::Blocks => Some(mem::replace(&mut self.blocks, answer)),
            Key::Ifs => Some(mem::replace(&mut self.ranges, answer)),
            Key::Locals => Some(mem::replace(&mut self.locals, answer)),
            key => self.others.exchange(key, answer),
        }
    }

    /// Puts the answers of a line, in their order.
    pub fn apply(&mut self, trace: &Trace) -> Result<(), AllocError>
        ensures ok { OnOk result (⟦<State as Lookup>⟧.answer self.new ≡ overwritten (⟦<State as Lookup>⟧.answer self.old) trace.now.puts) }
        ensures err { OnErr result (⟦<State as Lookup>⟧.answer self.new ≡ ⟦<State as Lookup>⟧.answer self.old) }
    {
        let mut shared = mem::replace(&mut self.shared, Vec::new(self.alloc));
        share_puts(&mut shared, trace.puts())?;
        self.others.reserve(shared.len())?;
        self.put_all(&mut shared);
        self.shared = shared;
        Ok(())
    }

    /// Puts all that a list has, from its end on, where there is room.
    pub(crate) fn put_all(&mut self, puts: &mut Vec<Put>)
        requires { length puts.old.items ≤ room_of self.old }
        ensures answer { ⟦<State as Lookup>⟧.answer self.new ≡ overwritten (⟦<State as Lookup>⟧.answer self.old) (reverse puts.old.items) }
        ensures none { puts.new.items ≡ [] }
    {
        while let Some(put) = puts.pop() {
            self.put(put);
        }
    }

    /// Puts one answer. What stood there goes by a call: an assignment here goes through all cases of an answer.
    fn put(&mut self, put: Put)
        requires { 0 < room_of self.old }
        ensures answer { ⟦<State as Lookup>⟧.answer self.new ≡ with_put (⟦<State as Lookup>⟧.answer self.old) put }
        ensures room { room_of self.old ≤ room_of self.new + 1 }
    {
        drop(self.exchange(put.key, put.answer));
    }
}
