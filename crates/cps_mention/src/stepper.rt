//! Statements, each stepped in the state that those before it left.

use crate::macro_text::MacroText;
use crate::statement::{StatementDeed, deed_on};
use crate::treatment::Treatment;
use cps_final::LineSymbols;
use cps_pass::{Body, Opened, Scope, insert_all, name_all, step_statement};
use cps_state::{Answer, Hashing, Key, Macro, Put, Recorder, Scratch, Shared, State, Trace};
use cps_text::{Name, Substitutes};
use std::alloc::{AllocError, Global};

/// Steps statements, each in the state that those before it left.
#[derive(Drop)]
pub struct Stepper {
    alloc: Global,
    state: State,
    scratch: Scratch,
    symbols: LineSymbols,
}

impl Stepper {
    /// Before the first. Takes no memory yet.
    pub fn new(alloc: Global, hashing: Hashing) -> Stepper {
        Stepper {
            alloc,
            state: State::first(alloc, hashing),
            scratch: Scratch::new(alloc),
            symbols: LineSymbols::new(alloc, hashing),
        }
    }

    /// What is done with the next statement.
    pub fn treatment(&self, scope: &Scope) -> Result<Treatment, AllocError> {
        Treatment::in_state(&self.state, scope)
    }

    /// Steps a statement. What it did stands on the scratch then, and not in the state yet.
    pub fn step<'t>(
        &mut self,
        scope: &mut Scope,
        text: &'t [u8],
    ) -> Result<Option<Opened<'t>>, AllocError> {
        self.scratch.clear_items();
        let mut recorder = Recorder::new(self.alloc, &mut self.scratch, &self.state);
        let opened = step_statement(&mut recorder, scope, text)?;
        recorder.write(true, &mut self.scratch)?;
        self.symbols.replace(
            self.scratch.puts(),
            self.scratch.reads(),
            self.scratch.items(),
        )?;
        Ok(opened)
    }

    /// What the last statement did, which calls this macro.
    pub fn deed<'s>(&'s self, named: Option<&'s MacroText>) -> StatementDeed<'s> {
        deed_on(&self.scratch, &self.symbols, named)
    }

    /// Puts into the state what the last statement put.
    pub fn put_last(&mut self) -> Result<(), AllocError> {
        self.state.reserve(self.scratch.puts().len())?;
        self.scratch.put_into(&mut self.state);
        Ok(())
    }

    /// Puts into the state what a line put that was dropped.
    pub fn put_dropped(&mut self, trace: &Trace) -> Result<(), AllocError> {
        self.state.apply(trace)
    }

    /// Behind how many lines the last statement is kept.
    pub fn kept_behind(&self) -> Option<usize> {
        for put in self.scratch.puts() {
            if let Key::Kept(count) = put.key {
                return Some(count as usize);
            }
        }
        None
    }

    /// The macro whose body the last statement ended.
    pub fn macro_defined(&self) -> Result<Option<(Name, Macro)>, AllocError> {
        for put in self.scratch.puts() {
            if let (Key::Macro(name), Answer::Macro(named)) = (put.key, &put.answer) {
                return Ok(Some((name, named.to_macro()?)));
            }
        }
        Ok(None)
    }

    /// The lines behind the LOCAL lines of a body, with arguments and generated names.
    pub fn name_lines(&mut self, body: &Body<'_>) -> Result<Vec<Shared<u8>>, AllocError> {
        let mut known = Substitutes::of(self.alloc, &body.pairs)?;
        let lines = self.fill_in(body, &mut known);
        drop(known);
        lines
    }

    fn fill_in(
        &mut self,
        body: &Body<'_>,
        known: &mut Substitutes<'_>,
    ) -> Result<Vec<Shared<u8>>, AllocError> {
        self.scratch.clear_items();
        let mut recorder = Recorder::new(self.alloc, &mut self.scratch, &self.state);
        let _is_whole = name_all(&mut recorder, 1, body.locals.as_slice(), known)?;
        recorder.write(true, &mut self.scratch)?;
        self.put_last()?;
        insert_all(self.alloc, body.lines.as_slice(), known)
    }
}
