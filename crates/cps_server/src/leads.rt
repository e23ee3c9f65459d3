//! The lines to which marks lead.

use crate::document::Document;
use crate::lead::{Lead, mode_before};
use crate::mark::Mark;
use crate::names::{NameSet, no_names};
use cps_list::View;
use cps_state::{Hashing, Key, Mode, Trace};
use cps_text::Name;
use std::alloc::{AllocError, Global};
use std::collections::HashMap;

/// The line to which each of some marks leads, from 0; these stand in the order of their lines. It takes time for each line above the last of them, and none
/// where no mark leads to a definition or a body.
pub fn lines_led_to(
    alloc: Global,
    document: &Document,
    marks: &[Mark],
) -> Result<Vec<Option<u32>>, AllocError> {
    let mut search = LeadSearch::new(alloc, document);
    search.want(marks)?;
    let traces = document.session().traces();
    let mut lines = Vec::new(alloc);
    for mark in marks {
        search.pass(traces, mark.line)?;
        lines.push(search.line_of(mark))?;
    }
    Ok(lines)
}

/// The lines above one that first give symbols their values, and those in which bodies of macros begin.
#[derive(Drop)]
struct LeadSearch {
    /// The symbols and the macros that are looked for.
    wanted: NameSet,
    /// The first line that gives a symbol its value, from 0.
    symbols: HashMap<Name, u32, Hashing>,
    /// The first line of a macro's body, from 0.
    macros: HashMap<Name, u32, Hashing>,
    /// How many lines stand above.
    passed: u32,
}

impl LeadSearch {
    fn new(alloc: Global, document: &Document) -> LeadSearch {
        let hashing = document.session().finals().hashing();
        LeadSearch {
            wanted: no_names(alloc, document),
            symbols: HashMap::with_hasher(alloc, hashing),
            macros: HashMap::with_hasher(alloc, hashing),
            passed: 0,
        }
    }

    /// Looks for what marks lead to.
    fn want(&mut self, marks: &[Mark]) -> Result<(), AllocError> {
        for mark in marks {
            match mark.lead {
                Lead::Definition(name) | Lead::Body(name, _) => {
                    self.wanted.insert(name)?;
                }
                Lead::Nowhere | Lead::Opener(_) | Lead::Repeated(_) => {}
            }
        }
        Ok(())
    }

    /// Looks at the lines above one.
    fn pass(&mut self, traces: &[Trace], line: u32) -> Result<(), AllocError> {
        if self.wanted.is_empty() {
            return Ok(());
        }
        for number in self.passed..line {
            if let Some(trace) = traces.get(number as usize) {
                self.pass_line(number, trace)?;
            }
        }
        self.passed = self.passed.max(line);
        Ok(())
    }

    fn pass_line(&mut self, number: u32, trace: &Trace) -> Result<(), AllocError> {
        for put in trace.puts() {
            match put.key {
                Key::Label(name) | Key::Setting(name) => self.pass_symbol(number, name)?,
                Key::Macro(name) => self.pass_macro(number, name, trace)?,
                _ => {}
            }
        }
        Ok(())
    }

    fn pass_symbol(&mut self, number: u32, name: Name) -> Result<(), AllocError> {
        if self.wanted.contains(&name) && self.symbols.get(&name).is_none() {
            self.symbols.insert(name, number)?;
        }
        Ok(())
    }

    /// A line that ends the body of a macro.
    fn pass_macro(&mut self, number: u32, name: Name, trace: &Trace) -> Result<(), AllocError> {
        if !self.wanted.contains(&name) {
            return Ok(());
        }
        if let Some(Mode::KeepMacro(body)) = mode_before(trace)? {
            self.macros
                .insert(name, number.saturating_sub(body.kept.lines))?;
        }
        Ok(())
    }

    /// The line to which a mark leads. None: to none, or to its own.
    fn line_of(&self, mark: &Mark) -> Option<u32> {
        let line = match mark.lead {
            Lead::Nowhere => None,
            Lead::Opener(above) | Lead::Repeated(above) => mark.line.checked_sub(above),
            Lead::Definition(name) => self.symbols.get(&name).copied(),
            Lead::Body(name, above) => {
                let first = self.macros.get(&name).copied()?;
                first.checked_add(above)
            }
        }?;
        if line == mark.line { None } else { Some(line) }
    }
}
