//! The bodies that a source writes.

use crate::macro_names::MacroName;
use crate::macro_text::{MacroText, list_runs};
use crate::meaning::Meaning;
use crate::operands::{list_operands, tail_of};
use crate::role::Role;
use crate::stretch::Stretch;
use crate::teller::Teller;
use cps_cause::Card;
use cps_expr::{ExprFault, read_locals};
use cps_state::Macro;
use cps_text::Name;
use std::alloc::{AllocError, Global};
use std::collections::BTreeMap;

/// What becomes of a line of a source.
#[derive(Clone, Copy)]
struct BodyLine {
    /// Whether it is kept for a body.
    is_kept: bool,
    /// Whether something opened it.
    is_opened: bool,
    /// The place of its macro among all; None: it is in no macro's body.
    named: Option<usize>,
}

/// The bodies that a source writes, as far as lines are looked at.
#[derive(Drop)]
pub struct Bodies {
    alloc: Global,
    lines: Vec<BodyLine>,
    macros: Vec<MacroText>,
    /// By a name the place of the last macro that has it.
    index: BTreeMap<Name, usize>,
}

impl Bodies {
    /// Of a source of so many lines, before the first.
    pub fn new(alloc: Global, count: usize) -> Result<Bodies, AllocError> {
        let mut lines = Vec::with_capacity(alloc, count)?;
        for _line in 0..count {
            lines.push(BodyLine {
                is_kept: false,
                is_opened: false,
                named: None,
            })?;
        }
        Ok(Bodies {
            alloc,
            lines,
            macros: Vec::new(alloc),
            index: BTreeMap::new(alloc),
        })
    }

    fn line_mut(&mut self, line: u32) -> Option<&mut BodyLine> {
        self.lines.get_mut((line as usize).wrapping_sub(1))
    }

    /// A line is kept.
    pub fn keep(&mut self, line: u32) {
        if let Some(place) = self.line_mut(line) {
            place.is_kept = true;
        }
    }

    /// A line is opened.
    pub fn mark_opened(&mut self, line: u32) {
        if let Some(place) = self.line_mut(line) {
            place.is_opened = true;
        }
    }

    /// The LOCAL lines of a macro are opened.
    pub fn mark_locals(&mut self, name: Name) {
        let Some(at) = self.index.get(&name).copied() else {
            return;
        };
        let Some(named) = self.macros.get(at) else {
            return;
        };
        for line in named.lines.iter().take(named.local_lines) {
            if let Some(place) = self.lines.get_mut((*line as usize).wrapping_sub(1)) {
                place.is_opened = true;
            }
        }
    }

    /// The macro of a name.
    pub fn named(&self, name: Name) -> Option<&MacroText> {
        let at = *self.index.get(&name)?;
        self.macros.get(at)
    }

    /// Whether a line is kept and nothing opened it.
    pub fn is_unopened(&self, line: u32) -> bool {
        match self.lines.get((line as usize).wrapping_sub(1)) {
            Some(place) => place.is_kept && !place.is_opened,
            None => false,
        }
    }

    /// The macro in whose body a line stands.
    pub fn macro_around(&self, line: u32) -> Option<&MacroText> {
        let at = self.lines.get((line as usize).wrapping_sub(1))?.named?;
        self.macros.get(at)
    }

    /// A macro has its body: tells the names that it writes.
    pub fn define(
        &mut self,
        teller: &mut Teller<'_>,
        name: Name,
        named: &Macro,
        text: MacroText,
    ) -> Result<(), AllocError> {
        let mut text = text;
        let at = self.macros.len();
        for line in text.lines.as_slice() {
            teller.set_macro(*line, text.line);
            if let Some(place) = self.line_mut(*line) {
                place.named = Some(at);
            }
        }
        add_parameters(self.alloc, teller, named, &mut text)?;
        add_locals(self.alloc, teller, &mut text)?;
        tell_lines(self.alloc, teller, &mut text)?;
        self.macros.push(text)?;
        self.index.insert(name, at)?;
        Ok(())
    }
}

/// The parameters of a macro, with the operands of its MACRO.
fn add_parameters(
    alloc: Global,
    teller: &Teller<'_>,
    named: &Macro,
    text: &mut MacroText,
) -> Result<(), AllocError> {
    let card = Card::of(teller.text_of(text.line));
    let operands = list_operands(alloc, tail_of(&card))?;
    for (at, name) in named.parameters.as_slice().iter().enumerate() {
        let defined = match operands.get(at) {
            Some(part) => Stretch::behind(text.line, part.before, part.text.len()),
            None => text.defined,
        };
        text.add(MacroName {
            name: *name,
            is_local: false,
            defined,
        })?;
    }
    Ok(())
}

/// The LOCAL lines of a macro.
fn add_locals(
    alloc: Global,
    teller: &mut Teller<'_>,
    text: &mut MacroText,
) -> Result<(), AllocError> {
    for at in 0..text.local_lines {
        if let Some(line) = text.lines.get(at).copied() {
            add_local_line(alloc, teller, text, line)?;
        }
    }
    Ok(())
}

/// The names of a LOCAL line, unless one of them is taken.
fn add_local_line(
    alloc: Global,
    teller: &mut Teller<'_>,
    text: &mut MacroText,
    line: u32,
) -> Result<(), AllocError> {
    let card = Card::of(teller.text_of(line));
    let is_read = are_new(alloc, text, card.tail())?;
    for part in list_operands(alloc, tail_of(&card))?.as_slice() {
        let Some(name) = Name::read(part.text) else {
            continue;
        };
        let stretch = Stretch::behind(line, part.before, part.text.len());
        if is_read {
            text.add(MacroName {
                name,
                is_local: true,
                defined: stretch,
            })?;
        }
        if let Some((_, known)) = text.named(part.text) {
            let role = if is_read {
                Role::Defines
            } else {
                Role::Clashes
            };
            teller.tell_at(stretch, meaning_of(text.line, known), role, None)?;
        }
    }
    Ok(())
}

/// Whether the operands of a LOCAL line are names of which none is taken.
fn are_new(alloc: Global, text: &MacroText, tail: &[u8]) -> Result<bool, AllocError> {
    match read_locals(alloc, tail) {
        Ok(names) => Ok(names.as_slice().iter().all(|name| !text.is_taken(*name))),
        Err(ExprFault::Unreadable) => Ok(false),
        Err(ExprFault::Memory) => Err(AllocError),
    }
}

/// The lines behind the LOCAL lines, where they write names of the macro.
fn tell_lines(
    alloc: Global,
    teller: &mut Teller<'_>,
    text: &mut MacroText,
) -> Result<(), AllocError> {
    for at in text.local_lines..text.lines.len() {
        if let Some(line) = text.lines.get(at).copied() {
            tell_line(alloc, teller, text, line)?;
        }
    }
    Ok(())
}

fn tell_line(
    alloc: Global,
    teller: &mut Teller<'_>,
    text: &mut MacroText,
    line: u32,
) -> Result<(), AllocError> {
    for run in list_runs(alloc, teller.text_of(line))?.as_slice() {
        if let Some((at, name)) = text.named(run.text) {
            let stretch = Stretch::behind(line, run.before, run.text.len());
            let meaning = meaning_of(text.line, name);
            teller.tell_at(stretch, meaning, Role::Reads, Some(name.defined))?;
            text.write(at);
        }
    }
    Ok(())
}

fn meaning_of(line: u32, name: MacroName) -> Meaning {
    if name.is_local {
        Meaning::Local(line, name.name)
    } else {
        Meaning::Parameter(line, name.name)
    }
}
