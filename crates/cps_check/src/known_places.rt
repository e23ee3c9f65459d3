//! In which lines stands what words speak of.

use crate::notes::{Note, Remark};
use cps_cause::{Card, Origin, Places, line_of_opener, opener_of};
use cps_final::LineSymbols;
use cps_state::{Hashing, Key, Phase, Put, Trace, control_of};
use cps_text::{Line, Name};
use std::alloc::{AllocError, Global};
use std::collections::HashMap;

/// A symbol that has a value.
#[derive(Clone, Copy)]
struct KnownSymbol {
    /// The line that first gave it one.
    line: u32,
    /// Whether a line reads it.
    is_read: bool,
}

/// In which lines of a source symbols have their values, and which are read; and, up to the line at hand, which lines opened what is open,
/// ended the head and ended the program.
#[derive(Drop)]
pub struct KnownPlaces<'a> {
    symbols: HashMap<Name, KnownSymbol, Hashing>,
    /// In which line the definition of each macro ended last.
    macros: HashMap<Name, u32, Hashing>,
    /// What each line does.
    traces: &'a [Trace],
    /// How many lines were passed.
    passed: usize,
    body: Option<u32>,
    end: Option<u32>,
    /// Whether `takes_end` told that the program has ended.
    is_end_taken: bool,
    /// Whether no line ends the program, and nothing is open behind all.
    lacks_end: bool,
}

impl Places for KnownPlaces<'_> {
    fn line_of_symbol(&self, name: Name) -> Option<u32> {
        match self.symbols.get(&name) {
            Some(known) => Some(known.line),
            None => None,
        }
    }

    fn line_of_opening(&self) -> Option<u32> {
        let above = self.passed.min(self.traces.len());
        line_of_opener(&self.traces[..above])
    }

    fn line_of_end(&self) -> Option<u32> {
        self.end
    }

    fn line_of_body(&self) -> Option<u32> {
        self.body
    }

    fn line_of_origin(&self, origin: Origin) -> Option<u32> {
        let number = u32::try_from(self.passed.saturating_add(1)).ok()?;
        let defined = match origin {
            Origin::Macro(name, _) => self.macros.get(&name).copied(),
            _ => None,
        };
        origin.line_of(number, defined, self.traces)
    }
}

impl<'a> KnownPlaces<'a> {
    /// Before the first of the lines for which these cards stand, and which do this.
    pub fn of(
        alloc: Global,
        hashing: Hashing,
        cards: &[Line],
        traces: &'a [Trace],
    ) -> Result<KnownPlaces<'a>, AllocError> {
        let mut symbols = HashMap::with_hasher(alloc, hashing);
        let mut number: u32 = 0;
        for trace in traces {
            number = number.saturating_add(1);
            note_symbols(&mut symbols, number, trace.puts())?;
        }
        let mut of_line = LineSymbols::new(alloc, hashing);
        for trace in traces {
            of_line.replace(trace.puts(), trace.reads(), trace.items())?;
            note_readings(&mut symbols, of_line.read())?;
        }
        if let Some(name) = start_named(cards, traces) {
            note_reading(&mut symbols, name)?;
        }
        Ok(KnownPlaces {
            symbols,
            macros: HashMap::with_hasher(alloc, hashing),
            traces,
            passed: 0,
            body: None,
            end: None,
            is_end_taken: false,
            lacks_end: opener_of(traces).is_none()
                && !traces.iter().any(|trace| ends_program(trace)),
        })
    }

    /// Those of the notes of the line of this number that other lines bear out. What stands behind the end of the program is noted once.
    pub fn borne_out(
        &mut self,
        alloc: Global,
        number: u32,
        notes: &[Note],
    ) -> Result<Vec<Note>, AllocError> {
        let mut told = Vec::new(alloc);
        for note in notes {
            if self.bears_out(number, note.remark) {
                told.push(*note)?;
            }
        }
        Ok(told)
    }

    fn bears_out(&mut self, number: u32, remark: Remark) -> bool {
        match remark {
            Remark::BehindEnd => self.takes_end(),
            Remark::NoEnd => self.lacks_end,
            Remark::Unread(name) => self.is_unread_of(name, number),
            _ => true,
        }
    }

    /// Whether the line of this number is the first that gives the symbol a value, and no line reads it.
    pub fn is_unread_of(&self, name: Name, number: u32) -> bool {
        match self.symbols.get(&name) {
            Some(known) => known.line == number && !known.is_read,
            None => false,
        }
    }

    /// Whether the program has ended, once: asked again, it says no.
    fn takes_end(&mut self) -> bool {
        let takes = self.end.is_some() && !self.is_end_taken;
        self.is_end_taken = self.end.is_some();
        takes
    }

    /// Behind the line of this number, which does this.
    pub fn pass(&mut self, number: u32, trace: &Trace) -> Result<(), AllocError> {
        for put in trace.puts() {
            match put.key {
                Key::Control => self.pass_phase(number, control_of(Some(&put.answer)).phase),
                Key::Macro(name) => {
                    self.macros.insert(name, number)?;
                }
                _ => {}
            }
        }
        self.passed = number as usize;
        Ok(())
    }

    fn pass_phase(&mut self, number: u32, phase: Phase) {
        match phase {
            Phase::Head(_) => {}
            Phase::Body => note_first(&mut self.body, number),
            Phase::AfterEnd => note_first(&mut self.end, number),
        }
    }
}

/// The symbol that END names, where execution begins.
fn start_named(cards: &[Line], traces: &[Trace]) -> Option<Name> {
    let end = traces.iter().position(|trace| ends_program(trace))?;
    start_of(cards.get(end)?.bytes())
}

/// The symbol that a line names, if it ends the program: where execution begins.
pub fn start_of(line: &[u8]) -> Option<Name> {
    Name::read(first_operand(Card::of(line).tail()))
}

/// Whether a line that does this ends the program.
pub fn ends_program(trace: &Trace) -> bool {
    for put in trace.puts() {
        if let Key::Control = put.key {
            if control_of(Some(&put.answer)).phase == Phase::AfterEnd {
                return true;
            }
        }
    }
    false
}

/// Operands up to the first comma or blank.
fn first_operand(operands: &[u8]) -> &[u8] {
    match operands
        .iter()
        .position(|byte| matches!(*byte, b',' | b' '))
    {
        Some(end) => operands.get(..end).unwrap_or(operands),
        None => operands,
    }
}

/// Notes a line, unless one is known.
fn note_first(line: &mut Option<u32>, number: u32) {
    if line.is_none() {
        *line = Some(number);
    }
}

/// Notes the symbols to which a line gives their first values.
fn note_symbols(
    symbols: &mut HashMap<Name, KnownSymbol, Hashing>,
    number: u32,
    puts: &[Put],
) -> Result<(), AllocError> {
    for put in puts {
        match put.key {
            Key::Label(name) => note_symbol(symbols, number, name)?,
            Key::Setting(name) => note_symbol(symbols, number, name)?,
            _ => {}
        }
    }
    Ok(())
}

fn note_symbol(
    symbols: &mut HashMap<Name, KnownSymbol, Hashing>,
    number: u32,
    name: Name,
) -> Result<(), AllocError> {
    if symbols.get(&name).is_none() {
        let known = KnownSymbol {
            line: number,
            is_read: false,
        };
        symbols.insert(name, known)?;
    }
    Ok(())
}

/// Notes that symbols are read.
fn note_readings(
    symbols: &mut HashMap<Name, KnownSymbol, Hashing>,
    names: &[Name],
) -> Result<(), AllocError> {
    for name in names {
        note_reading(symbols, *name)?;
    }
    Ok(())
}

fn note_reading(
    symbols: &mut HashMap<Name, KnownSymbol, Hashing>,
    name: Name,
) -> Result<(), AllocError> {
    let line = match symbols.get(&name) {
        Some(known) if !known.is_read => known.line,
        _ => return Ok(()),
    };
    let known = KnownSymbol {
        line,
        is_read: true,
    };
    symbols.insert(name, known)?;
    Ok(())
}
