//! Lines that part or close others, each with the line that opened these.

use std::alloc::{AllocError, Global};

/// A line that parts or closes lines, and the one that opened them. Both count from 0.
#[derive(Clone, Copy)]
pub struct LinePair {
    pub opener: u32,
    pub line: u32,
}

/// The line that opened what a line parts or closes; else the line itself.
pub fn opener_of(pairs: &[LinePair], line: u32) -> u32 {
    for pair in pairs {
        if pair.line == line {
            return pair.opener;
        }
    }
    line
}

/// The lines of a source that part or close others, as far as lines are looked at.
#[derive(Drop)]
pub struct LinePairs {
    /// The line of the first IDENT that is assembled.
    program: Option<u32>,
    /// In the order of the lines that close.
    list: Vec<LinePair>,
}

impl LinePairs {
    /// Before the first line.
    pub fn new(alloc: Global) -> LinePairs {
        LinePairs {
            program: None,
            list: Vec::new(alloc),
        }
    }

    pub fn into_list(self) -> Vec<LinePair> {
        let LinePairs { program: _, list } = self;
        list
    }

    /// A line parts or closes what another opened.
    pub fn push(&mut self, opener: u32, line: u32) -> Result<(), AllocError> {
        self.list.push(LinePair { opener, line })?;
        Ok(())
    }

    /// A line begins a program, unless one has begun.
    pub fn begin_program(&mut self, line: u32) {
        if self.program.is_none() {
            self.program = Some(line);
        }
    }

    /// A line ends the program.
    pub fn end_program(&mut self, line: u32) -> Result<(), AllocError> {
        match self.program {
            Some(opener) => self.push(opener, line),
            None => Ok(()),
        }
    }
}
