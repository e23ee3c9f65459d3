//! How many lines read symbols.

use crate::noted_line::NotedLine;
use cps_final::Finals;
use cps_list::symbol_value;
use cps_state::Hashing;
use cps_text::Name;
use std::alloc::{AllocError, Global};
use std::collections::HashMap;

/// How many lines of a source read each symbol, and how many end the program.
pub struct Readers {
    /// None: nothing reads the symbol.
    counts: HashMap<Name, u32, Hashing>,
    ends: usize,
}

// Written out, so that it is proved once.
impl Drop for Readers {
    fn drop(self) {
        let Readers { counts, ends: _ } = self;
        drop(counts);
    }
}

impl Readers {
    /// Of no lines.
    pub fn new(alloc: Global, hashing: Hashing) -> Readers {
        Readers {
            counts: HashMap::with_hasher(alloc, hashing),
            ends: 0,
        }
    }

    /// Whether a line reads a symbol.
    pub fn reads(&self, name: Name) -> bool {
        self.counts.get(&name).is_some()
    }

    /// Whether a line that comes is the first to read a symbol that has a value.
    pub fn gain_by(&self, line: &NotedLine, finals: &Finals) -> bool {
        line.reads
            .iter()
            .any(|name| !self.reads(*name) && has_value(finals, *name))
    }

    /// Whether a line that goes is the last to read a symbol that has a value.
    pub fn lose_by(&self, line: &NotedLine, finals: &Finals) -> bool {
        line.reads.iter().any(|name| self.counts.get(name).copied() == Some(1)
            && has_value(finals, *name))
    }

    /// Whether a line ends the program.
    pub fn has_end(&self) -> bool {
        self.ends > 0
    }

    /// With a line more.
    pub fn add(&mut self, line: &NotedLine) -> Result<(), AllocError> {
        if line.ends_program {
            self.ends = self.ends.saturating_add(1);
        }
        for name in &line.reads {
            let count = match self.counts.get(name) {
                Some(count) => count.saturating_add(1),
                None => 1,
            };
            self.counts.insert(*name, count)?;
        }
        Ok(())
    }

    /// Without a line.
    pub fn remove(&mut self, line: &NotedLine) -> Result<(), AllocError> {
        if line.ends_program {
            self.ends = self.ends.saturating_sub(1);
        }
        for name in &line.reads {
            match self.counts.get(name).copied() {
                Some(count) if count > 1 => {
                    self.counts.insert(*name, count.saturating_sub(1))?;
                }
                _ => {
                    self.counts.remove(name);
                }
            }
        }
        Ok(())
    }
}

fn has_value(finals: &Finals, name: Name) -> bool {
    symbol_value(finals, name).is_some()
}
