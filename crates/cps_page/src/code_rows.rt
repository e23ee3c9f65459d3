//! The rows of the listing that have codes, by their addresses.

use cps_list::View;
use std::alloc::{AllocError, Global};

/// Addresses from here on are no word's.
const MOST_ADDRESSES: u64 = 1 << 18;

/// A row that has a code, as one of those at an address.
#[derive(Clone, Copy)]
pub struct CodeRow {
    /// The number of its line, from 1.
    pub line: u32,
    /// How many rows of the line stand before the first of its statement.
    pub statement: u32,
    /// Whether it is a later one of its statement.
    pub is_later: bool,
    /// How many of all rows stand before the next at its address; behind the last comes the first.
    next: u32,
}

/// The rows of a source that have codes. Of several of one statement at an address the first.
#[derive(Drop)]
pub struct CodeRows {
    rows: Vec<CodeRow>,
    /// By each address one more than how many rows stand before the last one there, 0 where there is none.
    last: Vec<u32>,
}

impl CodeRows {
    /// Those of a source.
    pub fn of<V: View>(alloc: Global, view: &V) -> Result<CodeRows, AllocError> {
        let mut rows = CodeRows {
            rows: Vec::new(alloc),
            last: Vec::new(alloc),
        };
        for before in 0..view.count() {
            rows.take_line(view, before.saturating_add(1))?;
        }
        Ok(rows)
    }

    fn take_line<V: View>(&mut self, view: &V, number: u32) -> Result<(), AllocError> {
        let Some(outcome) = view.outcome(number) else {
            return Ok(());
        };
        let mut statement: u32 = 0;
        let mut before: u32 = 0;
        for row in outcome.rows() {
            if !row.is_later {
                statement = before;
            }
            if let (Some(address), Some(_)) = (row.location, row.code.digits()) {
                let row = CodeRow {
                    line: number,
                    statement,
                    is_later: row.is_later,
                    next: 0,
                };
                self.take(address, row)?;
            }
            before = before.saturating_add(1);
        }
        Ok(())
    }

    /// Takes a row at an address, unless the last one there is of the same statement.
    fn take(&mut self, address: u64, row: CodeRow) -> Result<(), AllocError> {
        if address >= MOST_ADDRESSES {
            return Ok(());
        }
        self.reach(address as usize)?;
        match self.last_at(address as usize) {
            Some(last) if shares_statement(self.row(last), row) => Ok(()),
            last => self.add(address as usize, row, last),
        }
    }

    /// Makes room for a row at an address.
    fn reach(&mut self, address: usize) -> Result<(), AllocError> {
        let room = address.saturating_add(1);
        if self.last.len() < room {
            self.last.resize(room, 0)?;
        }
        Ok(())
    }

    /// How many rows stand before the last one at an address.
    fn last_at(&self, address: usize) -> Option<usize> {
        match self.last.get(address) {
            Some(last) if *last > 0 => Some((*last as usize).saturating_sub(1)),
            _ => None,
        }
    }

    /// Adds a row at an address, behind the last one there.
    fn add(&mut self, address: usize, row: CodeRow, last: Option<usize>) -> Result<(), AllocError> {
        let here = u32::try_from(self.rows.len()).unwrap_or(u32::MAX);
        let mut added = row;
        added.next = match last {
            Some(last) => self.row(last).next,
            None => here,
        };
        self.rows.push(added)?;
        if let Some(last) = last {
            if let Some(before) = self.rows.get_mut(last) {
                before.next = here;
            }
        }
        if let Some(slot) = self.last.get_mut(address) {
            *slot = here.saturating_add(1);
        }
        Ok(())
    }

    /// The row behind so many.
    pub fn row(&self, before: usize) -> CodeRow {
        match self.rows.get(before) {
            Some(row) => *row,
            None => CodeRow {
                line: 0,
                statement: 0,
                is_later: false,
                next: 0,
            },
        }
    }

    /// How many rows stand before the first one at an address, or before the one there behind another.
    pub fn next_at(&self, address: usize, passed: Option<usize>) -> Option<usize> {
        let last = self.last_at(address)?;
        match passed {
            Some(passed) if passed == last => None,
            Some(passed) => Some(self.row(passed).next as usize),
            None => Some(self.row(last).next as usize),
        }
    }

    /// The number of the line of the first row at an address, 0 where there is none.
    pub fn line_at(&self, address: usize) -> u32 {
        match self.next_at(address, None) {
            Some(first) => self.row(first).line,
            None => 0,
        }
    }

    /// How many rows there are.
    pub fn count(&self) -> usize {
        self.rows.len()
    }
}

/// Whether two rows are of one statement.
fn shares_statement(row: CodeRow, other: CodeRow) -> bool {
    row.line == other.line && row.statement == other.statement
}
