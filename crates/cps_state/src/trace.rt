//! What a line asked, put, made and read in pass one.
ghost use Rattle.std.specs.Prelude.{◌≡◌};

use crate::item::Item;
use crate::key::{Asked, Put};
use cps_text::Name;
use std::marker::Model;

/// What a line asked, put, made and read in pass one.
#[derive(Drop)]
pub struct Trace {
    asks: Vec<Asked>,
    puts: Vec<Put>,
    items: Vec<Item>,
    reads: Vec<Name>,
}

impl Model for Trace {
    ghost use Rattle.cps_state.specs.Course.{Trace};

    ghost Value = { Trace };

    ghost view = { λ trace. record { asks = trace.asks.items; puts = trace.puts.items; items = trace.items.items; reads = trace.reads.items } };
}

impl Trace {
    pub(crate) fn new(asks: Vec<Asked>, puts: Vec<Put>, items: Vec<Item>, reads: Vec<Name>) -> Trace
        ensures { result ≡ record { asks = asks.items; puts = puts.items; items = items.items; reads = reads.items } }
    {
        Trace {
            asks,
            puts,
            items,
            reads,
        }
    }

    /// The keys that were asked, each once, with what stood there.
    pub fn asks(&self) -> &[Asked]
        ensures { result.now ≡ self.now.asks }
    {
        self.asks.as_slice()
    }

    /// The puts, in their order.
    pub fn puts(&self) -> &[Put]
        ensures { result.now ≡ self.now.puts }
    {
        self.puts.as_slice()
    }

    /// The statements, in their order.
    pub fn items(&self) -> &[Item]
        ensures { result.now ≡ self.now.items }
    {
        self.items.as_slice()
    }

    /// The symbols that were read in pass one, in their order: those of expressions that are valued there, and those of
    /// location fields that have a value already.
    pub fn reads(&self) -> &[Name]
        ensures { result.now ≡ self.now.reads }
    {
        self.reads.as_slice()
    }
}
