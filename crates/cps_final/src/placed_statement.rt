//! Statements at their final addresses.
ghost use Rattle.std.specs.Prelude.{◌≡◌, ◌<◌, ◌^◌, pos, nat_le, IfSome};

use crate::finals::Finals;
use crate::symbols::Symbols;
use cps_expr::{Expr, Machine, Value, Valued};
use cps_state::{Item, WORD};

/// A statement at its final address: `base` is the address of its block, `here` that of the word in which it starts.
#[derive(Clone, Copy)]
pub struct PlacedStatement<'a> {
    pub item: &'a Item,
    pub finals: &'a Finals,
    pub base: u64,
    pub here: u64,
    ghost low: { base < 2 ^ 60 },
    ghost near: { here < 2 ^ 61 },
}

impl<'a> PlacedStatement<'a> {
    ghost use Rattle.cps_expr.specs.Value.{IsInRange, plain, value_in, has_undefined};
    ghost use Rattle.cps_state.specs.Machines.{limit};
    ghost use Rattle.cps_final.specs.Resolving.{resolved, view_of};
    ghost use Rattle.cps_final.specs.Known.{placed_statement};

    /// Of a statement, among final values.
    pub fn of(item: &'a Item, finals: &'a Finals) -> PlacedStatement<'a>
        ensures { view_of result ≡ placed_statement (resolved finals.now) item.now }
    {
        let base = finals.address_in(item.stand);
        let here = base + u64::from(item.made.start() / WORD);
        PlacedStatement {
            item,
            finals,
            base,
            here,
        }
    }

    /// The machine whose words the bits are.
    pub fn machine(&self) -> Machine
        ensures { result ≡ (view_of self.now).machine }
    {
        self.item.made.machine()
    }

    /// The final address of the block.
    pub fn base(&self) -> u64
        ensures base { result ≡ (view_of self.now).base }
        ensures bound { result < 2 ^ 60 }
    {
        self.base
    }

    /// The final address of the word in which the statement starts.
    pub fn here(&self) -> u64
        ensures here { result ≡ (view_of self.now).here }
        ensures bound { result < 2 ^ 61 }
    {
        self.here
    }

    /// What an expression of the statement gives.
    #[inline(always)]
    pub fn value(&self, expression: &Expr) -> Valued
        ensures value { result.value ≡ value_in (view_of self.now).known.symbols (plain (pos (view_of self.now).here)) expression.now }
        ensures undefined { result.undefined ≡ has_undefined (view_of self.now).known.symbols expression.now }
        ensures range { IfSome result.value IsInRange }
    {
        let symbols = Symbols {
            finals: self.finals,
            held: self.item.made.held(),
        };
        expression.value(&symbols, Value::plain(self.here as i64))
    }

    /// Whether a literal stands at or past the machine's words.
    pub fn is_far_literal(&self, word: u64) -> bool
        ensures { result ≡ nat_le (limit (view_of self.now).machine) ((view_of self.now).known.literals word) }
    {
        self.finals.is_far_literal(self.machine(), word)
    }

    /// The address of a literal; a word that is none counts as at 0.
    pub fn literal_address(&self, word: u64) -> u64
        ensures address { result ≡ (view_of self.now).known.literals word }
        ensures bound { result < 2 ^ 60 }
    {
        self.finals.literal_address(word)
    }
}
