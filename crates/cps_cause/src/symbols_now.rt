//! What symbols stand for where a statement is read.
ghost use Rattle.std.specs.Prelude.{◌≡◌};
ghost use Rattle.cps_cause.specs.Code.SymbolsNow.{value_among};

use crate::asks::Asks;
use cps_expr::{Expr, Names, Value, Valued, is_same_name};
use cps_state::{Key, Recorder, value_of};
use cps_text::Name;
use std::alloc::AllocError;

/// A symbol and its value, None where it has none yet.
#[derive(Clone, Copy)]
pub struct SymbolNow {
    pub name: Name,
    pub value: Option<Value>,
}

/// The symbols of an expression with their values.
#[derive(Drop)]
pub struct SymbolsNow {
    symbols: Vec<SymbolNow>,
}

impl Names for SymbolsNow {
    ghost use Rattle.cps_cause.specs.Code.SymbolsNow.{value_among};

    ghost value = { λ now. value_among now.symbols.items };

    fn value_of(&self, name: Name) -> Option<Value> {
        value_among(&self.symbols, name)
    }
}

fn value_among(symbols: &[SymbolNow], name: Name) -> Option<Value>
    ensures { result ≡ value_among symbols.now name }
{
    for symbol in symbols {
        if is_same_name(symbol.name, name) {
            return symbol.value;
        }
    }
    None
}

impl SymbolsNow {
    /// Those of an expression, for the statement at hand.
    pub fn of(recorder: &Recorder<'_, Asks>, expression: &Expr) -> Result<SymbolsNow, AllocError> {
        let mut symbols = Vec::new(recorder.alloc());
        for name in expression.names() {
            let value = value_now(recorder, *name);
            symbols.push(SymbolNow { name: *name, value })?;
        }
        Ok(SymbolsNow { symbols })
    }

    /// The symbols, in the order of the expression.
    pub fn as_slice(&self) -> &[SymbolNow] {
        &self.symbols
    }

    /// What the expression gives, where `*` stands for `here`.
    pub fn value(&self, expression: &Expr, here: Value) -> Valued {
        expression.value(self, here)
    }
}

/// The value of a symbol, by SET before its label.
fn value_now(recorder: &Recorder<'_, Asks>, name: Name) -> Option<Value> {
    let label = value_of(recorder.peek(&Key::Label(name)));
    let setting = value_of(recorder.peek(&Key::Setting(name)));
    setting.or(label)
}
