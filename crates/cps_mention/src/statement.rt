//! What a statement does with the names that its fields write.

use crate::definitions::Definitions;
use crate::macro_text::MacroText;
use crate::meaning::Meaning;
use crate::operands::{
    defines_symbol, field, list_arguments, list_elements, list_operands, push_all, tail_of,
};
use crate::placed_text::PlacedText;
use crate::role::Role;
use crate::statement_text::StatementText;
use crate::stretch::Stretch;
use crate::teller::{Kind, Teller, Telling};
use crate::told::Origin;
use cps_cause::Card;
use cps_code::is_builtin;
use cps_expr::Operation;
use cps_final::LineSymbols;
use cps_state::{Answer, Item, Key, Mode, Put, Scratch};
use cps_text::{Fields, Name};
use std::alloc::{AllocError, Global};

/// What a statement did.
#[derive(Clone, Copy)]
pub struct StatementDeed<'a> {
    pub puts: &'a [Put],
    /// The symbols whose values it took as it was read.
    pub reads_now: &'a [Name],
    /// What it made; None: nothing.
    pub item: Option<&'a Item>,
    /// The symbols that it defines, and those that it reads, now or later.
    pub symbols: &'a LineSymbols,
    /// The macro that it calls.
    pub named: Option<&'a MacroText>,
}

/// A statement of which is told what it does with names.
#[derive(Clone, Copy)]
pub struct ToldStatement<'a> {
    pub text: StatementText<'a>,
    pub card: Card<'a>,
    pub deed: StatementDeed<'a>,
}

impl<'a> ToldStatement<'a> {
    fn operation(&self) -> Option<Operation> {
        Operation::named(self.card.operation_text())
    }

    fn location(&self) -> PlacedText<'a> {
        field(&self.card, self.card.location)
    }

    /// Tells what it does. None of it where it is no statement.
    pub fn tell(
        &self,
        alloc: Global,
        teller: &mut Teller<'_>,
        definitions: &mut Definitions,
    ) -> Result<(), AllocError> {
        match self.card.fields {
            Fields::Statement(_) => {}
            _ => return Ok(()),
        }
        for part in list_elements(alloc, &self.card)?.as_slice() {
            self.tell_read(teller, definitions, *part)?;
        }
        match self.operation() {
            Some(Operation::Use) => self.tell_block(alloc, teller, definitions)?,
            Some(Operation::Ident) => self.tell_program(alloc, teller)?,
            Some(Operation::Macro) => self.tell_macro(alloc, teller)?,
            None => self.tell_call(alloc, teller)?,
            Some(_) => {}
        }
        self.tell_location(teller, definitions)
    }

    /// A part of its operands that may write a symbol.
    fn tell_read(
        &self,
        teller: &mut Teller<'_>,
        definitions: &Definitions,
        part: PlacedText<'_>,
    ) -> Result<(), AllocError> {
        let Some(name) = Name::read(part.text) else {
            return Ok(());
        };
        let is_done = self.deed.symbols.read().contains(&name);
        let from = if self.deed.reads_now.contains(&name) {
            definitions.of_value(name)
        } else if is_done {
            Some(definitions.of_later_value(name))
        } else {
            None
        };
        teller.tell(
            self.text,
            part,
            Telling {
                kind: Kind::Symbol,
                role: Role::Reads,
                is_done,
                from,
            },
        )
    }

    /// The symbol of its location field.
    fn tell_location(
        &self,
        teller: &mut Teller<'_>,
        definitions: &mut Definitions,
    ) -> Result<(), AllocError> {
        let part = self.location();
        let Some(name) = Name::read(part.text) else {
            return Ok(());
        };
        if !defines_symbol(self.card.operation_text()) {
            return Ok(());
        }
        let is_defined = self.deed.symbols.defined().contains(&name);
        let clashes = self.is_twice() && !is_defined;
        teller.tell(
            self.text,
            part,
            Telling {
                kind: Kind::Symbol,
                role: if clashes {
                    Role::Clashes
                } else {
                    Role::Defines
                },
                is_done: is_defined || clashes,
                from: if clashes {
                    definitions.of_value(name)
                } else {
                    None
                },
            },
        )?;
        if is_defined {
            if let Some(place) = self.text.origins_of(part).first() {
                let place = whole_stretch(*place, self.text.origins_of(part));
                definitions.define(name, self.deed.puts, place)?;
            }
        }
        Ok(())
    }

    /// Whether its symbol has a value already.
    fn is_twice(&self) -> bool {
        match self.deed.item {
            Some(item) => item.made.flags().twice,
            None => false,
        }
    }

    /// The only operand, if there is one.
    fn only_operand(&self, alloc: Global) -> Result<Option<PlacedText<'a>>, AllocError> {
        match list_operands(alloc, tail_of(&self.card))?.as_slice() {
            [only] => Ok(Some(*only)),
            _ => Ok(None),
        }
    }

    /// The block of USE.
    fn tell_block(
        &self,
        alloc: Global,
        teller: &mut Teller<'_>,
        definitions: &mut Definitions,
    ) -> Result<(), AllocError> {
        let Some(part) = self.only_operand(alloc)? else {
            return Ok(());
        };
        let Some(name) = Name::read(part.text) else {
            return Ok(());
        };
        let is_done = self.deed.puts.iter().any(|put| match put.key {
            Key::Uses => true,
            _ => false,
        });
        let first = definitions.of_block(name);
        if is_done && first.is_none() {
            if let Some(place) = self.text.origins_of(part).first() {
                let place = whole_stretch(*place, self.text.origins_of(part));
                definitions.begin_block(name, place)?;
            }
        }
        teller.tell(
            self.text,
            part,
            Telling {
                kind: Kind::Block,
                role: if is_done && first.is_none() {
                    Role::Defines
                } else {
                    Role::Uses
                },
                is_done,
                from: first.map(|place| Origin::Here(place)),
            },
        )
    }

    /// The program's name.
    fn tell_program(&self, alloc: Global, teller: &mut Teller<'_>) -> Result<(), AllocError> {
        let list = list_operands(alloc, tail_of(&self.card))?;
        let Some(part) = list.first().copied() else {
            return Ok(());
        };
        let program = match self.deed.item {
            Some(item) => item.made.program(),
            None => None,
        };
        teller.tell(
            self.text,
            part,
            Telling {
                kind: Kind::Program,
                role: Role::Defines,
                is_done: program.is_some(),
                from: None,
            },
        )
    }

    /// The name and the parameters of MACRO.
    fn tell_macro(&self, alloc: Global, teller: &mut Teller<'_>) -> Result<(), AllocError> {
        let part = self.location();
        if is_builtin(part.text) {
            return Ok(());
        }
        let is_done = keeps_macro(self.deed.puts)?;
        teller.tell(
            self.text,
            part,
            Telling {
                kind: Kind::Macro,
                role: Role::Defines,
                is_done,
                from: None,
            },
        )?;
        if is_done {
            self.tell_parameters(alloc, teller)?;
        }
        Ok(())
    }

    fn tell_parameters(&self, alloc: Global, teller: &mut Teller<'_>) -> Result<(), AllocError> {
        for part in list_operands(alloc, tail_of(&self.card))?.as_slice() {
            if let Some(name) = Name::read(part.text) {
                let stretch = Stretch::behind(self.text.line, part.before, part.text.len());
                let meaning = Meaning::Parameter(self.text.line, name);
                teller.tell_at(stretch, meaning, Role::Defines, None)?;
            }
        }
        Ok(())
    }

    /// The macro that is called, and arguments whose parameters its body doesn't write.
    fn tell_call(&self, alloc: Global, teller: &mut Teller<'_>) -> Result<(), AllocError> {
        let part = field(&self.card, self.card.operation);
        if is_builtin(part.text) || Name::read(part.text).is_none() {
            return Ok(());
        }
        let called = self.deed.named;
        teller.tell(
            self.text,
            part,
            Telling {
                kind: Kind::Macro,
                role: Role::Calls,
                is_done: called.is_some(),
                from: called.map(|named| Origin::Here(named.defined)),
            },
        )?;
        let arguments = list_arguments(alloc, tail_of(&self.card))?;
        for (at, argument) in arguments.as_slice().iter().enumerate() {
            if !is_written(called, at) {
                self.tell_argument(alloc, teller, *argument)?;
            }
        }
        Ok(())
    }

    /// An argument that no body writes.
    fn tell_argument(
        &self,
        alloc: Global,
        teller: &mut Teller<'_>,
        argument: PlacedText<'_>,
    ) -> Result<(), AllocError> {
        let mut parts = Vec::new(alloc);
        push_all(&mut parts, &list_operands(alloc, argument)?)?;
        for part in parts.as_slice() {
            teller.tell(
                self.text,
                *part,
                Telling {
                    kind: Kind::Symbol,
                    role: Role::Reads,
                    is_done: false,
                    from: None,
                },
            )?;
        }
        Ok(())
    }
}

/// Whether the body of a macro writes the parameter of an argument.
fn is_written(called: Option<&MacroText>, at: usize) -> bool {
    match called {
        Some(named) => named.writes_parameter(at),
        None => false,
    }
}

/// From where the first character of a part is written to where the last is, in one line; else as far as the first goes.
fn whole_stretch(first: Stretch, origins: &[Stretch]) -> Stretch {
    let mut whole = first;
    for origin in origins {
        if origin.line == whole.line && origin.first == whole.end {
            whole.end = origin.end;
        }
    }
    whole
}

/// Whether lines are kept for a macro from then on.
fn keeps_macro(puts: &[Put]) -> Result<bool, AllocError> {
    for put in puts {
        if let Answer::Control(_, mode) = &put.answer {
            if let Mode::KeepMacro(body) = mode.to_mode()? {
                return Ok(body.name.is_some());
            }
        }
    }
    Ok(false)
}

/// What a statement did that stands on a scratch.
pub fn deed_on<'a>(
    scratch: &'a Scratch,
    symbols: &'a LineSymbols,
    named: Option<&'a MacroText>,
) -> StatementDeed<'a> {
    StatementDeed {
        puts: scratch.puts(),
        reads_now: scratch.reads(),
        item: scratch.items().first(),
        symbols,
        named,
    }
}

/// What a statement did that nothing obeyed.
pub fn no_deed(symbols: &LineSymbols) -> StatementDeed<'_> {
    StatementDeed {
        puts: &[],
        reads_now: &[],
        item: None,
        symbols,
        named: None,
    }
}
