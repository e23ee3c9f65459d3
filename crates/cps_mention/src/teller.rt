//! Telling what statements do with names.

use crate::meaning::Meaning;
use crate::placed_text::PlacedText;
use crate::role::Role;
use crate::statement_text::StatementText;
use crate::stretch::Stretch;
use crate::told::{Deed, Origin, Place, Told};
use crate::written_names::WrittenNames;
use cps_text::Name;
use std::alloc::{AllocError, Global};
use std::collections::BTreeMap;

/// What kind of thing a name is of.
#[derive(Clone, Copy)]
pub enum Kind {
    Symbol,
    Macro,
    Block,
    Program,
}

impl Kind {
    fn meaning(self, name: Name) -> Meaning {
        match self {
            Kind::Symbol => Meaning::Symbol(name),
            Kind::Macro => Meaning::Macro(name),
            Kind::Block => Meaning::Block(name),
            Kind::Program => Meaning::Program(name),
        }
    }
}

/// What is told of a part of a statement.
#[derive(Clone, Copy)]
pub struct Telling {
    pub kind: Kind,
    pub role: Role,
    pub is_done: bool,
    pub from: Option<Origin>,
}

/// Tells what statements do with names.
#[derive(Drop)]
pub struct Teller<'a> {
    alloc: Global,
    /// The lines of the source.
    pub lines: &'a [&'a [u8]],
    /// The line whose statements are told, from 1.
    pub line: u32,
    /// For each line the line of the MACRO in whose body it stands; 0: in none.
    macro_lines: Vec<u32>,
    told: Told,
}

impl<'a> Teller<'a> {
    /// Of these lines.
    pub fn new(alloc: Global, lines: &'a [&'a [u8]]) -> Result<Teller<'a>, AllocError> {
        let mut macro_lines = Vec::with_capacity(alloc, lines.len())?;
        for _line in lines {
            macro_lines.push(0)?;
        }
        Ok(Teller {
            alloc,
            lines,
            line: 0,
            macro_lines,
            told: Told::new(alloc),
        })
    }

    /// A line of the source, from 1; nothing where there is none.
    pub fn text_of(&self, line: u32) -> &'a [u8] {
        match self.lines.get((line as usize).wrapping_sub(1)) {
            Some(text) => *text,
            None => &[],
        }
    }

    /// A line stands in the body of the macro whose MACRO stands in another.
    pub fn set_macro(&mut self, line: u32, macro_line: u32) {
        if let Some(place) = self.macro_lines.get_mut((line as usize).wrapping_sub(1)) {
            *place = macro_line;
        }
    }

    fn macro_line(&self, line: u32) -> u32 {
        match self.macro_lines.get((line as usize).wrapping_sub(1)) {
            Some(macro_line) => *macro_line,
            None => 0,
        }
    }

    /// Tells what the line does at columns that write a name.
    pub fn tell_at(
        &mut self,
        stretch: Stretch,
        meaning: Meaning,
        role: Role,
        from: Option<Stretch>,
    ) -> Result<(), AllocError> {
        let mut written = Vec::new(self.alloc);
        written.push(stretch)?;
        self.told.add(
            Place {
                written,
                meaning,
                role,
            },
            Deed {
                by: Some(self.line),
                from: from.map(|stretch| Origin::Here(stretch)),
            },
        )
    }

    /// Tells what a statement does with a part of it that writes a name; nothing where it writes none.
    pub fn tell(
        &mut self,
        text: StatementText<'_>,
        part: PlacedText<'_>,
        telling: Telling,
    ) -> Result<(), AllocError> {
        let Some(name) = Name::read(part.text) else {
            return Ok(());
        };
        let deed = Deed {
            by: if telling.is_done {
                Some(self.line)
            } else {
                None
            },
            from: telling.from,
        };
        if name.was_generated() {
            return self.tell_local(text, part, telling.role, deed);
        }
        let written = text.stretches_of(self.alloc, part)?;
        self.told.add(
            Place {
                written,
                meaning: telling.kind.meaning(name),
                role: telling.role,
            },
            deed,
        )
    }

    /// A generated name stands for a local name, which writes all of it.
    fn tell_local(
        &mut self,
        text: StatementText<'_>,
        part: PlacedText<'_>,
        role: Role,
        deed: Deed,
    ) -> Result<(), AllocError> {
        let Some(stretch) = text.origins_of(part).first().copied() else {
            return Ok(());
        };
        let Some(name) = Name::read(self.written_in(stretch)) else {
            return Ok(());
        };
        let meaning = Meaning::Local(self.macro_line(stretch.line), name);
        let mut written = Vec::new(self.alloc);
        written.push(stretch)?;
        self.told.add(
            Place {
                written,
                meaning,
                role,
            },
            deed,
        )
    }

    /// What the source has in columns.
    fn written_in(&self, stretch: Stretch) -> &'a [u8] {
        let line = PlacedText {
            text: self.text_of(stretch.line),
            before: 0,
        };
        line.cut(
            stretch.first.saturating_sub(1),
            stretch.end.saturating_sub(1),
        )
        .text
    }

    /// All that is told, where labels are defined here.
    pub fn into_names(self, labels: &BTreeMap<Name, Stretch>) -> Result<WrittenNames, AllocError> {
        let Teller {
            told,
            macro_lines,
            ..
        } = self;
        told.into_names(labels, macro_lines)
    }
}
