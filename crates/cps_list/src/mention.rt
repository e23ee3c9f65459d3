//! The lines on which symbols stand.
ghost use Rattle.std.specs.Prelude.{◌≡◌, ◌++◌, ◌<◌, IfOk, OnOk, true, false};
ghost use Rattle.cps_list.specs.Symbols as texts;

use crate::view::View;
use cps_text::Name;
use std::alloc::{AllocError, Global};

/// A symbol on a line, which defines it or reads it.
#[derive(Clone, Copy, PartialEq, Eq)]
pub struct Mention {
    pub name: Name,
    /// The number of the line.
    pub line: u32,
    pub is_definition: bool,
}

/// The symbols that lines define and read, in the order of the lines.
pub fn list_mentions<V: View>(alloc: Global, view: &V) -> Result<Vec<Mention>, AllocError>
    ensures { IfOk result (λ mentions. mentions.items ≡ texts.mentions_from 1 (V.assembly view.now).outcomes) }
{
    let mut mentions = Vec::new(alloc);
    for before in 0..view.count() {
        let Some(outcome) = view.outcome(before + 1) else {
            unreachable!();
        };
        push_mentions(
            &mut mentions,
            before + 1,
            outcome.names_defined(),
            outcome.names_read(),
        )?;
    }
    Ok(mentions)
}

/// The symbols that the line of a number defines, and those that it reads.
pub fn push_mentions(
    mentions: &mut Vec<Mention>,
    line: u32,
    defined: &[Name],
    read: &[Name],
) -> Result<(), AllocError>
    ensures { OnOk result (mentions.new.items ≡ mentions.old.items ++ texts.mentions_on line defined.now read.now) }
{
    push_names(mentions, defined, line, true)?;
    push_names(mentions, read, line, false)
}

fn push_names(
    mentions: &mut Vec<Mention>,
    names: &[Name],
    line: u32,
    is_definition: bool,
) -> Result<(), AllocError>
    ensures { OnOk result (mentions.new.items ≡ mentions.old.items ++ texts.mentions_as is_definition line names.now) }
{
    for name in names {
        if !name.was_generated() {
            mentions.push(Mention {
                name: *name,
                line,
                is_definition,
            })?;
        }
    }
    Ok(())
}
