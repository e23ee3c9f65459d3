//! Whether something may be called by a name.

use crate::macro_text::list_runs;
use crate::meaning::Meaning;
use crate::mention::Mention;
use crate::name_place::line_of;
use crate::rename_fault::RenameFault;
use crate::written_names::WrittenNames;
use cps_code::is_builtin;
use cps_expr::Operation;
use cps_list::View;
use cps_text::Name;
use std::alloc::{AllocError, Global};
use std::collections::BTreeSet;

/// What it would be, if a name may be called by this text; else why not.
pub fn read_new_name(meaning: Meaning, text: &[u8]) -> Result<Meaning, RenameFault> {
    let Some(name) = Name::read(text) else {
        return Err(RenameFault::NoName);
    };
    if name.was_generated() || (is_of_body(meaning) && text.contains(&b'=')) {
        return Err(RenameFault::NoName);
    }
    if let Meaning::Macro(_) = meaning {
        if Operation::named(text).is_some() || is_builtin(text) {
            return Err(RenameFault::Operation(name));
        }
    }
    if name == meaning.name() {
        return Err(RenameFault::SameName);
    }
    Ok(meaning.with_name(name))
}

/// Whether it is a parameter or a local name.
fn is_of_body(meaning: Meaning) -> bool {
    match meaning {
        Meaning::Parameter(..) | Meaning::Local(..) => true,
        _ => false,
    }
}

/// Where the new name of something has a meaning already.
pub fn fault_of_taken<V: View>(
    alloc: Global,
    view: &V,
    names: &WrittenNames,
    was: Meaning,
    is: Meaning,
) -> Result<Option<RenameFault>, AllocError> {
    let line = match is {
        Meaning::Parameter(macro_line, name) | Meaning::Local(macro_line, name) => {
            line_in_body(alloc, view, names, macro_line, name)?
        }
        _ => match line_with_meaning(names, is) {
            Some(line) => Some(line),
            None => line_of_macro_around(alloc, names, was, is.name())?,
        },
    };
    Ok(line.map(|line| RenameFault::Taken {
        name: is.name(),
        line,
    }))
}

/// The first line that mentions a name of a kind.
fn line_with_meaning(names: &WrittenNames, meaning: Meaning) -> Option<u32> {
    match line_among(&names.mentions, meaning) {
        Some(line) => Some(line),
        None => line_among(&names.idle, meaning),
    }
}

fn line_among(mentions: &[Mention], meaning: Meaning) -> Option<u32> {
    for mention in mentions {
        if mention.meaning == meaning {
            return Some(line_of(mention));
        }
    }
    None
}

/// The first line of a macro that writes a name: as a parameter or a local name, or as a run of its body.
fn line_in_body<V: View>(
    alloc: Global,
    view: &V,
    names: &WrittenNames,
    macro_line: u32,
    name: Name,
) -> Result<Option<u32>, AllocError> {
    let parameter = Meaning::Parameter(macro_line, name);
    let local = Meaning::Local(macro_line, name);
    for mention in names.mentions.as_slice() {
        if mention.meaning == parameter || mention.meaning == local {
            return Ok(Some(line_of(mention)));
        }
    }
    for before in 0..view.count() {
        if names.macro_lines.get(before as usize).copied() == Some(macro_line) {
            if let Some(line) = view.line(before + 1) {
                if writes_run(alloc, line.bytes(), name)? {
                    return Ok(Some(before + 1));
                }
            }
        }
    }
    Ok(None)
}

/// Whether a line of a body has a run that writes a name.
fn writes_run(alloc: Global, body: &[u8], name: Name) -> Result<bool, AllocError> {
    for run in list_runs(alloc, body)?.as_slice() {
        if Name::read(run.text) == Some(name) {
            return Ok(true);
        }
    }
    Ok(false)
}

/// The line of the first MACRO that has a parameter or a local name of this name, and in whose body something stands.
fn line_of_macro_around(
    alloc: Global,
    names: &WrittenNames,
    meaning: Meaning,
    name: Name,
) -> Result<Option<u32>, AllocError> {
    let macros = macros_with(alloc, &names.mentions, name)?;
    for mention in names.mentions.as_slice() {
        if mention.meaning == meaning {
            for stretch in mention.written.as_slice() {
                let place = (stretch.line as usize).wrapping_sub(1);
                if let Some(line) = names.macro_lines.get(place) {
                    if macros.contains(line) {
                        return Ok(Some(*line));
                    }
                }
            }
        }
    }
    Ok(None)
}

/// The lines of the macros that have a parameter or a local name of this name.
fn macros_with(
    alloc: Global,
    mentions: &[Mention],
    name: Name,
) -> Result<BTreeSet<u32>, AllocError> {
    let mut macros = BTreeSet::new(alloc);
    for mention in mentions {
        match mention.meaning {
            Meaning::Parameter(line, other) | Meaning::Local(line, other) => {
                if other == name {
                    macros.insert(line)?;
                }
            }
            _ => {}
        }
    }
    Ok(macros)
}
