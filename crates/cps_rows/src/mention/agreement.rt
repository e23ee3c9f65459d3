//! What mentions and the cross-reference say of a source's lines.
use super::told::{push_number, session_of};
use cps_list::list_mentions;
use cps_mention::{Meaning, Mention, Role, agreeing_mentions};
use cps_text::Name;
use std::alloc::{AllocError, Global};
use std::collections::BTreeSet;

/// A line that defines or reads a symbol.
#[derive(Clone, Copy, PartialEq, Eq, PartialOrd, Ord)]
struct SymbolFact {
    name: Name,
    line: u32,
    is_definition: bool,
}

/// What mentions of a source's symbols say of its lines and the cross-reference doesn't, or the other way round: a row for each. That a line which defines a
/// symbol by SET reads it too isn't compared. None: memory was refused, or mentions say less than the cross-reference.
pub fn differences(alloc: Global, texts: &[&str]) -> Option<Vec<u8>> {
    let session = session_of(alloc, texts)?;
    let mentions = agreeing_mentions(alloc, &session, session.traces()).ok()??;
    let told = facts_told(alloc, &mentions).ok()?;
    let mut listed = BTreeSet::new(alloc);
    for fact in list_mentions(alloc, &session).ok()?.as_slice() {
        let fact = SymbolFact {
            name: fact.name,
            line: fact.line,
            is_definition: fact.is_definition,
        };
        listed.insert(fact).ok()?;
    }
    rows_of(alloc, &told, &listed).ok()
}

/// What is told as done.
fn facts_told(alloc: Global, mentions: &[Mention]) -> Result<BTreeSet<SymbolFact>, AllocError> {
    let mut facts = BTreeSet::new(alloc);
    for mention in mentions {
        if let Meaning::Symbol(name) = mention.meaning {
            for line in mention.by.iter() {
                facts.insert(SymbolFact {
                    name,
                    line: *line,
                    is_definition: mention.role == Role::Defines,
                })?;
            }
        }
    }
    Ok(facts)
}

fn rows_of(
    alloc: Global,
    told: &BTreeSet<SymbolFact>,
    listed: &BTreeSet<SymbolFact>,
) -> Result<Vec<u8>, AllocError> {
    let mut text = Vec::new(alloc);
    for fact in told.iter() {
        if !listed.contains(fact) {
            push_fact(&mut text, b"only told ", *fact)?;
        }
    }
    for fact in listed.iter() {
        let mut defined = *fact;
        defined.is_definition = true;
        if !told.contains(fact) && !(listed.contains(&defined) && !fact.is_definition) {
            push_fact(&mut text, b"only listed ", *fact)?;
        }
    }
    Ok(text)
}

fn push_fact(text: &mut Vec<u8>, word: &[u8], fact: SymbolFact) -> Result<(), AllocError> {
    text.extend_from_slice(word)?;
    text.extend_from_slice(fact.name.text())?;
    text.push(b' ')?;
    push_number(text, fact.line as usize)?;
    text.push(b'\n')?;
    Ok(())
}
