//! Drafts of a source, from the boldest to the plainest, until one is certified.
ghost use Rattle.std.specs.Prelude.{List, ℕ, IfOk};
ghost use Rattle.cps_claims.specs.Code.Held.{Holds};
ghost use Rattle.cps_disassembly.specs.Makes.{claims_of};
ghost use Rattle.cps_disassembly.specs.Code.Kept.{Attempts};

use super::certificate::{Certificate, Failures, certify};
use super::wanted::Wanted;
use cps_draft::{Boldness, Draft, Knowledge, make_draft};
use cps_state::Hashing;
use std::alloc::{AllocError, Global};

/// What comes of a draft.
#[derive(Drop)]
pub enum Attempt {
    /// This text makes the words that are wanted.
    Made(Vec<u8>),
    /// The words at these addresses are wrong, or made by a line that is flagged.
    Failed(Vec<u32>),
    /// Its lines, of which there are so many, are none of a source for the machine.
    Unfit(usize),
}

/// Drafts a source; where that fails, the same with each word at its own address; then the first draft with plain numbers for the words that
/// failed; and then plain numbers alone. Each draft is certified.
pub fn climb(
    alloc: Global,
    hashing: Hashing,
    wanted: &Wanted,
    known: Knowledge<'_>,
) -> Result<Attempt, AllocError>
    ensures { (octal : List ℕ) → Holds wanted.now.claims (claims_of wanted.now.selection octal)
        → IfOk result (Attempts wanted.now.selection octal) }
{
    match make_attempt(alloc, hashing, wanted, known, &Boldness::Draft)? {
        Attempt::Made(text) => Ok(Attempt::Made(text)),
        Attempt::Failed(_) => climb_placed(alloc, hashing, wanted, known),
        Attempt::Unfit(_) => make_attempt(alloc, hashing, wanted, known, &Boldness::Plain),
    }
}

fn climb_placed(
    alloc: Global,
    hashing: Hashing,
    wanted: &Wanted,
    known: Knowledge<'_>,
) -> Result<Attempt, AllocError>
    ensures { (octal : List ℕ) → Holds wanted.now.claims (claims_of wanted.now.selection octal)
        → IfOk result (Attempts wanted.now.selection octal) }
{
    match make_attempt(alloc, hashing, wanted, known, &Boldness::Placed)? {
        Attempt::Made(text) => Ok(Attempt::Made(text)),
        Attempt::Failed(words) => {
            climb_without(alloc, hashing, wanted, known, &Boldness::Without(words))
        }
        Attempt::Unfit(_) => make_attempt(alloc, hashing, wanted, known, &Boldness::Plain),
    }
}

fn climb_without(
    alloc: Global,
    hashing: Hashing,
    wanted: &Wanted,
    known: Knowledge<'_>,
    boldness: &Boldness,
) -> Result<Attempt, AllocError>
    ensures { (octal : List ℕ) → Holds wanted.now.claims (claims_of wanted.now.selection octal)
        → IfOk result (Attempts wanted.now.selection octal) }
{
    match make_attempt(alloc, hashing, wanted, known, boldness)? {
        Attempt::Made(text) => Ok(Attempt::Made(text)),
        Attempt::Failed(_) | Attempt::Unfit(_) => {
            make_attempt(alloc, hashing, wanted, known, &Boldness::Plain)
        }
    }
}

/// Drafts a source, and certifies the draft.
fn make_attempt(
    alloc: Global,
    hashing: Hashing,
    wanted: &Wanted,
    known: Knowledge<'_>,
    boldness: &Boldness,
) -> Result<Attempt, AllocError>
    ensures { (octal : List ℕ) → Holds wanted.now.claims (claims_of wanted.now.selection octal)
        → IfOk result (Attempts wanted.now.selection octal) }
{
    let machine = wanted.selection.machine;
    let draft = make_draft(alloc, machine, &wanted.words, known, boldness)?;
    try_draft(alloc, hashing, wanted, draft)
}

/// Certifies a draft.
pub fn try_draft(
    alloc: Global,
    hashing: Hashing,
    wanted: &Wanted,
    draft: Draft,
) -> Result<Attempt, AllocError>
    ensures { (octal : List ℕ) → Holds wanted.now.claims (claims_of wanted.now.selection octal)
        → IfOk result (Attempts wanted.now.selection octal) }
{
    let Draft { text, words } = draft;
    match certify(alloc, hashing, &text, &wanted.claims, wanted.selection)? {
        Certificate::Made => Ok(Attempt::Made(text)),
        Certificate::Failed(failures) => {
            let failed = failed_words(failures, &words)?;
            Ok(Attempt::Failed(failed))
        }
        Certificate::Unfit => Ok(Attempt::Unfit(words.len())),
    }
}

/// The addresses of the words that are wrong, and of those that flagged lines make. `words` has for each line the address of its word.
fn failed_words(failures: Failures, words: &[Option<u32>]) -> Result<Vec<u32>, AllocError> {
    let Failures {
        words: failed,
        lines,
    } = failures;
    let mut failed = failed;
    for line in &lines {
        let before = (*line as usize).saturating_sub(1);
        if let Some(Some(address)) = words.get(before) {
            failed.push(*address)?;
        }
    }
    failed.sort()?;
    failed.dedup();
    Ok(failed)
}
