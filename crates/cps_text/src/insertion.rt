//! The text that a line of a macro's body gives.
ghost use Rattle.std.specs.Prelude.{◌≡◌, ◌++◌, IfOk, OnOk, option_map};
ghost use Rattle.std.specs.List.{flat_map};
ghost use Rattle.cps_text.specs.Insertion.{is_of_run, pairs_value, text_of, text_for, without_marks, replaced, inserted};
ghost use Rattle.cps_text.specs.Runs.{runs};

use crate::card::{is_comment, read_columns};
use crate::masked_card::MaskedCard;
use crate::name::{Name, begins_name};
use crate::run::run_len;
use std::alloc::{AllocError, Global};

/// Names of a macro's body, and the texts that stand for them.
pub trait Substitution {
    ghost use Rattle.std.specs.Prelude.{◌≡◌, option_map};
    ghost use Rattle.cps_text.specs.Insertion.{Pairs, text_of};

    ghost pairs: { Self → Pairs };

    /// The text that stands for a name.
    fn text_of(&self, name: Name) -> Option<&[u8]>
        ensures { option_map (λ text. text.now) result ≡ text_of (pairs self.now) name };
}

/// Names with their texts, which are looked through from the first on.
#[derive(Clone, Copy)]
pub struct PairList<'a> {
    pub pairs: &'a [(Name, &'a [u8])],
}

impl<'a> Substitution for PairList<'a> {
    ghost use Rattle.cps_text.specs.Insertion.{pairs_value};

    ghost pairs = { λ list. pairs_value list.pairs.now };

    fn text_of(&self, name: Name) -> Option<&[u8]> {
        text_of(self.pairs, name)
    }
}

/// A line of a macro's body with a text in place of each run of letters, digits and points that is its name, and without the `_` of the line itself.
/// The first pair of a name counts. A comment stays as it is. Inserted text isn't looked at again, and the result is not cut.
pub fn insert_text(
    alloc: Global,
    body: &[u8],
    pairs: &[(Name, &[u8])],
) -> Result<Vec<u8>, AllocError>
    ensures { IfOk result (λ text. text.items ≡ inserted (pairs_value pairs.now) body.now) }
{
    insert_by(alloc, body, &PairList { pairs })
}

/// The same, with the texts that stand for names by a substitution.
pub fn insert_by<S: Substitution>(
    alloc: Global,
    body: &[u8],
    substitution: &S,
) -> Result<Vec<u8>, AllocError>
    ensures { IfOk result (λ text. text.items ≡ inserted (S.pairs substitution.now) body.now) }
{
    if is_comment(MaskedCard::of(read_columns(body))) {
        body.to_vec(alloc)
    } else {
        replace_runs(alloc, body, substitution)
    }
}

/// Few lines are longer with the texts in them.
const ROOM: usize = 90;

fn replace_runs<S: Substitution>(
    alloc: Global,
    body: &[u8],
    substitution: &S,
) -> Result<Vec<u8>, AllocError>
    ensures { IfOk result (λ text. text.items ≡ flat_map (replaced (S.pairs substitution.now)) (runs is_of_run body.now)) }
{
    let mut text = Vec::with_capacity(alloc, ROOM)?;
    let mut rest = body;
    while !rest.is_empty() {
        let (run, behind) = rest.split_at(run_len(rest));
        push_replaced(&mut text, run, substitution)?;
        rest = behind;
    }
    Ok(text)
}

fn push_replaced<S: Substitution>(
    text: &mut Vec<u8>,
    run: &[u8],
    substitution: &S,
) -> Result<(), AllocError>
    ensures { OnOk result (text.new.items ≡ text.old.items ++ replaced (S.pairs substitution.now) run.now) }
{
    match text_for(substitution, run) {
        Some(inserted) => text.extend_from_slice(inserted),
        None => push_without_marks(text, run),
    }
}

/// The text of the name that a run writes, in capitals or not.
fn text_for<'s, S: Substitution>(substitution: &'s S, run: &[u8]) -> Option<&'s [u8]>
    ensures { option_map (λ text. text.now) result ≡ text_for (S.pairs substitution.now) run.now }
{
    if !begins_name(run) {
        return None;
    }
    match Name::read(run) {
        Some(name) => substitution.text_of(name),
        None => None,
    }
}

fn push_without_marks(text: &mut Vec<u8>, run: &[u8]) -> Result<(), AllocError>
    ensures { OnOk result (text.new.items ≡ text.old.items ++ without_marks run.now) }
{
    for byte in run {
        if *byte != b'_' {
            text.push(*byte)?;
        }
    }
    Ok(())
}

/// The text of the first pair of a name.
fn text_of<'a>(pairs: &[(Name, &'a [u8])], name: Name) -> Option<&'a [u8]>
    ensures { option_map (λ text. text.now) result ≡ text_of (pairs_value pairs.now) name }
{
    for (other, text) in pairs {
        if *other == name {
            return Some(*text);
        }
    }
    None
}
