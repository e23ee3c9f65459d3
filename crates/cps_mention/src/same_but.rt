//! Whether a source is another but for what its symbols are called: the certificate of a rename.
ghost use Rattle.std.specs.Prelude.{◌≡◌, IsTrue, IfOk, All, map};
ghost use Rattle.cps_list.specs.Texts.{text_of};
ghost use Rattle.cps_mention.specs.SameBut.{SameBut, AreRecalled, HasSameValue, KeepValues, KeepsValue, recalled, untexted, untexted_rows};

use crate::calling::Calling;
use cps_expr::{Value, is_same_name};
use cps_final::{Finals, Gathered, OctalDigits, Outcome, Row};
use cps_list::{Mention, Part, View, list_mentions, make_text, symbol_value};
use cps_state::Flags;
use cps_text::Name;
use std::alloc::{AllocError, Global};

/// Whether a source is another but for what its symbols are called. It makes the binary text and the flags text of both, one after the other.
pub fn is_same_but<V: View, W: View>(
    alloc: Global,
    before: &V,
    after: &W,
    calling: Calling,
) -> Result<bool, AllocError>
    ensures { IfOk result (λ same. IsTrue same → SameBut calling (V.assembly before.now) (W.assembly after.now)) }
{
    if !has_same_rows(before, after) {
        return Ok(false);
    }
    if !has_same_symbols(alloc, before, after, calling)? {
        return Ok(false);
    }
    if !has_same_text(alloc, before, after, Part::Flags)? {
        return Ok(false);
    }
    let has_words = has_same_text(alloc, before, after, Part::Binary)?;
    Ok(has_words)
}

/// Whether a text of both is the same.
fn has_same_text<V: View, W: View>(
    alloc: Global,
    before: &V,
    after: &W,
    part: Part,
) -> Result<bool, AllocError>
    ensures { IfOk result (λ same. IsTrue same → text_of part (W.assembly after.now) ≡ text_of part (V.assembly before.now)) }
{
    let was = make_text(alloc, before, part)?;
    let is = make_text(alloc, after, part)?;
    Ok(is_same_text(&was, &is))
}

/// Whether two texts are the same.
pub fn is_same_text(was: &[u8], is: &[u8]) -> bool
    ensures { IsTrue result → is.now ≡ was.now }
{
    was == is
}

/// Whether each line has the same rows, but for their texts.
fn has_same_rows<V: View, W: View>(before: &V, after: &W) -> bool
    ensures { IsTrue result → map untexted_rows (W.assembly after.now).outcomes ≡ map untexted_rows (V.assembly before.now).outcomes }
{
    if before.count() != after.count() {
        return false;
    }
    for done in 0..before.count() {
        let Some(was) = before.outcome(done + 1) else {
            return false;
        };
        let Some(is) = after.outcome(done + 1) else {
            return false;
        };
        if !are_same_rows(was.rows(), is.rows()) {
            return false;
        }
    }
    true
}

fn are_same_rows(was: &[Row], is: &[Row]) -> bool
    ensures { IsTrue result → map untexted is.now ≡ map untexted was.now }
{
    if was.len() != is.len() {
        return false;
    }
    for at in 0..was.len() {
        if !is_same_row(&was[at], &is[at]) {
            return false;
        }
    }
    true
}

fn is_same_row(was: &Row, is: &Row) -> bool
    ensures { IsTrue result → untexted is.now ≡ untexted was.now }
{
    is_same_flags(was.flags, is.flags)
        && was.is_later == is.is_later
        && was.depth == is.depth
        && are_same_digits(was.second.digits(), is.second.digits())
        && are_same_digits(was.code.digits(), is.code.digits())
        && is_same_location(was.location, is.location)
}

fn is_same_flags(was: Flags, is: Flags) -> bool
    ensures { IsTrue result → is ≡ was }
{
    was == is
}

fn are_same_digits(was: Option<OctalDigits>, is: Option<OctalDigits>) -> bool
    ensures { IsTrue result → is ≡ was }
{
    was == is
}

fn is_same_location(was: Option<u64>, is: Option<u64>) -> bool
    ensures { IsTrue result → is ≡ was }
{
    was == is
}

/// Whether each line defines and reads the same symbols as they are called now, and these have the same values.
fn has_same_symbols<V: View, W: View>(
    alloc: Global,
    before: &V,
    after: &W,
    calling: Calling,
) -> Result<bool, AllocError>
    ensures mentions { IfOk result (λ same. IsTrue same → AreRecalled calling (V.assembly before.now) (W.assembly after.now)) }
    ensures values { IfOk result (λ same. IsTrue same → KeepValues calling (V.assembly before.now) (W.assembly after.now)) }
{
    let was = list_mentions(alloc, before)?;
    let is = list_mentions(alloc, after)?;
    Ok(are_recalled(&was, &is, calling) && keep_values(&was, before, after, calling))
}

/// Whether symbols on lines are these, as they are called now.
fn are_recalled(was: &[Mention], is: &[Mention], calling: Calling) -> bool
    ensures { IsTrue result → is.now ≡ map (recalled calling) was.now }
{
    if was.len() != is.len() {
        return false;
    }
    for at in 0..was.len() {
        if !is_recalled(was[at], is[at], calling) {
            return false;
        }
    }
    true
}

fn is_recalled(was: Mention, is: Mention, calling: Calling) -> bool
    ensures { IsTrue result → is ≡ recalled calling was }
{
    is_same_name(is.name, calling.called(was.name))
        && is.line == was.line
        && is.is_definition == was.is_definition
}

/// Whether symbols have the values that they had.
fn keep_values<V: View, W: View>(
    mentions: &[Mention],
    before: &V,
    after: &W,
    calling: Calling,
) -> bool
    ensures { IsTrue result → All (KeepsValue calling (V.assembly before.now) (W.assembly after.now)) mentions.now }
{
    for mention in mentions {
        if !keeps_value(mention.name, before.finals(), after.finals(), calling) {
            return false;
        }
    }
    true
}

fn keeps_value(name: Name, before: &Finals, after: &Finals, calling: Calling) -> bool
    ensures { IsTrue result → HasSameValue calling (⟦<Finals as Gathered>⟧.gathered before.now) (⟦<Finals as Gathered>⟧.gathered after.now) name }
{
    is_same_value(
        symbol_value(before, name),
        symbol_value(after, calling.called(name)),
    )
}

fn is_same_value(was: Option<Value>, is: Option<Value>) -> bool
    ensures { IsTrue result → is ≡ was }
{
    was == is
}

/// The first line of which the rows are others; else the first on which the symbols are others; else the last.
pub fn line_that_changed<V: View, W: View>(before: &V, after: &W, calling: Calling) -> u32 {
    for done in 0..before.count() {
        match (before.outcome(done + 1), after.outcome(done + 1)) {
            (Some(was), Some(is)) if are_same_rows(was.rows(), is.rows()) => {}
            _ => return done + 1,
        }
    }
    for done in 0..before.count() {
        match (before.outcome(done + 1), after.outcome(done + 1)) {
            (Some(was), Some(is)) if have_same_names(was, is, calling) => {}
            _ => return done + 1,
        }
    }
    before.count().max(1)
}

fn have_same_names(was: &Outcome, is: &Outcome, calling: Calling) -> bool {
    are_called(was.names_defined(), is.names_defined(), calling)
        && are_called(was.names_read(), is.names_read(), calling)
}

/// Whether names are these, as they are called now.
fn are_called(was: &[Name], is: &[Name], calling: Calling) -> bool {
    was.len() == is.len()
        && was
            .iter()
            .zip(is.iter())
            .all(|(was, is)| is_same_name(calling.called(*was), *is))
}
