//! The digits of a row, in groups.
ghost use Rattle.std.specs.Prelude.{◌≡◌, ◌++◌, ◌<◌, IfOk, OnOk};
ghost use Rattle.cps_claims.specs.Rows as rows;
ghost use Rattle.cps_claims.specs.Words as words;
ghost use Rattle.cps_claims.specs.Code.Walk.{parts_left};
ghost use Rattle.cps_claims.specs.Code.Groups as spec;

use super::layout::{OctalLayout, WordForm, is_dump, parcel_size, word_size};
use super::part::{RowRest, are_digits, looks_like_digits};
use super::reason::UnreadReason;
use std::alloc::AllocError;

/// What may be wrong with the groups of a row.
#[derive(Clone, Copy)]
struct RowGroups {
    /// How many digits the first group has that isn't whole parcels.
    wrong: Option<usize>,
    /// Whether the part behind the groups looks like digits too.
    damaged: bool,
}

/// Puts the digits that a rest begins with in the place of what `digits` has, and tells why they aren't read.
pub fn read_digits(
    layout: OctalLayout,
    rest: RowRest<'_>,
    digits: &mut Vec<u8>,
) -> Result<Option<UnreadReason>, AllocError>
    ensures digits { OnOk result (digits.new.items ≡ rows.digits_of (parts_left rest.entry)) }
    ensures fault { IfOk result (λ fault. fault ≡ rows.fault_in layout (parts_left rest.entry)) }
{
    digits.clear();
    let groups = read_groups(parcel_size(layout.form), rest, digits)?;
    Ok(fault_by(layout, digits.len(), groups))
}

/// Appends the digits that a rest begins with.
fn read_groups(
    parcel: usize,
    rest: RowRest<'_>,
    digits: &mut Vec<u8>,
) -> Result<RowGroups, AllocError>
    requires { 0 < parcel }
    ensures { IfOk result (λ groups. spec.AddsGroups parcel (parts_left rest.entry) groups digits.old.items digits.new.items) }
{
    let mut wrong = None;
    let mut left = rest;
    while let Some((part, behind)) = left.next() {
        if !are_digits(part.text) {
            let damaged = looks_like_digits(part.text);
            return Ok(RowGroups { wrong, damaged });
        }
        digits.extend_from_slice(part.text)?;
        wrong = first_wrong(parcel, wrong, part.text.len());
        left = behind;
    }
    Ok(RowGroups {
        wrong,
        damaged: false,
    })
}

/// The first group that isn't whole parcels, behind which one more stands.
fn first_wrong(parcel: usize, wrong: Option<usize>, count: usize) -> Option<usize>
    requires { 0 < parcel }
    ensures { result ≡ spec.first_wrong parcel wrong count }
{
    match wrong {
        Some(first) => Some(first),
        None if count % parcel == 0 => None,
        None => Some(count),
    }
}

/// Why so many digits aren't read.
fn fault_by(layout: OctalLayout, count: usize, groups: RowGroups) -> Option<UnreadReason>
    ensures { result ≡ spec.fault_by layout count groups }
{
    if groups.damaged {
        return Some(UnreadReason::DamagedDigits);
    }
    if need_no_groups(layout.form, count) {
        return None;
    }
    match groups.wrong {
        Some(count) => Some(UnreadReason::GroupOf(count)),
        None => part_of_word(layout, count),
    }
}

/// Why so many digits aren't read in a dump, where rows have whole words.
fn part_of_word(layout: OctalLayout, count: usize) -> Option<UnreadReason>
    ensures { result ≡ rows.part_of_word layout count }
{
    if is_dump(layout.format) && count % word_size(layout.form) != 0 {
        Some(UnreadReason::NoWholeWords)
    } else {
        None
    }
}

/// Whether so many digits may be grouped in any way.
fn need_no_groups(form: WordForm, count: usize) -> bool
    ensures { result ≡ words.need_no_groups form count }
{
    match form {
        WordForm::Central => count % 20 == 0,
        WordForm::Peripheral => false,
    }
}
