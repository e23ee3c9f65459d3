//! What is told of a comparison.
ghost use Rattle.std.specs.Prelude.{◌≡◌, [], ◌++◌, ◌<◌, ℕ, List, length, slice_get, OnOk, if◌then◌else◌};
ghost use Rattle.std.specs.List.{count_by};
ghost use Rattle.cps_text.specs.Octal.{octal};
ghost use Rattle.cps_claims.specs.Reading.{IsReading, is_read};
ghost use Rattle.cps_claims.specs.Reasons.{reason_text};
ghost use Rattle.cps_compare.specs.Summary as summary;
ghost use Rattle.cps_compare.specs.Findings.{Findings};
ghost use Rattle.cps_compare.specs.Runs.{addresses, more_row, rest_row};
ghost use Rattle.cps_compare.specs.Code.Runs.{addresses_in};
ghost use Rattle.cps_compare.specs.Code.Surveys.{AreTallies, IsTally};

use super::address_span::AddressSpan;
use super::compared_word::ComparedWord;
use super::survey::{Tallies, Tally};
use cps_claims::{RowKinds, UnreadReason, UnreadRow};
use cps_list::push_decimal;
use cps_text::push_octal;
use std::alloc::{AllocError, Global};

/// The octal digits of an address.
const ADDRESS_DIGITS: u8 = 6;

/// What is told so far, and room for the digits of a word.
#[derive(Drop)]
pub struct Telling {
    pub text: Vec<u8>,
    pub digits: Vec<u8>,
}

impl Telling {
    /// Nothing is told. Takes no memory yet.
    pub fn new(alloc: Global) -> Telling
        ensures { result.text.items ≡ [] }
    {
        Telling {
            text: Vec::new(alloc),
            digits: Vec::new(alloc),
        }
    }
}

/// Tells how many more words of a run differ.
pub fn push_rest(text: &mut Vec<u8>, run: &[ComparedWord]) -> Result<(), AllocError>
    requires { 0 < length run.now }
    ensures { OnOk result (text.new.items ≡ text.old.items ++ rest_row (addresses_in run.now)) }
{
    let last = run.len() - 1;
    push_more(text, run[0].address, run[last].address, run.len())
}

fn push_more(text: &mut Vec<u8>, first: u32, last: u32, count: usize) -> Result<(), AllocError>
    ensures { OnOk result (text.new.items ≡ text.old.items ++ more_row first last count) }
{
    push_address(text, first)?;
    text.extend_from_slice(b" to ")?;
    push_address(text, last)?;
    text.extend_from_slice(b": ")?;
    push_decimal(text, count as u64)?;
    text.extend_from_slice(b" more words differ\n")?;
    Ok(())
}

/// The six octal digits of an address.
pub fn push_address(text: &mut Vec<u8>, address: u32) -> Result<(), AllocError>
    ensures { OnOk result (text.new.items ≡ text.old.items ++ octal 6 address) }
{
    push_octal(text, u64::from(address), ADDRESS_DIGITS)
}

/// Tells how much was compared, and what was not.
pub fn push_summary(
    text: &mut Vec<u8>,
    rows: &RowKinds,
    tallies: &Tallies,
    span: AddressSpan,
) -> Result<(), AllocError>
    ensures { (found : Findings) → IsReading found.rows rows.now → AreTallies found (addresses span.low span.high) tallies.now
        → OnOk result (text.new.items ≡ text.old.items ++ summary.summary found span.low span.high) }
{
    push_compared(text, tallies, rows.counts.read)?;
    push_tally(text, b"unknown: ", tallies.unknown, b" digits")?;
    push_tally(text, b"twice: ", tallies.denied, b" digits with two values")?;
    push_tally(text, b"not given: ", tallies.absent, b" words of the deck")?;
    push_tally(text, b"in part: ", tallies.in_part, b" words")?;
    push_unread(text, unread_count(rows), first_unread(rows))?;
    push_other(text, rows.counts.other, rows.first_other)?;
    push_differing(text, tallies, span)?;
    Ok(())
}

fn unread_count(rows: &RowKinds) -> usize
    ensures { result ≡ length rows.now.unread.items }
{
    rows.unread.len()
}

/// The first row that isn't read.
pub fn first_unread(rows: &RowKinds) -> Option<UnreadRow>
    ensures { result ≡ slice_get rows.now.unread.items 0 }
{
    rows.unread.first().copied()
}

fn push_compared(text: &mut Vec<u8>, tallies: &Tallies, rows: usize) -> Result<(), AllocError>
    ensures { (found : Findings) (among : List ℕ) → AreTallies found among tallies.now → rows ≡ count_by is_read found.rows
        → OnOk result (text.new.items ≡ text.old.items ++ summary.compared_row found among) }
{
    text.extend_from_slice(b"compared: ")?;
    push_decimal(text, tallies.known.count)?;
    text.extend_from_slice(b" digits of ")?;
    push_decimal(text, tallies.given.count)?;
    text.extend_from_slice(b" words, in ")?;
    push_decimal(text, rows as u64)?;
    text.extend_from_slice(b" rows\n")
}

/// Tells how many there are, and at which address the first is, where there are some.
fn push_tally(
    text: &mut Vec<u8>,
    before: &[u8],
    tally: Tally,
    behind: &[u8],
) -> Result<(), AllocError>
    ensures { (count : ℕ → ℕ) (among : List ℕ) → IsTally count among tally
        → OnOk result (text.new.items ≡ text.old.items ++ summary.tally_row before.now behind.now count among) }
{
    let Some(first) = tally.first else {
        return Ok(());
    };
    text.extend_from_slice(before)?;
    push_decimal(text, tally.count)?;
    text.extend_from_slice(behind)?;
    text.extend_from_slice(b", first at ")?;
    push_address(text, first)?;
    text.push(b'\n')?;
    Ok(())
}

/// Tells how many rows aren't read, and the first.
fn push_unread(text: &mut Vec<u8>, count: usize, first: Option<UnreadRow>) -> Result<(), AllocError>
    ensures { OnOk result (text.new.items ≡ text.old.items ++ summary.unread_row count first) }
{
    let Some(row) = first else {
        return Ok(());
    };
    text.extend_from_slice(b"not read: ")?;
    push_decimal(text, count as u64)?;
    text.extend_from_slice(b" rows, first row ")?;
    push_decimal(text, row.number as u64)?;
    text.extend_from_slice(b": ")?;
    push_reason(text, row.reason)?;
    text.push(b'\n')?;
    Ok(())
}

/// Tells how many rows have other text, and the first.
fn push_other(text: &mut Vec<u8>, count: usize, first: Option<usize>) -> Result<(), AllocError>
    ensures { OnOk result (text.new.items ≡ text.old.items ++ summary.other_row count first) }
{
    let Some(first) = first else {
        return Ok(());
    };
    text.extend_from_slice(b"other text: ")?;
    push_decimal(text, count as u64)?;
    text.extend_from_slice(b" rows, first row ")?;
    push_decimal(text, first as u64)?;
    text.push(b'\n')?;
    Ok(())
}

fn push_differing(
    text: &mut Vec<u8>,
    tallies: &Tallies,
    span: AddressSpan,
) -> Result<(), AllocError>
    ensures { OnOk result (text.new.items ≡ text.old.items
        ++ summary.differing_row tallies.now.differing.count tallies.now.compared.count span.low span.high) }
{
    push_decimal(text, tallies.differing.count)?;
    text.extend_from_slice(b" of ")?;
    push_decimal(text, tallies.compared.count)?;
    text.extend_from_slice(b" words differ (")?;
    push_address(text, span.low)?;
    text.extend_from_slice(b" to ")?;
    push_address(text, span.high)?;
    text.extend_from_slice(b")\n")
}

/// Tells each row that isn't read, and why, where all are to be told.
pub fn push_unread_rows(text: &mut Vec<u8>, all: bool, rows: &[UnreadRow]) -> Result<(), AllocError>
    ensures { OnOk result (text.new.items ≡ text.old.items ++ (if all then summary.each_unread rows.now else [])) }
{
    if all {
        push_each_unread(text, rows)
    } else {
        Ok(())
    }
}

fn push_each_unread(text: &mut Vec<u8>, rows: &[UnreadRow]) -> Result<(), AllocError>
    ensures { OnOk result (text.new.items ≡ text.old.items ++ summary.each_unread rows.now) }
{
    for row in rows {
        push_unread_row(text, *row)?;
    }
    Ok(())
}

fn push_unread_row(text: &mut Vec<u8>, row: UnreadRow) -> Result<(), AllocError>
    ensures { OnOk result (text.new.items ≡ text.old.items ++ summary.unread_told row) }
{
    text.extend_from_slice(b"row ")?;
    push_decimal(text, row.number as u64)?;
    text.extend_from_slice(b" isn't read: ")?;
    push_reason(text, row.reason)?;
    text.push(b'\n')?;
    Ok(())
}

/// Tells why a row isn't read.
fn push_reason(text: &mut Vec<u8>, reason: UnreadReason) -> Result<(), AllocError>
    ensures { OnOk result (text.new.items ≡ text.old.items ++ reason_text reason) }
{
    let words = reason.words();
    text.extend_from_slice(words.before.as_bytes())?;
    if let Some(count) = words.digits {
        push_decimal(text, count as u64)?;
        text.extend_from_slice(b" digits")?;
    }
    Ok(())
}
