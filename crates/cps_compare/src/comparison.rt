//! The comparison as a whole.
ghost use Rattle.std.specs.Prelude.{◌≡◌, ◌<◌, ◌^◌, slice_get, IfOk, IfSome, MatchOption};
ghost use Rattle.std.specs.Option.{ForSome};
ghost use Rattle.cps_list.specs.Assembly.{Assembly};
ghost use Rattle.cps_drift.specs.Drift.{IsDriftText};
ghost use Rattle.cps_compare.specs.Findings.{Findings};
ghost use Rattle.cps_compare.specs.Comparison as specs;
ghost use Rattle.cps_compare.specs.Comparison.{Compares, findings_in};
ghost use Rattle.cps_compare.specs.Code.Kept.{AreKept, AreListed, AreWords, IsToldOf, why_unread};

use super::address_span::AddressSpan;
use super::compare_fault::CompareFault;
use super::compare_format::CompareFormat;
use super::compare_options::CompareOptions;
use super::deck_words::DeckWords;
use super::listed_deck::list_deck;
use super::listed_sides::ListedSides;
use super::sides::Sides;
use super::survey::Tallies;
use super::telling::{Telling, first_unread, push_summary, push_unread_rows};
use super::word_sides::WordSides;
use cps_claims::{OctalFormat, OctalLayout, RowKinds, WordForm, read_octal, read_own};
use cps_drift::drift_rows;
use cps_expr::Machine;
use cps_list::View;
use std::alloc::{AllocError, Global};

/// What a comparison gives.
#[derive(Drop)]
pub struct Comparison {
    /// What is told: the rows of the words that differ, by rising addresses, and of how much was compared.
    pub text: Vec<u8>,
    /// How many words differ.
    pub differing: u32,
}

/// Compares an octal listing or dump with the words of an assembled source, those of its binary text; or a listing of this program with the
/// one of the source.
///
/// Each row of the octal text is read, blank, of other text, or not read; each digit that is read is compared. A word differs where a digit
/// that can be read isn't the source's; with `whole` also where digits lack.
///
/// Where no digit is compared, that is a fault: the two sides don't agree by that. The caller writes the text. No address of the options
/// may have more than six octal digits.
pub fn compare<V: View>(
    alloc: Global,
    view: &V,
    octal: &[u8],
    options: CompareOptions,
) -> Result<Comparison, CompareFault>
    requires { ForSome options.to (λ to. to < 2 ^ 18) }
    ensures { Compares options (findings_in options octal.now (V.assembly view.now)) result }
{
    let Ok(sides) = sides_of(alloc, view, octal, options) else {
        return Err(CompareFault::Memory);
    };
    if sides.rows().counts.read == 0 {
        return Err(why_no_row(sides.rows()));
    }
    let Some(span) = span(&sides, options) else {
        return Err(CompareFault::NoDigit);
    };
    if !sides.gives_some(span) {
        return Err(CompareFault::Nothing(span.low, span.high));
    }
    match tell_all(alloc, view, &sides, options.all, span) {
        Ok(comparison) => Ok(comparison),
        Err(_) => Err(CompareFault::Memory),
    }
}

/// Reads an octal text beside an assembled source.
fn sides_of<V: View>(
    alloc: Global,
    view: &V,
    octal: &[u8],
    options: CompareOptions,
) -> Result<Sides, AllocError>
    ensures { IfOk result (λ sides. AreKept sides (V.assembly view.now) (findings_in options octal.now (V.assembly view.now))) }
{
    match options.format {
        CompareFormat::Words(format) => {
            let sides = word_sides(alloc, view, octal, format, options)?;
            Ok(Sides::Words(sides))
        }
        CompareFormat::Own => {
            let sides = listed_sides(alloc, view, octal, options)?;
            Ok(Sides::Listed(sides))
        }
    }
}

fn word_sides<V: View>(
    alloc: Global,
    view: &V,
    octal: &[u8],
    format: OctalFormat,
    options: CompareOptions,
) -> Result<WordSides, AllocError>
    ensures { IfOk result (λ sides. AreWords sides (V.assembly view.now) (specs.sides_of options format octal.now (V.assembly view.now))) }
{
    let machine = view.finals().machine();
    let layout = layout_of(machine, format, options);
    let reading = read_octal(alloc, octal, layout)?;
    let deck = DeckWords::of(alloc, view)?;
    Ok(WordSides {
        machine,
        reading,
        deck,
        whole: options.whole,
    })
}

fn listed_sides<V: View>(
    alloc: Global,
    view: &V,
    octal: &[u8],
    options: CompareOptions,
) -> Result<ListedSides, AllocError>
    ensures { IfOk result (λ sides. AreListed sides (V.assembly view.now) (specs.listed_sides options octal.now (V.assembly view.now))) }
{
    let reading = read_own(alloc, octal, options.offset)?;
    let deck = list_deck(alloc, view)?;
    Ok(ListedSides {
        reading,
        deck,
        whole: options.whole,
    })
}

/// How an octal text is laid out.
fn layout_of(machine: Machine, format: OctalFormat, options: CompareOptions) -> OctalLayout
    ensures { result ≡ record { form = specs.form_of machine; format = format; columns = options.columns; offset = options.offset } }
{
    OctalLayout {
        form: form_of(machine),
        format,
        columns: options.columns,
        offset: options.offset,
    }
}

fn form_of(machine: Machine) -> WordForm
    ensures { result ≡ specs.form_of machine }
{
    match machine {
        Machine::Cp => WordForm::Central,
        Machine::Pp => WordForm::Peripheral,
    }
}

/// Why no row of an octal text is read.
fn why_no_row(rows: &RowKinds) -> CompareFault
    ensures { result ≡ why_unread (slice_get rows.now.unread.items 0) }
{
    match first_unread(rows) {
        Some(row) => CompareFault::Unread(row.number, row.reason),
        None => CompareFault::NoRow,
    }
}

/// The addresses that are compared. None: no digit of the octal text can be read.
fn span(sides: &Sides, options: CompareOptions) -> Option<AddressSpan>
    requires { ForSome options.to (λ to. to < 2 ^ 18) }
    ensures span { (assembly : Assembly) (found : Findings) → AreKept sides.now assembly found
        → MatchOption result (specs.NoneGiven found) (λ span. specs.AreLimits options found span.low span.high) }
    ensures few { IfSome result (λ span. span.high < 2 ^ 18) }
{
    let Some(first) = sides.first() else {
        return None;
    };
    let Some(last) = sides.last() else {
        return None;
    };
    Some(AddressSpan {
        low: options.from.unwrap_or(first),
        high: options.to.unwrap_or(last),
    })
}

/// Tells what differs from one address to another, and how much was compared.
fn tell_all<V: View>(
    alloc: Global,
    view: &V,
    sides: &Sides,
    all: bool,
    span: AddressSpan,
) -> Result<Comparison, AllocError>
    requires { span.high < 2 ^ 18 }
    ensures { (found : Findings) → AreKept sides.now (V.assembly view.now) found
        → IfOk result (IsToldOf found all span.low span.high) }
{
    let survey = sides.survey(alloc, span)?;
    let mut telling = Telling::new(alloc);
    sides.tell_runs(view, all, &survey.words, &mut telling)?;
    let mut text = telling.text;
    let drift = drift_of(alloc, view, sides, &survey.tallies, span)?;
    text.extend_from_slice(&drift)?;
    let rows = sides.rows();
    push_unread_rows(&mut text, all, &rows.unread)?;
    push_summary(&mut text, rows, &survey.tallies, span)?;
    Ok(Comparison {
        text,
        differing: survey.tallies.differing.count as u32,
    })
}

/// Where code moved, if more than one word differs. Of this program's own listing nothing is told.
fn drift_of<V: View>(
    alloc: Global,
    view: &V,
    sides: &Sides,
    tallies: &Tallies,
    span: AddressSpan,
) -> Result<Vec<u8>, AllocError>
    ensures { IfOk result (λ text. IsDriftText text.items) }
{
    match sides {
        Sides::Words(sides) if tallies.differing.count >= 2 => {
            drift_rows(alloc, view, &sides.reading.words, span.low, span.high)
        }
        _ => Ok(Vec::new(alloc)),
    }
}
