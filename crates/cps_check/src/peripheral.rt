//! What is told of an instruction of a peripheral processor.
ghost use Rattle.std.specs.Prelude.{◌≡◌, ◌++◌, ◌∷◌, ◌≤◌, IfOk, OnOk, codes};
ghost use Rattle.cps_expr.specs.declared.radix.Radix.TheVariants.{Decimal};
ghost use Rattle.cps_code.specs.declared.layout.Layout.{Layout};
ghost use Rattle.cps_code.specs.PeripheralTable.{form_of, is_operation};
ghost use Rattle.cps_check.specs.Codes as coded;
ghost use Rattle.cps_check.specs.Peripheral.{form_text, peripheral_head, peripheral_text, row_text};
ghost use Rattle.cps_check.specs.Code.Kept.{IfZeroForm, IsShown, sentence_values, zero_holes};

use crate::fitting::behind;
use crate::front::{push_at_left, push_front};
use crate::names::row_name;
use crate::sentences::{Sentence, words_of};
use cps_code::{FormFault, Hole, HoleKind, PpForm, pp_form};
use cps_expr::Radix;
use cps_text::push_octal;
use std::alloc::{AllocError, Global};

/// The bits of an operation, and its octal digits.
const OPERATION_BITS: u8 = 6;

const OPERATION_DIGITS: u8 = 2;

/// The columns of what stands in a code behind the operation.
const LETTERS_COLUMNS: usize = 10;

/// Appends what is told of the operation of a name, if a peripheral processor has one. Says whether it has.
#[tactic(auto, using(crate::proofs::Zero::no_operation, crate::proofs::Zero::operation_by_form))]
pub fn push_peripheral(
    alloc: Global,
    text: &mut Vec<u8>,
    name: &[u8],
    sentences: &[Sentence],
) -> Result<bool, AllocError>
    ensures found { IfOk result (λ found. found ≡ is_operation name.now) }
    ensures text { IfOk result (λ found. text.new.items ≡ text.old.items ++ peripheral_text (sentence_values sentences.now) name.now) }
{
    let Some(form) = form_of_zero(alloc, name)? else {
        return Ok(false);
    };
    let shown = row_name(alloc, name)?;
    push_head(text)?;
    push_row(text, &shown, &form, sentences)?;
    Ok(true)
}

/// Appends the row of an operation with the fields of a code, if it has that code.
pub fn push_fitting_peripheral(
    alloc: Global,
    text: &mut Vec<u8>,
    given: &[u8],
    name: &[u8],
) -> Result<(), AllocError>
    ensures { OnOk result (text.new.items ≡ text.old.items ++ coded.fitting_peripheral given.now name.now) }
{
    let Some(form) = form_of_zero(alloc, name)? else {
        return Ok(());
    };
    let shown = row_name(alloc, name)?;
    push_fitting_form(alloc, text, given, &shown, &form)?;
    Ok(())
}

/// The form of an operation with the operand 0, which each takes: by it its row is known.
#[tactic(auto, using(crate::proofs::Zero::no_form))]
fn form_of_zero(alloc: Global, name: &[u8]) -> Result<Option<PpForm>, AllocError>
    ensures { IfOk result (λ form. form_of name.now (codes "0") Decimal ≡ form) }
{
    match pp_form(alloc, name, b"0", Radix::Decimal) {
        Ok(form) => Ok(Some(form)),
        Err(FormFault::NoOperation | FormFault::Unreadable) => Ok(None),
        Err(FormFault::Memory) => Err(AllocError),
    }
}

fn push_head(text: &mut Vec<u8>) -> Result<(), AllocError>
    ensures { OnOk result (text.new.items ≡ text.old.items ++ peripheral_head) }
{
    text.extend_from_slice(
        b"An instruction of a peripheral processor: d, m, c and a target are expressions,\n",
    )?;
    text.extend_from_slice(b"m and c may be literals.\n")
}

/// Appends the row of an operation, by its form with the operand 0.
fn push_row(
    text: &mut Vec<u8>,
    name: &[u8],
    form: &PpForm,
    sentences: &[Sentence],
) -> Result<(), AllocError>
    ensures { IfZeroForm form.now (λ layout number.
        OnOk result (text.new.items ≡ text.old.items ++ row_text (sentence_values sentences.now) name.now layout number)) }
{
    push_form(text, name, form, LETTERS_COLUMNS)?;
    text.extend_from_slice(words_of(sentences, name))?;
    text.push(b'\n')?;
    Ok(())
}

/// Appends a form; what stands in its code behind the operation has at least so many columns.
fn push_form(text: &mut Vec<u8>, name: &[u8], form: &PpForm, width: usize) -> Result<(), AllocError>
    requires { width ≤ 12 }
    ensures { IfZeroForm form.now (λ layout number. OnOk result (text.new.items ≡ text.old.items ++ form_text width name.now layout number)) }
{
    let shown = shown_by(form.holes());
    push_front(text, name, shown.operands, form.bits())?;
    push_octal(text, number_of(form), OPERATION_DIGITS)?;
    push_at_left(text, width, shown.letters)
}

/// Appends the row of an operation with the fields of a code, if it has that code, by its form with the operand 0.
fn push_fitting_form(
    alloc: Global,
    text: &mut Vec<u8>,
    given: &[u8],
    name: &[u8],
    form: &PpForm,
) -> Result<(), AllocError>
    ensures { IfZeroForm form.now (λ layout number.
        OnOk result (text.new.items ≡ text.old.items ++ coded.fitting_peripheral_text given.now name.now layout number)) }
{
    if !has_code(alloc, given, form)? {
        return Ok(());
    }
    push_form(text, name, form, 0)?;
    push_fields(text, shown_by(form.holes()).fields, behind(given, 2))?;
    text.push(b'\n')?;
    Ok(())
}

fn has_code(alloc: Global, given: &[u8], form: &PpForm) -> Result<bool, AllocError>
    ensures { IfZeroForm form.now (λ layout number. IfOk result (λ has. has ≡ coded.has_peripheral_code layout number given.now)) }
{
    let mut code = Vec::new(alloc);
    push_octal(&mut code, number_of(form), OPERATION_DIGITS)?;
    code.extend_from_slice(digits_behind(shown_by(form.holes()).fields, given))?;
    Ok(given.len() == usize::from(form.bits() / 3) && code.as_slice() == given)
}

/// What stands behind the operation, by the letters of its fields.
fn digits_behind<'a>(fields: &[u8], given: &'a [u8]) -> &'a [u8]
    ensures { result.now ≡ coded.digits_behind fields.now given.entry.now }
{
    if fields.is_empty() {
        b"00"
    } else {
        behind(given, 2)
    }
}

fn push_fields(text: &mut Vec<u8>, fields: &[u8], digits: &[u8]) -> Result<(), AllocError>
    ensures { OnOk result (text.new.items ≡ text.old.items ++ coded.fields_text fields.now digits.now) }
{
    match fields {
        [] => Ok(()),
        [field] => push_field(text, *field, digits),
        [field, other, ..] => {
            push_field(text, *field, &digits[..digits.len().min(2)])?;
            push_field(text, *other, behind(digits, 2))
        }
    }
}

fn push_field(text: &mut Vec<u8>, field: u8, digits: &[u8]) -> Result<(), AllocError>
    ensures { OnOk result (text.new.items ≡ text.old.items ++ codes ", " ++ field ∷ codes "=" ++ digits.now) }
{
    text.extend_from_slice(b", ")?;
    text.push(field)?;
    text.extend_from_slice(b"=")?;
    text.extend_from_slice(digits)
}

/// The number of an operation, by its form with the operand 0.
#[tactic(auto, using(crate::proofs::Zero::number_told))]
fn number_of(form: &PpForm) -> u64
    ensures { IfZeroForm form.now (λ layout number. result ≡ number) }
{
    let zeros = [0; 2];
    let filled = form.fill(&zeros[..form.holes().len()]);
    filled.digits >> (form.bits() - OPERATION_BITS)
}

/// What a row shows of an operation's layout: the operands, and letters for what they put into the code.
#[derive(Clone, Copy)]
struct LayoutRow {
    operands: &'static [u8],
    letters: &'static [u8],
    /// The letters of the fields.
    fields: &'static [u8],
}

impl LayoutRow {
    fn of(operands: &'static [u8], letters: &'static [u8], fields: &'static [u8]) -> LayoutRow
        ensures operands { result.operands.now ≡ operands.now }
        ensures letters { result.letters.now ≡ letters.now }
        ensures fields { result.fields.now ≡ fields.now }
    {
        LayoutRow {
            operands,
            letters,
            fields,
        }
    }
}

/// What is shown of the layout of an operation whose form with the operand 0 has these holes.
fn shown_by(holes: &[Hole]) -> LayoutRow
    ensures { (layout : Layout) → holes.now ≡ zero_holes layout → IsShown layout result }
{
    let [hole] = holes else {
        return LayoutRow::of(b"not read", b"00", b"");
    };
    match (hole.kind, hole.width) {
        (HoleKind::Target, _) => LayoutRow::of(b"a target", b"dd", b"d"),
        (_, 6) => LayoutRow::of(b"d", b"dd", b"d"),
        (_, 18) => LayoutRow::of(b"c", b"cc cccc", b"c"),
        _ => LayoutRow::of(b"m or m,d", b"dd mmmm", b"dm"),
    }
}
