//! What a report begins with.
ghost use Rattle.std.specs.Prelude.{◌≡◌, ◌++◌, OnOk};
ghost use Rattle.cps_check.specs.Texts as texts;

use crate::report_kind::ReportKind;
use cps_cause::Letter;
use cps_list::push_decimal;
use cps_state::Flags;
use std::alloc::AllocError;

/// Appends where a report stands, and what it tells: of a flag its letter.
pub fn push_head(
    text: &mut Vec<u8>,
    name: &[u8],
    number: u32,
    column: usize,
    kind: ReportKind,
) -> Result<(), AllocError>
    ensures { OnOk result (text.new.items ≡ text.old.items ++ texts.head_of name.now number column kind) }
{
    text.extend_from_slice(name)?;
    text.extend_from_slice(b":")?;
    push_decimal(text, u64::from(number))?;
    text.extend_from_slice(b":")?;
    push_decimal(text, column as u64)?;
    text.extend_from_slice(b": ")?;
    push_kind(text, kind)
}

fn push_kind(text: &mut Vec<u8>, kind: ReportKind) -> Result<(), AllocError>
    ensures { OnOk result (text.new.items ≡ text.old.items ++ texts.kind_text kind) }
{
    match kind {
        ReportKind::Flag(letter) => push_flag_kind(text, letter),
        ReportKind::Wrong => text.extend_from_slice(b"error: "),
        ReportKind::Note => text.extend_from_slice(b"note: "),
    }
}

fn push_flag_kind(text: &mut Vec<u8>, letter: Letter) -> Result<(), AllocError>
    ensures { OnOk result (text.new.items ≡ text.old.items ++ texts.flag_text letter) }
{
    text.extend_from_slice(b"error: ")?;
    letter.added_to(Flags::none()).push_letters(text)?;
    text.extend_from_slice(b": ")
}
