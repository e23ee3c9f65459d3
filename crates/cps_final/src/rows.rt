//! The rows of a statement in pass two.
ghost use Rattle.std.specs.Prelude.{◌≡◌, ◌++◌, ◌≤◌, [], ◌∷◌, true, nat_le, flat_map, OnOk};
ghost use Rattle.std.specs.List.{list_any};
ghost use Rattle.cps_code.specs.Operand.{operand_literals};
ghost use Rattle.cps_state.specs.Machines.{limit};
ghost use Rattle.cps_state.specs.Made.{IsContent};
ghost use Rattle.cps_final.specs.Resolving.{resolved, view_of};
ghost use Rattle.cps_final.specs.Rows as shown;
ghost use Rattle.cps_final.specs.Values as values;

use crate::finals::Finals;
use crate::octal_digits::{Code, OctalDigits, ShortCode};
use crate::placed_statement::PlacedStatement;
use crate::row::Row;
use crate::valued::{PlacedContent, value_content};
use cps_code::{Hole, Operand, complement};
use cps_expr::Machine;
use cps_state::{Content, Flags, Item, Shared, Shown, WORD, limit_of};
use std::alloc::AllocError;

/// The bits of a central processor's word.
const WORD_BITS: u8 = 60;

/// The bits of a peripheral processor's word.
const PERIPHERAL_BITS: u8 = 12;

/// A row, as one of a statement.
#[inline(always)]
pub fn push_row(rows: &mut Vec<Row>, item: &Item, row: Row) -> Result<(), AllocError>
    ensures { OnOk result (rows.new.items ≡ rows.old.items ++ shown.row_of item.now row ∷ []) }
{
    rows.push(row.of_item(item)?)?;
    Ok(())
}

/// The row of a content at a place of its block.
pub fn row_at(
    statement: &PlacedStatement,
    flags: Flags,
    is_later: bool,
    placed: PlacedContent,
) -> Row
    requires content { IsContent placed.content.now }
    requires number { placed.valued.number ≡ values.number_of (view_of statement.now).known (view_of statement.now).here placed.content.now }
    requires flags { placed.valued.flags ≡ values.value_flags (view_of statement.now).known (view_of statement.now).here placed.content.now }
    ensures { result ≡ shown.row_at (view_of statement.now) flags is_later placed.entry.at placed.entry.content.now }
{
    let PlacedContent {
        content,
        at,
        valued,
    } = placed;
    let machine = statement.machine();
    let address = statement.base() + u64::from(at / WORD);
    Row {
        flags: flags
            .joined(valued.flags)
            .joined(literal_flags(content, statement))
            .joined(limit_flags(machine, address)),
        location: Some(address),
        code: Code::of(first_digits(machine, content, valued.number)),
        second: second_digits(machine, content, valued.number),
        is_later,
        depth: 0,
        text: Shared::empty(),
    }
}

/// A row that shows nothing but flags.
fn blank_row(flags: Flags) -> Row
    ensures { result ≡ shown.blank_row flags }
{
    Row {
        flags,
        location: None,
        code: Code::absent(),
        second: ShortCode::absent(),
        is_later: false,
        depth: 0,
        text: Shared::empty(),
    }
}

/// The flags of a statement, and those that its contents give.
fn flags_with_contents(item: &Item, finals: &Finals) -> Flags
    ensures { let statement = values.placed_statement (resolved finals.now) item.now in
        result ≡ shown.with_contents statement.known statement.here item.now.made.flags item.now.made.contents }
{
    let statement = PlacedStatement::of(item, finals);
    let mut flags = item.made.flags();
    for content in item.made.contents() {
        flags = flags.joined(value_content(content, &statement).flags);
    }
    flags
}

/// The row of a statement that only gives flags.
pub fn flags_row(item: &Item, finals: &Finals) -> Row
    requires { item.now.made.only_flags ≡ true }
    ensures { shown.rows_made (resolved finals.now) item.now ≡ result ∷ [] }
{
    if item.made.contents().is_empty() {
        statement_row(item, finals)
    } else {
        blank_row(flags_with_contents(item, finals))
    }
}

/// E at or past the machine's words.
fn limit_flags(machine: Machine, address: u64) -> Flags
    ensures { result ≡ shown.limit_flags machine address }
{
    let mut flags = Flags::none();
    flags.structure = address >= u64::from(limit_of(machine));
    flags
}

/// E where a literal stands at or past the machine's words.
fn literal_flags(content: &Content, statement: &PlacedStatement) -> Flags
    ensures { result ≡ shown.literal_flags (view_of statement.now).known.literals (view_of statement.now).machine content.now }
{
    let mut flags = Flags::none();
    flags.structure = has_far_literal(content.holes(), statement);
    flags
}

/// Whether one of the literals in holes stands there.
fn has_far_literal(holes: &[Hole], statement: &PlacedStatement) -> bool
    ensures { result ≡ list_any (λ word. nat_le (limit (view_of statement.now).machine) ((view_of statement.now).known.literals word))
        (flat_map (λ hole. operand_literals hole.operand) holes.now) }
{
    for hole in holes {
        if is_far_literal(&hole.operand, statement) {
            return true;
        }
    }
    false
}

fn is_far_literal(operand: &Operand, statement: &PlacedStatement) -> bool
    ensures { result ≡ list_any (λ word. nat_le (limit (view_of statement.now).machine) ((view_of statement.now).known.literals word)) (operand_literals operand.now) }
{
    match operand {
        Operand::Expression(_) => false,
        Operand::Literal(word) => statement.is_far_literal(*word),
    }
}

/// The row of a statement without contents.
pub fn statement_row(item: &Item, finals: &Finals) -> Row
    ensures { result ≡ shown.statement_row (resolved finals.now) item.now item.now.made.shown }
{
    let mut row = blank_row(item.made.flags());
    match item.made.shown() {
        Shown::Nothing => {}
        Shown::Value(value) => {
            if let Some(value) = finals.final_of(value) {
                row.code = Code::of(digits_for(WORD_BITS, complement(value.offset)));
            }
        }
        Shown::Address(value) => {
            if let Some(value) = finals.final_of(value) {
                row.location = Some(value.offset.unsigned_abs());
            }
        }
        Shown::Start => {
            let statement = PlacedStatement::of(item, finals);
            row.flags = row
                .flags
                .joined(limit_flags(statement.machine(), statement.here()));
            row.location = Some(statement.here());
        }
    }
    row
}

/// One digit for each three bits, rounded up.
fn digits_for(width: u8, number: u64) -> OctalDigits
    requires { width ≤ 60 }
    ensures { result ≡ shown.digits_for width number }
{
    OctalDigits {
        count: width.div_ceil(3),
        number,
    }
}

/// The digits of a content; of an instruction whose words are shown apart those of its first word.
fn first_digits(machine: Machine, content: &Content, number: u64) -> OctalDigits
    requires { IsContent content.now }
    ensures { result ≡ shown.first_digits machine content.now number }
{
    if is_parted(machine, content) {
        digits_for(PERIPHERAL_BITS, number >> PERIPHERAL_BITS)
    } else {
        digits_for(content.width(), number)
    }
}

/// The digits of the second word, where the words of an instruction are shown apart.
fn second_digits(machine: Machine, content: &Content, number: u64) -> ShortCode
    ensures { result ≡ shown.second_digits machine content.now number }
{
    if is_parted(machine, content) {
        ShortCode::of(digits_for(PERIPHERAL_BITS, number % (1 << PERIPHERAL_BITS)))
    } else {
        ShortCode::absent()
    }
}

/// Whether it is an instruction of two words of a peripheral processor.
fn is_parted(machine: Machine, content: &Content) -> bool
    ensures { result ≡ shown.is_parted machine content.now }
{
    match (machine, content) {
        (Machine::Pp, Content::Instruction(form)) => form.bits() > PERIPHERAL_BITS,
        _ => false,
    }
}
