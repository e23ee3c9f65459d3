ghost use Rattle.std.specs.Prelude.{◌≡◌, ◌<◌, bytes_eq, option_map, IfSome};
ghost use Rattle.cps_text.specs.Text.{capitals};
ghost use Rattle.cps_code.specs.PeripheralTable.{named, pp_table};
ghost use Rattle.cps_code.specs.Code.PeripheralRows.{row_values, layout_and_number};

use super::layout::Layout;
use super::peripheral_table::operations_with;
use crate::digits::first_and_rest;
use cps_text::capital;

/// The layout and the number of the operation that a name stands for.
pub fn named_operation(name: &[u8]) -> Option<(Layout, u8)>
    ensures operation { option_map layout_and_number (named pp_table name.now) ≡ result }
    ensures small { IfSome result (λ found. found.1 < 64) }
{
    match first_and_rest(name) {
        None => None,
        Some((first, _rest)) => find_operation(operations_with(capital(first)), name),
    }
}

fn find_operation(
    operations: &'static [(&'static [u8], Layout, u8)],
    name: &[u8],
) -> Option<(Layout, u8)>
    ensures { option_map layout_and_number (named (row_values operations.now) name.now) ≡ result }
{
    for (letters, layout, number) in operations {
        if is_named(letters, name) {
            return Some((*layout, *number));
        }
    }
    None
}

/// Whether a name is the same in capitals.
fn is_named(letters: &[u8], name: &[u8]) -> bool
    ensures { result ≡ bytes_eq letters.now (capitals name.now) }
{
    let mut rest = name;
    for letter in letters {
        match rest {
            [first, others @ ..] if *letter == capital(*first) => rest = others,
            _ => return false,
        }
    }
    rest.is_empty()
}
