//! Data items.
ghost use Rattle.std.specs.Prelude.{◌≡◌, ◌^◌, ◌<◌, ◌≤◌, length, IfSome};
ghost use Rattle.cps_text.specs.DataItem.{cp_characters};
ghost use Rattle.cps_expr.specs.Item.{bits_of, characters_in_word, item_of};

use crate::item_number::number_item;
use crate::item_text::text_item;
use crate::machine::Machine;
use crate::radix::Radix;
use cps_text::{CP_CHARACTERS, PP_CHARACTERS};

/// The data item that a text begins with: its word, of 60 bits in the central processor and 12 in a peripheral one,
/// and how many characters it takes.
pub fn read_item(text: &[u8], radix: Radix, machine: Machine) -> Option<(u64, usize)>
    ensures item { result ≡ item_of radix machine text.now }
    ensures some { IfSome result (λ item. 0 < item.1) }
    ensures within { IfSome result (λ item. item.1 ≤ length text.now) }
    ensures fits { IfSome result (λ item. item.0 < 2 ^ bits_of machine) }
{
    match number_item(text, radix, machine) {
        Some(item) => Some(item),
        None => text_item(text, characters(machine)),
    }
}

/// The most characters that a word has.
fn characters(machine: Machine) -> usize
    ensures characters { result ≡ characters_in_word machine }
    ensures few { result ≤ cp_characters }
    ensures bits { 64 ^ result ≡ 2 ^ bits_of machine }
{
    match machine {
        Machine::Cp => CP_CHARACTERS,
        Machine::Pp => PP_CHARACTERS,
    }
}
