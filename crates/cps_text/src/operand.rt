//! The first operand of a text.
ghost use Rattle.std.specs.Prelude.{◌≡◌, ◌≤◌, ◌<◌, length, IfSome};
ghost use Rattle.std.specs.List.{position, position_or_len};
ghost use Rattle.cps_text.specs.DataItem.{cp_characters};
ghost use Rattle.cps_text.specs.ItemInFront.{item_len};
ghost use Rattle.cps_text.specs.Operands.{literal_len, operand_len};
ghost use Rattle.cps_text.specs.Parts.{ends_part};

use crate::data_item::{CP_CHARACTERS, TextItem};
use crate::places::from;

/// How many characters the first operand has.
pub fn operand_len(text: &[u8]) -> usize
    ensures place { result ≡ operand_len text.now }
    ensures within { result ≤ length text.now }
{
    let literal = literal_len(text);
    literal + first_end(from(text, literal))
}

/// How many characters the literal in front has whose end doesn't matter.
fn literal_len(text: &[u8]) -> usize
    ensures place { result ≡ literal_len text.now }
    ensures within { result ≤ length text.now }
{
    match text {
        [b'=', item @ ..] => item_len(item) + 1,
        _ => 0,
    }
}

/// How many characters the item in front takes.
#[tactic(auto, unfolding(crate::specs::ItemInFront::item_in_front))]
fn item_len(text: &[u8]) -> usize
    ensures len { result ≡ item_len cp_characters text.now }
    ensures within { result ≤ length text.now }
{
    match TextItem::read(text, CP_CHARACTERS) {
        Some(item) => text.len() - item.rest.len(),
        None => 0,
    }
}

/// Where the first comma or blank stands, or the length.
fn first_end(text: &[u8]) -> usize
    ensures place { result ≡ position_or_len ends_part text.now }
    ensures within { result ≤ length text.now }
{
    match end_at(text) {
        Some(at) => at,
        None => text.len(),
    }
}

fn end_at(text: &[u8]) -> Option<usize>
    ensures place { result ≡ position ends_part text.now }
    ensures within { IfSome result (λ at. at < length text.now) }
{
    text.iter().position(|byte| *byte == b',' || *byte == b' ')
}
