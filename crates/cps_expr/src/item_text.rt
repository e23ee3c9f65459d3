//! Data items of characters.
ghost use Rattle.std.specs.Prelude.{◌≡◌, ◌^◌, ◌<◌, ◌≤◌, length, IfSome};
ghost use Rattle.cps_text.specs.DataItem.{cp_characters};
ghost use Rattle.cps_expr.specs.Item.{text_item};

use crate::packing::text_word;
use cps_text::TextItem;

/// The item of characters in front of a text, of at most so many: its word and how many characters it has in all.
pub fn text_item(text: &[u8], most: usize) -> Option<(u64, usize)>
    requires { most ≤ cp_characters }
    ensures item { result ≡ text_item most text.now }
    ensures some { IfSome result (λ item. 0 < item.1) }
    ensures within { IfSome result (λ item. item.1 ≤ length text.now) }
    ensures fits { IfSome result (λ item. item.0 < 64 ^ most) }
{
    let item = TextItem::read(text, most)?;
    Some((text_word(item, most), text.len() - item.rest.len()))
}
