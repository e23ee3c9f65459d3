//! Where a symbol stands in a line.

use crate::words::{begins_word, symbol_at};
use cps_cause::{Columns, filled_columns};
use cps_text::Name;

/// Where a symbol first stands in a line as a word, in bytes. Where it stands there in no word, as one that a statement of an expansion writes, all of the line
/// without the blanks at its ends.
pub fn columns_of(line: &[u8], name: Name) -> Columns {
    for at in 0..line.len() {
        if begins_word(line, at) && symbol_at(line, at) == Some(name) {
            return Columns::behind(at, name.text().len());
        }
    }
    filled_columns(line)
}
