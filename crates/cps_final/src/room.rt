//! How much room the rows and the bits of a line take.
use cps_expr::Machine;
use cps_state::{Item, Made, WORD, word_bits};

/// How many rows these statements have.
pub fn count_rows(items: &[Item]) -> usize {
    let mut count: usize = 0;
    for item in items {
        count = count.saturating_add(count_rows_of(&item.made));
    }
    count
}

/// One for each content, or one alone.
fn count_rows_of(made: &Made) -> usize {
    if made.only_flags() {
        1
    } else {
        made.contents().len().max(1)
    }
}

/// How many pieces the bits of these statements are, if none is cut.
pub fn count_pieces(items: &[Item]) -> usize {
    let mut count: usize = 0;
    for item in items {
        count = count.saturating_add(count_pieces_of(&item.made));
    }
    count
}

/// The filling, the zeros, and the contents.
fn count_pieces_of(made: &Made) -> usize {
    let skipped = usize::from(made.filling().is_some()) + usize::from(made.zeros() > 0);
    if made.only_flags() {
        skipped
    } else {
        skipped.saturating_add(count_contents_pieces(made))
    }
}

/// One for each word that a content touches, and one for the rest of the last word.
fn count_contents_pieces(made: &Made) -> usize {
    let bits = word_bits(made.machine());
    let mut used = (made.start() % WORD) as u8;
    let mut count: usize = 0;
    for content in made.contents() {
        let end = used.saturating_add(content.width());
        count = count.saturating_add(usize::from(end.div_ceil(bits)));
        used = end % bits;
    }
    let has_rest = made.machine() == Machine::Pp && used > 0;
    count.saturating_add(usize::from(has_rest))
}
