//! What other lines say, when the words of a cause are made.
use crate::origin::Origin;
use cps_text::Name;

/// In which lines of a source, from 1, what stands that words speak of. None: it isn't known, and the words do without.
pub trait Places {
    /// In which line a symbol first has a value.
    fn line_of_symbol(&self, name: Name) -> Option<u32>;

    /// Which line opened what is open: a range, or lines that are skipped or kept.
    fn line_of_opening(&self) -> Option<u32>;

    /// Which line ended the program.
    fn line_of_end(&self) -> Option<u32>;

    /// Which line ended the head of the program.
    fn line_of_body(&self) -> Option<u32>;

    /// In which line a statement of the expansion of the line at hand is written.
    fn line_of_origin(&self, origin: Origin) -> Option<u32>;
}
