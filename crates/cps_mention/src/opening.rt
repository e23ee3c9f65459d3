//! What a statement opens, with what wrote it.

use crate::statement_text::KeptText;
use cps_pass::Opened;

/// Lines that are opened so many times.
#[derive(Drop)]
pub struct Opening {
    pub lines: Vec<KeptText>,
    pub times: u32,
}

/// Whether statements are opened.
pub fn opens_some(opened: &Option<Opened<'_>>) -> bool {
    match opened {
        Some(Opened::Lines(repeated)) => repeated.times > 0 && !repeated.lines.is_empty(),
        Some(Opened::Naming(_)) => true,
        None => false,
    }
}
