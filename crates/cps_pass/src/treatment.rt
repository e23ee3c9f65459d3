//! What becomes of a line that is not assembled.
use crate::reading::Location;
use cps_state::{DupBody, Flags, MacroBody, Mode};
use cps_text::Name;

/// What becomes of a line that is skipped or kept.
#[derive(Drop)]
pub enum Treatment {
    /// It is passed: what is done with the lines after it; at which number it is kept, if it is; its flags.
    Passes(Mode, Option<u32>, Flags),
    /// It is the ELSE of the range that is skipped: the lines after it are assembled.
    Resumes(Location),
    /// It is the ENDM of the macro of this name, which stands for the body from now on.
    Defines(Name, MacroBody, Location),
    /// It closes the lines of DUP, which are opened. Whether it is one of them, and its flags.
    Opens(DupBody, bool, Flags),
}
