//! What stands before the operands of a statement.
use crate::reading::Location;
use cps_state::Control;

/// What stands before the operands of a statement: the control that holds there, and the location field.
#[derive(Clone, Copy, PartialEq, Eq)]
pub struct Context {
    pub control: Control,
    pub location: Location,
}
