//! The form of a row's instruction.

/// The form of an instruction: its operation, with i for the digit of a register, its operands and its code, with letters for its fields, in the
/// columns of the listing, and what it does.
#[derive(Clone, Copy)]
pub struct RowForm<'a> {
    pub name: &'a [u8],
    pub operands: &'a [u8],
    pub code: &'a [u8],
    /// Empty where nothing is told of it.
    pub sentence: &'a [u8],
}
