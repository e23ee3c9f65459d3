//! Where the rows of an octal text stand.

/// Where a row without an address goes on: behind the first digits of a word.
#[derive(Clone, Copy)]
pub struct WordPlace {
    /// The address of the word as the text has it, before the offset.
    pub address: u64,
    /// How many digits of the word stand in the rows above.
    pub count: usize,
}

/// What the rows above leave to the next one.
#[derive(Clone, Copy)]
pub struct RowStand {
    /// Where a row without an address goes on. None: nowhere.
    pub place: Option<WordPlace>,
    /// The column, from 0 on, in which the digits of the last row with an address began.
    pub column: Option<u128>,
    /// The address, as the text has it, of a row that isn't read. Behind it nothing goes on.
    pub lost: Option<u64>,
    /// How many words stand again by the rows above.
    pub repeated: usize,
}
