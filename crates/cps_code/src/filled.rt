/// A code with values in its holes.
#[derive(Clone, Copy, Debug, PartialEq, Eq)]
pub struct Filled {
    /// The digits as a number.
    pub digits: u64,
    /// Some value doesn't fit its hole: flag T.
    pub is_truncated: bool,
    /// Some value is none that its hole can hold, a count below 0 or a target that is too far: flag A. It is put as 0.
    pub is_out_of_range: bool,
}
