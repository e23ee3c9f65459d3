/// How an instruction is laid out, and what it reads.
#[derive(Clone, Copy)]
pub enum Layout {
    /// One word; the variable field isn't read.
    Unread,
    /// One word with the distance to a target.
    Target,
    /// One word with d.
    Short,
    /// Two words with a constant of 18 bits.
    Constant,
    /// Two words, the second of which is m; d may stand in the first.
    Memory,
}
