/// The letters of the three kinds of registers.
#[derive(Clone, Copy, PartialEq, Eq)]
pub enum RegisterLetter {
    A,
    B,
    X,
}

/// A register that is a term of a sum, with its sign. The digit is 0 to 7.
#[derive(Clone, Copy, PartialEq, Eq)]
pub struct RegisterTerm {
    pub is_minus: bool,
    pub letter: RegisterLetter,
    pub digit: u8,
}
