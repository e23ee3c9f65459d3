/// The base of numbers that no letter marks: the BASE statement sets it.
#[derive(Clone, Copy, PartialEq, Eq)]
pub enum Radix {
    Octal,
    Decimal,
}
