/// The machine that a program is for: the central processor, or a peripheral processor.
#[derive(Clone, Copy, PartialEq, Eq)]
pub enum Machine {
    Cp,
    Pp,
}
