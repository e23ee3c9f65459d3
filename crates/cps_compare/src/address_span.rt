//! The addresses that are compared.

/// The first and the last address that are compared, both counted.
#[derive(Clone, Copy)]
pub struct AddressSpan {
    pub low: u32,
    pub high: u32,
}
