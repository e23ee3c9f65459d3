//! The bytes of an input, as they come.
ghost use Rattle.std.specs.Prelude.{◌≡◌, ℕ, List, [], ◌++◌, IfOk, IfErr};
ghost use Rattle.cps_input.specs.Code.Input.{HasBytes};

use super::input_fault::InputFault;
use super::taker::Taker;
use std::alloc::Global;
use std::mem::replace;

/// Bytes that have come one after another.
#[derive(Drop)]
pub enum KeptBytes {
    /// All of them.
    Kept(Vec<u8>),
    /// There was no memory for them, and none is kept.
    Refused,
}

impl KeptBytes {
    /// No byte.
    pub fn new(alloc: Global) -> KeptBytes
        ensures { HasBytes result [] }
    {
        KeptBytes::Kept(Vec::new(alloc))
    }

    /// These bytes and some more. Their room is doubled where it is too small.
    fn with_bytes(self, bytes: &[u8]) -> KeptBytes
        ensures { (taken : List ℕ) → HasBytes self taken → HasBytes result (taken ++ bytes.now) }
    {
        match self {
            KeptBytes::Kept(kept) => extend(kept, bytes),
            KeptBytes::Refused => KeptBytes::Refused,
        }
    }

    /// The bytes, if there was memory.
    pub fn into_bytes(self) -> Result<Vec<u8>, InputFault>
        ensures bytes { IfOk result (λ bytes. (taken : List ℕ) → HasBytes self taken → bytes.items ≡ taken) }
        ensures fault { IfErr result (λ fault. fault ≡ InputFault.Memory) }
    {
        match self {
            KeptBytes::Kept(kept) => Ok(kept),
            KeptBytes::Refused => Err(InputFault::Memory),
        }
    }
}

impl Taker for KeptBytes {
    ghost use Rattle.cps_input.specs.Code.Input.{HasBytes};

    ghost has_come = { λ bytes taken. HasBytes bytes taken };

    fn take_bytes(&mut self, bytes: &[u8]) {
        let kept = replace(self, KeptBytes::Refused);
        *self = kept.with_bytes(bytes);
    }
}

/// These bytes and some more, if there is memory for them.
fn extend(kept: Vec<u8>, bytes: &[u8]) -> KeptBytes
    ensures { HasBytes result (kept.items ++ bytes.now) }
{
    let mut kept = kept;
    match kept.extend_from_slice(bytes) {
        Ok(_) => KeptBytes::Kept(kept),
        Err(_) => KeptBytes::Refused,
    }
}
