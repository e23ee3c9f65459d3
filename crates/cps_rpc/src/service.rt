//! What answers messages.

use std::alloc::AllocError;

/// What answers messages, one after another.
pub trait Service {
    ghost use Rattle.std.specs.Prelude.{◌≡◌, ℕ, Bool, List, ◌++◌, OnOk};

    /// From where it stands, it may answer a message by a text, and then it stands there.
    ghost answers: { Self → List ℕ → List ℕ → Self → Type 0 };

    /// It answers no more.
    ghost has_ended: { Self → Bool };

    /// Answers a message: appends all that is said to it, which may be nothing. After an error, which is want of memory, it isn't told
    /// what was appended, nor where the service stands.
    fn answer(&mut self, message: &[u8], said: &mut Vec<u8>) -> Result<(), AllocError>
        ensures { OnOk result ((text : List ℕ) × (said.new.items ≡ said.old.items ++ text) × answers self.old message.now text self.new) };

    /// Whether it answers no more.
    fn has_ended(&self) -> bool
        ensures { result ≡ has_ended self.now };
}
