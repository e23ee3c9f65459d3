//! What takes the bytes of an input.

/// What takes the bytes of an input as they come. It takes all of them, also where there is no memory to keep them.
pub trait Taker {
    ghost use Rattle.std.specs.Prelude.{ℕ, List, ◌++◌};

    /// These bytes have come.
    ghost has_come: { Self → List ℕ → Type 0 };

    /// Takes the next bytes.
    fn take_bytes(&mut self, bytes: &[u8])
        requires { (taken : List ℕ) × has_come self.old taken }
        ensures { (taken : List ℕ) → has_come self.old taken → has_come self.new (taken ++ bytes.now) };
}
