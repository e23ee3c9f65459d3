//! What two tests say together. As functions they keep proofs short.
ghost use Rattle.std.specs.Prelude.{◌≡◌, ◌&&◌, ◌||◌};

pub fn both(one: bool, other: bool) -> bool
    ensures { result ≡ (one && other) }
{
    one && other
}

pub fn either(one: bool, other: bool) -> bool
    ensures { result ≡ (one || other) }
{
    one || other
}
