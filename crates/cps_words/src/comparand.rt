//! What a source is compared with.
ghost use Rattle.std.specs.Prelude.{◌<◌, ◌^◌};
ghost use Rattle.std.specs.Option.{ForSome};

use cps_compare::CompareOptions;

/// An octal text, and what of it is compared with a source. The last address has at most six octal digits.
#[derive(Clone, Copy)]
pub struct Comparand<'a> {
    /// The name of the text's file, None for standard input.
    pub octal: Option<&'a str>,
    pub options: CompareOptions,
    ghost low: { ForSome options.to (λ to. to < 2 ^ 18) },
}
