//! A run of a check.
use cps_check::{CheckFault, CheckOptions, check};
use cps_state::Hashing;
use cps_text::Counted;
use std::alloc::Global;
use std::io::{Read, Write};

/// Checks an input under the name `a.cps`.
pub fn run<R: Read, W: Write>(
    alloc: Global,
    reader: &mut Counted<R>,
    writer: &mut Counted<W>,
) -> Result<bool, CheckFault> {
    check(alloc, Hashing::by(1), options_of(false), reader, writer)
}

/// The same, where errors alone are asked for.
pub fn run_for_errors<R: Read, W: Write>(
    alloc: Global,
    reader: &mut Counted<R>,
    writer: &mut Counted<W>,
) -> Result<bool, CheckFault> {
    check(alloc, Hashing::by(1), options_of(true), reader, writer)
}

fn options_of(errors_only: bool) -> CheckOptions<'static> {
    CheckOptions {
        name: b"a.cps",
        errors_only,
    }
}
