//! The run of a comparison. What a function holds is dropped by calls, whose proofs stand once.
ghost use Rattle.std.specs.Prelude.{◌<◌, ◌^◌};
ghost use Rattle.std.specs.Option.{ForSome};

use cps_claims::{OctalFormat, WordOffset};
use cps_compare::{CompareFormat, CompareOptions, OctalFault, Setup, compare_inputs};
use cps_state::Hashing;
use cps_text::Counted;
use std::alloc::Global;
use std::io::{Read, Write};
use std::process::Abort;

/// Rows in all their columns, and all addresses of which they have digits.
pub const ALL: CompareOptions = CompareOptions {
    format: CompareFormat::Words(OctalFormat::Rows),
    columns: None,
    offset: WordOffset::Up(0),
    from: None,
    to: None,
    whole: false,
    all: false,
};

/// A dump.
pub const DUMP: CompareOptions = CompareOptions {
    format: CompareFormat::Words(OctalFormat::Dump),
    columns: None,
    offset: WordOffset::Up(0),
    from: None,
    to: None,
    whole: false,
    all: false,
};

/// All words of the source.
pub const WHOLE: CompareOptions = CompareOptions {
    format: CompareFormat::Words(OctalFormat::Rows),
    columns: None,
    offset: WordOffset::Up(0),
    from: None,
    to: None,
    whole: true,
    all: false,
};

/// A listing of this program.
pub const OWN: CompareOptions = CompareOptions {
    format: CompareFormat::Own,
    columns: None,
    offset: WordOffset::Up(0),
    from: None,
    to: None,
    whole: false,
    all: false,
};

/// What came of a comparison, and what was written.
#[derive(Drop)]
pub struct OctalRun {
    pub end: Result<u32, OctalFault>,
    pub text: Vec<u8>,
}

/// The bytes of these lines, each with a newline.
pub fn joined(rt: &impl Abort, alloc: Global, lines: &[&str]) -> Vec<u8> {
    let mut text = Vec::new(alloc);
    for line in lines {
        text.extend_from_slice(line.as_bytes()).expect(rt, "memory");
        text.push(b'\n').expect(rt, "memory");
    }
    text
}

/// Compares texts that are read at once.
pub fn run(alloc: Global, octal: &[u8], source: &[u8], options: CompareOptions) -> OctalRun
    requires { ForSome options.to (λ to. to < 2 ^ 18) }
{
    let mut octal = Counted::new(octal);
    let mut source = Counted::new(source);
    let mut writer = Counted::new(Vec::new(alloc));
    let end = run_between(alloc, options, &mut octal, &mut source, &mut writer);
    OctalRun {
        end,
        text: writer.into_inner(),
    }
}

/// Compares what readers give. Only here a comparison is run.
pub fn run_between<O: Read, R: Read, W: Write>(
    alloc: Global,
    options: CompareOptions,
    octal: &mut Counted<O>,
    source: &mut Counted<R>,
    writer: &mut Counted<W>,
) -> Result<u32, OctalFault>
    requires { ForSome options.to (λ to. to < 2 ^ 18) }
{
    let hashing = Hashing::by(1);
    compare_inputs(alloc, Setup { hashing, options }, octal, source, writer)
}
