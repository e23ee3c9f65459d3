//! An input that is read to its end.
ghost use Rattle.std.specs.Prelude.{◌≡◌, ℕ, List, [], ◌≤◌, ◌+◌, OnOk, OnErr, IsErrOf, MatchResult};
ghost use Rattle.cps_text.specs.Counted.{calls_of};
ghost use Rattle.cps_input.specs.Reads.{IsAllRead, IsCutShort, ReadsBytes};
ghost use Rattle.cps_input.specs.Sources.{ReadsLines};

use super::input::Input;
use super::input_fault::InputFault;
use super::kept_bytes::KeptBytes;
use super::line_text::LineText;
use super::taker::Taker;
use cps_text::limits::MOST_READS;
use cps_text::{Counted, Line};
use std::alloc::Global;
use std::io::Read;

const CHUNK: usize = 16_384;

/// Reads the lines of a source to the end of the input, into one text.
///
/// The input is read to its end before anything is said of its lines. Lines are checked also where there was no memory for them.
pub fn read_text<R: Read>(alloc: Global, reader: &mut Counted<R>) -> Result<LineText, InputFault>
    ensures read { ReadsLines (λ lines. lines) R.remaining result reader.old reader.new }
    ensures reads { calls_of reader.new ≤ calls_of reader.old + MOST_READS }
{
    let mut input = Input::new(alloc);
    read_all(reader, &mut input)?;
    input.finish()
}

/// The same, each line by itself.
pub fn read_lines<R: Read>(alloc: Global, reader: &mut Counted<R>) -> Result<Vec<Line>, InputFault>
    ensures read { ReadsLines (λ lines. lines.items) R.remaining result reader.old reader.new }
    ensures reads { calls_of reader.new ≤ calls_of reader.old + MOST_READS }
{
    match read_text(alloc, reader) {
        Ok(text) => lines_of(alloc, &text),
        Err(fault) => Err(fault),
    }
}

/// The lines of a text, each by itself.
pub fn lines_of(alloc: Global, text: &LineText) -> Result<Vec<Line>, InputFault>
    ensures { MatchResult result (λ lines. lines.items ≡ text.now) (λ fault. fault ≡ InputFault.Memory) }
{
    let mut lines = Vec::new(alloc);
    for before in 0..text.len() {
        let Ok(line) = Line::new(alloc, text.line(before)) else {
            return Err(InputFault::Memory);
        };
        let Ok(_) = lines.push(line) else {
            return Err(InputFault::Memory);
        };
    }
    Ok(lines)
}

/// Reads all bytes of an input, whatever they are.
///
/// It is read to its end also where there was no memory for them, and `Memory` is answered then.
pub fn read_bytes<R: Read>(alloc: Global, reader: &mut Counted<R>) -> Result<Vec<u8>, InputFault>
    ensures read { ReadsBytes R.remaining result reader.old reader.new }
    ensures reads { calls_of reader.new ≤ calls_of reader.old + MOST_READS }
{
    let mut bytes = KeptBytes::new(alloc);
    read_all(reader, &mut bytes)?;
    bytes.into_bytes()
}

/// Reads an input to its end, and has its bytes taken.
fn read_all<R: Read, T: Taker>(reader: &mut Counted<R>, taker: &mut T) -> Result<(), InputFault>
    requires { T.has_come taker.old [] }
    ensures ok { OnOk result ((taken : List ℕ) × IsAllRead R.remaining reader.old reader.new taken × T.has_come taker.new taken) }
    ensures fault { OnErr result (IsErrOf result InputFault.ReadFault) }
    ensures early { OnErr result (IsCutShort R.remaining reader.old reader.new) }
    ensures reads { calls_of reader.new ≤ calls_of reader.old + MOST_READS }
{
    let mut chunk = [0; CHUNK];
    for _ in 0..MOST_READS {
        let Some(count) = reader.read(&mut chunk) else {
            return Err(InputFault::ReadFault);
        };
        if count == 0 {
            return Ok(());
        }
        taker.take_bytes(&chunk[..count]);
    }
    Err(InputFault::ReadFault)
}
