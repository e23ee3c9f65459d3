//! Writing a text.
ghost use Rattle.std.specs.Prelude.{◌<◌, IsErrOf};
ghost use Rattle.cps_list.specs.Writing.{Writes};

use cps_text::Counted;
use std::io::Write;
use thiserror::Error;

/// Why a text is not written, or not whole.
#[derive(Clone, Copy, Debug, PartialEq, Eq, Error)]
pub enum ListFault {
    /// There was no memory to make the text. Nothing is written.
    #[error("no memory")]
    Memory,
    /// A write failed, or took none of the bytes that it was given. A front of the text is written.
    #[error("write fault")]
    WriteFault,
}

/// Writes all of a text, or a front of it where a write fails.
pub fn write_text<W: Write>(writer: &mut Counted<W>, text: &[u8]) -> Result<(), ListFault>
    ensures written { Writes W.contents result writer.old writer.new text.now }
    ensures fault { IsErrOf result ListFault.Memory → ⊥ }
{
    let mut done = 0;
    while done < text.len() {
        let (_, rest) = text.split_at(done);
        let Some(count) = writer.write(rest) else {
            return Err(ListFault::WriteFault);
        };
        done += count;
    }
    Ok(())
}
