//! Writing a text.
ghost use Rattle.std.specs.Prelude.{◌≡◌, OnOk, OnErr, IsErrOf};
ghost use Rattle.cps_text.specs.Counted.{failures_of, FailsOnce};
ghost use Rattle.cps_tool.specs.Written.{IsWritten, IsFrontWritten};

use cps_list::write_text;
use cps_text::Counted;
use std::io::Write;
use thiserror::Error;

/// Why a run of a script ends early.
#[derive(Clone, Copy, Debug, PartialEq, Eq, Error)]
pub enum RunFault {
    /// A read failed, or the script had not ended after 16,777,216 reads.
    #[error("read fault")]
    ReadFault,
    /// A write failed, or took none of the bytes it was given.
    #[error("write fault")]
    WriteFault,
}

/// Writes all of a text, or a front of it where a write fails.
pub fn write_bytes<W: Write>(writer: &mut Counted<W>, text: &[u8]) -> Result<(), RunFault>
    ensures ok { OnOk result (IsWritten W.contents writer.old writer.new text.now) }
    ensures err { OnErr result (IsFrontWritten W.contents writer.old writer.new text.now) }
    ensures fault { IsErrOf result RunFault.ReadFault → ⊥ }
    ensures failed { OnErr result (FailsOnce writer.old writer.new) }
    ensures failures { OnOk result (failures_of writer.new ≡ failures_of writer.old) }
{
    match write_text(writer, text) {
        Ok(()) => Ok(()),
        Err(_) => Err(RunFault::WriteFault),
    }
}
