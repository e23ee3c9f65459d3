//! The frame of a message that is written.
ghost use Rattle.std.specs.Prelude.{◌≡◌, ◌++◌, OnErr, OnOk, length, take};
ghost use Rattle.cps_rpc.specs.Frame.{frame_of, header_of};

use itoa::Buffer;
use std::alloc::AllocError;

/// Appends a message behind its header.
pub fn push_frame(text: &mut Vec<u8>, message: &[u8]) -> Result<(), AllocError>
    ensures ok { OnOk result (text.new.items ≡ text.old.items ++ frame_of message.now) }
    ensures err { OnErr result (text.new.items ≡ text.old.items) }
{
    let len = text.len();
    let pushed = push_parts(text, message);
    if pushed.is_err() {
        text.truncate(len);
    }
    pushed
}

/// The same. Where there was no memory, a part of the frame may be left.
fn push_parts(text: &mut Vec<u8>, message: &[u8]) -> Result<(), AllocError>
    ensures ok { OnOk result (text.new.items ≡ text.old.items ++ frame_of message.now) }
    ensures front { take (length text.old.items) text.new.items ≡ text.old.items }
{
    text.extend_from_slice(b"Content-Length: ")?;
    text.extend_from_slice(Buffer::new().format(message.len()).as_bytes())?;
    text.extend_from_slice(b"\r\n\r\n")?;
    text.extend_from_slice(message)
}
