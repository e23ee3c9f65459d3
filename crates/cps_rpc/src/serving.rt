//! The loop over reads.
ghost use Rattle.std.specs.Prelude.{◌≡◌, false};
ghost use Rattle.cps_rpc.specs.Serving.{Serves};

use crate::answering::answer_messages;
use crate::fault::ServerFault;
use crate::service::Service;
use crate::stream::Stream;
use cps_text::Counted;
use std::alloc::Global;
use std::io::{Read, Write};

/// The most bytes of a read.
const CHUNK: usize = 4_096;

/// Reads messages and writes what a service answers to each, until the input ends or the service does.
///
/// A message is answered as soon as its last byte has come, before the next read. All that is said to it is made first and then written,
/// so it is answered whole or not at all where there is no memory. A part of a message at the end of the input isn't answered.
pub fn serve<S: Service, R: Read, W: Write>(
    alloc: Global,
    service: &mut S,
    reader: &mut Counted<R>,
    writer: &mut Counted<W>,
) -> Result<(), ServerFault>
    requires { S.has_ended service.old ≡ false }
    ensures { Serves S.answers S.has_ended R.remaining W.contents result service.old service.new reader.old reader.new writer.old writer.new }
{
    let mut stream = Stream::new(alloc);
    let mut chunk = [0; CHUNK];
    for _ in 0..u64::MAX {
        let Some(count) = reader.read(&mut chunk) else {
            return Err(ServerFault::ReadFault);
        };
        if count == 0 {
            return Ok(());
        }
        stream.extend(&chunk[..count])?;
        answer_messages(alloc, service, &mut stream, writer)?;
        if service.has_ended() {
            return Ok(());
        }
    }
    Err(ServerFault::ReadFault)
}
