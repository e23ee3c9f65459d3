//! A run of a server.
ghost use Rattle.cps_server.specs.Running.{RunsServer};

use crate::server::Server;
use cps_rpc::{ServerFault, serve};
use cps_state::Hashing;
use cps_text::Counted;
use std::alloc::Global;
use std::io::{Read, Write};
use std::mem::forget;

/// Answers an editor until its input ends or `exit` comes, and gives whether `shutdown` came before. What an editor is told of an open text
/// are the flags that two-pass assembly of its lines defines, and the bytes that no line may have. The program ends with it: what is kept of texts that are still
/// open is not dropped line by line, and its memory goes with the program's.
pub fn run_server<R: Read, W: Write>(
    alloc: Global,
    hashing: Hashing,
    reader: &mut Counted<R>,
    writer: &mut Counted<W>,
) -> Result<bool, ServerFault>
    ensures { RunsServer R.remaining W.contents result reader.old reader.new writer.old writer.new }
{
    let mut server = Server::new(alloc, hashing);
    let served = serve(alloc, &mut server, reader, writer);
    let was_shut_down = server.is_shut_down();
    forget(server);
    served?;
    Ok(was_shut_down)
}
