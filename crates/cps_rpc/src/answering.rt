//! The messages that have come, answered.
ghost use Rattle.std.specs.Prelude.{◌≡◌, false};
ghost use Rattle.cps_rpc.specs.Code.Answering.{AnswersMessage, AnswersStream};

use crate::fault::ServerFault;
use crate::service::Service;
use crate::stream::Stream;
use cps_list::write_text;
use cps_text::Counted;
use std::alloc::Global;
use std::io::Write;

/// Answers the messages that have come whole, up to the one that ends the service.
pub fn answer_messages<S: Service, W: Write>(
    alloc: Global,
    service: &mut S,
    stream: &mut Stream,
    writer: &mut Counted<W>,
) -> Result<(), ServerFault>
    requires { S.has_ended service.old ≡ false }
    ensures { AnswersStream S.answers S.has_ended W.contents result stream.old stream.new service.old service.new writer.old writer.new }
{
    while let Some(message) = stream.take()? {
        answer_message(alloc, service, &message, writer)?;
        if service.has_ended() {
            break;
        }
    }
    Ok(())
}

/// Answers a message. All that is said is made before the first byte of it is written.
fn answer_message<S: Service, W: Write>(
    alloc: Global,
    service: &mut S,
    message: &[u8],
    writer: &mut Counted<W>,
) -> Result<(), ServerFault>
    ensures { AnswersMessage S.answers W.contents result message.now service.old service.new writer.old writer.new }
{
    let mut said = Vec::new(alloc);
    service.answer(message, &mut said)?;
    write_text(writer, &said)?;
    Ok(())
}
