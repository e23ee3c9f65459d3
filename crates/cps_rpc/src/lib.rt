//! What a server for editors stands on, with nothing of an assembly in it: messages of a byte stream, what they ask, the loop that answers them, and
//! a text that an editor changes.
//!
//! - `answering.rt`: the messages that have come, answered
//! - `buffer.rt`: a text that an editor changes, kept as its lines
//! - `change.rt`: a change of a text
//! - `changes.rt`: the changes of a message
//! - `client.rt`: what an editor takes
//! - `conversation_laws.rt`: laws of conversations
//! - `encoding.rt`: how the characters of a position are counted
//! - `encodings.rt`: the encodings that an editor offers
//! - `error_code.rt`: the errors that requests are refused with
//! - `fault.rt`: why a server ends early
//! - `frame.rt`: the frame of a message that is written
//! - `front.rt`: what stands at the front of a stream
//! - `json.rt`: the JSON that a message is
//! - `length.rt`: the length that a header tells
//! - `markup.rt`: the forms of texts that an editor takes
//! - `member.rt`: members of parameters
//! - `message.rt`: what a message asks
//! - `opened_text.rt`: a text that is opened
//! - `outgoing.rt`: the answers to requests
//! - `place.rt`: places in a line, as bytes and as units
//! - `position.rt`: positions in a text
//! - `positions.rt`: positions and ranges
//! - `replacement.rt`: lines in the place of others
//! - `service.rt`: what answers messages
//! - `serving.rt`: the loop over reads
//! - `spot.rt`: a place among lines
//! - `stream.rt`: a stream, as its bytes come
//! - `stream_laws.rt`: laws of all streams
//! - `text_laws.rt`: what holds of all texts
#![tactic(auto)]

mod answering;
mod buffer;
mod change;
mod changes;
mod client;
mod conversation_laws;
mod encoding;
mod encodings;
mod error_code;
mod fault;
mod frame;
mod front;
mod json;
mod length;
mod markup;
mod member;
mod message;
mod opened_text;
mod outgoing;
mod place;
mod position;
mod positions;
mod replacement;
mod service;
mod serving;
mod spot;
mod stream;
mod stream_laws;
mod text_laws;

pub use buffer::Buffer;
pub use change::Change;
pub use changes::changes_in;
pub use client::{Client, client_in};
pub use conversation_laws::{a_conversation_goes_on, one_conversation};
pub use encoding::Encoding;
pub use encodings::encoding_in;
pub use error_code::ErrorCode;
pub use fault::ServerFault;
pub use frame::push_frame;
pub use json::{JsonFault, json_of};
pub use markup::Markup;
pub use member::{new_name_in, uri_in, version_in, wants_definitions};
pub use message::Message;
pub use opened_text::OpenedText;
pub use outgoing::{failure, refusal, response};
pub use place::{place_in, units_before};
pub use position::{Position, Range};
pub use positions::{position_at, range_at};
pub use replacement::Replacement;
pub use service::Service;
pub use serving::serve;
pub use stream::{Stream, StreamFault};
pub use stream_laws::{
    a_message_stays, a_splitting_goes_on, any_pieces, one_reading, one_splitting,
};
pub use text_laws::{
    lines_are_split, lines_make_text, source_is_read, source_is_replaced, units_tell_place,
};
