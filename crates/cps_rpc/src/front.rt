//! What stands at the front of a stream.
ghost use Rattle.std.specs.Prelude.{◌≡◌, ◌+◌, ◌<◌, ◌≤◌, All, IsSomeAnd, None, drop, length, slice_range};
ghost use Rattle.httparse.specs.Spans.{IsHeaderWithin};
ghost use Rattle.cps_rpc.specs.Messages.{BeginsWithMessage, IsPart, NeverHasMessage};
ghost use Rattle.cps_rpc.specs.Code.Front.{IfMessage, IsBehindHeader, told_by};

use crate::length::length_told;
use httparse::Status;
use httparse::spans::{EMPTY_HEADER_SPAN, HeaderSpan, parse_headers};

/// The most fields of a header.
const MOST_FIELDS: usize = 8;

/// What stands at the front of a stream.
#[derive(Clone, Copy, Debug, PartialEq, Eq)]
pub enum Front {
    /// A part of a message: its header hasn't ended, or fewer bytes have come behind it than it tells.
    Part,
    /// A message. Its header stands before it.
    Message {
        /// Where the message begins, in bytes from 0.
        start: usize,
        /// Where what follows it begins.
        end: usize,
    },
    /// No message, whatever follows.
    Malformed,
}

/// What stands at the front of a stream of which these bytes have come. Whether a header tells a length is seen when it has ended.
pub fn front_of(bytes: &[u8]) -> Front
    ensures order { IfMessage result (λ start end. start ≤ end) }
    ensures within { IfMessage result (λ start end. end ≤ length bytes.now) }
    ensures message { IfMessage result (λ start end. BeginsWithMessage bytes.now (slice_range bytes.now start end) (drop end bytes.now)) }
    ensures part { result ≡ Front.Part → IsPart bytes.now }
    ensures malformed { result ≡ Front.Malformed → NeverHasMessage bytes.now }
{
    let mut headers = [EMPTY_HEADER_SPAN; MOST_FIELDS];
    match parse_headers(bytes, &mut headers) {
        Ok(Status::Partial) => Front::Part,
        Ok(Status::Complete((start, count))) => front_behind(bytes, start, &headers[..count]),
        Err(_) => Front::Malformed,
    }
}

/// The same, where a header of these fields has ended.
fn front_behind(bytes: &[u8], start: usize, headers: &[HeaderSpan]) -> Front
    requires within { start ≤ length bytes.now }
    requires spans { All (IsHeaderWithin start) headers.now }
    ensures message { IfMessage result (IsBehindHeader bytes.now headers.now start) }
    ensures part { result ≡ Front.Part → IsSomeAnd (told_by bytes.now headers.now) (λ told. length bytes.now < start + told) }
    ensures malformed { result ≡ Front.Malformed → told_by bytes.now headers.now ≡ None }
{
    match length_told(bytes, headers) {
        None => Front::Malformed,
        Some(length) if length > bytes.len() - start => Front::Part,
        Some(length) => Front::Message {
            start,
            end: start + length,
        },
    }
}
