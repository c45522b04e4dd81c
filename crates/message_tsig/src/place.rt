//! Where a message has a TSIG record (RFC 8945 section 5.2).
ghost use Rattle.std.specs.Prelude.{◌≡◌, IfOk, Some};
ghost use Rattle.message_reading.specs.Unread.{record_frame_of};
ghost use Rattle.message_tsig.specs.Places.{place_among, place_last, place_of, record_count, without};

use crate::octets::front;
use crate::records::{TSIG, passed};
use crate::texts::with_additionals;
use message_reading::{Header, behind_questions, offset_of, read_header, record_frame_of};
use std::alloc::{AllocError, Global};

/// Where a message has a TSIG record.
#[derive(Clone, Copy, PartialEq, Eq, Debug)]
pub enum Place {
    /// It has none, or is no whole message.
    Absent,
    /// Elsewhere than as the last record of the additional section, at the end of the message; or it has several.
    Misplaced,
    /// It is the last record, and begins at this offset.
    Last(usize),
}

/// Where a message, a request or a response, has a TSIG record (RFC 8945 section 5.2). Records are passed over by their lengths, and none
/// is read. Takes no memory.
#[tactic(auto, unfolding(crate::specs::Places::place_of))]
pub fn place_of(message: &[u8]) -> Place
    ensures { result ≡ place_of message.now }
{
    match read_header(message) {
        None => Place::Absent,
        Some((header, rest)) => match behind_questions(header.questions, rest) {
            None => Place::Absent,
            Some(records) => place_among(message, header, records),
        },
    }
}

/// The same for the octets behind the questions.
fn place_among(message: &[u8], header: Header, records: &[u8]) -> Place
    ensures { result ≡ place_among message.now header (Some records.now) }
{
    let count = record_count(header);
    if count == 0 {
        return Place::Absent;
    }
    match passed(count - 1, records) {
        None => Place::Absent,
        Some((true, _)) => Place::Misplaced,
        Some((false, last)) => place_last(message, header, last),
    }
}

/// How many records a message has.
fn record_count(header: Header) -> u32
    ensures { result ≡ record_count header }
{
    u32::from(header.answers) + u32::from(header.authorities) + u32::from(header.additionals)
}

/// The same for the octets of the last record.
fn place_last(message: &[u8], header: Header, last: &[u8]) -> Place
    ensures { result ≡ place_last message.now header last.now (record_frame_of last.now) }
{
    match record_frame_of(last) {
        Some((frame, _, rest)) if frame.record_type == TSIG => {
            if header.additionals > 0 && rest.is_empty() {
                Place::Last(offset_of(message, last))
            } else {
                Place::Misplaced
            }
        }
        _ => Place::Absent,
    }
}

/// A message without its last record, which begins at an offset.
pub(crate) fn without(
    alloc: Global,
    additionals: u16,
    at: usize,
    message: &[u8],
) -> Result<Vec<u8>, AllocError>
    ensures { IfOk result (λ rest. rest.items ≡ without additionals at message.now) }
{
    with_additionals(alloc, additionals.saturating_sub(1), front(message, at), 0)
}
