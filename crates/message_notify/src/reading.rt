//! NOTIFY messages and their responses, read.
ghost use Rattle.std.specs.Prelude.{◌≡◌, IfOk};
ghost use Rattle.message_reading.specs.Messages.{message_of, parts_of};
ghost use Rattle.message_notify.specs.Notifies.{asks_for_zone, is_notify, notify_in, notify_of, response_of};

use crate::notify::{Notify, NotifyResponse};
use message_reading::{Header, Message, MessageError, Question, read_header, read_message};
use std::alloc::Global;
use zone_proto::{ProtoError, first_serial};

/// The NOTIFY that a message is (RFC 1996 section 3): no response, of opcode 4, with one question, for the SOA record of a zone of class IN.
/// None where it is another message, or none at all. Refused for want of memory alone.
pub fn read_notify(alloc: Global, message: &[u8]) -> Result<Option<Notify>, ProtoError>
    ensures { IfOk result (λ notify. notify ≡ notify_of (message_of message.now)) }
{
    match read_message(alloc, message) {
        Ok(read) => notify_in(&read),
        Err(MessageError::Malformed) => Ok(None),
        Err(MessageError::Memory) => Err(ProtoError::Memory),
    }
}

/// The NOTIFY that a message is which was read.
fn notify_in(message: &Message) -> Result<Option<Notify>, ProtoError>
    ensures { IfOk result (λ notify. notify ≡ notify_in (parts_of message.now)) }
{
    if !is_notify(message.header) {
        return Ok(None);
    }
    match message.questions.as_slice() {
        [question] => {
            if !asks_for_zone(question) {
                return Ok(None);
            }
            Ok(Some(Notify {
                id: message.header.id,
                origin: question.name.clone()?,
                serial: first_serial(message.answers.as_slice()),
            }))
        }
        _ => Ok(None),
    }
}

/// Whether a message of this header may be a NOTIFY.
fn is_notify(header: Header) -> bool
    ensures { result ≡ is_notify header }
{
    !header.is_response && header.opcode == 4
}

/// Whether a question is for the SOA record of a zone of class IN.
fn asks_for_zone(question: &Question) -> bool
    ensures { result ≡ asks_for_zone question.now }
{
    question.query_type.0 == 6 && question.query_class.0 == 1
}

/// The response to a NOTIFY that a message is (RFC 1996 section 3.2): a response of opcode 4. What follows its header isn't looked at. Takes
/// no memory.
pub fn read_notify_response(message: &[u8]) -> Option<NotifyResponse>
    ensures { result ≡ response_of message.now }
{
    match read_header(message) {
        Some((header, _)) if header.is_response && header.opcode == 4 => Some(NotifyResponse {
            id: header.id,
            response_code: header.response_code,
        }),
        _ => None,
    }
}
