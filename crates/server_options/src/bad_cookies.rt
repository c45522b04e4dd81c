//! Clients that are sent back for a cookie.
ghost use Rattle.std.specs.Prelude.{IfOk};
ghost use Rattle.server_options.specs.BadCookies.{IsAnswerOrBadCookie};

use crate::responder::Responder;
use message_reading::{ReadError, read_query};
use std::alloc::{AllocError, Global};
use zone_proto::ResponseCode;
use zone_server::{Transport, limit_for, send_code};

/// BADCOOKIE (RFC 7873 section 8).
const BAD_COOKIE: ResponseCode = ResponseCode::Other(23);

/// Answers a message; or by BADCOOKIE, where the client is to come again and the message is a query. Gives how many labels the origin of the
/// zone has that answers.
#[tactic(auto, using(crate::proofs::Steps::sends_back))]
pub(crate) fn answer_or_send_back<R: Responder>(
    alloc: Global,
    responder: &R,
    message: &[u8],
    transport: Transport,
    again: bool,
    out: &mut Vec<u8>,
) -> Result<usize, AllocError>
    ensures { IfOk result (λ labels. IsAnswerOrBadCookie again (R.zones responder.now) transport
        message.now labels out.new.items) }
{
    if !again {
        return responder.answer(alloc, message, transport, out);
    }
    match read_query(alloc, message) {
        Ok(query) => {
            let limit = limit_for(transport, &query);
            send_code(alloc, out, &query, BAD_COOKIE, limit)?;
            Ok(0)
        }
        Err(ReadError::Memory) => Err(AllocError),
        Err(
            ReadError::NoHeader
            | ReadError::NoQuery
            | ReadError::NotImplemented(_)
            | ReadError::Malformed(_)
            | ReadError::BadVersion(_),
        ) => responder.answer(alloc, message, transport, out),
    }
}
