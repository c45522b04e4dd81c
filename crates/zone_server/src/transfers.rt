//! Queries for a whole zone, or for a zone's changes, answered (RFC 5936, RFC 1995).
ghost use Rattle.std.specs.Prelude.{OnErr, OnOk};
ghost use Rattle.zone_server.specs.Frames.{framed_of};
ghost use Rattle.zone_server.specs.Serving.{served_of, Puts};
ghost use Rattle.zone_server.specs.Stopping.{BeginsReply, Stops};
ghost use Rattle.zone_server.specs.Transfers.{reply_to, Replies};
ghost use Rattle.zone_server.specs.TransferSteps.{reply_kept, HasSmallCode};

use crate::frames::Frame;
use crate::sending::{send_code, send_soa};
use crate::server::Server;
use crate::transfer_reply::{TransferReply, reply_to};
use crate::transfer_writer::send_zone;
use crate::transport::limit_for;
use crate::waiting::{Stop, put_answer};
use message_reading::Query;
use std::alloc::Global;
use std::io::Write;
use zone_proto::{Nsec3Hash, Signer};

/// Answers a query for a transfer, which a frame's message is read as: by a code or the SOA alone, or by the messages of the zone.
/// `out` is for a message.
pub(crate) fn answer_transfer<S: Signer, H: Nsec3Hash, W: Write>(
    alloc: Global,
    server: &Server<'_, '_, S, H>,
    frame: Frame<'_>,
    query: &Query,
    out: &mut Vec<u8>,
    answers: &mut Vec<u8>,
    output: &mut W,
) -> Result<(), Stop>
    ensures put { OnOk result (Puts (Replies frame.entry.transport query.now
        (reply_to (served_of S.signature_of H.digest_of server.now).zones server.now.policies.now
        frame.entry.transport frame.entry.message.now query.now))
        answers.old.items answers.new.items
        (W.contents output.old) (W.contents output.new)) }
    ensures stopped { OnErr result (Stops (BeginsReply frame.entry.transport query.now
        (reply_to (served_of S.signature_of H.digest_of server.now).zones server.now.policies.now
        frame.entry.transport frame.entry.message.now query.now))
        answers.old.items (W.contents output.old) (W.contents output.new)) }
{
    let (zones, policies) = (server.zones, server.policies);
    let reply = reply_to(
        alloc,
        zones,
        policies,
        frame.transport,
        frame.message,
        query,
    )?;
    send_reply(alloc, frame, query, reply, out, answers, output)
}

/// Sends a reply to a query.
fn send_reply<W: Write>(
    alloc: Global,
    frame: Frame<'_>,
    query: &Query,
    reply: TransferReply<'_>,
    out: &mut Vec<u8>,
    answers: &mut Vec<u8>,
    output: &mut W,
) -> Result<(), Stop>
    requires { HasSmallCode reply }
    ensures put { OnOk result
        (Puts (Replies frame.entry.transport query.now (reply_kept reply.entry))
        answers.old.items answers.new.items
        (W.contents output.old) (W.contents output.new)) }
    ensures stopped { OnErr result
        (Stops (BeginsReply frame.entry.transport query.now (reply_kept reply.entry))
        answers.old.items (W.contents output.old) (W.contents output.new)) }
{
    let limit = limit_for(frame.transport, query);
    match reply {
        TransferReply::Code(code) => {
            send_code(alloc, out, query, code, limit)?;
            put_answer(out.as_slice(), answers, output)
        }
        TransferReply::StartOfAuthority(soa) => {
            send_soa(alloc, out, query, soa, limit)?;
            put_answer(out.as_slice(), answers, output)
        }
        TransferReply::Whole(soa, sets) => {
            send_zone(alloc, query, soa, sets, out, answers, output)
        }
    }
}
