//! What is answered to a request for a zone.
ghost use Rattle.std.specs.Prelude.{◌≡◌, [], ◌∷◌, map, option_copied, IfOk};
ghost use Rattle.zone_proto.specs.Names.{lower};
ghost use Rattle.zone_response.specs.Queries.{zone_of};
ghost use Rattle.zone_server.specs.Limits.{limit_for};
ghost use Rattle.zone_server.specs.Transfers.{reply_to};
ghost use Rattle.zone_server.specs.TransferSteps.{reply_kept, HasSmallCode};
ghost use Rattle.transfer_messages.specs.Beginning.{granted_to, BeginsBy};

use crate::grants::is_granted;
use crate::open_transfer::OpenTransfer;
use crate::opening::Request;
use crate::place::Place;
use crate::sealing::seal;
use message_reading::Query;
use message_tsig::Key;
use std::alloc::{AllocError, Global};
use zone_proto::{LowerName, Nsec3Hash, Signer};
use zone_server::{
    ListedZones, TransferPolicy, TransferReply, Transport, limit_for, reply_to, send_code, send_soa,
};

/// What a request for a zone is answered with.
#[derive(Drop)]
pub enum Begun {
    /// The response is there, signed if the request was: a code alone, or the SOA alone.
    Answered,
    /// The messages of the zone, which `next` makes.
    Transfer(OpenTransfer),
}

/// Finds out what is answered to a request for a zone, or for its changes. `zones` has the zone of the name that is asked for, if the server
/// has it, and `policy` says who may have it.
///
/// Where the server hasn't the zone the code is NOTAUTH, and where it doesn't go to the one who asks `Refused`; a response of one message is
/// written in place of the octets of `out`, signed at a moment in seconds since 1970 if the request was. A client that asks for changes gets
/// the SOA alone where its serial isn't older than that of the zone, or over UDP, and else the whole zone (RFC 1995 sections 2 and 4). Fails
/// only for lack of memory.
pub fn begin<S: Signer, H: Nsec3Hash>(
    alloc: Global,
    request: Request<'_>,
    zones: &ListedZones<'_, S, H>,
    policy: TransferPolicy,
    transport: Transport,
    now: u64,
    out: &mut Vec<u8>,
) -> Result<Begun, AllocError>
    ensures { IfOk result (λ begun. BeginsBy transport now request.entry
        (reply_to (map (zone_of S.signature_of H.digest_of) zones.now)
        (granted_to policy (option_copied request.entry.key)
        (lower request.entry.query.question.name) ∷ [])
        transport request.entry.message.items request.entry.query) begun out.new.items) }
{
    let granted = granted_to(policy, request.key, &request.query)?;
    let reply = reply_to(
        alloc,
        zones,
        &[granted],
        transport,
        request.message.as_slice(),
        &request.query,
    )?;
    begin_reply(alloc, request, reply, transport, now, out)
}

/// Begins with a reply.
fn begin_reply(
    alloc: Global,
    request: Request<'_>,
    reply: TransferReply<'_>,
    transport: Transport,
    now: u64,
    out: &mut Vec<u8>,
) -> Result<Begun, AllocError>
    requires { HasSmallCode reply }
    ensures { IfOk result (λ begun. BeginsBy transport now request.entry
        (reply_kept reply.entry) begun out.new.items) }
{
    let Request {
        query,
        mut sealing,
        ..
    } = request;
    let limit = limit_for(transport, &query);
    match reply {
        TransferReply::Code(code) => send_code(alloc, out, &query, code, limit)?,
        TransferReply::StartOfAuthority(soa) => send_soa(alloc, out, &query, soa, limit)?,
        TransferReply::Whole(..) => {
            return Ok(Begun::Transfer(OpenTransfer {
                query,
                place: Place::start(),
                sealing,
                is_broken_off: false,
            }));
        }
    }
    seal(alloc, &mut sealing, now, usize::from(limit), out)?;
    Ok(Begun::Answered)
}

/// The policy of a zone for the one who asks: that it goes to anybody, or to nobody.
fn granted_to(
    policy: TransferPolicy,
    key: Option<&Key>,
    query: &Query,
) -> Result<TransferPolicy, AllocError>
    ensures { IfOk result (λ granted. granted
        ≡ granted_to policy (option_copied key.entry) (lower query.now.question.name)) }
{
    let Ok(origin) = LowerName::new(&query.question.name) else {
        return Err(AllocError);
    };
    if is_granted(policy, key, &origin) {
        Ok(TransferPolicy::AllowAll)
    } else {
        Ok(TransferPolicy::Deny)
    }
}
