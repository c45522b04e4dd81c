//! Messages answered by a server with keys.
ghost use Rattle.std.specs.Prelude.{◌≡◌, None, map, option_copied, IfOk};
ghost use Rattle.std.specs.Arc.{arc_value};
ghost use Rattle.message_reading.specs.Queries.{query_of};
ghost use Rattle.zone_sha1.specs.Digests.{name_digest};
ghost use Rattle.zone_response.specs.Queries.{zone_of};
ghost use Rattle.zone_server.specs.Limits.{limit_for};
ghost use Rattle.zone_database.specs.Databases.{zones_in};
ghost use Rattle.zone_database.specs.Zones.{never_signed};
ghost use Rattle.transfer_messages.specs.Beginning.{BeginsBy};
ghost use Rattle.held_transfers.specs.Answering.{answer_limit, reply_in, zones_asked, AnswersOpened, AnswersRequest, AnswersSigned, AnswersWithKeys, IsHeld};

use crate::access::TransferAccess;
use crate::held_transfer::HeldTransfer;
use message_reading::{ReadError, read_query};
use std::alloc::{AllocError, Global};
use std::slice;
use std::sync::Arc;
use transfer_messages::{Begun, Opened, Request, Sealing, begin, open, seal};
use zone_database::{NoSigner, Zone, ZoneDatabase, served};
use zone_proto::LowerName;
use zone_server::{Answered, ListedZones, TransferPolicy, Transport, limit_for, limit_without_opt};
use zone_sha1::Sha1Hash;

/// What a message is answered with.
#[derive(Drop)]
pub enum KeyedAnswer {
    /// What any server answers: it has no TSIG, and asks for no transfer. Nothing was written.
    Unkeyed,
    /// Nothing: it has fewer octets than a header, or is a response.
    Nothing,
    /// The octets of the response are there.
    Response,
    /// The messages of a zone, which `next` makes.
    Transfer(HeldTransfer),
}

/// Answers a message that has a TSIG, or asks for a transfer, from the zones of a database, by the keys of a server, at a moment in seconds
/// since 1970: in place of the octets of `out`, or by a transfer. Any other message is left to `ZoneDatabase::answer` and its like.
///
/// One whose TSIG is right is answered as the message without it, and the response is signed; one whose TSIG can't be read by FORMERR, and one
/// whose TSIG is refused by NOTAUTH (RFC 8945 sections 5.2 and 5.3.2). A request for a zone is answered as `begin` of `transfer_messages` says.
/// Fails only for lack of memory.
#[tactic(auto, using(crate::proofs::Answered::with_keys))]
pub fn answer_with_keys(
    alloc: Global,
    database: &ZoneDatabase,
    access: &TransferAccess,
    now: u64,
    transport: Transport,
    message: &[u8],
    out: &mut Vec<u8>,
) -> Result<KeyedAnswer, AllocError>
    ensures { IfOk result (λ answer. AnswersWithKeys access.now (zones_in database.now) now
        transport message.now answer out.new.items) }
{
    let opened = open(alloc, access.keys.as_slice(), now, transport, message, out)?;
    let answer = answer_opened(alloc, database, access, now, transport, opened, out)?;
    Ok(answer)
}

/// Answers a message by what it is found to be.
fn answer_opened(
    alloc: Global,
    database: &ZoneDatabase,
    access: &TransferAccess,
    now: u64,
    transport: Transport,
    opened: Opened<'_>,
    out: &mut Vec<u8>,
) -> Result<KeyedAnswer, AllocError>
    ensures { IfOk result (λ answer. AnswersOpened access.now (zones_in database.now) now
        transport opened.entry out.old.items answer out.new.items) }
{
    match opened {
        Opened::Other => Ok(KeyedAnswer::Unkeyed),
        Opened::Refused => Ok(KeyedAnswer::Response),
        Opened::Signed(rest, sealing) => answer_signed(
            alloc,
            database,
            now,
            transport,
            rest.as_slice(),
            sealing,
            out,
        ),
        Opened::Transfer(request) => {
            answer_request(alloc, database, access, now, transport, request, out)
        }
    }
}

/// Answers a message that was found signed, without its TSIG.
#[tactic(auto, using(crate::proofs::Answered::signed_response, crate::proofs::Answered::signed_nothing))]
fn answer_signed(
    alloc: Global,
    database: &ZoneDatabase,
    now: u64,
    transport: Transport,
    message: &[u8],
    sealing: Sealing,
    out: &mut Vec<u8>,
) -> Result<KeyedAnswer, AllocError>
    ensures { IfOk result (λ answer. AnswersSigned (zones_in database.now) now transport message.now
        sealing answer out.new.items) }
{
    let mut sealing = Some(sealing);
    let limit = answer_limit(alloc, transport, message)?;
    match database.answer(alloc, message, transport, out)? {
        Answered::Nothing => Ok(KeyedAnswer::Nothing),
        Answered::Response => {
            seal(alloc, &mut sealing, now, usize::from(limit), out)?;
            Ok(KeyedAnswer::Response)
        }
    }
}

/// How many octets the response to a message may have.
fn answer_limit(alloc: Global, transport: Transport, message: &[u8]) -> Result<u16, AllocError>
    ensures { IfOk result (λ limit. limit ≡ answer_limit transport (query_of message.now)) }
{
    match read_query(alloc, message) {
        Ok(query) => Ok(limit_for(transport, &query)),
        Err(ReadError::Memory) => Err(AllocError),
        Err(ReadError::BadVersion(query)) => Ok(limit_for(transport, &query)),
        Err(_) => Ok(limit_without_opt(transport)),
    }
}

/// Answers a request for a zone.
#[tactic(auto, using(crate::proofs::Answered::of_zone, crate::proofs::Answered::of_none))]
fn answer_request(
    alloc: Global,
    database: &ZoneDatabase,
    access: &TransferAccess,
    now: u64,
    transport: Transport,
    request: Request<'_>,
    out: &mut Vec<u8>,
) -> Result<KeyedAnswer, AllocError>
    ensures { IfOk result (λ answer. AnswersRequest access.now (zones_in database.now) now transport
        request.entry answer out.new.items) }
{
    let Ok(origin) = LowerName::new(&request.query.question.name) else {
        return Err(AllocError);
    };
    let policy = access.policy_for(request.key, &origin);
    match database.share(&origin)? {
        Some(zone) => {
            let lent: &Zone = &zone;
            let begun = begin_in(alloc, request, Some(lent), policy, transport, now, out)?;
            Ok(held(zone, begun))
        }
        None => {
            begin_in(alloc, request, None, policy, transport, now, out)?;
            Ok(KeyedAnswer::Response)
        }
    }
}

/// What a request is answered with that began so, for a zone.
fn held(zone: Arc<Zone>, begun: Begun) -> KeyedAnswer
    ensures { IsHeld (arc_value zone) begun result }
{
    match begun {
        Begun::Answered => KeyedAnswer::Response,
        Begun::Transfer(transfer) => KeyedAnswer::Transfer(HeldTransfer { zone, transfer }),
    }
}

/// Finds out what is answered to a request for a zone, which the server has or hasn't.
fn begin_in(
    alloc: Global,
    request: Request<'_>,
    zone: Option<&Zone>,
    policy: TransferPolicy,
    transport: Transport,
    now: u64,
    out: &mut Vec<u8>,
) -> Result<Begun, AllocError>
    ensures { IfOk result (λ begun. BeginsBy transport now request.entry
        (reply_in policy (option_copied zone.entry) transport request.entry) begun out.new.items) }
{
    let zones = listed(alloc, zone)?;
    begin(alloc, request, &zones, policy, transport, now, out)
}

/// A zone, if there is one, as a list.
fn listed<'z>(
    alloc: Global,
    zone: Option<&'z Zone>,
) -> Result<ListedZones<'z, NoSigner, Sha1Hash>, AllocError>
    ensures { IfOk result (λ zones. map (zone_of never_signed (λ h. name_digest)) zones
        ≡ zones_asked (option_copied zone.entry)) }
{
    match zone {
        Some(zone) => ListedZones::new(alloc, served(alloc, slice::from_ref(zone))?),
        None => ListedZones::new(alloc, Vec::new(alloc)),
    }
}
