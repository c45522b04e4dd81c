//! What a query for a whole zone, or for a zone's changes, is answered with (RFC 5936, RFC 1995).
ghost use Rattle.std.specs.Prelude.{◌≡◌, IfOk, map, option_map, slice_index_or};
ghost use Rattle.zone_proto.specs.Keys.{key as key_at};
ghost use Rattle.zone_proto.specs.Types.{SOA};
ghost use Rattle.zone_map.specs.Zones.{set_at};
ghost use Rattle.zone_response.specs.Queries.{zone_of};
ghost use Rattle.zone_server.specs.Transfers.{asks_for_transfer, client_serial, is_stream, policy_reply, allowed_reply, reply_to, serial_of, zone_at, zone_asked, changes_reply};
ghost use Rattle.zone_server.specs.TransferSteps.{reply_kept, HasSmallCode};

use crate::listed_zones::ListedZones;
use crate::transfer_policy::TransferPolicy;
use crate::transport::Transport;
use message_reading::{Query, read_first_authority};
use std::alloc::{AllocError, Global};
use zone_map::SetMap;
use zone_proto::{
    DNSClass, LowerName, Nsec3Hash, ProtoError, RecordSet, RecordType, ResponseCode, RrKey, Signer,
    first_serial, is_newer, soa_serial,
};
use zone_response::ServedZone;

/// NOTAUTH: the server isn't authoritative for such a zone (RFC 5936 section 2.2.1).
const NOT_AUTHORITATIVE: ResponseCode = ResponseCode::Other(9);

/// What a query for a transfer is answered with.
#[derive(Clone, Copy)]
pub enum TransferReply<'z> {
    /// A code alone.
    Code(ResponseCode),
    /// The zone's SOA alone.
    StartOfAuthority(&'z RecordSet),
    /// The zone with this SOA and these sets.
    Whole(&'z RecordSet, &'z SetMap),
}

/// Whether a query is answered by a transfer: IXFR is, and AXFR over TCP. Over UDP AXFR isn't defined (RFC 5936 section
/// 4.2).
pub fn asks_for_transfer(transport: Transport, query: &Query) -> bool
    ensures { result ≡ asks_for_transfer transport query.now }
{
    let query_type = query.question.query_type;
    query_type == RecordType::IXFR || (query_type == RecordType::AXFR && is_stream(transport))
}

/// Whether messages may follow one another: over TCP.
fn is_stream(transport: Transport) -> bool
    ensures { result ≡ is_stream transport }
{
    match transport {
        Transport::Tcp => true,
        Transport::Udp { .. } => false,
    }
}

/// What a query for a transfer, which `message` is read as, is answered with. `policies` tells of each of the zones who
/// may transfer it, in their order. Fails only for lack of memory.
pub fn reply_to<'z, S: Signer, H: Nsec3Hash>(
    alloc: Global,
    zones: &ListedZones<'z, S, H>,
    policies: &[TransferPolicy],
    transport: Transport,
    message: &[u8],
    query: &Query,
) -> Result<TransferReply<'z>, AllocError>
    ensures reply { IfOk result (λ reply. reply_kept reply
        ≡ reply_to (map (zone_of S.signature_of H.digest_of) zones.now) policies.now transport
        message.now query.now) }
    ensures code { IfOk result HasSmallCode }
{
    match zone_asked(zones, policies, query)? {
        None => Ok(TransferReply::Code(NOT_AUTHORITATIVE)),
        Some((zone, TransferPolicy::AllowAll)) => {
            allowed_reply(alloc, zone, transport, message, query)
        }
        Some((_, TransferPolicy::Deny | TransferPolicy::AllowSigned)) => {
            Ok(TransferReply::Code(ResponseCode::Refused))
        }
    }
}

/// The zone that a query asks for, and who may transfer it.
fn zone_asked<'s, 'z, S: Signer, H: Nsec3Hash>(
    zones: &'s ListedZones<'z, S, H>,
    policies: &[TransferPolicy],
    query: &Query,
) -> Result<Option<(&'s ServedZone<'z, S, H>, TransferPolicy)>, AllocError>
    ensures { IfOk result
        (λ asked. option_map (λ x. (zone_of S.signature_of H.digest_of x.0.now, x.1)) asked
        ≡ zone_asked (map (zone_of S.signature_of H.digest_of) zones.now) policies.now query.now) }
{
    if query.question.query_class != DNSClass::IN {
        return Ok(None);
    }
    let Ok(name) = LowerName::new(&query.question.name) else {
        return Err(AllocError);
    };
    Ok(zone_at(zones, policies, &name))
}

/// The zone of this origin, and who may transfer it.
fn zone_at<'s, 'z, S: Signer, H: Nsec3Hash>(
    zones: &'s ListedZones<'z, S, H>,
    policies: &[TransferPolicy],
    origin: &LowerName,
) -> Option<(&'s ServedZone<'z, S, H>, TransferPolicy)>
    ensures { option_map (λ x. (zone_of S.signature_of H.digest_of x.0.now, x.1)) result
        ≡ zone_at (map (zone_of S.signature_of H.digest_of) zones.now) policies.now origin.now }
{
    let (place, zone) = zones.at(origin)?;
    Some((zone, policy_at(policies, place)))
}

/// The policy at an index: that nobody may transfer the zone, if there is none.
fn policy_at(policies: &[TransferPolicy], place: usize) -> TransferPolicy
    ensures { result ≡ slice_index_or policies.now place TransferPolicy.Deny }
{
    match policies.get(place) {
        Some(policy) => *policy,
        None => TransferPolicy::Deny,
    }
}

/// What is answered for a zone that may be transferred.
fn allowed_reply<'z, S: Signer, H: Nsec3Hash>(
    alloc: Global,
    zone: &ServedZone<'z, S, H>,
    transport: Transport,
    message: &[u8],
    query: &Query,
) -> Result<TransferReply<'z>, AllocError>
    ensures reply { IfOk result (λ reply. reply_kept reply
        ≡ allowed_reply transport message.now query.now zone.now.inner.now.records
        (set_at zone.now.inner.now.records zone.now.origin.now SOA)) }
    ensures code { IfOk result HasSmallCode }
{
    let Ok(key) = soa_key(zone.origin) else {
        return Err(AllocError);
    };
    let Some(soa) = zone.inner.get(&key) else {
        return Ok(TransferReply::Code(ResponseCode::ServFail));
    };
    if query.question.query_type == RecordType::AXFR {
        return Ok(TransferReply::Whole(soa, zone.inner.as_map()));
    }
    let serial = client_serial(alloc, message)?;
    Ok(changes_reply(transport, serial, soa, zone.inner.as_map()))
}

/// The key of the SOA set of an origin. Refused by `Memory`.
pub fn soa_key(origin: &LowerName) -> Result<RrKey, ProtoError>
    ensures { IfOk result (λ key. key ≡ key_at origin.now SOA) }
{
    Ok(RrKey::new(origin.clone()?, RecordType::SOA))
}

/// What a query for the changes since a serial is answered with.
fn changes_reply<'z>(
    transport: Transport,
    serial: Option<u32>,
    soa: &'z RecordSet,
    sets: &'z SetMap,
) -> TransferReply<'z>
    ensures reply { reply_kept result ≡ changes_reply transport serial soa.now sets.now }
    ensures code { HasSmallCode result }
{
    match serial {
        None => TransferReply::Code(ResponseCode::FormErr),
        Some(theirs) if is_stream(transport) && is_newer(serial_of(soa), theirs) => {
            TransferReply::Whole(soa, sets)
        }
        Some(_) => TransferReply::StartOfAuthority(soa),
    }
}

/// The serial of the SOA with which the authority section of a query for changes begins (RFC 1995 section 3); none if
/// it begins with another record, or with none. Records behind that one are not read. Refused for lack of memory alone.
pub fn client_serial(alloc: Global, message: &[u8]) -> Result<Option<u32>, AllocError>
    ensures { IfOk result (λ serial. serial ≡ client_serial message.now) }
{
    match read_first_authority(alloc, message) {
        Ok(Some(record)) => Ok(soa_serial(&record.rdata)),
        Ok(None) => Ok(None),
        Err(_) => Err(AllocError),
    }
}

/// The serial of an SOA set; 0 where it has no record.
fn serial_of(soa: &RecordSet) -> u32
    ensures { result ≡ serial_of soa.now }
{
    first_serial(soa.as_slice()).unwrap_or(0)
}
