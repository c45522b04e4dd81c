//! What a zone asks its parent to have.
ghost use Rattle.std.specs.Prelude.{◌≡◌, ◌++◌, ◌+◌, ◌*◌, IfOk, OnOk, IsOkUnless};
ghost use Rattle.std.specs.List.{list_any};
ghost use Rattle.zone_proto.specs.declared.record.Record.{Record as RecordValue};
ghost use Rattle.zone_proto.specs.Types.{DNSKEY as dnskey_type};
ghost use Rattle.zone_map.specs.Zones.{set_at};
ghost use Rattle.zone_publication.specs.Requests.{is_digest, is_digest_of, is_request_for, is_request_of, is_zero_at, keys_in, octets_finding, request_finding, requests};

use crate::delegations::CDS;
use crate::finding::{Finding, What, push_finding};
use crate::names::Zone;
use crate::signatures::is_zone_key;
use std::alloc::Global;
use zone_keys::{dnskey_data, ds_digest_sha1, ds_digest_sha256, key_tag};
use zone_proto::{DNSKEY, LowerName, ProtoError, RData, Record, RecordType};

/// The key of which the parent is to have a digest (RFC 7344 section 3.2).
const CDNSKEY: RecordType = RecordType(60);

/// The most octets of a key in data, behind its flags, protocol and algorithm.
const MOST_KEY: usize = 65_531;

/// Adds what is found of the requests to the parent in a set. Its only error is `Memory`.
pub(crate) fn push_requests(
    alloc: Global,
    zone: &Zone<'_>,
    owner: &LowerName,
    record_type: RecordType,
    records: &[Record],
    out: &mut Vec<Finding>,
) -> Result<(), ProtoError>
    ensures ok { OnOk result (out.new.items ≡ out.old.items
        ++ requests zone.now.origin.now zone.now.records.now owner.now record_type.0 records.now) }
    ensures err { IsOkUnless result ProtoError.Memory }
{
    if record_type != CDS && record_type != CDNSKEY {
        return Ok(());
    }
    if zone.is_below(owner) {
        return push_finding(owner, record_type, What::NotAtApex, out);
    }
    let keys = apex_keys(zone)?;
    for given in records {
        push_request(
            alloc,
            owner,
            record_type,
            zone.origin,
            keys,
            &given.rdata,
            out,
        )?;
    }
    Ok(())
}

/// The records of the DNSKEY set of the apex. Its only error is `Memory`.
fn apex_keys<'z>(zone: &Zone<'z>) -> Result<&'z [Record], ProtoError>
    ensures ok { IfOk result (λ keys. keys.now
        ≡ keys_in (set_at zone.now.records.now zone.now.origin.now dnskey_type)) }
    ensures err { IsOkUnless result ProtoError.Memory }
{
    match zone.set_at(zone.origin, RecordType::DNSKEY)? {
        Some(set) => Ok(set.as_slice()),
        None => Ok(&[]),
    }
}

/// Adds that a request has no key among these. Its only error is `Memory`.
fn push_request(
    alloc: Global,
    owner: &LowerName,
    record_type: RecordType,
    origin: &LowerName,
    keys: &[Record],
    rdata: &RData,
    out: &mut Vec<Finding>,
) -> Result<(), ProtoError>
    ensures ok { OnOk result (out.new.items ≡ out.old.items
        ++ request_finding owner.now record_type.0 origin.now keys.now rdata.now) }
    ensures err { IsOkUnless result ProtoError.Memory }
{
    match rdata {
        RData::Other(other) => push_octets(
            alloc,
            owner,
            record_type,
            origin,
            keys,
            other.octets(),
            out,
        ),
        _ => Ok(()),
    }
}

/// Adds that the data of a request have no key among these. Its only error is `Memory`.
fn push_octets(
    alloc: Global,
    owner: &LowerName,
    record_type: RecordType,
    origin: &LowerName,
    keys: &[Record],
    octets: &[u8],
    out: &mut Vec<Finding>,
) -> Result<(), ProtoError>
    ensures ok { OnOk result (out.new.items ≡ out.old.items
        ++ octets_finding owner.now record_type.0 origin.now keys.now octets.now) }
    ensures err { IsOkUnless result ProtoError.Memory }
{
    if is_zero(record_type, octets) {
        return Ok(());
    }
    if has_key(alloc, origin, record_type, octets, keys)? {
        return Ok(());
    }
    push_finding(owner, record_type, What::WithoutKey, out)
}

/// Whether a request asks for no DS (RFC 8078 section 4).
fn is_zero(record_type: RecordType, octets: &[u8]) -> bool
    ensures { result ≡ is_zero_at record_type.0 octets.now }
{
    match octets {
        [_, _, third, fourth, ..] => {
            if record_type == CDS {
                *third == 0
            } else {
                *fourth == 0
            }
        }
        _ => false,
    }
}

/// Whether the key of a request is among these. Its only error is `Memory`.
fn has_key(
    alloc: Global,
    origin: &LowerName,
    record_type: RecordType,
    octets: &[u8],
    keys: &[Record],
) -> Result<bool, ProtoError>
    ensures ok { IfOk result (λ has. has ≡ list_any
        (λ (k : RecordValue). is_request_of origin.now record_type.0 octets.now k.rdata) keys.now) }
    ensures err { IsOkUnless result ProtoError.Memory }
{
    for key in keys {
        if is_request_of(alloc, origin, record_type, octets, &key.rdata)? {
            return Ok(true);
        }
    }
    Ok(false)
}

/// Whether data are those of a request for the key of a record. Its only error is `Memory`.
fn is_request_of(
    alloc: Global,
    origin: &LowerName,
    record_type: RecordType,
    octets: &[u8],
    rdata: &RData,
) -> Result<bool, ProtoError>
    ensures ok { IfOk result
        (λ is. is ≡ is_request_of origin.now record_type.0 octets.now rdata.now) }
    ensures err { IsOkUnless result ProtoError.Memory }
{
    match rdata {
        RData::DNSKEY(key) => {
            if is_zone_key(key) {
                is_request_for(alloc, origin, record_type, octets, key)
            } else {
                Ok(false)
            }
        }
        _ => Ok(false),
    }
}

/// Whether data are those of a request for a key. Its only error is `Memory`.
fn is_request_for(
    alloc: Global,
    origin: &LowerName,
    record_type: RecordType,
    octets: &[u8],
    key: &DNSKEY,
) -> Result<bool, ProtoError>
    ensures ok { IfOk result
        (λ is. is ≡ is_request_for origin.now record_type.0 octets.now key.now) }
    ensures err { IsOkUnless result ProtoError.Memory }
{
    if record_type == CDS {
        return is_digest_of(origin, key, octets);
    }
    let made = dnskey_data(alloc, key)?;
    Ok(made.as_slice() == octets)
}

/// Whether data of CDS are those of a key. Its only error is `Memory`.
fn is_digest_of(origin: &LowerName, key: &DNSKEY, octets: &[u8]) -> Result<bool, ProtoError>
    ensures ok { IfOk result (λ is. is ≡ is_digest_of origin.now key.now octets.now) }
    ensures err { IsOkUnless result ProtoError.Memory }
{
    match octets {
        [high, low, algorithm, digest_type, digest @ ..] => {
            if key.public_key.as_slice().len() > MOST_KEY {
                return Ok(false);
            }
            if tag_of(*high, *low) != key_tag(key) {
                return Ok(false);
            }
            if *algorithm != key.algorithm {
                return Ok(false);
            }
            is_digest(origin, key, *digest_type, digest)
        }
        _ => Ok(false),
    }
}

/// The number of two octets, the higher first.
fn tag_of(high: u8, low: u8) -> u16
    ensures { result ≡ high * 256 + low }
{
    u16::from(high) * 256 + u16::from(low)
}

/// Whether a digest is that of a key, as far as its type is known. Its only error is `Memory`.
fn is_digest(
    origin: &LowerName,
    key: &DNSKEY,
    digest_type: u8,
    digest: &[u8],
) -> Result<bool, ProtoError>
    ensures ok { IfOk result (λ is. is ≡ is_digest origin.now key.now digest_type digest.now) }
    ensures err { IsOkUnless result ProtoError.Memory }
{
    match digest_type {
        1 => {
            let made = ds_digest_sha1(origin, key)?;
            Ok(made.as_slice() == digest)
        }
        2 => {
            let made = ds_digest_sha256(origin, key)?;
            Ok(made.as_slice() == digest)
        }
        _ => Ok(true),
    }
}
