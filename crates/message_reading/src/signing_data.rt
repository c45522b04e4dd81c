//! The data of DNSKEY and RRSIG records.
ghost use Rattle.std.specs.Prelude.{◌≡◌, IfOk};
ghost use Rattle.message_reading.specs.DataForms.{dnskey_of, rrsig_of};

use crate::names::plain_name_of;
use crate::octets::{long_of, octet_of, short_of};
use std::alloc::Global;
use zone_proto::{DNSKEY, ProtoError, RData, RRSIG, RecordType, Seq};

/// The data of a DNSKEY record (RFC 4034 section 2.1).
#[tactic(auto, unfolding(crate::specs::DataForms::dnskey_of))]
pub(crate) fn dnskey_of(alloc: Global, octets: &[u8]) -> Result<Option<RData>, ProtoError>
    ensures { IfOk result (λ rdata. rdata ≡ dnskey_of octets.now) }
{
    let Some((flags, rest)) = short_of(octets) else {
        return Ok(None);
    };
    let Some((protocol, rest)) = octet_of(rest) else {
        return Ok(None);
    };
    let Some((algorithm, rest)) = octet_of(rest) else {
        return Ok(None);
    };
    let public_key = Seq::from_slice(alloc, rest)?;
    Ok(Some(RData::DNSKEY(DNSKEY {
        flags,
        protocol,
        algorithm,
        public_key,
    })))
}

/// The data of an RRSIG record (RFC 4034 section 3.1).
#[tactic(auto, unfolding(crate::specs::DataForms::rrsig_of))]
pub(crate) fn rrsig_of(alloc: Global, octets: &[u8]) -> Result<Option<RData>, ProtoError>
    ensures { IfOk result (λ rdata. rdata ≡ rrsig_of octets.now) }
{
    let Some((covered, rest)) = short_of(octets) else {
        return Ok(None);
    };
    let Some((algorithm, rest)) = octet_of(rest) else {
        return Ok(None);
    };
    let Some((num_labels, rest)) = octet_of(rest) else {
        return Ok(None);
    };
    let Some((original_ttl, rest)) = long_of(rest) else {
        return Ok(None);
    };
    let Some((expiration, rest)) = long_of(rest) else {
        return Ok(None);
    };
    let Some((inception, rest)) = long_of(rest) else {
        return Ok(None);
    };
    let Some((key_tag, rest)) = short_of(rest) else {
        return Ok(None);
    };
    let Some((signer_name, rest)) = plain_name_of(alloc, rest)? else {
        return Ok(None);
    };
    let signature = Seq::from_slice(alloc, rest)?;
    Ok(Some(RData::RRSIG(RRSIG {
        type_covered: RecordType(covered),
        algorithm,
        num_labels,
        original_ttl,
        expiration,
        inception,
        key_tag,
        signer_name,
        signature,
    })))
}
