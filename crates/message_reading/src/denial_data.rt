//! The data of NSEC, NSEC3 and NSEC3PARAM records.
ghost use Rattle.std.specs.Prelude.{◌≡◌, IfOk, option_map};
ghost use Rattle.message_reading.specs.DataForms.{hash_of, nsec_of, nsec3_of, nsec3param_of, opt_out_of};

use crate::names::plain_name_of;
use crate::octets::{counted_of, octet_of, short_of};
use crate::type_map::types_of;
use std::alloc::Global;
use zone_proto::{NSEC, NSEC3, NSEC3PARAM, ProtoError, RData, Seq};

/// The data of an NSEC record (RFC 4034 section 4.1).
#[tactic(auto, unfolding(crate::specs::DataForms::nsec_of))]
pub(crate) fn nsec_of(alloc: Global, octets: &[u8]) -> Result<Option<RData>, ProtoError>
    ensures { IfOk result (λ rdata. rdata ≡ nsec_of octets.now) }
{
    let Some((next_domain_name, rest)) = plain_name_of(alloc, octets)? else {
        return Ok(None);
    };
    if rest.is_empty() {
        return Ok(None);
    }
    match types_of(alloc, rest)? {
        None => Ok(None),
        Some(types) => Ok(Some(RData::NSEC(NSEC {
            next_domain_name,
            types,
        }))),
    }
}

/// The data of an NSEC3 record (RFC 5155 section 3.2).
#[tactic(auto, unfolding(crate::specs::DataForms::nsec3_of))]
pub(crate) fn nsec3_of(alloc: Global, octets: &[u8]) -> Result<Option<RData>, ProtoError>
    ensures { IfOk result (λ rdata. rdata ≡ nsec3_of octets.now) }
{
    let Some((algorithm, rest)) = octet_of(octets) else {
        return Ok(None);
    };
    let Some((opt_out, rest)) = opt_out_of(rest) else {
        return Ok(None);
    };
    let Some((iterations, rest)) = short_of(rest) else {
        return Ok(None);
    };
    let Some((salt, rest)) = counted_of(rest) else {
        return Ok(None);
    };
    let Some((hash, rest)) = hash_of(rest) else {
        return Ok(None);
    };
    let Some(types) = types_of(alloc, rest)? else {
        return Ok(None);
    };
    let salt = Seq::from_slice(alloc, salt)?;
    let next_hashed_owner_name = Seq::from_slice(alloc, hash)?;
    Ok(Some(RData::NSEC3(NSEC3 {
        algorithm,
        opt_out,
        iterations,
        salt,
        next_hashed_owner_name,
        types,
    })))
}

/// The data of an NSEC3PARAM record (RFC 5155 section 4.2).
#[tactic(auto, unfolding(crate::specs::DataForms::nsec3param_of))]
pub(crate) fn nsec3param_of(alloc: Global, octets: &[u8]) -> Result<Option<RData>, ProtoError>
    ensures { IfOk result (λ rdata. rdata ≡ nsec3param_of octets.now) }
{
    let Some((algorithm, rest)) = octet_of(octets) else {
        return Ok(None);
    };
    let Some((opt_out, rest)) = opt_out_of(rest) else {
        return Ok(None);
    };
    let Some((iterations, rest)) = short_of(rest) else {
        return Ok(None);
    };
    let Some((salt, [])) = counted_of(rest) else {
        return Ok(None);
    };
    let salt = Seq::from_slice(alloc, salt)?;
    Ok(Some(RData::NSEC3PARAM(NSEC3PARAM {
        algorithm,
        opt_out,
        iterations,
        salt,
    })))
}

/// The flag opt-out, where no other flag is set (RFC 5155 section 3.1.2), and what follows the flags.
fn opt_out_of(octets: &[u8]) -> Option<(bool, &[u8])>
    ensures { option_map (λ x. (x.0, x.1.now)) result ≡ opt_out_of octets.now }
{
    let (flags, rest) = octet_of(octets)?;
    if flags <= 1 {
        Some((flags == 1, rest))
    } else {
        None
    }
}

/// A hash of one octet at least, and what follows it.
fn hash_of(octets: &[u8]) -> Option<(&[u8], &[u8])>
    ensures { option_map (λ x. (x.0.now, x.1.now)) result ≡ hash_of octets.now }
{
    let (hash, rest) = counted_of(octets)?;
    if hash.is_empty() {
        None
    } else {
        Some((hash, rest))
    }
}
