//! The data of SOA records.
ghost use Rattle.std.specs.Prelude.{◌≡◌, ◌≤◌, IfOk, length};
ghost use Rattle.message_reading.specs.DataForms.{soa_of, soa_numbers};

use crate::names::name_of;
use crate::octets::{long_of, only_long_of, past};
use std::alloc::Global;
use zone_proto::{Name, ProtoError, RData, SOA};

/// The data of an SOA record (RFC 1035 section 3.3.13).
#[tactic(auto, unfolding(crate::specs::DataForms::soa_of))]
pub(crate) fn soa_of(
    alloc: Global,
    message: &[u8],
    at: usize,
    octets: &[u8],
) -> Result<Option<RData>, ProtoError>
    requires { at ≤ length message.now }
    ensures { IfOk result (λ rdata. rdata ≡ soa_of message.now at octets.now) }
{
    let Some((mname, rest)) = name_of(alloc, message, at, octets)? else {
        return Ok(None);
    };
    let second = past(at, octets, rest);
    match name_of(alloc, message, second, rest)? {
        None => Ok(None),
        Some((rname, numbers)) => Ok(soa_numbers(mname, rname, numbers)),
    }
}

/// The data of these names and of the five numbers that octets are.
fn soa_numbers(mname: Name, rname: Name, octets: &[u8]) -> Option<RData>
    ensures { result ≡ soa_numbers mname rname octets.now }
{
    let (serial, rest) = long_of(octets)?;
    let (refresh, rest) = long_of(rest)?;
    let (retry, rest) = long_of(rest)?;
    let (expire, rest) = long_of(rest)?;
    let minimum = only_long_of(rest)?;
    Some(RData::SOA(SOA {
        mname,
        rname,
        serial,
        refresh: refresh.cast_signed(),
        retry: retry.cast_signed(),
        expire: expire.cast_signed(),
        minimum,
    }))
}
