//! The data of MX and SRV records.
ghost use Rattle.std.specs.Prelude.{◌≡◌, ◌≤◌, IfOk, length};
ghost use Rattle.message_reading.specs.DataForms.{mx_of, srv_of};

use crate::names::only_name_of;
use crate::octets::{past, short_of};
use std::alloc::Global;
use zone_proto::{MX, ProtoError, RData, SRV};

/// The data of an MX record (RFC 1035 section 3.3.9).
#[tactic(auto, unfolding(crate::specs::DataForms::mx_of))]
pub(crate) fn mx_of(
    alloc: Global,
    message: &[u8],
    at: usize,
    octets: &[u8],
) -> Result<Option<RData>, ProtoError>
    requires { at ≤ length message.now }
    ensures { IfOk result (λ rdata. rdata ≡ mx_of message.now at octets.now) }
{
    let Some((preference, rest)) = short_of(octets) else {
        return Ok(None);
    };
    match only_name_of(alloc, message, past(at, octets, rest), rest)? {
        None => Ok(None),
        Some(exchange) => Ok(Some(RData::MX(MX {
            preference,
            exchange,
        }))),
    }
}

/// The data of an SRV record (RFC 2782).
#[tactic(auto, unfolding(crate::specs::DataForms::srv_of))]
pub(crate) fn srv_of(
    alloc: Global,
    message: &[u8],
    at: usize,
    octets: &[u8],
) -> Result<Option<RData>, ProtoError>
    requires { at ≤ length message.now }
    ensures { IfOk result (λ rdata. rdata ≡ srv_of message.now at octets.now) }
{
    let Some((priority, rest)) = short_of(octets) else {
        return Ok(None);
    };
    let Some((weight, rest)) = short_of(rest) else {
        return Ok(None);
    };
    let Some((port, rest)) = short_of(rest) else {
        return Ok(None);
    };
    match only_name_of(alloc, message, past(at, octets, rest), rest)? {
        None => Ok(None),
        Some(target) => Ok(Some(RData::SRV(SRV {
            priority,
            weight,
            port,
            target,
        }))),
    }
}
