//! Queries as they come, for what is asked at loading, and where a table is searched for one.

use message_reading::HEADER_OCTETS;
use message_writing::push_short;
use std::alloc::AllocError;
use zone_proto::{DNSClass, LowerName, RecordType};

/// What each octet is multiplied by (FNV-1a).
const FACTOR: u64 = 0x0000_0100_0000_01b3;

/// What the first octet is put into.
const BASIS: u64 = 0xcbf2_9ce4_8422_2325;

/// A number that a message has in common with those of the same question that say the same by EDNS, and mostly with no others.
/// Nothing depends on it but how soon an answer is found.
pub(crate) fn hint_of(message: &[u8], query_type: RecordType, dnssec_ok: Option<bool>) -> usize {
    let mut sum = BASIS;
    for octet in message.get(HEADER_OCTETS..).unwrap_or(&[]) {
        if *octet == 0 {
            break;
        }
        sum = with_octet(sum, u64::from(*octet));
    }
    sum = with_octet(sum, u64::from(query_type.0));
    sum = with_octet(sum, number_of(dnssec_ok));
    (sum ^ (sum >> 32)) as usize
}

/// The sum with one octet more.
fn with_octet(sum: u64, octet: u64) -> u64 {
    (sum ^ octet).wrapping_mul(FACTOR)
}

/// A number for what a query says by EDNS.
fn number_of(dnssec_ok: Option<bool>) -> u64 {
    match dnssec_ok {
        None => 0,
        Some(false) => 1,
        Some(true) => 2,
    }
}

/// Writes a query of the class IN in place of the octets of `out`: its header, its question, and an OPT record without options
/// where `dnssec_ok` is there. Fails only for lack of memory.
pub(crate) fn write_query(
    out: &mut Vec<u8>,
    name: &LowerName,
    query_type: RecordType,
    dnssec_ok: Option<bool>,
    size: u16,
) -> Result<(), AllocError> {
    let Ok(name) = name.wire_lower() else {
        return Err(AllocError);
    };
    let others = if dnssec_ok.is_some() { 1u8 } else { 0 };
    out.clear();
    out.extend_from_slice(&[0, 0, 0, 0, 0, 1, 0, 0, 0, 0, 0, others])?;
    out.extend_from_slice(name.as_slice())?;
    push_short(out, query_type.0)?;
    push_short(out, DNSClass::IN.0)?;
    match dnssec_ok {
        Some(dnssec_ok) => push_opt(out, size, dnssec_ok),
        None => Ok(()),
    }
}

/// Appends an OPT record without options (RFC 6891 section 6.1.2), of a sender that takes so many octets.
fn push_opt(out: &mut Vec<u8>, size: u16, dnssec_ok: bool) -> Result<(), AllocError> {
    let flags = if dnssec_ok { 128u8 } else { 0 };
    out.extend_from_slice(&[0, 0, 41])?;
    push_short(out, size)?;
    out.extend_from_slice(&[0, 0, flags, 0, 0, 0])
}
