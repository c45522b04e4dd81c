//! The data of records, read by their type.
ghost use Rattle.std.specs.Prelude.{◌≡◌, ◌≤◌, IfOk, length};
ghost use Rattle.message_reading.specs.DataForms.{address_of, data_of, own_data_of, plain_data_of};

use crate::denial_data::{nsec_of, nsec3_of, nsec3param_of};
use crate::names::only_name_of;
use crate::other_data::other_data_of;
use crate::service_data::{mx_of, srv_of};
use crate::signing_data::{dnskey_of, rrsig_of};
use crate::start_of_authority::soa_of;
use std::alloc::Global;
use zone_proto::{ProtoError, RData, RecordType};

/// The data of a type in octets without pointers, as a zone file, a key or a signature has them; none if the octets are
/// not of the form of the type (RFC 3597 section 3). `Memory` where none is found.
pub fn plain_data_of(
    alloc: Global,
    record_type: RecordType,
    octets: &[u8],
) -> Result<Option<RData>, ProtoError>
    ensures { IfOk result (λ rdata. rdata ≡ plain_data_of record_type.0 octets.now) }
{
    data_of(alloc, record_type, &[], 0, octets)
}

/// The data of a type, whose octets are at an offset of a message, with names that may point back into it (RFC 1035 section
/// 4.1.4); none if the octets are not of the form of the type. `Memory` where none is found.
pub fn data_of(
    alloc: Global,
    record_type: RecordType,
    message: &[u8],
    at: usize,
    octets: &[u8],
) -> Result<Option<RData>, ProtoError>
    requires { at ≤ length message.now }
    ensures { IfOk result (λ rdata. rdata ≡ data_of record_type.0 message.now at octets.now) }
{
    if record_type.has_own_case() {
        own_data_of(alloc, record_type, message, at, octets)
    } else {
        other_data_of(alloc, record_type, message, at, octets)
    }
}

/// The data of a type that has a case of its own.
#[tactic(auto, unfolding(crate::specs::DataForms::own_data_of))]
fn own_data_of(
    alloc: Global,
    record_type: RecordType,
    message: &[u8],
    at: usize,
    octets: &[u8],
) -> Result<Option<RData>, ProtoError>
    requires { at ≤ length message.now }
    ensures { IfOk result (λ rdata. rdata ≡ own_data_of record_type.0 message.now at octets.now) }
{
    match record_type {
        RecordType::A => Ok(ipv4_of(octets).map(RData::A)),
        RecordType::AAAA => Ok(ipv6_of(octets).map(RData::AAAA)),
        RecordType::NS => Ok(only_name_of(alloc, message, at, octets)?.map(RData::NS)),
        RecordType::CNAME => Ok(only_name_of(alloc, message, at, octets)?.map(RData::CNAME)),
        RecordType::ANAME => Ok(only_name_of(alloc, &[], 0, octets)?.map(RData::ANAME)),
        RecordType::SOA => soa_of(alloc, message, at, octets),
        RecordType::MX => mx_of(alloc, message, at, octets),
        RecordType::SRV => srv_of(alloc, message, at, octets),
        RecordType::DNSKEY => dnskey_of(alloc, octets),
        RecordType::NSEC => nsec_of(alloc, octets),
        RecordType::NSEC3 => nsec3_of(alloc, octets),
        RecordType::NSEC3PARAM => nsec3param_of(alloc, octets),
        RecordType::RRSIG => rrsig_of(alloc, octets),
        _ => Ok(None),
    }
}

/// An address of four octets.
fn ipv4_of(octets: &[u8]) -> Option<[u8; 4]>
    ensures { result ≡ address_of 4 octets.now }
{
    match octets {
        [a, b, c, d] => Some([*a, *b, *c, *d]),
        _ => None,
    }
}

/// An address of sixteen octets.
fn ipv6_of(octets: &[u8]) -> Option<[u8; 16]>
    ensures { result ≡ address_of 16 octets.now }
{
    if octets.len() != 16 {
        return None;
    }
    let mut address = [0; 16];
    address.copy_from_slice(octets);
    Some(address)
}
