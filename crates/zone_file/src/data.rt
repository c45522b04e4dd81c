//! The data of a type.
ghost use Rattle.std.specs.Prelude.{◌≡◌, ◌+◌, ◌<◌, Ok, Some, None, true, false, nat_lt, length, IfOk};
ghost use Rattle.message_reading.specs.DataForms.{plain_data_of};
ghost use Rattle.record_fields.specs.declared.fault.Reason.TheVariants as reason;
ghost use Rattle.zone_proto.specs.Data.{same_octets};
ghost use Rattle.record_fields.specs.Readings.{Gives};
ghost use Rattle.record_fields.specs.Fields.{Left, or_fault};
ghost use Rattle.zone_file.specs.Data.{data_size, next_data, next_data_octets, next_mx, next_other, next_own, next_own_octets, next_soa, next_srv, other_data};
ghost use Rattle.record_fields.specs.Texts.{generic, is_generic};

use crate::denials::{take_nsec, take_nsec3, take_nsec3param};
use crate::keys::{take_dnskey, take_rrsig};
use message_reading::plain_data_of;
use record_fields::{
    ReadError, Reason, Words, row_of, take_generic, take_ipv4, take_ipv6, take_name, take_row,
    take_timer, take_u16, take_u32,
};
use std::alloc::{AllocError, Global};
use zone_proto::{MX, Name, OtherData, RData, RecordType, SOA, SRV};
use zone_scanner::Word;

/// Takes the data of a type, in the form of the type or as `\#`.
pub(crate) fn take_data(
    alloc: Global,
    origin: &Name,
    record_type: RecordType,
    words: &mut Words<'_>,
) -> Result<RData, ReadError>
    ensures { Gives (λ d. (d, words.new)) result (next_data origin.now record_type.0 words.old) }
{
    if is_generic(words.rest()) {
        Ok(take_data_octets(alloc, record_type, words)?)
    } else {
        Ok(take_own(alloc, origin, record_type, words)?)
    }
}

/// Takes the data of a type as `\#`.
fn take_data_octets(
    alloc: Global,
    record_type: RecordType,
    words: &mut Words<'_>,
) -> Result<RData, ReadError>
    ensures { Gives (λ d. (d, words.new)) result (next_data_octets record_type.0 words.old) }
{
    let octets = take_generic(alloc, words)?;
    match data_of(alloc, record_type, octets.as_slice())? {
        Some(data) => Ok(data),
        None => Err(words.fault(Reason::Octets)),
    }
}

/// What octets are as the data of a type.
fn data_of(
    alloc: Global,
    record_type: RecordType,
    octets: &[u8],
) -> Result<Option<RData>, AllocError>
    ensures { IfOk result (λ d. d ≡ plain_data_of record_type.0 octets.now) }
{
    match plain_data_of(alloc, record_type, octets) {
        Ok(data) => Ok(data),
        Err(_) => Err(AllocError),
    }
}

/// Whether data are written as `\#`.
fn is_generic(words: &[Word]) -> bool
    ensures { result ≡ is_generic words.now }
{
    match words {
        [] => false,
        [word, ..] => !word.is_quoted() && word.octets() == b"\\#".as_slice(),
    }
}

/// Takes the data of a type in its own form.
fn take_own(
    alloc: Global,
    origin: &Name,
    record_type: RecordType,
    words: &mut Words<'_>,
) -> Result<RData, ReadError>
    ensures { Gives (λ d. (d, words.new)) result (next_own origin.now record_type.0 words.old) }
{
    match record_type {
        RecordType::A => Ok(RData::A(take_ipv4(words)?)),
        RecordType::AAAA => Ok(RData::AAAA(take_ipv6(alloc, words)?)),
        RecordType::NS => Ok(RData::NS(take_name(alloc, origin, words)?)),
        RecordType::CNAME => Ok(RData::CNAME(take_name(alloc, origin, words)?)),
        RecordType::ANAME => Ok(RData::ANAME(take_name(alloc, origin, words)?)),
        RecordType::SOA => Ok(RData::SOA(take_soa(alloc, origin, words)?)),
        RecordType::MX => Ok(RData::MX(take_mx(alloc, origin, words)?)),
        RecordType::SRV => Ok(RData::SRV(take_srv(alloc, origin, words)?)),
        RecordType::DNSKEY => Ok(RData::DNSKEY(take_dnskey(alloc, words)?)),
        RecordType::RRSIG => Ok(RData::RRSIG(take_rrsig(alloc, origin, words)?)),
        RecordType::NSEC => Ok(RData::NSEC(take_nsec(alloc, origin, words)?)),
        RecordType::NSEC3 => Ok(RData::NSEC3(take_nsec3(alloc, words)?)),
        RecordType::NSEC3PARAM => Ok(RData::NSEC3PARAM(take_nsec3param(alloc, words)?)),
        _ => Ok(take_by_row(alloc, origin, record_type, words)?),
    }
}

/// Takes the data of a type without a case of its own, by the row that it has in the table.
fn take_by_row(
    alloc: Global,
    origin: &Name,
    record_type: RecordType,
    words: &mut Words<'_>,
) -> Result<RData, ReadError>
    ensures { Gives (λ d. (d, words.new)) result
        (next_other record_type.0 (next_own_octets origin.now record_type.0 words.old)) }
{
    let octets = take_own_octets(alloc, origin, record_type, words)?;
    take_other(words, record_type, octets)
}

/// The octets of such data.
fn take_own_octets(
    alloc: Global,
    origin: &Name,
    record_type: RecordType,
    words: &mut Words<'_>,
) -> Result<Vec<u8>, ReadError>
    ensures { Gives (λ os. (os.items, words.new)) result
        (next_own_octets origin.now record_type.0 words.old) }
{
    match row_of(record_type.0) {
        Some(row) => take_row(alloc, origin, row, words),
        None => Err(words.fault(Reason::OnlyGeneric)),
    }
}

/// Takes the parts of an SOA.
#[tactic(auto, unfolding(crate::specs::Data::next_soa))]
fn take_soa(alloc: Global, origin: &Name, words: &mut Words<'_>) -> Result<SOA, ReadError>
    ensures { Gives (λ d. (d, words.new)) result (next_soa origin.now words.old) }
{
    Ok(SOA {
        mname: take_name(alloc, origin, words)?,
        rname: take_name(alloc, origin, words)?,
        serial: take_u32(words)?,
        refresh: take_timer(words)?.cast_signed(),
        retry: take_timer(words)?.cast_signed(),
        expire: take_timer(words)?.cast_signed(),
        minimum: take_timer(words)?,
    })
}

/// Takes the parts of an MX.
#[tactic(auto, unfolding(crate::specs::Data::next_mx))]
fn take_mx(alloc: Global, origin: &Name, words: &mut Words<'_>) -> Result<MX, ReadError>
    ensures { Gives (λ d. (d, words.new)) result (next_mx origin.now words.old) }
{
    Ok(MX {
        preference: take_u16(words)?,
        exchange: take_name(alloc, origin, words)?,
    })
}

/// Takes the parts of an SRV.
#[tactic(auto, unfolding(crate::specs::Data::next_srv))]
fn take_srv(alloc: Global, origin: &Name, words: &mut Words<'_>) -> Result<SRV, ReadError>
    ensures { Gives (λ d. (d, words.new)) result (next_srv origin.now words.old) }
{
    Ok(SRV {
        priority: take_u16(words)?,
        weight: take_u16(words)?,
        port: take_u16(words)?,
        target: take_name(alloc, origin, words)?,
    })
}

/// Octets that were taken, as the data of a type without a case of its own.
fn take_other(
    words: &Words<'_>,
    record_type: RecordType,
    octets: Vec<u8>,
) -> Result<RData, ReadError>
    ensures { Gives (λ d. (d, words.now)) result
        (or_fault (other_data record_type.0 octets.items) reason.Type words.now) }
{
    match other_of(record_type, octets) {
        Some(data) => Ok(data),
        None => Err(words.fault(Reason::Type)),
    }
}

/// Octets as the data of a type without a case of its own.
#[tactic(auto, using(crate::proofs::DataFacts::other_made, crate::proofs::DataFacts::other_none))]
fn other_of(record_type: RecordType, octets: Vec<u8>) -> Option<RData>
    ensures { result ≡ other_data record_type.0 octets.items }
{
    match OtherData::new(record_type, octets) {
        Some(other) => Some(RData::Other(other)),
        None => None,
    }
}

/// Whether data have more octets in wire form than a record can have (RFC 1035 section 3.2.1).
pub(crate) fn is_too_long(rdata: &RData) -> bool
    ensures { result ≡ nat_lt 65535 (data_size rdata.now) }
{
    match rdata {
        RData::DNSKEY(key) => 4 + key.public_key.as_slice().len() > 65_535,
        RData::RRSIG(signature) => 273 + signature.signature.as_slice().len() > 65_535,
        RData::Other(other) => other.octets().len() > 65_535,
        _ => false,
    }
}
