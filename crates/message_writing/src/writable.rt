//! Whether octets can be the data of a record.
ghost use Rattle.std.specs.Prelude.{◌≡◌, IfOk, IsTrue};
ghost use Rattle.std.specs.Bool.{MatchBool};
ghost use Rattle.std.specs.Option.{is_some};
ghost use Rattle.message_reading.specs.OtherForms.{form_of};
ghost use Rattle.message_reading.specs.TypeMaps.{is_passed_over};
ghost use Rattle.message_writing.specs.Checks.{HasOctets, HaveTypeNumbers};
ghost use Rattle.message_writing.specs.DataText.{AreMapTypes, AreTypeNumbers, IsInForm, IsWritable};

use crate::name_writer::wire_length;
use message_reading::plain_data_of;
use std::alloc::Global;
use zone_proto::{NSEC, NSEC3, OtherData, ProtoError, RData, RRSIG, RecordType};

/// Whether octets can be these data. Its only error is `Memory` to read octets of a type that may have names in them.
pub(crate) fn is_writable(alloc: Global, rdata: &RData) -> Result<bool, ProtoError>
    ensures value { IfOk result (λ b. MatchBool b (IsWritable rdata.now)
        (IsWritable rdata.now → ⊥)) }
    ensures numbers { IfOk result (λ b. IsTrue b → HaveTypeNumbers rdata.now) }
{
    match rdata {
        RData::DNSKEY(key) => Ok(key.public_key.as_slice().len() <= 65531),
        RData::NSEC(nsec) => Ok(is_nsec_writable(nsec)),
        RData::NSEC3(nsec3) => Ok(is_nsec3_writable(nsec3)),
        RData::NSEC3PARAM(param) => Ok(param.salt.as_slice().len() <= 255),
        RData::RRSIG(rrsig) => Ok(is_rrsig_writable(rrsig)),
        RData::Other(other) => is_other_writable(alloc, other),
        _ => Ok(true),
    }
}

/// Whether octets can be the data of an NSEC record: it has types, and they are those of a map.
fn is_nsec_writable(nsec: &NSEC) -> bool
    ensures value { MatchBool result (IsWritable (RData.NSEC nsec.now))
        (IsWritable (RData.NSEC nsec.now) → ⊥) }
    ensures numbers { IsTrue result → AreTypeNumbers nsec.now.types }
{
    let types = nsec.types.as_slice();
    if types.is_empty() {
        return false;
    }
    are_map_types(types)
}

/// Whether octets can be the data of an NSEC3 record: its salt and its hash can be counted, and its types are those of a map.
fn is_nsec3_writable(nsec3: &NSEC3) -> bool
    ensures value { MatchBool result (IsWritable (RData.NSEC3 nsec3.now))
        (IsWritable (RData.NSEC3 nsec3.now) → ⊥) }
    ensures numbers { IsTrue result → AreTypeNumbers nsec3.now.types }
{
    let hash = nsec3.next_hashed_owner_name.as_slice();
    if nsec3.salt.as_slice().len() > 255 || hash.is_empty() || hash.len() > 255 {
        return false;
    }
    are_map_types(nsec3.types.as_slice())
}

/// Whether a signature's data have 65,535 octets at most: 18 of numbers, the name of the signer, and the signature.
fn is_rrsig_writable(rrsig: &RRSIG) -> bool
    ensures { MatchBool result (IsWritable (RData.RRSIG rrsig.now))
        (IsWritable (RData.RRSIG rrsig.now) → ⊥) }
{
    let signature = rrsig.signature.as_slice();
    signature.len() <= 65517 - wire_length(rrsig.signer_name.labels())
}

/// Whether octets of a type without a case of its own can be written: they are of its form, and the type is not that of OPT, of
/// which a message has one record at most, that of its sender (RFC 6891 section 6.1.1).
fn is_other_writable(alloc: Global, other: &OtherData) -> Result<bool, ProtoError>
    ensures { IfOk result (λ b. MatchBool b (IsWritable (RData.Other other.now))
        (IsWritable (RData.Other other.now) → ⊥)) }
{
    if other.record_type().0 == 41 {
        return Ok(false);
    }
    let in_form = is_in_form(alloc, other)?;
    Ok(in_form)
}

/// Whether octets of a type without a case of its own are of its form, without pointers (RFC 3597 section 4).
fn is_in_form(alloc: Global, other: &OtherData) -> Result<bool, ProtoError>
    ensures { IfOk result (λ b. MatchBool b (IsInForm other.now) (IsInForm other.now → ⊥)) }
{
    let octets = other.octets();
    if octets.len() > 65535 {
        return Ok(false);
    }
    let record_type = other.record_type();
    if !may_have_names(record_type) {
        return Ok(true);
    }
    match plain_data_of(alloc, record_type, octets)? {
        Some(read) => Ok(has_octets(&read, octets)),
        None => Ok(false),
    }
}

/// Whether octets of a type without a case of its own have names that a sender may have compressed (RFC 3597 section 4): only these
/// are read, which takes memory.
fn may_have_names(record_type: RecordType) -> bool
    ensures { result ≡ is_some (form_of record_type.0) }
{
    matches!(record_type.0, 3 | 4 | 7 | 8 | 9 | 12 | 14 | 17 | 18 | 21)
}

/// Whether data are of a type without a case of its own, and have these octets.
fn has_octets(rdata: &RData, octets: &[u8]) -> bool
    ensures { MatchBool result (HasOctets rdata.now octets.now)
        (HasOctets rdata.now octets.now → ⊥) }
{
    match rdata {
        RData::Other(other) => *other.octets() == *octets,
        _ => false,
    }
}

/// Whether types ascend, and none is passed over where a map is read.
fn are_map_types(types: &[RecordType]) -> bool
    ensures value { MatchBool result (AreMapTypes types.now) (AreMapTypes types.now → ⊥) }
    ensures numbers { IsTrue result → AreTypeNumbers types.now }
{
    let mut lowest = 0u32;
    for record_type in types {
        let number = record_type.0;
        let place = u32::from(number);
        if place < lowest {
            return false;
        }
        if is_passed_over(number) {
            return false;
        }
        lowest = place + 1;
    }
    true
}

/// Whether the bit of a type is passed over where a map is read: OPT's, and those of types of queries alone.
fn is_passed_over(number: u16) -> bool
    ensures { result ≡ is_passed_over number }
{
    number == 41 || (249 <= number && number <= 255)
}
