//! Data in canonical form (RFC 4034 section 6.2, as corrected by RFC 6840 section 5.1).
ghost use Rattle.std.specs.Prelude.{◌≡◌, ◌++◌, IfOk, IfErr, OnOk, map, take, drop};
ghost use Rattle.std.specs.Char.{to_ascii_lowercase};
ghost use Rattle.zone_proto.specs.Names.{lower};
ghost use Rattle.zone_proto.specs.Results.{IsCopy};
ghost use Rattle.message_writing.specs.DataText.{IsWritable};
ghost use Rattle.message_writing.specs.PlainText.{plain_text};
ghost use Rattle.zone_planning.specs.Canonical.{canonical_octets, canonical_soa, lowered_from, names_from, past_string, strings_length};
ghost use Rattle.zone_planning.specs.Faults.{IsUnwritableUnless};

use crate::fault::PlanFault;
use message_writing::push_plain_data;
use std::alloc::{AllocError, Global};
use zone_proto::{LowerName, MX, Name, OtherData, ProtoError, RData, SOA, SRV, Seq};

/// The canonical form of data: in wire form, with the names in lower case in the types that RFC 4034 lists. Refused by
/// `Unwritable` for data that no octets are, and by `Memory`.
pub(crate) fn canonical_octets(alloc: Global, rdata: &RData) -> Result<Seq<u8>, PlanFault>
    ensures ok { IfOk result (λ octets. octets ≡ canonical_octets rdata.now) }
    ensures err { IfErr result (λ e. IsUnwritableUnless e (IsWritable rdata.now)) }
{
    match rdata {
        RData::NS(name) => plain(alloc, &RData::NS(lower_copy(name)?)),
        RData::CNAME(name) => plain(alloc, &RData::CNAME(lower_copy(name)?)),
        RData::SOA(soa) => plain(alloc, &RData::SOA(lower_soa(soa)?)),
        RData::MX(mx) => {
            let exchange = lower_copy(&mx.exchange)?;
            plain(
                alloc,
                &RData::MX(MX {
                    preference: mx.preference,
                    exchange,
                }),
            )
        }
        RData::SRV(srv) => {
            let target = lower_copy(&srv.target)?;
            plain(
                alloc,
                &RData::SRV(SRV {
                    priority: srv.priority,
                    weight: srv.weight,
                    port: srv.port,
                    target,
                }),
            )
        }
        RData::Other(other) => canonical_other(alloc, rdata, other),
        RData::A(_)
        | RData::AAAA(_)
        | RData::ANAME(_)
        | RData::DNSKEY(_)
        | RData::NSEC(_)
        | RData::NSEC3(_)
        | RData::NSEC3PARAM(_)
        | RData::RRSIG(_) => plain(alloc, rdata),
    }
}

/// Data in wire form.
fn plain(alloc: Global, rdata: &RData) -> Result<Seq<u8>, PlanFault>
    ensures ok { IfOk result (λ octets. octets ≡ plain_text rdata.now) }
    ensures err { IfErr result (λ e. IsUnwritableUnless e (IsWritable rdata.now)) }
{
    let mut out = Vec::new(alloc);
    push_plain_data(alloc, &mut out, rdata)?;
    Ok(Seq::from_vec(out))
}

/// A name in lower case.
fn lower_copy(name: &Name) -> Result<Name, ProtoError>
    ensures { IsCopy result (lower name.now) }
{
    Ok(Name::from(LowerName::new(name)?))
}

/// The data of an SOA record with its names in lower case.
fn lower_soa(soa: &SOA) -> Result<SOA, ProtoError>
    ensures { IsCopy result (canonical_soa soa.now) }
{
    Ok(SOA {
        mname: lower_copy(&soa.mname)?,
        rname: lower_copy(&soa.rname)?,
        serial: soa.serial,
        refresh: soa.refresh,
        retry: soa.retry,
        expire: soa.expire,
        minimum: soa.minimum,
    })
}

/// The canonical form of data of a type without a case of its own: their octets, where names stand to the end in lower case.
fn canonical_other(alloc: Global, rdata: &RData, other: &OtherData) -> Result<Seq<u8>, PlanFault>
    requires { rdata.now ≡ RData.Other other.now }
    ensures ok { IfOk result (λ octets. octets ≡ canonical_octets rdata.now) }
    ensures err { IfErr result (λ e. IsUnwritableUnless e (IsWritable rdata.now)) }
{
    let mut out = Vec::new(alloc);
    push_plain_data(alloc, &mut out, rdata)?;
    if let Some(start) = names_from(other.record_type().0, other.octets()) {
        out = lowered_from(alloc, start, out.as_slice())?;
    }
    Ok(Seq::from_vec(out))
}

/// Octets, of which those from `start` on are in lower case. The lengths of labels are no letters.
fn lowered_from(alloc: Global, start: usize, octets: &[u8]) -> Result<Vec<u8>, AllocError>
    ensures { IfOk result (λ out. out.items ≡ lowered_from start octets.now) }
{
    if octets.len() <= start {
        return Vec::from_slice(alloc, octets);
    }
    let (front, names) = octets.split_at(start);
    let mut out = Vec::with_capacity(alloc, octets.len())?;
    out.extend_from_slice(front)?;
    push_lower(&mut out, names)?;
    Ok(out)
}

/// Appends octets in lower case.
fn push_lower(out: &mut Vec<u8>, octets: &[u8]) -> Result<(), AllocError>
    ensures { OnOk result
        (out.new.items ≡ out.old.items ++ map to_ascii_lowercase octets.now) }
{
    for octet in octets {
        out.push(octet.to_ascii_lowercase())?;
    }
    Ok(())
}

/// How many octets come before the names, which go to the end, in the data of a type; none if its data have no names
/// that are put in lower case.
fn names_from(record_type: u16, octets: &[u8]) -> Option<usize>
    ensures { result ≡ names_from record_type octets.now }
{
    match record_type {
        3 | 4 | 7 | 8 | 9 | 12 | 14 | 17 | 39 => Some(0),
        18 | 21 | 26 | 36 => Some(2),
        35 => Some(strings_length(octets)),
        _ => None,
    }
}

/// How many octets come before the name of NAPTR: two numbers, and three strings behind the octets that count them.
fn strings_length(octets: &[u8]) -> usize
    ensures { result ≡ strings_length octets.now }
{
    past_string(octets, past_string(octets, past_string(octets, 4)))
}

/// Where a string that begins at a place ends: an octet counts its octets.
fn past_string(octets: &[u8], place: usize) -> usize
    ensures { result ≡ past_string octets.now place }
{
    if place >= octets.len() {
        return place;
    }
    place + (1 + usize::from(octets[place]))
}
