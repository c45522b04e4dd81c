//! The records of a zone, read from its file and from those that it includes (RFC 1035 section 5.1).
ghost use Rattle.std.specs.Prelude.{◌≡◌, IfOk, IfSome};
ghost use Rattle.std.specs.List.{};
ghost use Rattle.zone_map.specs.Zones.{IsZone};
ghost use Rattle.zone_sign.specs.Zones.{given_of, unsigned};

use crate::wanted::Wanted;
use file_origins::{first_origin, zone_origin};
use host_texts::{HostTexts, read_faultless, refuse, refuse_at, refuse_unread};
use std::alloc::{AllocError, Global};
use std::fs;
use std::io::Write;
use zone_builder::{GivenRecord, LoadFault, Loaded, load};
use zone_file::PlacedRecord;
use zone_planner::is_made_anew;
use zone_proto::{LowerName, Name, RData, Record, Seq};
use zone_texts::{Reading, Sources};

/// The zone in the file, without its signatures, denials and keys. None if there is none, which is reported.
pub fn read_zone_of<E: Write>(
    rt: &HostRuntime,
    wanted: &Wanted<'_>,
    fault: &mut E,
) -> Option<Loaded>
    ensures { IfSome result (λ loaded. IsZone loaded.records) }
{
    let Reading {
        records,
        sources,
        ..
    } = read_wanted(rt, wanted, fault)?;
    load_unsigned(rt.alloc(), wanted, &sources, records, fault)
}

/// The zone in the file, with its signatures, denials and keys. None if there is none, which is reported.
pub fn read_whole_zone<E: Write>(
    rt: &HostRuntime,
    wanted: &Wanted<'_>,
    fault: &mut E,
) -> Option<Loaded>
    ensures { IfSome result (λ loaded. IsZone loaded.records) }
{
    let alloc = rt.alloc();
    let Reading {
        records,
        sources,
        ..
    } = read_wanted(rt, wanted, fault)?;
    let Ok(origin) = zone_origin(alloc, &wanted.origin, records.as_slice()) else {
        return refuse(fault, wanted.file, &"out of memory");
    };
    let Ok(given) = without_wrong(alloc, records, &[]) else {
        return refuse(fault, wanted.file, &"out of memory");
    };
    load_given(alloc, &sources, origin, given, fault)
}

/// The zone of an origin in a file, with its denials and keys, and with its signatures but for the wrong ones, which ascend. None if
/// there is no zone, which is reported.
pub fn read_signed_zone<E: Write>(
    rt: &HostRuntime,
    file: &str,
    origin: &LowerName,
    wrong: &[Seq<u8>],
    fault: &mut E,
) -> Option<Loaded>
    ensures { IfSome result (λ loaded. IsZone loaded.records) }
{
    let alloc = rt.alloc();
    let Ok(first) = origin.clone() else {
        return refuse(fault, file, &"out of memory");
    };
    let Reading {
        records,
        sources,
        ..
    } = read_records(rt, file, Name::from(first), fault)?;
    let Ok(given) = without_wrong(alloc, records, wrong) else {
        return refuse(fault, file, &"out of memory");
    };
    let Ok(origin) = origin.clone() else {
        return refuse(fault, file, &"out of memory");
    };
    load_given(alloc, &sources, Name::from(origin), given, fault)
}

/// The records in the file and in those that it includes. None if they can't be read, which is reported.
fn read_wanted<E: Write>(rt: &HostRuntime, wanted: &Wanted<'_>, fault: &mut E) -> Option<Reading> {
    match first_origin(rt.alloc(), &wanted.origin) {
        Ok(origin) => read_records(rt, wanted.file, origin, fault),
        Err(_) => refuse(fault, wanted.file, &"out of memory"),
    }
}

/// The records in a file and in those that it includes, at whose beginning the origin is this. None if they can't be read, which is
/// reported.
fn read_records<E: Write>(
    rt: &HostRuntime,
    file: &str,
    origin: Name,
    fault: &mut E,
) -> Option<Reading> {
    let mut texts = HostTexts { rt };
    match fs::open(rt, file) {
        Ok(mut input) => read_faultless(rt.alloc(), origin, file, &mut input, &mut texts, fault),
        Err(e) => refuse_unread(fault, file, e.kind()),
    }
}

/// The zone of the records without those that are made anew. None if they make no zone, which is reported.
fn load_unsigned<E: Write>(
    alloc: Global,
    wanted: &Wanted<'_>,
    sources: &Sources,
    records: Vec<PlacedRecord>,
    fault: &mut E,
) -> Option<Loaded>
    ensures { IfSome result (λ loaded. IsZone loaded.records) }
{
    let Ok(origin) = zone_origin(alloc, &wanted.origin, records.as_slice()) else {
        return refuse(fault, wanted.file, &"out of memory");
    };
    let Ok(given) = unsigned(alloc, records) else {
        return refuse(fault, wanted.file, &"out of memory");
    };
    load_given(alloc, sources, origin, given, fault)
}

/// The zone of an origin that records of a file make. None if they make none, which is reported.
fn load_given<E: Write>(
    alloc: Global,
    sources: &Sources,
    origin: Name,
    given: Vec<GivenRecord>,
    fault: &mut E,
) -> Option<Loaded>
    ensures { IfSome result (λ loaded. IsZone loaded.records) }
{
    match load(alloc, origin, given) {
        Ok(loaded) => Some(loaded),
        Err(LoadFault::Memory) => refuse(fault, sources.name(0), &"out of memory"),
        Err(found) => refuse_at(fault, sources, found.place(), &found),
    }
}

/// The records without those that are made anew: signatures, denials and keys.
fn unsigned(alloc: Global, records: Vec<PlacedRecord>) -> Result<Vec<GivenRecord>, AllocError>
    ensures { IfOk result (λ given. given.items ≡ unsigned records.items) }
{
    records
        .into_iter()
        .filter(|placed| !is_made_anew(placed.given.record_type()))
        .map(given)
        .collect(alloc)
}

/// The records without the signatures that are wrong, which ascend.
fn without_wrong(
    alloc: Global,
    records: Vec<PlacedRecord>,
    wrong: &[Seq<u8>],
) -> Result<Vec<GivenRecord>, AllocError> {
    let mut kept = Vec::with_capacity(alloc, records.len())?;
    for placed in records {
        if !is_wrong(&placed.given, wrong) {
            kept.push(given(placed))?;
        }
    }
    Ok(kept)
}

/// Whether a record is a signature that is among those that are wrong, which ascend.
fn is_wrong(record: &Record, wrong: &[Seq<u8>]) -> bool {
    match &record.rdata {
        RData::RRSIG(rrsig) => wrong.binary_search(&rrsig.signature).is_ok(),
        _ => false,
    }
}

/// A record with its place.
fn given(placed: PlacedRecord) -> GivenRecord
    ensures { result ≡ given_of placed }
{
    GivenRecord {
        record: placed.given,
        place: Some(placed.place),
    }
}
