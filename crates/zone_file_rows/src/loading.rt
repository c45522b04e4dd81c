//! What zones are made of the records of zone files.

use crate::octets::octets_of;
use crate::zone::{error_line, read};
use alloc_failures::scarce_answer;
use std::alloc::{AllocError, Global};
use zone_builder::{GivenRecord, LoadFault, Loaded, load};
use zone_file::PlacedRecord;
use zone_proto::{DNSClass, Name, ProtoError};

/// The answer to a row, which is a call, an origin and a zone file: `load` tells how many sets the zone has that its
/// records make, and its warnings, or why there is none; `chaos` the same once the last record is of that class;
/// `scarce` says whether memory was refused, and then a zone was made.
pub fn answer(alloc: Global, row: &str) -> Result<String, AllocError> {
    let (call, rest) = row.split_once(' ').unwrap_or((row, ""));
    let (origin, text) = rest.split_once(' ').unwrap_or((rest, ""));
    let text = octets_of(alloc, text)?;
    match read(alloc, origin, text.as_slice()) {
        Ok(mut records) => {
            if call == "chaos" {
                if let Some(last) = records.last_mut() {
                    last.given.dns_class = DNSClass::CH;
                }
            }
            call_answer(alloc, call, origin, records.as_slice())
        }
        Err(error) => error_line(alloc, &error),
    }
}

/// What a call answers to these records.
fn call_answer(
    alloc: Global,
    call: &str,
    origin: &str,
    records: &[PlacedRecord],
) -> Result<String, AllocError> {
    match call {
        "scarce" => scarce_answer(alloc, || outcome_of(alloc, origin, records)),
        _ => load_answer(alloc, loaded(alloc, origin, records)),
    }
}

/// The zone that copies of records make.
pub fn loaded(alloc: Global, origin: &str, records: &[PlacedRecord]) -> Result<Loaded, LoadFault> {
    let Ok(origin) = Name::parse(alloc, origin) else {
        return Err(LoadFault::Memory);
    };
    load(alloc, origin, copies(alloc, records)?)
}

/// Copies of records, each with its place.
fn copies(alloc: Global, records: &[PlacedRecord]) -> Result<Vec<GivenRecord>, ProtoError> {
    let mut given = Vec::with_capacity(alloc, records.len())?;
    for placed in records {
        given.push(GivenRecord {
            record: placed.given.clone()?,
            place: Some(placed.place),
        })?;
    }
    Ok(given)
}

/// How many sets a zone has, and its warnings; or why there is none.
fn load_answer(alloc: Global, made: Result<Loaded, LoadFault>) -> Result<String, AllocError> {
    match made {
        Ok(loaded) => told_zone(alloc, &loaded),
        Err(LoadFault::Memory) => Err(AllocError),
        Err(fault) => told_fault(alloc, &fault),
    }
}

/// Why there is no zone, behind the place of the record that is the fault, if one is.
fn told_fault(alloc: Global, fault: &LoadFault) -> Result<String, AllocError> {
    match fault.place() {
        Some(place) => format!(in alloc; "{}:{} {fault}", place.line, place.column),
        None => format!(in alloc; "{fault}"),
    }
}

fn told_zone(alloc: Global, loaded: &Loaded) -> Result<String, AllocError> {
    let mut told = String::new(alloc);
    write!(&mut told, "{} sets", loaded.records.len())?;
    for warning in loaded.warnings.iter() {
        write!(&mut told, " / {warning}")?;
    }
    Ok(told)
}

/// Whether a zone is made; none if memory was refused.
fn outcome_of(alloc: Global, origin: &str, records: &[PlacedRecord]) -> Option<&'static str> {
    match loaded(alloc, origin, records) {
        Ok(_) => Some("loaded"),
        Err(LoadFault::Memory) => None,
        Err(_) => Some("not loaded"),
    }
}
