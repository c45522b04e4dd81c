//! The public keys of a zone, read from their files.

use crate::wanted::Wanted;
use host_texts::{read_file, refuse};
use std::io::Write;
use zone_file::{ZoneError, read_zone_text};
use zone_proto::{DNSKEY, LowerName, Name, RData, Record};

/// What is read before each file, since these have no TTL.
const BEFORE_KEYS: &[u8] = b"$TTL 0\n";

/// The keys in the files, in their order. None if one can't be read or isn't owned by the zone's origin, which is reported.
pub fn read_keys<E: Write>(
    rt: &HostRuntime,
    wanted: &Wanted<'_>,
    origin: &LowerName,
    fault: &mut E,
) -> Option<Vec<DNSKEY>> {
    let mut keys = Vec::new(rt.alloc());
    for file in wanted.keys.iter() {
        read_key(rt, file, origin, &mut keys, fault)?;
    }
    Some(keys)
}

/// Appends the keys in a file.
fn read_key<E: Write>(
    rt: &HostRuntime,
    file: &str,
    origin: &LowerName,
    keys: &mut Vec<DNSKEY>,
    fault: &mut E,
) -> Option<()> {
    let alloc = rt.alloc();
    let Ok(mut text) = Vec::from_slice(alloc, BEFORE_KEYS) else {
        return refuse(fault, file, &"out of memory");
    };
    read_file(rt, file, &mut text, fault)?;
    let records = match read_zone_text(alloc, Name::root(alloc), text.as_slice()) {
        Ok(records) => records,
        Err(error) => return refuse_text(fault, file, error),
    };
    for placed in records {
        take_key(placed.given, file, origin, keys, fault)?;
    }
    Some(())
}

/// Appends the key that a record has.
fn take_key<E: Write>(
    record: Record,
    file: &str,
    origin: &LowerName,
    keys: &mut Vec<DNSKEY>,
    fault: &mut E,
) -> Option<()> {
    let Ok(owner) = LowerName::new(&record.name) else {
        return refuse(fault, file, &"out of memory");
    };
    if owner != *origin {
        return refuse(fault, file, &"the key isn't owned by the zone's origin");
    }
    let Some(key) = key_of(record.rdata) else {
        return refuse(fault, file, &"a record isn't a key");
    };
    match keys.push(key) {
        Ok(()) => Some(()),
        Err(_) => refuse(fault, file, &"out of memory"),
    }
}

/// The key that data are. None if they are others.
fn key_of(rdata: RData) -> Option<DNSKEY> {
    match rdata {
        RData::DNSKEY(key) => Some(key),
        _other => None,
    }
}

/// Reports why the text of a file can't be read.
fn refuse_text<E: Write>(fault: &mut E, file: &str, error: ZoneError) -> Option<()> {
    match error {
        ZoneError::Memory => refuse(fault, file, &"out of memory"),
        ZoneError::Fault(found) => refuse(fault, file, &found.reason),
    }
}
