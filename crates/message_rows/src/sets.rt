//! Sets of records that rows mean.

use compared_rows::read_octets;
use line_text::{TextError, Words, read_data, read_name, read_type};
use message_reading::plain_data_of;
use message_writing::Group;
use std::alloc::{AllocError, Global};
use zone_proto::{RData, Record, RecordType};

/// The type whose data a row gives as a count of octets 0: the first for private use (RFC 6895 section 3.1).
const ZEROS: u16 = 65280;

/// The records of a set, the signatures that cover them, and the TTL of all of them in seconds.
#[derive(Drop)]
pub struct Set {
    records: Vec<Record>,
    signatures: Vec<Record>,
    ttl: u32,
}

/// Reads a set: its records, and its signatures behind `&`.
pub fn read_set(alloc: Global, text: &str) -> Result<Set, TextError> {
    let (records, signatures) = text.split_once(" & ").unwrap_or((text, ""));
    let records = read_records(alloc, records)?;
    let signatures = read_records(alloc, signatures)?;
    let ttl = match records.as_slice() {
        [first, ..] => first.ttl,
        [] => 0,
    };
    Ok(Set {
        records,
        signatures,
        ttl,
    })
}

/// Reads records with `|` between them.
fn read_records(alloc: Global, text: &str) -> Result<Vec<Record>, TextError> {
    let mut records = Vec::new(alloc);
    if text.is_empty() {
        return Ok(records);
    }
    for line in text.split(" | ") {
        let record = read_line(alloc, line)?;
        records.push(record)?;
    }
    Ok(records)
}

/// Reads a record.
fn read_line(alloc: Global, line: &str) -> Result<Record, TextError> {
    let mut words = Words::new(line.as_bytes());
    let owner = read_name(alloc, &mut words)?;
    let ttl = words.take_u32()?;
    let record_type = read_type(&mut words)?;
    let rdata = read_parts(alloc, record_type, &mut words)?;
    words.end()?;
    Ok(Record::from_rdata(owner, ttl, rdata))
}

/// Reads the data of a record.
fn read_parts(
    alloc: Global,
    record_type: RecordType,
    words: &mut Words<'_>,
) -> Result<RData, TextError> {
    match record_type {
        RecordType::NSEC
        | RecordType::NSEC3
        | RecordType::NSEC3PARAM
        | RecordType::DNSKEY
        | RecordType::RRSIG => {
            let octets = read_octets(alloc, words)?;
            data_of(alloc, record_type, octets.as_slice())
        }
        RecordType(ZEROS) => {
            let count = words.take_u16()?;
            zeros(alloc, count)
        }
        _ => read_data(alloc, record_type, words),
    }
}

/// Data of so many octets 0.
fn zeros(alloc: Global, count: u16) -> Result<RData, TextError> {
    let mut octets = Vec::new(alloc);
    for _ in 0..count {
        octets.push(0u8)?;
    }
    data_of(alloc, RecordType(ZEROS), octets.as_slice())
}

/// The data that octets are.
fn data_of(alloc: Global, record_type: RecordType, octets: &[u8]) -> Result<RData, TextError> {
    plain_data_of(alloc, record_type, octets)?.ok_or(TextError::BadText)
}

/// Sets as groups of a response.
pub fn groups_of(alloc: Global, sets: &[Set]) -> Result<Vec<Group<'_>>, AllocError> {
    let mut groups = Vec::new(alloc);
    for set in sets {
        let group = Group {
            records: set.records.as_slice(),
            signatures: set.signatures.as_slice(),
            ttl: set.ttl,
        };
        groups.push(group)?;
    }
    Ok(groups)
}
