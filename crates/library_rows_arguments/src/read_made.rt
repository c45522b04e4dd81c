//! Makes what a call is passed of the sets that are held, and of records that are read.

use crate::arguments::Arguments;
use crate::fault::Fault;
use crate::held::Held;
use crate::read_records::read_record;
use line_text::{TextError, Words};
use std::alloc::Global;
use zone_proto::{DNSClass, Name, Record, RecordSet, RecordType, RrKey, Rrsigs, SOA, SoaRecord};

/// Copies what is of a kind that stands for what is held.
pub fn copy_held(held: &Held, arguments: &mut Arguments<'_>, kind: &str) {
    match kind {
        "SETS" => copy_all(held, arguments, true),
        "LIST" => copy_all(held, arguments, false),
        "SET" => copy_set(&held.set, arguments),
        "KEPT" => copy_set(&held.kept, arguments),
        _ => {}
    }
}

/// Copies the sets that were collected: under their keys, or as a list.
fn copy_all(held: &Held, arguments: &mut Arguments<'_>, by_key: bool) {
    for (key, set) in &held.collected {
        if by_key {
            copy_under(key, set, arguments);
        } else {
            arguments.fault.push(&mut arguments.copies, copied(set));
        }
    }
}

fn copy_under(key: &RrKey, set: &RecordSet, arguments: &mut Arguments<'_>) {
    arguments
        .fault
        .insert(&mut arguments.sets, key.clone(), set.clone());
}

fn copy_set(set: &Option<RecordSet>, arguments: &mut Arguments<'_>) {
    if let Some(set) = set {
        arguments.fault.push(&mut arguments.copies, copied(set));
    }
}

fn copied(set: &RecordSet) -> Result<RecordSet, TextError> {
    Ok(set.clone()?)
}

/// Makes a list of signatures of the two records before it.
pub fn gather_rrsigs(arguments: &mut Arguments<'_>) {
    match Rrsigs::with_capacity(arguments.alloc, 2) {
        Ok(rrsigs) => fill_rrsigs(arguments, rrsigs),
        Err(_) => arguments.fault.keep(TextError::Memory),
    }
}

fn fill_rrsigs(arguments: &mut Arguments<'_>, mut rrsigs: Rrsigs) {
    let (second, first) = (arguments.take_record(), arguments.take_record());
    push_rrsig(&mut arguments.fault, &mut rrsigs, first);
    push_rrsig(&mut arguments.fault, &mut rrsigs, second);
    arguments.fault.put(&mut arguments.rrsigs, Ok(Some(rrsigs)));
}

fn push_rrsig(fault: &mut Fault, rrsigs: &mut Rrsigs, record: Record) {
    if record.record_type() == RecordType::RRSIG {
        if rrsigs.push(record).is_err() {
            fault.keep(TextError::Memory);
        }
    } else {
        drop(record);
        fault.keep(TextError::BadText);
    }
}

/// Makes an SOA record of the root.
pub fn make_soa(arguments: &mut Arguments<'_>) {
    let soa = boxed(arguments.alloc, root_soa(arguments.alloc));
    arguments.fault.put(&mut arguments.soa, soa);
}

fn boxed<T: Drop>(alloc: Global, value: T) -> Result<Option<Box<T>>, TextError> {
    match Box::new(alloc, value) {
        Ok(it) => Ok(Some(it)),
        Err(_) => Err(TextError::Memory),
    }
}

fn root_soa(alloc: Global) -> SoaRecord {
    SoaRecord {
        name: Name::root(alloc),
        dns_class: DNSClass::IN,
        ttl: 60,
        soa: SOA {
            mname: Name::root(alloc),
            rname: Name::root(alloc),
            serial: 1,
            refresh: 2,
            retry: 3,
            expire: 4,
            minimum: 5,
        },
    }
}

/// Reads a record of a section of a response.
pub fn read_section(arguments: &mut Arguments<'_>, words: &mut Words<'_>, kind: &str) {
    read_record(arguments, words);
    let record = arguments.take_record();
    let sections = &mut arguments.sections;
    let section = match kind {
        "ANSWER" => &mut sections.answers,
        "AUTHORITY" => &mut sections.authorities,
        _ => &mut sections.additionals,
    };
    arguments.fault.push(section, Ok(record));
}
