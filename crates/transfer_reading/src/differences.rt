//! Differences applied to the records of a zone (RFC 1995 section 4).
ghost use Rattle.std.specs.Prelude.{◌≡◌, [], true, filter, not, unwrap_or, IfOk, OnOk, IsOkUnless};
ghost use Rattle.zone_proto.specs.Records.{same_record};
ghost use Rattle.transfer_reading.specs.Differences.{all_records, changed, given_at, has_record, held_of, is_given_from, records_at, set_key, set_type, taken_at, with_last, with_record, Changes};

use crate::fault::OutcomeFault;
use crate::stage::serial_at;
use std::alloc::{AllocError, Global};
use std::collections::BTreeMap;
use std::marker::Model;
use zone_proto::{LowerName, Name, ProtoError, RData, Record, RecordType, RrKey};

/// The records of a set of a zone, and its signatures.
#[derive(Drop)]
pub(crate) struct Records {
    records: Vec<Record>,
}

impl Model for Records {
    ghost use Rattle.std.specs.Prelude.{List};
    ghost use Rattle.zone_proto.specs.declared.record.Record.{Record};

    ghost Value = { List Record };

    ghost view = { λ r. r.records.items };
}

/// The records of a zone by their keys, each set's in their order. Refused by `Memory` alone.
pub(crate) fn held_of(
    alloc: Global,
    records: &[Record],
) -> Result<BTreeMap<RrKey, Records>, OutcomeFault>
    ensures ok { IfOk result (λ held. held.entries ≡ held_of records.now) }
    ensures err { IsOkUnless result OutcomeFault.Memory }
{
    let mut held = BTreeMap::new(alloc);
    for given in records {
        let key = set_key(given)?;
        put_last(alloc, &mut held, key, given.clone()?)?;
    }
    Ok(held)
}

/// Puts a record behind those under its key, which is given. Refused by `Memory` alone.
fn put_last(
    alloc: Global,
    held: &mut BTreeMap<RrKey, Records>,
    key: RrKey,
    record: Record,
) -> Result<(), OutcomeFault>
    requires { key ≡ set_key «record» }
    ensures ok { OnOk result (held.new.entries ≡ with_last held.old.entries «record») }
    ensures err { IsOkUnless result OutcomeFault.Memory }
{
    let mut standing = listed(alloc, held.remove(&key));
    standing.push(record)?;
    let _ = held.insert(key, Records { records: standing })?;
    Ok(())
}

/// Takes out and gives the records of differences, in their order: the first SOA record of the zone begins what is taken out, and each
/// further one ends the one and begins the other. Where one is refused, some are applied.
///
/// # Errors
///
/// `NotThere` and `AlreadyThere` for the first record that doesn't fit. `Memory` where none is found.
pub(crate) fn change(
    alloc: Global,
    origin: &Name,
    held: &mut BTreeMap<RrKey, Records>,
    records: Vec<Record>,
) -> Result<(), OutcomeFault>
    ensures { Changes result held.new.entries
        (changed origin.now true held.old.entries records.items) }
{
    let mut is_given = true;
    for given in records {
        is_given = is_given_from(origin, is_given, &given);
        match apply(alloc, is_given, held, given) {
            Ok(()) => {}
            Err(fault) => return Err(fault),
        }
    }
    Ok(())
}

/// Whether records are given from a record on, where they were or not before it.
fn is_given_from(origin: &Name, is_given: bool, record: &Record) -> bool
    ensures { result ≡ is_given_from origin.now is_given «record».now }
{
    if serial_at(origin, record).is_some() {
        !is_given
    } else {
        is_given
    }
}

/// Gives a record or takes it out.
fn apply(
    alloc: Global,
    is_given: bool,
    held: &mut BTreeMap<RrKey, Records>,
    record: Record,
) -> Result<(), OutcomeFault>
    ensures { Changes result held.new.entries
        (with_record is_given held.old.entries «record») }
{
    if is_given {
        give(alloc, held, record)
    } else {
        take_out(alloc, held, &record)
    }
}

/// Gives a record that isn't there.
fn give(
    alloc: Global,
    held: &mut BTreeMap<RrKey, Records>,
    record: Record,
) -> Result<(), OutcomeFault>
    ensures { Changes result held.new.entries (given_at held.old.entries «record») }
{
    let key = set_key(&record)?;
    if has_record(records_at(held, &key), &record) {
        return Err(OutcomeFault::AlreadyThere);
    }
    put_last(alloc, held, key, record)
}

/// The records under a key.
fn records_at<'h>(held: &'h BTreeMap<RrKey, Records>, key: &RrKey) -> &'h [Record]
    ensures { result.now ≡ records_at held.now.entries key.now }
{
    match held.get(key) {
        Some(standing) => standing.records.as_slice(),
        None => &[],
    }
}

/// Takes a record out that is there.
fn take_out(
    alloc: Global,
    held: &mut BTreeMap<RrKey, Records>,
    record: &Record,
) -> Result<(), OutcomeFault>
    ensures { Changes result held.new.entries
        (taken_at held.old.entries (set_key «record».now) «record».now) }
{
    let key = set_key(record)?;
    if !has_record(records_at(held, &key), record) {
        return Err(OutcomeFault::NotThere);
    }
    let standing = listed(alloc, held.remove(&key));
    let others = others(alloc, standing, record)?;
    let _ = held.insert(key, Records { records: others })?;
    Ok(())
}

/// The records that stand under a key, if any do.
fn listed(alloc: Global, standing: Option<Records>) -> Vec<Record>
    ensures { result.items ≡ unwrap_or standing [] }
{
    match standing {
        Some(standing) => standing.records,
        None => Vec::new(alloc),
    }
}

/// Whether one of some records is the same as a record, TTLs aside.
fn has_record(records: &[Record], record: &Record) -> bool
    ensures { result ≡ has_record records.now «record».now }
{
    records.iter().any(|standing| *standing == *record)
}

/// The other records.
fn others(alloc: Global, records: Vec<Record>, record: &Record) -> Result<Vec<Record>, AllocError>
    ensures { IfOk result (λ others. others.items
        ≡ filter (λ x. not (same_record x «record».now)) records.items) }
{
    records
        .into_iter()
        .filter(|standing| *standing != *record)
        .collect(alloc)
}

/// The key of the set that a record is of or, as a signature, covers. Its only error is `Memory`.
fn set_key(given: &Record) -> Result<RrKey, ProtoError>
    ensures ok { IfOk result (λ k. k ≡ set_key given.now) }
    ensures err { IsOkUnless result ProtoError.Memory }
{
    Ok(RrKey::new(LowerName::new(&given.name)?, set_type(&given.rdata)))
}

/// The type of the data, or of the set that a signature covers (RFC 4034 section 3.1.1).
fn set_type(rdata: &RData) -> RecordType
    ensures { result.0 ≡ set_type rdata.now }
{
    match rdata {
        RData::RRSIG(signature) => signature.type_covered,
        data => data.record_type(),
    }
}

/// All records, in the order of their keys. Refused by `Memory` alone.
pub(crate) fn all_records(
    alloc: Global,
    held: BTreeMap<RrKey, Records>,
) -> Result<Vec<Record>, ProtoError>
    ensures ok { IfOk result (λ all. all.items ≡ all_records held.entries) }
    ensures err { IsOkUnless result ProtoError.Memory }
{
    let mut all = Vec::new(alloc);
    for set in held.into_values() {
        let mut records = set.records;
        all.append(&mut records)?;
    }
    Ok(all)
}
