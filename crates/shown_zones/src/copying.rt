//! Copies of sets and of zones, as answers show them.
ghost use Rattle.std.specs.Prelude.{◌≡◌, [], false, true, IfOk, OnOk, IsOkUnless};
ghost use Rattle.zone_map.specs.Zones.{AreStored};
ghost use Rattle.zone_proto.specs.Data.{type_of};
ghost use Rattle.zone_proto.specs.Names.{same_name};
ghost use Rattle.zone_proto.specs.Results.{IsChange, IsCopy};
ghost use Rattle.zone_proto.specs.Sets.{appended, is_single, stores};
ghost use Rattle.shown_zones.specs.Shown.{shown, shown_set, with_ttl};

use crate::spelling::spelled;
use std::alloc::Global;
use zone_map::{NewSets, RecordMap};
use zone_proto::{ProtoError, Record, RecordSet, RrKey, is_single};

/// A copy of a zone as answers show it: each set with its TTL on all its records and signatures (RFC 2181 section 5.2), in class IN and with
/// serial 0. Refused by `Memory` alone.
pub fn shown(alloc: Global, zone: &RecordMap) -> Result<RecordMap, ProtoError>
    ensures copy { IfOk result (λ copy. copy ≡ shown zone.now) }
    ensures err { IsOkUnless result ProtoError.Memory }
{
    let _count = zone.len();
    let entries = entries_of(alloc, zone)?;
    RecordMap::from_sets(alloc, NewSets::from_entries(alloc, entries)?)
}

/// Copies of the sets by their keys, in order, as answers show them.
fn entries_of(alloc: Global, zone: &RecordMap) -> Result<Vec<(RrKey, RecordSet)>, ProtoError>
    ensures ok { IfOk result (λ entries. entries.items ≡ shown zone.now) }
    ensures stored { OnOk result (AreStored zone.now) }
    ensures err { IsOkUnless result ProtoError.Memory }
{
    let mut entries = Vec::with_capacity(alloc, zone.len())?;
    for (key, set) in zone.iter() {
        entries.push((key.clone()?, shown_set(set)?))?;
    }
    Ok(entries)
}

/// A copy of a set as answers show it: with its TTL on all its records and signatures (RFC 2181 section 5.2), in class IN and with serial 0,
/// its owner as the first record spells it. Refused by `Memory` alone.
pub fn shown_set(set: &RecordSet) -> Result<RecordSet, ProtoError>
    ensures { IsCopy result (shown_set set.now) }
{
    let mut shown = with_records(set)?;
    for signature in set.rrsigs() {
        shown.insert_rrsig(copy_with_ttl(signature, set.ttl())?)?;
    }
    Ok(shown)
}

/// The same without the signatures.
#[tactic(auto, using(crate::proofs::Copied::next_owner, crate::proofs::Copied::next_alone, crate::proofs::Copied::next_absent))]
fn with_records(set: &RecordSet) -> Result<RecordSet, ProtoError>
    ensures { IsCopy result (record (shown_set set.now) { signatures = [] }) }
{
    let owner = spelled(set).clone()?;
    let mut shown = RecordSet::with_ttl(owner, set.record_type(), set.ttl());
    for stored in set.as_slice() {
        put_next(&mut shown, copy_with_ttl(stored, set.ttl())?)?;
    }
    Ok(shown)
}

/// A copy of a record with another TTL.
fn copy_with_ttl(stored: &Record, ttl: u32) -> Result<Record, ProtoError>
    ensures { IsCopy result (with_ttl ttl stored.now) }
{
    let mut copy = stored.clone()?;
    copy.ttl = ttl;
    Ok(copy)
}

/// Puts a record behind those of a set, which hasn't its data.
#[tactic(auto, using(crate::proofs::Copied::inserted_alone))]
fn put_next(set: &mut RecordSet, next: Record) -> Result<(), ProtoError>
    requires owner { same_name next.name set.old.owner ≡ true }
    requires kind { type_of next.rdata ≡ set.old.record_type }
    requires alone { is_single set.old.record_type ≡ true → set.old.records ≡ [] }
    requires absent { stores set.old.records next.rdata ≡ false }
    ensures { IsChange set.old (appended set.old next 0) result set.new }
{
    if is_single(set.record_type()) {
        set.insert(next, 0)?;
        Ok(())
    } else {
        set.append(next, 0)
    }
}
