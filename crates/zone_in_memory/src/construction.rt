//! A zone's record sets, made of sets that are passed in by their keys.
ghost use Rattle.std.specs.Prelude.{◌≡◌, ◌⊎◌, [], true, Some, Ok, Err, IfOk, IfErr, IsErr, IsOkUnless, is_some, option_copied};
ghost use Rattle.std.specs.BTreeMap.{values};
ghost use Rattle.std.specs.List.{list_all};
ghost use Rattle.zone_proto.specs.Keys.{key as key_at};
ghost use Rattle.zone_proto.specs.Names.{lower};
ghost use Rattle.zone_proto.specs.Types.{IN};
ghost use Rattle.zone_proto.specs.Types as types;
ghost use Rattle.zone_in_memory.specs.Construction.{is_own_key, inserted_sets, made};
ghost use Rattle.zone_lookup.specs.StartOfAuthority.{soa};
ghost use Rattle.zone_map.specs.Upserts.{all_upserted};
ghost use Rattle.zone_map.specs.Zones.{IsZone};

use std::collections::BTreeMap;
use zone_lookup::ZoneError;
use zone_lookup::start_of_authority::first_soa;
use zone_map::RecordMap;
use zone_proto::{DNSClass, LowerName, Name, ProtoError, RecordSet, RrKey, SOA};

/// The map of a zone of `origin`, whose SOA is under the key `apex`, made of sets by their keys; or the first refusal.
pub(crate) fn make(
    origin: &Name,
    apex: &RrKey,
    sets: &BTreeMap<RrKey, RecordSet>,
) -> Result<RecordMap, ZoneError>
    requires { apex.now ≡ key_at (lower origin.now) types.SOA }
    ensures ok { IfOk result (λ map. made origin.now sets.now.entries ≡ Ok map) }
    ensures zone { IfOk result (λ map. IsZone map) }
    ensures err { IfErr result
        (λ error. (error ≡ ZoneError.Memory) ⊎ (made origin.now sets.now.entries ≡ Err error)) }
{
    let Some(soa) = soa_under(sets, apex) else {
        return missing_soa(origin);
    };
    match all_under_own_key(sets) {
        Err(_) => Err(ZoneError::Memory),
        Ok(false) => Err(ZoneError::KeyMismatch),
        Ok(true) => insert_sets(origin, sets, soa.serial),
    }
}

/// The SOA data of the first record of the set under a key.
fn soa_under<'s>(sets: &'s BTreeMap<RrKey, RecordSet>, apex: &RrKey) -> Option<&'s SOA>
    requires { apex.now.record_type.0 ≡ types.SOA }
    ensures { option_copied result ≡ soa sets.now.entries apex.now.name }
{
    first_soa(sets.get(apex)?)
}

/// The refusal of a zone without an SOA.
fn missing_soa(origin: &Name) -> Result<RecordMap, ZoneError>
    ensures error { IfErr result
        (λ error. (error ≡ ZoneError.Memory) ⊎ (error ≡ ZoneError.MissingSoa origin.now)) }
    ensures err { IsErr result }
{
    match origin.clone() {
        Ok(name) => Err(ZoneError::MissingSoa(name)),
        Err(_) => Err(ZoneError::Memory),
    }
}

/// Whether each key is its set's own name and type.
fn all_under_own_key(sets: &BTreeMap<RrKey, RecordSet>) -> Result<bool, ProtoError>
    ensures answer { IfOk result (λ all. all ≡ list_all is_own_key sets.now.entries) }
    ensures err { IsOkUnless result ProtoError.Memory }
{
    for (key, set) in sets {
        if !is_own_key(key, set)? {
            return Ok(false);
        }
    }
    Ok(true)
}

/// Whether a key is a set's own name and type.
#[tactic(auto, using(crate::proofs::Constructing::tied_are_same))]
fn is_own_key(key: &RrKey, set: &RecordSet) -> Result<bool, ProtoError>
    ensures answer { IfOk result (λ own. own ≡ is_own_key (key.now, set.now)) }
    ensures err { IsOkUnless result ProtoError.Memory }
{
    let owner = LowerName::new(set.name())?;
    Ok(owner == key.name && set.record_type() == key.record_type)
}

/// The map with the records of all sets inserted, in the order of the keys.
fn insert_sets(
    origin: &Name,
    sets: &BTreeMap<RrKey, RecordSet>,
    serial: u32,
) -> Result<RecordMap, ZoneError>
    ensures ok { IfOk result
        (λ map. inserted_sets origin.now serial [] (values sets.now) ≡ Ok map) }
    ensures zone { IfOk result (λ map. IsZone map) }
    ensures err { IfErr result
        (λ error. (error ≡ ZoneError.Memory)
        ⊎ (inserted_sets origin.now serial [] (values sets.now) ≡ Err error)) }
{
    let mut map = RecordMap::new(origin.alloc());
    for set in sets.values() {
        match insert_records(&mut map, set, serial) {
            Ok(true) => {}
            Ok(false) => return refused(origin, set),
            Err(_) => return Err(ZoneError::Memory),
        }
    }
    Ok(map)
}

/// The refusal of a set.
fn refused(origin: &Name, set: &RecordSet) -> Result<RecordMap, ZoneError>
    ensures error { IfErr result
        (λ error. (error ≡ ZoneError.Memory)
        ⊎ (error
        ≡ ZoneError.Refused set.now.owner (record { 0 = set.now.record_type })
        origin.now)) }
    ensures err { IsErr result }
{
    match (set.name().clone(), origin.clone()) {
        (Ok(owner), Ok(origin)) => Err(ZoneError::Refused(owner, set.record_type(), origin)),
        _ => Err(ZoneError::Memory),
    }
}

/// Inserts the records of a set, in order and without its signatures, and answers whether all were taken.
fn insert_records(map: &mut RecordMap, set: &RecordSet, serial: u32) -> Result<bool, ProtoError>
    ensures answer { IfOk result
        (λ all. all ≡ is_some (all_upserted map.old IN set.now.records serial)) }
    ensures after { IfOk result
        (λ all. all ≡ true → all_upserted map.old IN set.now.records serial ≡ Some map.new) }
    ensures zone { IsZone map.old → IsZone map.new }
    ensures err { IsOkUnless result ProtoError.Memory }
{
    for record in set.records_without_rrsigs() {
        if !map.upsert(record.clone()?, serial, DNSClass::IN)? {
            return Ok(false);
        }
    }
    Ok(true)
}
