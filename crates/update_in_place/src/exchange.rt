//! Sets of a zone exchanged for others, all or nothing: what may be refused comes first, and what takes no memory last.
ghost use Rattle.std.specs.Prelude.{◌≡◌, ℕ, true, not, is_some, None, filter, if◌then◌else◌, IfOk, OnOk, OnErr, IsOkUnless};
ghost use Rattle.std.specs.List.{list_any};
ghost use Rattle.std.specs.List.Sorted.{IsStrictlySortedBy};
ghost use Rattle.std.specs.Map.{keys_of, lookup};
ghost use Rattle.std.specs.Option.{option_or};
ghost use Rattle.zone_proto.specs.declared.rr_key.RrKey.{RrKey as Key};
ghost use Rattle.zone_proto.specs.Keys.{key_cmp, key_eq};
ghost use Rattle.zone_proto.specs.Names.{Name};
ghost use Rattle.zone_map.specs.Puts.{without_all};
ghost use Rattle.zone_map.specs.Zones.{set_at, owns, AreStored};
ghost use Rattle.update_in_place.specs.Parts.{keys_lacking};

use crate::parts::put_copies;
use std::alloc::Global;
use zone_map::RecordMap;
use zone_proto::{ProtoError, RecordSet, RrKey};

/// Takes the sets of a part of a zone out of it, and puts copies of others in, all or nothing. Refused by `Memory` alone.
///
/// It costs what these sets cost: each is found by its key.
pub(crate) fn exchange(
    alloc: Global,
    zone: &mut RecordMap,
    before: &RecordMap,
    after: &RecordMap,
) -> Result<(), ProtoError>
    requires part { (n : Name) (t : ℕ) → owns after.now n t ≡ true
        → set_at before.now n t ≡ set_at zone.old n t }
    ensures exchanged { OnOk result ((n : Name) (t : ℕ) → set_at zone.new n t
        ≡ option_or (set_at after.now n t)
        (if owns before.now n t then None else set_at zone.old n t)) }
    ensures err { IsOkUnless result ProtoError.Memory }
    ensures same { OnErr result (zone.new ≡ zone.old) }
{
    let _sorted = after.len();
    let fresh = keys_lacking(alloc, after, before)?;
    let gone = keys_lacking(alloc, before, after)?;
    let common = common_entries(alloc, after, before)?;
    put_fresh(zone, after, fresh.as_slice())?;
    replace_all(zone, common);
    let _has = zone.len();
    remove_all(zone, gone.as_slice());
    Ok(())
}

/// Puts sets in place of those that stand under their keys. Takes no memory.
fn replace_all(zone: &mut RecordMap, sets: Vec<(RrKey, RecordSet)>)
    requires stored { AreStored sets.items }
    requires ordered { IsStrictlySortedBy key_cmp (keys_of sets.items) }
    ensures { (k : Key) → lookup (key_eq k) zone.new
        ≡ (if is_some (lookup (key_eq k) zone.old) then
        option_or (lookup (key_eq k) sets.items) (lookup (key_eq k) zone.old) else None) }
{
    for (key, set) in sets {
        let _ = zone.replace(&key, set);
    }
}

/// Puts copies of the sets that a map has under these keys into a zone where none stand: all or nothing.
fn put_fresh(zone: &mut RecordMap, after: &RecordMap, fresh: &[RrKey]) -> Result<(), ProtoError>
    requires absent { (k : Key) → list_any (key_eq k) fresh.now ≡ true
        → lookup (key_eq k) zone.old ≡ None }
    ensures put { OnOk result ((k : Key) → lookup (key_eq k) zone.new
        ≡ option_or (lookup (key_eq k) zone.old)
        (if list_any (key_eq k) fresh.now then lookup (key_eq k) after.now else None)) }
    ensures err { IsOkUnless result ProtoError.Memory }
    ensures same { OnErr result (zone.new ≡ zone.old) }
{
    let _had = zone.len();
    match put_copies(after, fresh, zone) {
        Ok(()) => Ok(()),
        Err(error) => {
            let _has = zone.len();
            remove_all(zone, fresh);
            Err(error)
        }
    }
}

/// Takes the sets under these keys out. Takes no memory.
fn remove_all(zone: &mut RecordMap, keys: &[RrKey])
    ensures { zone.new ≡ without_all zone.old keys.now }
{
    for key in keys {
        let _ = zone.remove(key);
    }
}

/// The keys of the sets under which another map has none.
fn keys_lacking(
    alloc: Global,
    zone: &RecordMap,
    other: &RecordMap,
) -> Result<Vec<RrKey>, ProtoError>
    ensures ok { IfOk result (λ keys. keys.items ≡ keys_lacking zone.now other.now) }
    ensures err { IsOkUnless result ProtoError.Memory }
{
    let mut keys = Vec::new(alloc);
    for (key, _) in zone.iter() {
        if !has(other, key) {
            keys.push(key.clone()?)?;
        }
    }
    Ok(keys)
}

/// Copies of the sets under whose keys another map has sets, in their order.
fn common_entries(
    alloc: Global,
    zone: &RecordMap,
    other: &RecordMap,
) -> Result<Vec<(RrKey, RecordSet)>, ProtoError>
    ensures ok { IfOk result (λ entries. entries.items
        ≡ filter (λ e. owns other.now e.0.name e.0.record_type.0) zone.now) }
    ensures stored { OnOk result (AreStored zone.now) }
    ensures err { IsOkUnless result ProtoError.Memory }
{
    let mut entries = Vec::new(alloc);
    for (key, set) in zone.iter() {
        if has(other, key) {
            entries.push((key.clone()?, set.clone()?))?;
        }
    }
    Ok(entries)
}

/// Whether a set stands under a key.
fn has(zone: &RecordMap, key: &RrKey) -> bool
    ensures { result ≡ owns zone.now key.now.name key.now.record_type.0 }
{
    zone.get(key).is_some()
}
