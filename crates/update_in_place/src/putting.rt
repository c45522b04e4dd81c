//! Sets put into a zone in place of those that stand under their keys, and others taken out, all or nothing.
ghost use Rattle.std.specs.Prelude.{◌≡◌, ℕ, ◌||◌, None, if◌then◌else◌, IfOk, OnOk, OnErr, IsOkUnless};
ghost use Rattle.std.specs.List.{list_any};
ghost use Rattle.std.specs.Map.{keys_of};
ghost use Rattle.std.specs.Option.{option_or};
ghost use Rattle.zone_proto.specs.Keys.{key as key_at, key_eq};
ghost use Rattle.zone_proto.specs.Names.{Name};
ghost use Rattle.zone_map.specs.Zones.{owns, set_at, IsZone};

use crate::exchange::exchange;
use crate::parts::put_copies;
use std::alloc::Global;
use zone_map::RecordMap;
use zone_proto::{ProtoError, RrKey};

/// Puts copies of sets into a zone in place of those that stand under their keys, and takes those out that stand under the keys `gone`, unless one of
/// the sets comes there. All else stays.
///
/// It costs what these sets cost, each of which is found by its key, whatever else the zone has.
///
/// # Errors
///
/// `Memory`. The zone is then as it was.
pub fn put_sets(
    alloc: Global,
    zone: &mut RecordMap,
    gone: &[RrKey],
    sets: &RecordMap,
) -> Result<(), ProtoError>
    ensures put { OnOk result ((n : Name) (t : ℕ) → set_at zone.new n t
        ≡ option_or (set_at sets.now n t)
        (if list_any (key_eq (key_at n t)) gone.now then None else set_at zone.old n t)) }
    ensures zone { OnOk result (IsZone zone.new) }
    ensures err { IsOkUnless result ProtoError.Memory }
    ensures same { OnErr result (zone.new ≡ zone.old) }
{
    let before = sets_under(alloc, zone, gone, sets)?;
    exchange(alloc, zone, &before, sets)?;
    let _has = zone.len();
    Ok(())
}

/// Copies of the sets that a zone has under these keys and under those of other sets. Refused by `Memory` alone.
fn sets_under(
    alloc: Global,
    zone: &RecordMap,
    keys: &[RrKey],
    others: &RecordMap,
) -> Result<RecordMap, ProtoError>
    ensures ok { IfOk result (λ before. (n : Name) (t : ℕ) → set_at before n t
        ≡ (if owns others.now n t || list_any (key_eq (key_at n t)) keys.now
        then set_at zone.now n t else None)) }
    ensures err { IsOkUnless result ProtoError.Memory }
{
    let own = keys_of(alloc, others)?;
    let mut before = RecordMap::new(alloc);
    put_copies(zone, own.as_slice(), &mut before)?;
    put_copies(zone, keys, &mut before)?;
    Ok(before)
}

/// The keys of sets, in order. Refused by `Memory` alone.
fn keys_of(alloc: Global, sets: &RecordMap) -> Result<Vec<RrKey>, ProtoError>
    ensures ok { IfOk result (λ keys. keys.items ≡ keys_of sets.now) }
    ensures err { IsOkUnless result ProtoError.Memory }
{
    let mut keys = Vec::new(alloc);
    for (key, _) in sets.iter() {
        keys.push(key.clone()?)?;
    }
    Ok(keys)
}
