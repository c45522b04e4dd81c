//! The sets of the names that an update is about, copied out of a zone.
ghost use Rattle.std.specs.Prelude.{◌≡◌, ◌++◌, false, None, map, if◌then◌else◌, IfOk, OnOk, IsOkUnless};
ghost use Rattle.std.specs.List.{flat_map, list_any};
ghost use Rattle.std.specs.Map.{lookup};
ghost use Rattle.std.specs.Option.{option_or};
ghost use Rattle.zone_proto.specs.declared.rr_key.RrKey.{RrKey as Key};
ghost use Rattle.zone_proto.specs.Keys.{key as key_at, key_eq};
ghost use Rattle.zone_proto.specs.Results.{IsChange};
ghost use Rattle.update_in_place.specs.Parts.{keys_of_name, names_about, sets_of, with_copy};

use std::alloc::Global;
use zone_map::RecordMap;
use zone_proto::{LowerName, ProtoError, RecordType, RrKey};
use zone_update::{Entry, types_at};

/// The names that an update is about: the origin's and those of its records, in lower case.
pub(crate) fn names_about(
    alloc: Global,
    origin: &LowerName,
    changes: &[Entry],
) -> Result<Vec<LowerName>, ProtoError>
    ensures ok { IfOk result (λ names. names.items ≡ names_about origin.now changes.now) }
    ensures err { IsOkUnless result ProtoError.Memory }
{
    let mut names = Vec::new(alloc);
    names.push(origin.clone()?)?;
    for change in changes {
        names.push(LowerName::new(&change.name)?)?;
    }
    Ok(names)
}

/// Copies of the sets that these names have in a zone.
///
/// It costs what these sets cost, whatever else the zone has.
///
/// # Errors
///
/// `Memory`.
pub fn sets_of(
    alloc: Global,
    zone: &RecordMap,
    names: &[LowerName],
) -> Result<RecordMap, ProtoError>
    ensures ok { IfOk result (λ sets. sets ≡ sets_of names.now zone.now) }
    ensures err { IsOkUnless result ProtoError.Memory }
{
    let keys = keys_of_names(alloc, zone, names)?;
    let mut sets = RecordMap::new(alloc);
    put_copies(zone, keys.as_slice(), &mut sets)?;
    // Both are in the order of the keys.
    let _had = zone.len();
    let _has = sets.len();
    Ok(sets)
}

/// The keys of the sets that these names have in a zone, one name after the other: where a name stands among them twice, so do its keys.
///
/// It costs what these sets cost, whatever else the zone has.
///
/// # Errors
///
/// `Memory`.
pub fn keys_of_names(
    alloc: Global,
    zone: &RecordMap,
    names: &[LowerName],
) -> Result<Vec<RrKey>, ProtoError>
    ensures ok { IfOk result (λ keys. keys.items ≡ flat_map (keys_of_name zone.now) names.now) }
    ensures err { IsOkUnless result ProtoError.Memory }
{
    let mut keys = Vec::new(alloc);
    for name in names {
        push_keys(alloc, zone, name, &mut keys)?;
    }
    Ok(keys)
}

/// Puts the keys of the sets of a name behind others.
fn push_keys(
    alloc: Global,
    zone: &RecordMap,
    name: &LowerName,
    keys: &mut Vec<RrKey>,
) -> Result<(), ProtoError>
    ensures ok { OnOk result (keys.new.items ≡ keys.old.items ++ keys_of_name zone.now name.now) }
    ensures err { IsOkUnless result ProtoError.Memory }
{
    let least = RrKey::first_of(name)?;
    let types = types_at(alloc, zone.as_map(), &least)?;
    push_types(name, types.as_slice(), keys)?;
    Ok(())
}

/// Puts the keys of a name and each of these types behind others.
fn push_types(
    name: &LowerName,
    types: &[RecordType],
    keys: &mut Vec<RrKey>,
) -> Result<(), ProtoError>
    ensures ok { OnOk result
        (keys.new.items ≡ keys.old.items ++ map (λ t. key_at name.now t.0) types.now) }
    ensures err { IsOkUnless result ProtoError.Memory }
{
    for record_type in types {
        keys.push(RrKey::new(name.clone()?, *record_type))?;
    }
    Ok(())
}

/// Puts copies of the sets that a map has under these keys into another one, where none stand there. Where it is refused, by `Memory` alone,
/// some are put.
pub(crate) fn put_copies(
    from: &RecordMap,
    keys: &[RrKey],
    to: &mut RecordMap,
) -> Result<(), ProtoError>
    ensures copied { OnOk result ((k : Key) → lookup (key_eq k) to.new
        ≡ option_or (lookup (key_eq k) to.old)
        (if list_any (key_eq k) keys.now then lookup (key_eq k) from.now else None)) }
    ensures others { (k : Key) → list_any (key_eq k) keys.now ≡ false
        → lookup (key_eq k) to.new ≡ lookup (key_eq k) to.old }
    ensures err { IsOkUnless result ProtoError.Memory }
{
    for key in keys {
        put_copy(from, key, to)?;
    }
    Ok(())
}

/// Puts a copy of the set that a map has under a key into another one, where none stands there.
fn put_copy(from: &RecordMap, key: &RrKey, to: &mut RecordMap) -> Result<(), ProtoError>
    ensures { IsChange to.old (with_copy from.now to.old key.now) result to.new }
{
    if to.get(key).is_some() {
        return Ok(());
    }
    match from.get(key) {
        None => Ok(()),
        Some(set) => match to.put(key.clone()?, set.clone()?) {
            Ok(_) => Ok(()),
            Err(_) => Err(ProtoError::Memory),
        },
    }
}
