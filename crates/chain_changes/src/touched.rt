//! The names whose NSEC sets a change of a zone may make others.
ghost use Rattle.std.specs.Prelude.{◌≡◌, ◌-◌, ◌++◌, ◌==◌, ◌&&◌, ◌||◌, [], ◌∷◌, false, filter, length, slice_get, option_copied, IfOk, OnOk, IsOkUnless};
ghost use Rattle.std.specs.Option.{option_map_or};
ghost use Rattle.zone_proto.specs.Names.{Name, name_eq, is_at_or_above};
ghost use Rattle.zone_map.specs.Zones.{names_of};
ghost use Rattle.update_in_place.specs.Parts.{is_among};
ghost use Rattle.chain_changes.specs.Renewal.{is_cut_key, is_renewed, is_renewed_by, is_touched_by, nearest_before};

use crate::authority::{is_at_or_above, is_authoritative};
use std::alloc::Global;
use zone_denial::authoritative_keys::is_above;
use zone_map::{Reads, RecordMap};
use zone_proto::{LowerName, ProtoError, RecordType, RrKey};

/// The names whose NSEC sets are renewed in a zone in which sets came or went under these keys: those that are touched, and the nearest before the
/// owner of each of these sets that has an NSEC set and is to have one. Refused by `Memory` alone.
pub(crate) fn renewed(
    alloc: Global,
    zone: &RecordMap,
    origin: &LowerName,
    keys: &[RrKey],
) -> Result<Vec<LowerName>, ProtoError>
    ensures ok { IfOk result (λ names. (n : Name) → is_among names.items n
        ≡ is_renewed origin.now zone.now keys.now n) }
    ensures err { IsOkUnless result ProtoError.Memory }
{
    let mut names = Vec::new(alloc);
    for key in keys {
        push_renewed(alloc, zone, origin, key, &mut names)?;
    }
    Ok(names)
}

/// Puts the names that a key touches, and the nearest before its owner, behind others. Refused by `Memory` alone.
fn push_renewed(
    alloc: Global,
    zone: &RecordMap,
    origin: &LowerName,
    key: &RrKey,
    names: &mut Vec<LowerName>,
) -> Result<(), ProtoError>
    ensures ok { OnOk result ((n : Name) → is_among names.new.items n
        ≡ (is_among names.old.items n || is_renewed_by origin.now zone.now key.now n)) }
    ensures err { IsOkUnless result ProtoError.Memory }
{
    push_touched(zone, origin, key, names)?;
    let nearest = nearest_before(alloc, zone, origin, &key.name)?;
    push_if(nearest, names)?;
    Ok(())
}

/// Puts the names that a key touches behind others. Refused by `Memory` alone.
fn push_touched(
    zone: &RecordMap,
    origin: &LowerName,
    key: &RrKey,
    names: &mut Vec<LowerName>,
) -> Result<(), ProtoError>
    ensures ok { OnOk result ((n : Name) → is_among names.new.items n
        ≡ (is_among names.old.items n || is_touched_by origin.now zone.now key.now n)) }
    ensures err { IsOkUnless result ProtoError.Memory }
{
    push_once(&key.name, names)?;
    if !is_cut_key(origin, key) {
        return Ok(());
    }
    push_below(zone, &key.name, names)?;
    Ok(())
}

/// Whether a key is that of an NS set strictly below the origin.
fn is_cut_key(origin: &LowerName, key: &RrKey) -> bool
    ensures { result ≡ is_cut_key origin.now key.now }
{
    key.record_type == RecordType::NS && is_above(origin, &key.name)
}

/// Puts the names at or below one that own sets behind others. Refused by `Memory` alone.
fn push_below(
    zone: &RecordMap,
    name: &LowerName,
    names: &mut Vec<LowerName>,
) -> Result<(), ProtoError>
    ensures ok { OnOk result ((n : Name) → is_among names.new.items n
        ≡ (is_among names.old.items n
        || (is_at_or_above name.now n && is_among (names_of zone.now) n))) }
    ensures err { IsOkUnless result ProtoError.Memory }
{
    let least = RrKey::first_of(name)?;
    for (key, _) in zone.as_map().from(&least) {
        if !is_at_or_above(name, &key.name) {
            break;
        }
        push_once(&key.name, names)?;
    }
    Ok(())
}

/// Puts a name behind others, if there is any. Refused by `Memory` alone.
fn push_if(name: Option<&LowerName>, names: &mut Vec<LowerName>) -> Result<(), ProtoError>
    ensures ok { OnOk result ((n : Name) → is_among names.new.items n
        ≡ (is_among names.old.items n
        || option_map_or (name_eq n) (option_copied name.entry) false)) }
    ensures err { IsOkUnless result ProtoError.Memory }
{
    match name {
        Some(name) => {
            push_once(name, names)?;
            Ok(())
        }
        None => Ok(()),
    }
}

/// Puts a name behind others, unless it is the last of them. Refused by `Memory` alone.
fn push_once(name: &LowerName, names: &mut Vec<LowerName>) -> Result<(), ProtoError>
    ensures ok { OnOk result ((n : Name) → is_among names.new.items n
        ≡ (is_among names.old.items n || name_eq n name.now)) }
    ensures err { IsOkUnless result ProtoError.Memory }
{
    if is_last(names.as_slice(), name) {
        return Ok(());
    }
    names.push(name.clone()?)?;
    Ok(())
}

/// Whether a name is the last of these.
fn is_last(names: &[LowerName], name: &LowerName) -> bool
    ensures { result
        ≡ option_map_or (name_eq name.now) (slice_get names.now (length names.now - 1)) false }
{
    match names.last() {
        Some(last) => name == last,
        None => false,
    }
}

/// The nearest name before one that has an NSEC set and is to have one, if there is any. Refused by `Memory` alone.
fn nearest_before<'m>(
    alloc: Global,
    zone: &'m RecordMap,
    origin: &LowerName,
    name: &LowerName,
) -> Result<Option<&'m LowerName>, ProtoError>
    ensures ok { IfOk result
        (λ nearest. option_copied nearest ≡ nearest_before origin.now zone.now name.now) }
    ensures err { IsOkUnless result ProtoError.Memory }
{
    let mut reads = Reads::new();
    let mut owners = zone.denial_owners_before(RecordType::NSEC, name);
    while let Some(owner) = owners.read_last(&mut reads) {
        let denies = is_authoritative(alloc, zone, origin, owner)?;
        if denies {
            return Ok(Some(owner));
        }
    }
    Ok(None)
}
