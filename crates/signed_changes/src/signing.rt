//! The sets of a zone that have other signatures than they are to have, with blank ones in the places of those that are to be made.
ghost use Rattle.std.specs.Prelude.{◌≡◌, ℕ, ◌==◌, ◌||◌, None, if◌then◌else◌, IfOk, IfSome, OnOk, IsOkUnless};
ghost use Rattle.std.specs.List.{list_any};
ghost use Rattle.std.specs.Option.{option_or};
ghost use Rattle.zone_proto.specs.Keys.{key as key_at, key_eq};
ghost use Rattle.zone_proto.specs.Names.{Name};
ghost use Rattle.zone_map.specs.Zones.{set_at, IsStoredAt};
ghost use Rattle.update_in_place.specs.Parts.{is_among};
ghost use Rattle.zone_planner.specs.Zones.{is_left_out};
ghost use Rattle.signed_changes.specs.Signing.{due_at, due_set};

use chain_changes::{is_below_cut, is_cut};
use std::alloc::Global;
use update_in_place::keys_of_names;
use zone_map::RecordMap;
use zone_planning::PlanSigner;
use zone_proto::{LowerName, ProtoError, RecordSet, RecordType, RrKey};
use zone_signing::signatures::sign_set;

/// The sets of these names in the zone of an origin that have other signatures than they are to have, as they are to be: those without signatures
/// that are to be signed, with the blank ones of each planning signer that signs them, whose signatures begin at the moment `inception`, in seconds since
/// 1970; and those with signatures that nobody signs, without: below a zone cut, and at one all but DS and NSEC (RFC 4035 section 2.2).
///
/// So it gives the sets that a change of a signed zone makes others, since a set that is changed has no signatures. It costs what the sets of these names
/// cost, whatever else the zone has.
///
/// # Errors
///
/// `Memory`.
pub fn due_sets(
    alloc: Global,
    origin: &LowerName,
    zone: &RecordMap,
    names: &[LowerName],
    signers: &[PlanSigner],
    inception: u64,
) -> Result<RecordMap, ProtoError>
    ensures ok { IfOk result (λ due. (n : Name) (t : ℕ) → set_at due n t
        ≡ (if is_among names.now n
        then due_at origin.now zone.now inception signers.now n t else None)) }
    ensures err { IsOkUnless result ProtoError.Memory }
{
    let keys = keys_of_names(alloc, zone, names)?;
    let due = due_under(alloc, origin, zone, keys.as_slice(), signers, inception)?;
    Ok(due)
}

/// The same of the sets under these keys.
fn due_under(
    alloc: Global,
    origin: &LowerName,
    zone: &RecordMap,
    keys: &[RrKey],
    signers: &[PlanSigner],
    inception: u64,
) -> Result<RecordMap, ProtoError>
    ensures ok { IfOk result (λ due. (n : Name) (t : ℕ) → set_at due n t
        ≡ (if list_any (key_eq (key_at n t)) keys.now
        then due_at origin.now zone.now inception signers.now n t else None)) }
    ensures err { IsOkUnless result ProtoError.Memory }
{
    let mut due = RecordMap::new(alloc);
    for key in keys {
        put_due(origin, zone, key, signers, inception, &mut due)?;
    }
    Ok(due)
}

/// Puts the set under a key as it is to be among others, if it has other signatures than it is to have. Refused by `Memory` alone.
fn put_due(
    origin: &LowerName,
    zone: &RecordMap,
    key: &RrKey,
    signers: &[PlanSigner],
    inception: u64,
    due: &mut RecordMap,
) -> Result<(), ProtoError>
    ensures ok { OnOk result ((n : Name) (t : ℕ) → set_at due.new n t
        ≡ (if key_eq (key_at n t) key.now
        then option_or (due_at origin.now zone.now inception signers.now n t) (set_at due.old n t)
        else set_at due.old n t)) }
    ensures err { IsOkUnless result ProtoError.Memory }
{
    let Some(set) = zone.get(key) else {
        return Ok(());
    };
    match due_set(origin, zone, key, set, signers, inception)? {
        Some(made) => match due.put(key.clone()?, made) {
            Ok(_) => Ok(()),
            Err(_) => Err(ProtoError::Memory),
        },
        None => Ok(()),
    }
}

/// The set under a key as it is to be, if it has other signatures than it is to have. Refused by `Memory` alone.
fn due_set(
    origin: &LowerName,
    zone: &RecordMap,
    key: &RrKey,
    set: &RecordSet,
    signers: &[PlanSigner],
    inception: u64,
) -> Result<Option<RecordSet>, ProtoError>
    requires { IsStoredAt key.now.name key.now.record_type.0 set.now }
    ensures ok { IfOk result (λ due. due
        ≡ due_set origin.now zone.now inception signers.now key.now set.now) }
    ensures stored { IfOk result (λ due.
        IfSome due (λ s. IsStoredAt key.now.name key.now.record_type.0 s)) }
    ensures err { IsOkUnless result ProtoError.Memory }
{
    let is_unsigned = set.rrsigs().is_empty();
    if is_left_out(zone, origin, key)? {
        if is_unsigned {
            return Ok(None);
        }
        let bare = set.clone_without_rrsigs()?;
        return Ok(Some(bare));
    }
    if !is_unsigned {
        return Ok(None);
    }
    let mut made = set.clone_without_rrsigs()?;
    sign_set(&mut made, signers, inception)?;
    Ok(Some(made))
}

/// Whether nobody signs the set under a key. Refused by `Memory` alone.
fn is_left_out(zone: &RecordMap, origin: &LowerName, key: &RrKey) -> Result<bool, ProtoError>
    ensures ok { IfOk result (λ is. is ≡ is_left_out origin.now zone.now key.now) }
    ensures err { IsOkUnless result ProtoError.Memory }
{
    if is_below_cut(zone, origin, &key.name)? {
        return Ok(true);
    }
    let cut = is_cut(zone, origin, &key.name)?;
    Ok(cut && !is_parents(key.record_type))
}

/// Whether a set of the type at a zone cut is the parent's: DS or NSEC (RFC 4035 section 2.2).
fn is_parents(record_type: RecordType) -> bool
    ensures { result ≡ (record_type.0 == 43) || (record_type.0 == 47) }
{
    record_type == RecordType::DS || record_type == RecordType::NSEC
}
