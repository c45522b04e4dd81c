//! The NSEC sets that an update makes others.
ghost use Rattle.std.specs.Prelude.{◌≡◌, ℕ, ◌++◌, List, false, None, if◌then◌else◌, IfOk, OnOk, IsOkUnless};
ghost use Rattle.zone_proto.specs.Names.{Name};
ghost use Rattle.zone_proto.specs.Types.{NSEC as nsec_type};
ghost use Rattle.zone_map.specs.Zones.{Sets, owns, set_at};
ghost use Rattle.zone_denial.specs.Authority.{is_authoritative};
ghost use Rattle.zone_denial.specs.NsecSets.{nsec_set_at};
ghost use Rattle.update_in_place.specs.Parts.{is_among, keys_lacking, AreChanged};
ghost use Rattle.chain_changes.specs.Renewal.{is_renewed};

use crate::renewing::{RenewedSets, renewed_sets};
use std::alloc::Global;
use update_in_place::Changed;
use zone_map::RecordMap;
use zone_proto::{LowerName, ProtoError, RrKey};

/// The NSEC sets that are to take the place of others in the zone of an origin, once what an update changes was carried out in it and its NSEC sets
/// stand as they were before: those that [`renewed_sets`] makes for the sets that came or went.
///
/// # Errors
///
/// `Memory`.
pub fn changed_chain(
    alloc: Global,
    origin: &LowerName,
    zone: &RecordMap,
    changed: &Changed,
    ttl: u32,
    serial: u32,
) -> Result<RenewedSets, ProtoError>
    ensures names { IfOk result (λ renewal. (n : Name) → is_among renewal.names.items n
        ≡ is_renewed origin.now zone.now
        (keys_lacking changed.now.before changed.now.after
        ++ keys_lacking changed.now.after changed.now.before) n) }
    ensures sets { IfOk result (λ renewal. (n : Name) (t : ℕ) → set_at renewal.sets n t
        ≡ (if is_among renewal.names.items n
        then nsec_set_at origin.now zone.now ttl serial n t else None)) }
    ensures others { IfOk result (λ renewal. (names : List Name) (old : Sets)
        → AreChanged names old zone.now changed.now.before changed.now.after
        → ((n : Name) → owns zone.now n nsec_type ≡ is_authoritative origin.now old nsec_type n)
        → (n : Name) (t : ℕ) → is_among renewal.names.items n ≡ false
        → nsec_set_at origin.now zone.now ttl serial n t
        ≡ nsec_set_at origin.now old ttl serial n t) }
    ensures err { IsOkUnless result ProtoError.Memory }
{
    let keys = changed_keys(alloc, changed)?;
    let renewal = renewed_sets(alloc, origin, zone, keys.as_slice(), ttl, serial)?;
    Ok(renewal)
}

/// The keys of the sets that an update takes away, and of those that it makes. Refused by `Memory` alone.
fn changed_keys(alloc: Global, changed: &Changed) -> Result<Vec<RrKey>, ProtoError>
    ensures ok { IfOk result (λ keys. keys.items
        ≡ keys_lacking changed.now.before changed.now.after
        ++ keys_lacking changed.now.after changed.now.before) }
    ensures err { IsOkUnless result ProtoError.Memory }
{
    let mut keys = Vec::new(alloc);
    push_lacking(&changed.before, &changed.after, &mut keys)?;
    push_lacking(&changed.after, &changed.before, &mut keys)?;
    Ok(keys)
}

/// Puts the keys of the sets under which another map has none behind others. Refused by `Memory` alone.
fn push_lacking(
    sets: &RecordMap,
    other: &RecordMap,
    keys: &mut Vec<RrKey>,
) -> Result<(), ProtoError>
    ensures ok { OnOk result (keys.new.items ≡ keys.old.items ++ keys_lacking sets.now other.now) }
    ensures err { IsOkUnless result ProtoError.Memory }
{
    for (key, _) in sets.iter() {
        if !has(other, key) {
            keys.push(key.clone()?)?;
        }
    }
    Ok(())
}

/// Whether a set stands under a key.
fn has(sets: &RecordMap, key: &RrKey) -> bool
    ensures { result ≡ owns sets.now key.now.name key.now.record_type.0 }
{
    sets.get(key).is_some()
}
