//! The NSEC sets that a change of a zone makes others, put into it.
ghost use Rattle.std.specs.Prelude.{◌≡◌, ℕ, ◌==◌, false, map, IfOk, OnOk, OnErr, IsOkUnless};
ghost use Rattle.zone_proto.specs.Keys.{key as key_at};
ghost use Rattle.zone_proto.specs.Names.{Name};
ghost use Rattle.zone_proto.specs.Types.{NSEC as nsec_type};
ghost use Rattle.zone_map.specs.Zones.{set_at, IsZone};
ghost use Rattle.zone_denial.specs.NsecSets.{nsec_set_at};
ghost use Rattle.zone_trimming.specs.Trimming.{trimmed_at};
ghost use Rattle.update_in_place.specs.Parts.{is_among};
ghost use Rattle.chain_changes.specs.Renewal.{is_renewed, IsRenewed};
ghost use Rattle.signed_changes.specs.Renewing.{changed_keys, with_renewed};

use chain_changes::{RenewedSets, changed_chain};
use std::alloc::Global;
use update_in_place::{Changed, put_sets};
use zone_map::{NewSets, RecordMap};
use zone_proto::{LowerName, ProtoError, RecordType, RrKey};
use zone_trimming::trimmed;

/// Closes the chain of NSEC sets of the zone of an origin again (RFC 4035 section 2.3), once what an update changes was carried out in it and its NSEC
/// sets stand as they were: the sets that this makes others are made anew, of this TTL in seconds and this serial, with trimmed lists of types as
/// `zone_trimming` makes them. They have no signatures. Gives the names whose NSEC sets they are: a few of them may stand there more than once, and some
/// have none. All else stays, signatures too.
///
/// It costs what these names and their NSEC sets cost, as [`changed_chain`] and `put_sets` of `update_in_place` say, whatever else the zone has.
///
/// # Errors
///
/// `Memory`. The zone is then as it was, so that this can be called again.
pub fn renew_chain(
    alloc: Global,
    origin: &LowerName,
    zone: &mut RecordMap,
    changed: &Changed,
    ttl: u32,
    serial: u32,
) -> Result<Vec<LowerName>, ProtoError>
    ensures names { IfOk result (λ names. (n : Name) → is_among names.items n
        ≡ is_renewed origin.now zone.old
        (changed_keys changed.now.before changed.now.after) n) }
    ensures renewed { OnOk result (IsRenewed origin.now
        (changed_keys changed.now.before changed.now.after) zone.old
        (trimmed_at (nsec_set_at origin.now zone.old ttl serial)) zone.new) }
    ensures others { OnOk result ((n : Name) (t : ℕ) → (t == nsec_type) ≡ false
        → set_at zone.new n t ≡ set_at zone.old n t) }
    ensures kept { IfOk result (λ names. (n : Name) → is_among names.items n ≡ false
        → set_at zone.new n nsec_type ≡ set_at zone.old n nsec_type) }
    ensures zone { OnOk result (IsZone zone.new) }
    ensures err { IsOkUnless result ProtoError.Memory }
    ensures same { OnErr result (zone.new ≡ zone.old) }
{
    let RenewedSets { names, sets } = changed_chain(alloc, origin, zone, changed, ttl, serial)?;
    put_renewed(alloc, zone, names.as_slice(), sets)?;
    Ok(names)
}

/// Puts NSEC sets of some names with trimmed lists of types in the place of those that these names have in a zone, all or nothing. A name that has none
/// among them has none in the zone then; all else stays.
///
/// It costs what these sets cost, each of which is found by its key, whatever else the zone has.
///
/// # Errors
///
/// `Memory`. The zone is then as it was.
pub fn put_renewed(
    alloc: Global,
    zone: &mut RecordMap,
    names: &[LowerName],
    sets: NewSets,
) -> Result<(), ProtoError>
    ensures put { OnOk result ((n : Name) (t : ℕ) → set_at zone.new n t
        ≡ with_renewed names.now (trimmed_at (set_at sets)) (set_at zone.old) n t) }
    ensures zone { OnOk result (IsZone zone.new) }
    ensures err { IsOkUnless result ProtoError.Memory }
    ensures same { OnErr result (zone.new ≡ zone.old) }
{
    let made = RecordMap::from_sets(alloc, trimmed(alloc, sets)?)?;
    let gone = nsec_keys(alloc, names)?;
    put_sets(alloc, zone, gone.as_slice(), &made)?;
    Ok(())
}

/// The keys of the NSEC sets of these names. Refused by `Memory` alone.
fn nsec_keys(alloc: Global, names: &[LowerName]) -> Result<Vec<RrKey>, ProtoError>
    ensures ok { IfOk result
        (λ keys. keys.items ≡ map (λ n. key_at n nsec_type) names.now) }
    ensures err { IsOkUnless result ProtoError.Memory }
{
    let mut keys = Vec::with_capacity(alloc, names.len())?;
    for name in names {
        keys.push(RrKey::new(name.clone()?, RecordType::NSEC))?;
    }
    Ok(keys)
}
