//! The NSEC sets that a change of a zone makes others, made anew.
ghost use Rattle.std.specs.Prelude.{◌≡◌, ℕ, false, None, filter_map, if◌then◌else◌, IfOk, OnOk, IsOkUnless};
ghost use Rattle.zone_proto.specs.Names.{Name};
ghost use Rattle.zone_proto.specs.Types.{NSEC as nsec_type};
ghost use Rattle.zone_map.specs.Zones.{Sets, owns, set_at, AreStored};
ghost use Rattle.zone_denial.specs.Authority.{is_authoritative};
ghost use Rattle.zone_denial.specs.NsecSets.{nsec_set_at};
ghost use Rattle.update_in_place.specs.Parts.{is_among};
ghost use Rattle.chain_changes.specs.Renewal.{is_renewed, nsec_entry_of, HaveChanges};

use crate::entries::nsec_entry_of;
use crate::touched::renewed;
use std::alloc::Global;
use zone_map::{NewSets, RecordMap};
use zone_proto::{LowerName, ProtoError, RecordSet, RrKey};

/// NSEC sets of a zone that are made anew.
#[derive(Drop)]
pub struct RenewedSets {
    /// The names whose NSEC sets they are. Few of them stand here more than once: a name may where several of the sets that came or went touch it.
    pub names: Vec<LowerName>,
    /// Their NSEC sets. A name that has none here is to have none in the zone.
    pub sets: NewSets,
}

/// The NSEC sets that are to take the place of others in the zone of an origin, once sets came or went in it under these keys, NSEC aside, and its NSEC
/// sets stand as they were before.
///
/// They are those of the owners of these sets, of the names below each zone cut that came or went, and of the nearest name before each of these owners
/// that has an NSEC set and is to have one. Each has the TTL `ttl`, in seconds, and the serial `serial`. Every other name keeps the NSEC set that it has
/// (RFC 4035 section 2.3). It costs what these names cost, and the glue that stands between them and the next names, whatever else the zone has; and for
/// each of these owners what the names cost that lost their NSEC sets and stand right before it, as where a zone cut came above them.
///
/// # Errors
///
/// `Memory`.
pub fn renewed_sets(
    alloc: Global,
    origin: &LowerName,
    zone: &RecordMap,
    keys: &[RrKey],
    ttl: u32,
    serial: u32,
) -> Result<RenewedSets, ProtoError>
    ensures names { IfOk result
        (λ renewal. (n : Name) → is_among renewal.names.items n
        ≡ is_renewed origin.now zone.now keys.now n) }
    ensures sets { IfOk result (λ renewal. (n : Name) (t : ℕ) → set_at renewal.sets n t
        ≡ (if is_among renewal.names.items n
        then nsec_set_at origin.now zone.now ttl serial n t else None)) }
    ensures others { IfOk result (λ renewal. (old : Sets)
        → HaveChanges keys.now old zone.now
        → ((n : Name) → owns zone.now n nsec_type ≡ is_authoritative origin.now old nsec_type n)
        → (n : Name) (t : ℕ) → is_among renewal.names.items n ≡ false
        → nsec_set_at origin.now zone.now ttl serial n t
        ≡ nsec_set_at origin.now old ttl serial n t) }
    ensures err { IsOkUnless result ProtoError.Memory }
{
    let names = renewed(alloc, zone, origin, keys)?;
    let sets = nsec_sets_of(alloc, zone, origin, names.as_slice(), ttl, serial)?;
    Ok(RenewedSets { names, sets })
}

/// The NSEC sets of these names. Refused by `Memory` alone.
fn nsec_sets_of(
    alloc: Global,
    zone: &RecordMap,
    origin: &LowerName,
    names: &[LowerName],
    ttl: u32,
    serial: u32,
) -> Result<NewSets, ProtoError>
    ensures ok { IfOk result (λ sets. (n : Name) (t : ℕ) → set_at sets n t
        ≡ (if is_among names.now n
        then nsec_set_at origin.now zone.now ttl serial n t else None)) }
    ensures err { IsOkUnless result ProtoError.Memory }
{
    let _zone = zone.len();
    let entries = nsec_entries(alloc, zone, origin, names, ttl, serial)?;
    let sets = NewSets::from_entries(alloc, entries)?;
    Ok(sets)
}

/// These sets under their keys, in the order of the names. Refused by `Memory` alone.
fn nsec_entries(
    alloc: Global,
    zone: &RecordMap,
    origin: &LowerName,
    names: &[LowerName],
    ttl: u32,
    serial: u32,
) -> Result<Vec<(RrKey, RecordSet)>, ProtoError>
    ensures ok { IfOk result (λ entries. entries.items
        ≡ filter_map (nsec_entry_of origin.now zone.now ttl serial) names.now) }
    ensures err { IsOkUnless result ProtoError.Memory }
{
    let mut entries = Vec::new(alloc);
    for name in names {
        if let Some(entry) = nsec_entry_of(alloc, zone, origin, name, ttl, serial)? {
            entries.push(entry)?;
        }
    }
    Ok(entries)
}
