//! The NSEC3 sets that a change of a zone makes others, made anew.
ghost use Rattle.std.specs.Prelude.{◌≡◌, ◌==◌, ◌&&◌, ℕ, false, None, option_map, if◌then◌else◌, IfErr, IfOk, IsOkUnless};
ghost use Rattle.zone_proto.specs.Names.{Name};
ghost use Rattle.zone_proto.specs.Types.{NSEC3 as nsec3_type};
ghost use Rattle.zone_map.specs.Zones.{Sets, set_at};
ghost use Rattle.zone_denial.specs.Nsec3Sets.{nsec3_set_at};
ghost use Rattle.zone_denial.specs.Nsec3Zones.{hash_with};
ghost use Rattle.zone_trimming.specs.Trimming.{trimmed_set};
ghost use Rattle.hashed_changes.specs.Among.{is_among};
ghost use Rattle.hashed_changes.specs.Affected.{is_affected};
ghost use Rattle.hashed_changes.specs.Faults.{WereNever};
ghost use Rattle.hashed_changes.specs.Renewal.{renewed};
ghost use Rattle.hashed_changes.specs.Renewals.{owners_made};
ghost use Rattle.hashed_changes.specs.Standing.{IsStanding};

use crate::affected::affected_names;
use crate::affecting::affected_places;
use crate::entries::entries_of;
use crate::renew_fault::RenewFault;
use crate::renewals::{Renewal, renewals};
use std::alloc::Global;
use zone_map::{NewSets, RecordMap};
use zone_proto::{LowerName, NSEC3PARAM, Nsec3Hash, ProtoError, RrKey};
use zone_trimming::trimmed;

/// NSEC3 sets of a zone that are made anew.
#[derive(Drop)]
pub struct RenewedHashes {
    /// The names that the change affects, ascending.
    pub names: Vec<LowerName>,
    /// The owners whose NSEC3 sets they are, some of them more than once: the hashed owners of these names, each with the nearest owner before it.
    pub owners: Vec<LowerName>,
    /// Their NSEC3 sets, with trimmed lists. An owner that has none here is to have none in the zone.
    pub sets: NewSets,
}

/// The NSEC3 sets that are to take the place of others in the zone of an origin, once sets came or went in it under these keys, NSEC3 aside, and its
/// NSEC3 sets stand as they were before (RFC 5155 section 7.1).
///
/// They are those of the names that the change affects, each hashed once by `hash` with these parameters, and of the nearest owner before each in the
/// order of the digests, which leads to another one then; at a delegation each lists what the parent is authoritative for, as `trimmed` of
/// `zone_trimming` has it, and those that stand have to. Each has the TTL `ttl`, in seconds, and the serial `serial`. Every other owner keeps the
/// NSEC3 set that it has. It costs what these names cost, whatever else the zone has: they are put into the order of their digests once, and then
/// found by halving.
///
/// # Errors
///
/// `Hash` if `hash` has no digest of a name; `OwnerTooLong` if the text of a digest is no label, or makes an owner longer than a name may be;
/// `Unclosed` if an NSEC3 set that is asked leads nowhere, so that those in the zone aren't a circle; and `Memory`.
pub fn renewed_hashes<H: Nsec3Hash>(
    alloc: Global,
    origin: &LowerName,
    zone: &RecordMap,
    keys: &[RrKey],
    hash: &H,
    parameters: &NSEC3PARAM,
    ttl: u32,
    serial: u32,
) -> Result<RenewedHashes, RenewFault>
    ensures names { IfOk result (λ made. (n : Name)
        → is_among made.names.items n ≡ is_affected origin.now zone.now keys.now n) }
    ensures owners { IfOk result (λ made. (o : Name) → is_among made.owners.items o
        ≡ is_among (renewed (hash_with (H.digest_of hash.now) parameters.now) origin.now
        zone.now made.names.items) o) }
    ensures sets { IfOk result (λ made. (old : Sets)
        → IsStanding origin.now old zone.now keys.now made.names.items
        (hash_with (H.digest_of hash.now) parameters.now) parameters.now ttl serial
        → (o : Name) (t : ℕ) → set_at made.sets o t
        ≡ (if (t == nsec3_type) && is_among made.owners.items o
        then option_map trimmed_set (nsec3_set_at origin.now zone.now
        (hash_with (H.digest_of hash.now) parameters.now) parameters.now ttl serial o)
        else None)) }
    ensures others { IfOk result (λ made. (o : Name) (t : ℕ)
        → ((t == nsec3_type) && is_among made.owners.items o) ≡ false
        → set_at made.sets o t ≡ None) }
    ensures unclosed { IfErr result (λ fault. fault ≡ RenewFault.Unclosed
        → WereNever origin.now zone.now keys.now
        (hash_with (H.digest_of hash.now) parameters.now) parameters.now) }
{
    let names = affected_names(alloc, zone, origin, keys)?;
    let affected = affected_places(alloc, zone, origin, names.as_slice(), hash, parameters)?;
    let made = renewals(alloc, zone, origin, affected.as_slice())?;
    let entries = entries_of(alloc, made.as_slice(), parameters, ttl, serial)?;
    let untrimmed = NewSets::from_entries(alloc, entries)?;
    let sets = trimmed(alloc, untrimmed)?;
    let owners = owners_made(alloc, made.as_slice())?;
    Ok(RenewedHashes {
        names,
        owners,
        sets,
    })
}

/// The owners of those that are made anew. Refused by `Memory` alone.
fn owners_made(alloc: Global, made: &[Renewal]) -> Result<Vec<LowerName>, ProtoError>
    ensures ok { IfOk result (λ owners. owners.items ≡ owners_made made.now) }
    ensures err { IsOkUnless result ProtoError.Memory }
{
    let mut owners = Vec::new(alloc);
    for renewal in made {
        owners.push(renewal.owner.clone()?)?;
    }
    Ok(owners)
}
