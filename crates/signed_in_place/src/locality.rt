//! Whether a change of a signed zone can be made in place: all of the zone is as it is to be, but for the sets that the change makes others.
ghost use Rattle.std.specs.Prelude.{◌≡◌, IfOk, IsOkUnless};
ghost use Rattle.zone_map.specs.Zones.{owns};
ghost use Rattle.signed_in_place.specs.InPlace.{is_denied_by_nsec, is_local, is_nsec, keeps_denial_ttl};

use crate::denials::ttl_and_serial;
use crate::dnames::meet_dname;
use crate::keys::{has_keys, keeps_keys};
use update_in_place::Changed;
use zone_map::RecordMap;
use zone_planner::{PlannedKey, Request};
use zone_proto::{LowerName, NxProofKind, ProtoError, RecordType, RrKey};

/// Whether a change can be made in place: the zone of an origin denies by NSEC and is to do so, its denials keep their TTL, the records of its keys stand at
/// the origin and stay there, and no set that changes meets a DNAME. Refused by `Memory` alone.
pub(crate) fn is_local(
    origin: &LowerName,
    zone: &RecordMap,
    changed: &Changed,
    keys: &[PlannedKey],
    request: &Request,
) -> Result<bool, ProtoError>
    ensures ok { IfOk result (λ is. is ≡ is_local keys.now request.now.nx_proof_kind origin.now
        zone.now changed.now.after) }
    ensures err { IsOkUnless result ProtoError.Memory }
{
    let denied = is_denied_by_nsec(origin, zone)?;
    let timed = keeps_denial_ttl(origin, zone, &changed.after)?;
    let keyed = has_keys(origin, zone, keys)?;
    let kept = keeps_keys(origin, zone, &changed.after)?;
    let meet = meet_dname(origin, zone, &changed.after)?;
    Ok(is_nsec(&request.nx_proof_kind) && denied && timed && keyed && kept && !meet)
}

/// Whether a zone is to deny by NSEC.
fn is_nsec(kind: &NxProofKind) -> bool
    ensures { result ≡ is_nsec kind.now }
{
    matches!(kind, NxProofKind::Nsec)
}

/// Whether the zone of an origin denies by NSEC as it stands. Refused by `Memory` alone.
fn is_denied_by_nsec(origin: &LowerName, zone: &RecordMap) -> Result<bool, ProtoError>
    ensures ok { IfOk result (λ is. is ≡ is_denied_by_nsec origin.now zone.now) }
    ensures err { IsOkUnless result ProtoError.Memory }
{
    let denies = owns(zone, origin, RecordType::NSEC)?;
    let hashes = owns(zone, origin, RecordType::NSEC3PARAM)?;
    Ok(denies && !hashes)
}

/// Whether a name owns a set of a type. Refused by `Memory` alone.
pub fn owns(zone: &RecordMap, name: &LowerName, record_type: RecordType) -> Result<bool, ProtoError>
    ensures ok { IfOk result (λ has. has ≡ owns zone.now name.now record_type.0) }
    ensures err { IsOkUnless result ProtoError.Memory }
{
    let key = RrKey::new(name.clone()?, record_type);
    Ok(zone.get(&key).is_some())
}

/// Whether denials keep their TTL. Refused by `Memory` alone.
pub fn keeps_denial_ttl(
    origin: &LowerName,
    zone: &RecordMap,
    after: &RecordMap,
) -> Result<bool, ProtoError>
    ensures ok { IfOk result (λ keeps. keeps ≡ keeps_denial_ttl origin.now zone.now after.now) }
    ensures err { IsOkUnless result ProtoError.Memory }
{
    let (old, _) = ttl_and_serial(zone, origin)?;
    let (new, _) = ttl_and_serial(after, origin)?;
    Ok(old == new)
}
