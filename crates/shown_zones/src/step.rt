//! The step of a zone from one version to the next.
ghost use Rattle.std.specs.Prelude.{◌≡◌, IfOk, IsOkUnless, Some, option_copied};
ghost use Rattle.zone_difference.specs.Differences.{same_at};
ghost use Rattle.zone_proto.specs.Sets.{same_set};
ghost use Rattle.shown_zones.specs.Shown.{have_same_head, have_same_records, shown_if, shown_set};
ghost use Rattle.shown_zones.specs.Steps.{changed, is_changed, IsStepIfAny};

use crate::spelling::spelled;
use std::alloc::Global;
use zone_map::RecordMap;
use zone_proto::{LowerName, ProtoError, RecordSet, RecordType, RrKey};

/// What has to be done to a version of a zone to have the next one, in the parts of RFC 1995 section 4. A set of which a record, the TTL or a
/// signature changes is deleted and added, whole.
#[derive(Drop)]
pub struct ZoneStep {
    /// The set of the older SOA.
    pub old_soa: RecordSet,
    /// The other sets that are deleted.
    pub deleted: Vec<RecordSet>,
    /// The set of the newer SOA.
    pub new_soa: RecordSet,
    /// The other sets that are added.
    pub added: Vec<RecordSet>,
}

/// The step from one version of a zone to another: both SOAs, and of either version the other sets that answers don't show of the other, in
/// the order of their keys. None where one of the versions has no SOA. Refused by `Memory` alone.
pub fn step_between(
    alloc: Global,
    origin: &LowerName,
    before: &RecordMap,
    after: &RecordMap,
) -> Result<Option<ZoneStep>, ProtoError>
    ensures step { IfOk result (IsStepIfAny origin.now before.now after.now) }
    ensures err { IsOkUnless result ProtoError.Memory }
{
    let soa = RrKey::new(origin.clone()?, RecordType::SOA);
    let Some(old_soa) = before.get(&soa) else {
        return Ok(None);
    };
    let Some(new_soa) = after.get(&soa) else {
        return Ok(None);
    };
    Ok(Some(ZoneStep {
        old_soa: old_soa.clone()?,
        deleted: changed(alloc, &soa, before, after)?,
        new_soa: new_soa.clone()?,
        added: changed(alloc, &soa, after, before)?,
    }))
}

/// Copies of the sets of a version that another doesn't show, but for the one under a key.
fn changed(
    alloc: Global,
    soa: &RrKey,
    zone: &RecordMap,
    other: &RecordMap,
) -> Result<Vec<RecordSet>, ProtoError>
    ensures ok { IfOk result (λ sets. sets.items ≡ changed soa.now zone.now other.now) }
    ensures err { IsOkUnless result ProtoError.Memory }
{
    let mut changed = Vec::new(alloc);
    for (key, set) in zone.iter() {
        if is_changed(soa, other, key, set) {
            changed.push(set.clone()?)?;
        }
    }
    Ok(changed)
}

/// Whether a set stands under another key, and a version doesn't show it.
fn is_changed(soa: &RrKey, other: &RecordMap, key: &RrKey, set: &RecordSet) -> bool
    ensures { result ≡ is_changed soa.now other.now (key.now, set.now) }
{
    *soa != *key && !is_shown(other.get(key), set)
}

/// Whether a set is there, and answers show it as another.
fn is_shown(standing: Option<&RecordSet>, set: &RecordSet) -> bool
    ensures { result
        ≡ same_at (shown_if (option_copied standing.entry)) (Some (shown_set set.now)) }
{
    match standing {
        None => false,
        Some(standing) => are_shown_alike(standing, set),
    }
}

/// Whether answers show two sets alike.
#[tactic(auto, using(crate::proofs::Shows::shown_alike))]
fn are_shown_alike(one: &RecordSet, other: &RecordSet) -> bool
    ensures { result ≡ same_set (shown_set one.now) (shown_set other.now) }
{
    have_same_head(one, other) && have_same_records(one, other)
}

/// Whether two sets have the same owner, type and TTL.
fn have_same_head(one: &RecordSet, other: &RecordSet) -> bool
    ensures { result ≡ have_same_head one.now other.now }
{
    *spelled(one) == *spelled(other)
        && one.record_type() == other.record_type()
        && one.ttl() == other.ttl()
}

/// Whether two sets have the same records and signatures, TTLs aside.
fn have_same_records(one: &RecordSet, other: &RecordSet) -> bool
    ensures { result ≡ have_same_records one.now other.now }
{
    one.as_slice() == other.as_slice() && one.rrsigs() == other.rrsigs()
}
