//! Whether the NSEC3 sets that are in a zone, and its NSEC3PARAM set, are those that it would get.
ghost use Rattle.std.specs.Prelude.{◌≡◌, ℕ, ◌==◌, cond, map, None, Some, true, IfOk, IsTrue, IsOkUnless};
ghost use Rattle.std.specs.List.{AllByRecursion};
ghost use Rattle.std.specs.List.Sorted.{IsStrictlySortedBy};
ghost use Rattle.zone_proto.specs.declared.rdata.RData.TheVariants as variant;
ghost use Rattle.zone_proto.specs.Faults.{fault_of};
ghost use Rattle.zone_proto.specs.HashedOwners.{hashed_owner};
ghost use Rattle.zone_proto.specs.Names.{Name, lower};
ghost use Rattle.zone_proto.specs.Ranges.{IsOctet};
ghost use Rattle.zone_proto.specs.Types.{NSEC3 as nsec3_type, NSEC3PARAM as nsec3param_type};
ghost use Rattle.zone_map.specs.Standing.{renumbered, standing_at};
ghost use Rattle.zone_map.specs.Zones.{set_at};
ghost use Rattle.zone_denial.specs.HashedNames.{hashed, all_fit, circle_set_at};
ghost use Rattle.zone_denial.specs.Nsec3Circle.{nsec3_data};
ghost use Rattle.zone_denial.specs.Nsec3Nodes.{types_of};
ghost use Rattle.zone_denial.specs.Nsec3Sets.{hashed_cmp, announced_set};
ghost use Rattle.zone_denial.specs.OneRecordSets.{one_record_set};

use crate::hashed_names::HashedName;
use crate::nsec3_sets::{announcement, hashed_owner, next_name};
use crate::only_data::only_data;
use zone_map::RecordMap;
use zone_proto::{
    LowerName, NSEC3, NSEC3PARAM, Name, ProtoError, RData, Record, RecordSet, RecordType, RrKey,
    Seq,
};

/// Whether the NSEC3 sets that are in the zone are those of these names, which form a circle, serials and signatures
/// aside: one for each in order, and no other. They aren't where two names have one owner. It stops at the first
/// difference. Its only error is `Memory`.
pub(crate) fn nsec3_sets_stand(
    records: &RecordMap,
    held: &[HashedName<'_, '_>],
    origin: &LowerName,
    parameters: &NSEC3PARAM,
    ttl: u32,
) -> Result<bool, ProtoError>
    requires ascending { IsStrictlySortedBy hashed_cmp (map hashed held.now) }
    ensures standing { IfOk result
        (λ stand. IsTrue stand → (serial : ℕ) (n : Name)
        → standing_at records.now nsec3_type serial n nsec3_type
        ≡ circle_set_at origin.now parameters.now ttl held.now serial held.now n) }
    ensures fits { IfOk result
        (λ stand. IsTrue stand → all_fit origin.now (map hashed held.now) ≡ true) }
    ensures err { IsOkUnless result ProtoError.Memory }
{
    let mut passed = 0;
    for (key, set) in records.iter() {
        if key.record_type != RecordType::NSEC3 {
            continue;
        }
        if passed == held.len() {
            return Ok(false);
        }
        let name = &held[passed];
        if !is_set_of_name(set, name, next_name(held, passed), origin, parameters, ttl)? {
            return Ok(false);
        }
        passed += 1;
    }
    Ok(passed == held.len())
}

/// Whether a set is the NSEC3 set of a name with this next one, serial and signatures aside. Its only error is
/// `Memory`.
fn is_set_of_name(
    set: &RecordSet,
    name: &HashedName<'_, '_>,
    next: &HashedName<'_, '_>,
    origin: &LowerName,
    parameters: &NSEC3PARAM,
    ttl: u32,
) -> Result<bool, ProtoError>
    requires { set.now.record_type ≡ nsec3_type }
    ensures set { IfOk result
        (λ is. IsTrue is → (serial : ℕ)
        → renumbered serial set.now
        ≡ one_record_set nsec3_type ttl serial (hashed_owner origin.now name.now.digest)
        (variant.NSEC3
        (nsec3_data parameters.now next.now.digest (types_of name.now.name.now)))) }
    ensures fits { IfOk result
        (λ is. IsTrue is → fault_of (hashed_owner origin.now name.now.digest) ≡ None) }
    ensures digest { AllByRecursion IsOctet name.now.digest }
    ensures lower { IfOk result (λ is. IsTrue is → lower origin.now ≡ origin.now) }
    ensures err { IsOkUnless result ProtoError.Memory }
{
    match hashed_owner(name.digest.as_slice(), origin) {
        Ok(owner) => Ok(is_nsec3_set(set, &owner, name, next, parameters, ttl)),
        Err(ProtoError::Memory) => Err(ProtoError::Memory),
        Err(_) => Ok(false),
    }
}

/// The same, where this is the name's hashed owner.
fn is_nsec3_set(
    set: &RecordSet,
    owner: &LowerName,
    name: &HashedName<'_, '_>,
    next: &HashedName<'_, '_>,
    parameters: &NSEC3PARAM,
    ttl: u32,
) -> bool
    requires { set.now.record_type ≡ nsec3_type }
    ensures { IsTrue result → (serial : ℕ)
        → renumbered serial set.now
        ≡ one_record_set nsec3_type ttl serial owner.now
        (variant.NSEC3
        (nsec3_data parameters.now next.now.digest (types_of name.now.name.now))) }
{
    match only_data(set, owner, ttl) {
        Some(RData::NSEC3(data)) => is_nsec3_data(data, name, next, parameters),
        _ => false,
    }
}

/// Whether data are those of a name with this next one.
fn is_nsec3_data(
    data: &NSEC3,
    name: &HashedName<'_, '_>,
    next: &HashedName<'_, '_>,
    parameters: &NSEC3PARAM,
) -> bool
    ensures { IsTrue result
        → «data».now ≡ nsec3_data parameters.now next.now.digest (types_of name.now.name.now) }
{
    if !has_parameters(data, parameters) || !has_next(data, next) {
        return false;
    }
    has_types(data, &name.name.types)
}

/// Whether data have the parameters of a zone.
fn has_parameters(data: &NSEC3, parameters: &NSEC3PARAM) -> bool
    ensures algorithm { IsTrue result → «data».now.algorithm ≡ parameters.now.algorithm }
    ensures opt_out { IsTrue result → «data».now.opt_out ≡ parameters.now.opt_out }
    ensures iterations { IsTrue result → «data».now.iterations ≡ parameters.now.iterations }
    ensures salt { IsTrue result → «data».now.salt ≡ parameters.now.salt }
{
    data.algorithm == parameters.algorithm
        && data.opt_out == parameters.opt_out
        && data.iterations == parameters.iterations
        && data.salt == parameters.salt
}

/// Whether data have the digest of a name as the next one.
fn has_next(data: &NSEC3, next: &HashedName<'_, '_>) -> bool
    ensures { IsTrue result → «data».now.next_hashed_owner_name ≡ next.now.digest }
{
    data.next_hashed_owner_name == next.digest
}

/// Whether data list these types.
fn has_types(data: &NSEC3, types: &Seq<RecordType>) -> bool
    ensures { IsTrue result → «data».now.types ≡ «types».now }
{
    data.types == *types
}

/// Whether the origin's NSEC3PARAM set already tells these parameters, so that they aren't taken into it. Its only
/// error is `Memory`.
pub(crate) fn is_announced(
    records: &RecordMap,
    origin: &LowerName,
    parameters: &NSEC3PARAM,
    ttl: u32,
    serial: u32,
) -> Result<bool, ProtoError>
    ensures standing { IfOk result
        (λ is. IsTrue is
        → set_at records.now origin.now nsec3param_type
        ≡ Some
        (announced_set origin.now records.now (λ _. None) parameters.now ttl serial)) }
    ensures err { IsOkUnless result ProtoError.Memory }
{
    let key = RrKey::new(origin.clone()?, RecordType::NSEC3PARAM);
    let Some(set) = records.get(&key) else {
        return Ok(false);
    };
    let record = announcement(origin, parameters, ttl)?;
    let mut copy = set.clone()?;
    let is_taken = copy.insert(record, serial)?;
    Ok(!is_taken)
}
