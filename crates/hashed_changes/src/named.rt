//! Which names get an NSEC3 set, told of a name from what it and the names below it own.
ghost use Rattle.std.specs.Prelude.{◌≡◌, ◌==◌, ◌||◌, IfOk, IsOkUnless};
ghost use Rattle.std.specs.List.{list_all};
ghost use Rattle.zone_proto.specs.Types.{NS, NSEC3 as nsec3_type};
ghost use Rattle.zone_denial.specs.Nsec3Names.{is_unsigned_delegation, nsec3_names};
ghost use Rattle.hashed_changes.specs.Among.{is_among};
ghost use Rattle.hashed_changes.specs.Counting.{counts, has_counted, is_left_out};

use crate::authority::{is_at_or_above, is_authoritative};
use std::alloc::Global;
use zone_denial::authoritative_keys::is_above;
use zone_map::RecordMap;
use zone_proto::{LowerName, ProtoError, RecordType, RrKey};
use zone_update::types_at;

/// Whether a name gets an NSEC3 set in the zone of an origin (RFC 5155 section 7.1): it is the origin, or strictly below it, and it or a name below it is
/// one that the zone is authoritative for; with `opt_out` those that own NS alone don't count (RFC 5155 section 6). NSEC3 sets that are in the zone count
/// for nothing. It reads the names from this one on, up to the first that counts: those of glue too. Refused by `Memory` alone.
#[tactic(auto, using(crate::proofs::Counted::of_origin, crate::proofs::Counted::not_below, crate::proofs::Counted::below))]
pub fn gets_set(
    alloc: Global,
    zone: &RecordMap,
    origin: &LowerName,
    opt_out: bool,
    name: &LowerName,
) -> Result<bool, ProtoError>
    ensures ok { IfOk result
        (λ gets. gets ≡ is_among (nsec3_names origin.now zone.now opt_out) name.now) }
    ensures err { IsOkUnless result ProtoError.Memory }
{
    if name == origin {
        return Ok(true);
    }
    if !is_above(origin, name) {
        return Ok(false);
    }
    let has = has_counted(alloc, zone, origin, opt_out, name)?;
    Ok(has)
}

/// Whether a name at or below one counts. Refused by `Memory` alone.
fn has_counted(
    alloc: Global,
    zone: &RecordMap,
    origin: &LowerName,
    opt_out: bool,
    name: &LowerName,
) -> Result<bool, ProtoError>
    ensures ok { IfOk result (λ has. has ≡ has_counted origin.now zone.now opt_out name.now) }
    ensures err { IsOkUnless result ProtoError.Memory }
{
    let least = RrKey::first_of(name)?;
    for (key, _) in zone.as_map().from(&least) {
        if !is_at_or_above(name, &key.name) {
            break;
        }
        let counts = counts(alloc, zone, origin, opt_out, &key.name)?;
        if counts {
            return Ok(true);
        }
    }
    Ok(false)
}

/// Whether a name counts: the zone is authoritative for it, and opt-out doesn't leave it out. Refused by `Memory` alone.
#[tactic(auto, using(crate::proofs::Counted::counts_not, crate::proofs::Counted::counts_by))]
fn counts(
    alloc: Global,
    zone: &RecordMap,
    origin: &LowerName,
    opt_out: bool,
    name: &LowerName,
) -> Result<bool, ProtoError>
    ensures ok { IfOk result (λ does. does ≡ counts origin.now zone.now opt_out name.now) }
    ensures err { IsOkUnless result ProtoError.Memory }
{
    if !is_authoritative(alloc, zone, origin, name)? {
        return Ok(false);
    }
    let left_out = is_left_out(alloc, zone, origin, opt_out, name)?;
    Ok(!left_out)
}

/// Whether opt-out leaves a name out (RFC 5155 section 6). Refused by `Memory` alone.
#[tactic(auto, using(crate::proofs::Counted::in_by_default, crate::proofs::Counted::origin_stays, crate::proofs::Counted::left_out_by))]
fn is_left_out(
    alloc: Global,
    zone: &RecordMap,
    origin: &LowerName,
    opt_out: bool,
    name: &LowerName,
) -> Result<bool, ProtoError>
    ensures ok { IfOk result (λ is. is ≡ is_left_out origin.now zone.now opt_out name.now) }
    ensures err { IsOkUnless result ProtoError.Memory }
{
    if !opt_out {
        return Ok(false);
    }
    if name == origin {
        return Ok(false);
    }
    let unsigned = is_unsigned_delegation(alloc, zone, name)?;
    Ok(unsigned)
}

/// Whether a name owns no set but NS, NSEC3 aside. Refused by `Memory` alone.
fn is_unsigned_delegation(
    alloc: Global,
    zone: &RecordMap,
    name: &LowerName,
) -> Result<bool, ProtoError>
    ensures ok { IfOk result (λ is. is ≡ is_unsigned_delegation zone.now name.now) }
    ensures err { IsOkUnless result ProtoError.Memory }
{
    let least = RrKey::first_of(name)?;
    let types = types_at(alloc, zone.as_map(), &least)?;
    Ok(are_of_delegation(types.as_slice()))
}

/// Whether these types are NS or NSEC3.
fn are_of_delegation(types: &[RecordType]) -> bool
    ensures { result ≡ list_all (λ t. (t.0 == NS) || (t.0 == nsec3_type)) types.now }
{
    types.iter().all(|record_type| *record_type == RecordType::NS
        || *record_type == RecordType::NSEC3)
}
