//! The types that the NSEC3 set of a name lists.
ghost use Rattle.std.specs.Prelude.{◌≡◌, ◌≤◌, ◌==◌, not, length, map, filter, nat_lt, IfOk, OnOk, IsOkUnless};
ghost use Rattle.std.specs.List.{prefix_len};
ghost use Rattle.std.specs.Ordering.{nat_cmp};
ghost use Rattle.zone_proto.specs.Types.{NSEC3 as nsec3_type};
ghost use Rattle.zone_map.specs.Zones.{types_at, IsZone};
ghost use Rattle.zone_denial.specs.Nsec3Circle.{nsec3_types};
ghost use Rattle.zone_denial.specs.TypeLists.{joined};

use std::alloc::Global;
use zone_map::RecordMap;
use zone_proto::{LowerName, ProtoError, RecordType, RrKey, Seq};
use zone_update::types_at;

/// The types that the NSEC3 set of a name lists in the zone of an origin: those that it owns, NSEC3 aside, and RRSIG where it owns one; at the origin
/// NSEC3PARAM and RRSIG always (RFC 5155 sections 3.1.8 and 7.1). Refused by `Memory` alone.
pub fn nsec3_types(
    alloc: Global,
    zone: &RecordMap,
    origin: &LowerName,
    name: &LowerName,
) -> Result<Seq<RecordType>, ProtoError>
    ensures ok { IfOk result
        (λ types. map (λ t. t.0) types ≡ nsec3_types origin.now zone.now name.now) }
    ensures err { IsOkUnless result ProtoError.Memory }
{
    let mut types = own_types(alloc, zone, name)?;
    if name == origin {
        join(&mut types, RecordType::RRSIG)?;
        join(&mut types, RecordType::NSEC3PARAM)?;
        return Ok(Seq::from_vec(types));
    }
    if !types.is_empty() {
        join(&mut types, RecordType::RRSIG)?;
    }
    Ok(Seq::from_vec(types))
}

/// The types that a name owns, NSEC3 aside. Refused by `Memory` alone.
fn own_types(
    alloc: Global,
    zone: &RecordMap,
    name: &LowerName,
) -> Result<Vec<RecordType>, ProtoError>
    ensures ok { IfOk result (λ types. map (λ t. t.0) types.items
        ≡ filter (λ t. not (t == nsec3_type)) (types_at zone.now name.now)) }
    ensures zone { OnOk result (IsZone zone.now) }
    ensures err { IsOkUnless result ProtoError.Memory }
{
    let least = RrKey::first_of(name)?;
    let types = types_at(alloc, zone.as_map(), &least)?;
    let others = without_nsec3(alloc, types.as_slice())?;
    Ok(others)
}

/// Types without NSEC3. Refused by `Memory` alone.
fn without_nsec3(alloc: Global, types: &[RecordType]) -> Result<Vec<RecordType>, ProtoError>
    ensures ok { IfOk result (λ others. others.items
        ≡ filter (λ t. not (t.0 == nsec3_type)) types.now) }
    ensures err { IsOkUnless result ProtoError.Memory }
{
    let mut others = Vec::new(alloc);
    for record_type in types {
        if record_type.0 != RecordType::NSEC3.0 {
            others.push(*record_type)?;
        }
    }
    Ok(others)
}

/// Puts a type into an ascending list, unless it is there. Refused by `Memory` alone.
fn join(types: &mut Vec<RecordType>, record_type: RecordType) -> Result<(), ProtoError>
    ensures ok { OnOk result
        (map (λ t. t.0) types.new.items
        ≡ joined nat_cmp record_type.0 (map (λ t. t.0) types.old.items)) }
    ensures err { IsOkUnless result ProtoError.Memory }
{
    let place = count_below(types.as_slice(), record_type);
    if place < types.len() && types[place] == record_type {
        return Ok(());
    }
    types.insert(place, record_type)?;
    Ok(())
}

/// How many types in front are less than another.
fn count_below(types: &[RecordType], record_type: RecordType) -> usize
    ensures value { result ≡ prefix_len (λ t. nat_lt t.0 record_type.0) types.now }
    ensures bound { result ≤ length types.now }
{
    types
        .iter()
        .take_while(|other| **other < record_type)
        .count()
}
