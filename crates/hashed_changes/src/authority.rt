//! Whether a zone is authoritative for a name, told of that name alone: from what it owns and from the names above it.
ghost use Rattle.std.specs.Prelude.{◌≡◌, ◌==◌, ◌&&◌, not, IfOk, IsOkUnless};
ghost use Rattle.std.specs.List.{list_any};
ghost use Rattle.zone_proto.specs.Names.{is_above, is_at_or_above};
ghost use Rattle.zone_proto.specs.Types.{NS, NSEC3 as nsec3_type};
ghost use Rattle.zone_map.specs.Zones.{owns};
ghost use Rattle.zone_denial.specs.Authority.{is_authoritative, owns_besides};
ghost use Rattle.hashed_changes.specs.Counting.{has_cut_above};

use std::alloc::Global;
use zone_denial::authoritative_keys::is_above;
use zone_map::RecordMap;
use zone_proto::{LowerName, ProtoError, RecordType, RrKey};
use zone_update::types_at;

/// Whether the zone of an origin is authoritative for a name, so that the name may get an NSEC3 set (RFC 5155 section 7.1). Refused by
/// `Memory` alone.
#[tactic(auto, using(crate::proofs::Ancestors::authority_by, crate::proofs::Ancestors::outside, crate::proofs::Ancestors::owning_none))]
pub(crate) fn is_authoritative(
    alloc: Global,
    zone: &RecordMap,
    origin: &LowerName,
    name: &LowerName,
) -> Result<bool, ProtoError>
    ensures ok { IfOk result
        (λ is. is ≡ is_authoritative origin.now zone.now nsec3_type name.now) }
    ensures err { IsOkUnless result ProtoError.Memory }
{
    if !is_at_or_above(origin, name) {
        return Ok(false);
    }
    if !owns_besides(alloc, zone, name)? {
        return Ok(false);
    }
    let below = has_cut_above(zone, origin, name)?;
    Ok(!below)
}

/// Whether a name is at or above another.
pub(crate) fn is_at_or_above(ancestor: &LowerName, name: &LowerName) -> bool
    ensures { result ≡ is_at_or_above ancestor.now name.now }
{
    ancestor.zone_of(name)
}

/// Whether a name owns a set of another type than NSEC3. Refused by `Memory` alone.
fn owns_besides(alloc: Global, zone: &RecordMap, name: &LowerName) -> Result<bool, ProtoError>
    ensures ok { IfOk result (λ owns. owns ≡ owns_besides zone.now nsec3_type name.now) }
    ensures err { IsOkUnless result ProtoError.Memory }
{
    let least = RrKey::first_of(name)?;
    let types = types_at(alloc, zone.as_map(), &least)?;
    Ok(has_other(types.as_slice()))
}

/// Whether another type than NSEC3 is among these.
fn has_other(types: &[RecordType]) -> bool
    ensures { result ≡ list_any (λ t. not (t.0 == nsec3_type)) types.now }
{
    types
        .iter()
        .any(|record_type| record_type.0 != RecordType::NSEC3.0)
}

/// Whether a zone cut is above a name (RFC 1034 section 4.2). Refused by `Memory` alone.
#[tactic(auto, using(crate::proofs::Ancestors::next_cut, crate::proofs::Ancestors::at_cut))]
fn has_cut_above(zone: &RecordMap, origin: &LowerName, name: &LowerName) -> Result<bool, ProtoError>
    ensures ok { IfOk result (λ is. is ≡ has_cut_above origin.now zone.now name.now) }
    ensures err { IsOkUnless result ProtoError.Memory }
{
    let mut ancestor = name.clone()?;
    while !ancestor.is_root() {
        ancestor.shorten();
        if is_cut(zone, origin, &ancestor)? {
            return Ok(true);
        }
    }
    Ok(false)
}

/// Whether a name is a zone cut. Refused by `Memory` alone.
fn is_cut(zone: &RecordMap, origin: &LowerName, name: &LowerName) -> Result<bool, ProtoError>
    ensures ok { IfOk result
        (λ is. is ≡ (is_above origin.now name.now && owns zone.now name.now NS)) }
    ensures err { IsOkUnless result ProtoError.Memory }
{
    if is_above(origin, name) {
        let key = RrKey::new(name.clone()?, RecordType::NS);
        Ok(zone.get(&key).is_some())
    } else {
        Ok(false)
    }
}
