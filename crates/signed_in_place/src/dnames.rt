//! Sets that a change of a zone has where they meet a DNAME (RFC 6672 section 2.4).
ghost use Rattle.std.specs.Prelude.{◌≡◌, ◌==◌, IfOk, IsOkUnless};
ghost use Rattle.std.specs.List.{list_any};
ghost use Rattle.std.specs.Map.{keys_of};
ghost use Rattle.zone_proto.specs.Names.{is_at_or_above};
ghost use Rattle.zone_proto.specs.Types.{DNAME};
ghost use Rattle.signed_in_place.specs.InPlace.{is_below_dname, meets_dname, owns_dname};

use crate::locality::owns;
use zone_map::RecordMap;
use zone_proto::{LowerName, ProtoError, RecordType, RrKey};

/// Whether one of these sets meets a DNAME in the zone of an origin. Refused by `Memory` alone.
pub fn meet_dname(
    origin: &LowerName,
    zone: &RecordMap,
    sets: &RecordMap,
) -> Result<bool, ProtoError>
    ensures ok { IfOk result
        (λ meet. meet ≡ list_any (meets_dname origin.now zone.now) (keys_of sets.now)) }
    ensures err { IsOkUnless result ProtoError.Memory }
{
    for (key, _) in sets.iter() {
        if meets_dname(origin, zone, key)? {
            return Ok(true);
        }
    }
    Ok(false)
}

/// Whether the set under a key meets a DNAME: it is one where the zone has none, or stands below one of the zone. Refused by `Memory` alone.
fn meets_dname(origin: &LowerName, zone: &RecordMap, key: &RrKey) -> Result<bool, ProtoError>
    ensures ok { IfOk result (λ meets. meets ≡ meets_dname origin.now zone.now key.now) }
    ensures err { IsOkUnless result ProtoError.Memory }
{
    let stood = owns(zone, &key.name, RecordType::DNAME)?;
    let below = is_below_dname(origin, zone, &key.name)?;
    Ok((is_dname(key.record_type) && !stood) || below)
}

/// Whether a type is DNAME.
fn is_dname(record_type: RecordType) -> bool
    ensures { result ≡ (record_type.0 == DNAME) }
{
    record_type == RecordType::DNAME
}

/// Whether a name stands below a DNAME of the zone of an origin: it costs what the names above it cost. Refused by `Memory` alone.
#[tactic(auto, using(crate::proofs::BelowDnames::next_dname, crate::proofs::BelowDnames::at_dname))]
fn is_below_dname(
    origin: &LowerName,
    zone: &RecordMap,
    name: &LowerName,
) -> Result<bool, ProtoError>
    ensures ok { IfOk result (λ is. is ≡ is_below_dname origin.now zone.now name.now) }
    ensures err { IsOkUnless result ProtoError.Memory }
{
    let mut ancestor = name.clone()?;
    while !ancestor.is_root() {
        ancestor.shorten();
        if owns_dname(origin, zone, &ancestor)? {
            return Ok(true);
        }
    }
    Ok(false)
}

/// Whether a name of the zone of an origin owns a DNAME. Refused by `Memory` alone.
fn owns_dname(origin: &LowerName, zone: &RecordMap, name: &LowerName) -> Result<bool, ProtoError>
    ensures ok { IfOk result (λ owns. owns ≡ owns_dname origin.now zone.now name.now) }
    ensures err { IsOkUnless result ProtoError.Memory }
{
    if !is_at_or_above(origin, name) {
        return Ok(false);
    }
    let owns = owns(zone, name, RecordType::DNAME)?;
    Ok(owns)
}

/// Whether a name is at or above another.
fn is_at_or_above(ancestor: &LowerName, name: &LowerName) -> bool
    ensures { result ≡ is_at_or_above ancestor.now name.now }
{
    ancestor.zone_of(name)
}
