//! A version of a zone that another one replaced: the next change brings it up to date, so that the zone isn't copied.
ghost use Rattle.std.specs.Prelude.{◌≡◌, IfOk, IfSome, IsOkUnless};
ghost use Rattle.zone_map.specs.Zones.{Sets};
ghost use Rattle.zone_database.specs.Versions.{LeadsIfAny, LeadsTo};

use crate::zone::Zone;
use std::alloc::Global;
use std::sync::Arc;
use update_in_place::{Changed, carry_out};
use zone_difference::copied;
use zone_map::RecordMap;
use zone_proto::ProtoError;

/// A version of a zone, and the change that leads from it to the one that took its place.
#[derive(Drop)]
pub(crate) struct Version {
    /// The zone, which others may share.
    pub(crate) zone: Arc<Zone>,
    /// The change.
    pub(crate) change: Changed,
}

/// The sets of a zone once more: those of the version before it, `spare`, brought up to date, or copies where none is kept that nobody else has.
///
/// Where nobody else has that version, it costs what the change cost that led from it to the zone, whatever else the zone has; else it costs a copy of
/// the zone. Refused by `Memory` alone.
pub(crate) fn same_sets(
    alloc: Global,
    spare: Option<Version>,
    zone: &RecordMap,
) -> Result<RecordMap, ProtoError>
    requires { LeadsIfAny zone.now spare }
    ensures same { IfOk result (λ sets. sets ≡ zone.now) }
    ensures err { IsOkUnless result ProtoError.Memory }
{
    match spare {
        Some(version) => same_as_led(alloc, version, zone),
        None => copied(alloc, zone),
    }
}

/// The same where a version is kept that leads to the zone.
fn same_as_led(alloc: Global, version: Version, zone: &RecordMap) -> Result<RecordMap, ProtoError>
    requires { LeadsTo zone.now version }
    ensures same { IfOk result (λ sets. sets ≡ zone.now) }
    ensures err { IsOkUnless result ProtoError.Memory }
{
    match brought_up(alloc, version) {
        Some(sets) => Ok(sets),
        None => copied(alloc, zone),
    }
}

/// The sets to which a version leads; none where others have it too, or memory runs out.
fn brought_up(alloc: Global, version: Version) -> Option<RecordMap>
    requires { (m : Sets) × LeadsTo m version }
    ensures { IfSome result (λ sets. (m : Sets) → LeadsTo m version → sets ≡ m) }
{
    let Version { zone, change } = version;
    let Ok(zone) = Arc::try_unwrap(zone) else {
        return None;
    };
    let Zone { inner, .. } = zone;
    let mut records = inner.into_record_map();
    match carry_out(alloc, &mut records, &change) {
        Ok(()) => Some(records),
        Err(_) => None,
    }
}
