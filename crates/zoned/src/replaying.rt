//! Zones that their journals lead to.
ghost use Rattle.std.specs.Prelude.{◌≡◌, IfErr, OnErr, OnOk};
ghost use Rattle.std.specs.List.{find};
ghost use Rattle.zone_database.specs.Databases.{begins_at, zones_in};
ghost use Rattle.zoned.specs.Replays.{IsReplayed, IsUnreplayed};

use held_updates::replayed_zone;
use std::alloc::{AllocError, Global};
use zone_database::ZoneDatabase;
use zone_journal::ReplayFault;
use zone_proto::{LowerName, RecordType, RrKey, first_serial};

/// Puts the zone that its journal leads to in place of the zone of an origin, as `replayed_zone` of `held_updates` makes it, and is refused as that is.
#[tactic(auto, using(crate::proofs::Replayed::no_zone, crate::proofs::Replayed::replayed, crate::proofs::Replayed::unreplayed))]
pub fn replay(
    alloc: Global,
    zones: &mut ZoneDatabase,
    origin: &LowerName,
    journal: &[u8],
) -> Result<(), ReplayFault>
    ensures replayed { OnOk result
        (IsReplayed journal.now (find (begins_at origin.now) (zones_in zones.old))
        (zones_in zones.old) (zones_in zones.new)) }
    ensures refused { IfErr result
        (IsUnreplayed journal.now (find (begins_at origin.now) (zones_in zones.old))) }
    ensures same { OnErr result (zones_in zones.new ≡ zones_in zones.old) }
{
    let Some(zone) = zones.get(origin) else {
        return Ok(());
    };
    match replayed_zone(alloc, zone, journal) {
        Ok(after) => match zones.put(alloc, after) {
            Ok(()) => Ok(()),
            Err(_) => Err(ReplayFault::Memory),
        },
        Err(fault) => Err(fault),
    }
}

/// The serial of the zone of an origin; none where there is no such zone, or it has no SOA. Fails only for lack of memory.
pub fn serial_of(zones: &ZoneDatabase, origin: &LowerName) -> Result<Option<u32>, AllocError> {
    let Some(zone) = zones.get(origin) else {
        return Ok(None);
    };
    let Ok(origin) = origin.clone() else {
        return Err(AllocError);
    };
    let apex = RrKey::new(origin, RecordType::SOA);
    match zone.inner.get(&apex) {
        Some(soa) => Ok(first_serial(soa.as_slice())),
        None => Ok(None),
    }
}
