//! The zone that its journal leads to.
ghost use Rattle.std.specs.Prelude.{IfOk};
ghost use Rattle.zone_map.specs.Zones.{set_at};
ghost use Rattle.zone_proto.specs.Types.{SOA};
ghost use Rattle.held_updates.specs.Replaying.{IsBehind, Replays};

use shown_zones::shown;
use std::alloc::Global;
use zone_database::{Zone, zone_of};
use zone_journal::{ReplayFault, journal_from, replayed};
use zone_map::RecordMap;
use zone_proto::{LowerName, ProtoError, RecordType, RrKey};

/// The zone that its journal leads to, as a server begins with it. `zone` is the one of its file, which may have been printed anew since the journal
/// was begun: so what the journal has behind the last entry that leads to the version with its SOA is replayed over it (`journal_from` of
/// `zone_journal`), and all of it where no entry does. Either zone is taken as answers show it (`shown` of `shown_zones`). What stands behind the
/// last whole frame of the journal counts for nothing: it is to be cut off before the next frame is put there (`whole_length` of `journal_frames`).
///
/// # Errors
///
/// `NoEntry` where a whole frame has no entry, `Misfit` where all have one and one of them doesn't fit the zone before it, as where the journal is
/// that of another zone, and `Memory`.
pub fn replayed_zone(alloc: Global, zone: &Zone, journal: &[u8]) -> Result<Zone, ReplayFault>
    ensures { Replays zone.now journal.now result }
{
    let loaded = shown(alloc, zone.inner.record_map())?;
    let rest = behind(alloc, &zone.origin, &loaded, journal)?;
    let after = replayed(alloc, &loaded, rest)?;
    let origin = zone.origin.clone()?;
    // That they are those of a zone is told where they are lent.
    let _sets = after.as_map();
    Ok(zone_of(alloc, origin, after)?)
}

/// What a journal has behind the version of a zone of an origin that has these sets.
fn behind<'j>(
    alloc: Global,
    origin: &LowerName,
    loaded: &RecordMap,
    journal: &'j [u8],
) -> Result<&'j [u8], ProtoError>
    ensures { IfOk result
        (λ rest. IsBehind (set_at loaded.now origin.now SOA) journal.now rest.now) }
{
    let soa = RrKey::new(origin.clone()?, RecordType::SOA);
    match loaded.get(&soa) {
        Some(soa) => journal_from(alloc, soa, journal),
        None => Ok(journal),
    }
}
