//! Zones after updates, in place of those that were updated.
ghost use Rattle.std.specs.Prelude.{◌≡◌, IfOk, OnErr, option_copied};
ghost use Rattle.zone_database.specs.Databases.{zones_in};
ghost use Rattle.held_updates.specs.Committing.{is_current, Commits};
ghost use Rattle.held_updates.specs.Journaling.{serial_of};

use crate::planned::UpdatedZone;
use std::alloc::{AllocError, Global};
use zone_database::{Zone, ZoneDatabase};
use zone_proto::{LowerName, RecordType, RrKey, first_serial};
use zone_update::same_serial;

/// What came of a zone after an update that was to take the place of the one that was updated.
#[derive(Clone, Copy, PartialEq, Eq, Debug)]
pub enum Commit {
    /// It did.
    Done,
    /// That zone isn't there any more: none is there of its origin, or one with another serial. Nothing changed.
    Overtaken,
}

/// Puts a zone after an update in place of the one that was updated, if that is still there, which its serial tells. Answers that were kept of that
/// one are given up, as by [`update_with_keys`](crate::update_with_keys).
///
/// # Errors
///
/// `AllocError` for want of memory; no zone changes then.
pub fn commit_update(
    alloc: Global,
    zones: &mut ZoneDatabase,
    updated: UpdatedZone,
) -> Result<Commit, AllocError>
    ensures commit { IfOk result (λ commit. Commits updated (zones_in zones.old) commit
        (zones_in zones.new)) }
    ensures same { OnErr result (zones_in zones.new ≡ zones_in zones.old) }
{
    if !is_current(zones, &updated)? {
        drop(updated);
        return Ok(Commit::Overtaken);
    }
    let UpdatedZone { zone, .. } = updated;
    zones.put_next(alloc, zone)?;
    Ok(Commit::Done)
}

/// Whether the zone that was updated is still there.
fn is_current(zones: &ZoneDatabase, updated: &UpdatedZone) -> Result<bool, AllocError>
    ensures { IfOk result (λ is. is ≡ is_current updated.now (zones_in zones.now)) }
{
    let serial = serial_of(zones.get(updated.zone.origin()))?;
    Ok(same_serial(updated.replaces, serial))
}

/// The serial of a zone; none where there is no zone, or it has no SOA. Fails only for lack of memory.
pub fn serial_of(zone: Option<&Zone>) -> Result<Option<u32>, AllocError>
    ensures { IfOk result (λ serial. serial ≡ serial_of (option_copied zone.entry)) }
{
    let Some(zone) = zone else {
        return Ok(None);
    };
    let Ok(origin) = zone.origin.clone() else {
        return Err(AllocError);
    };
    let apex = RrKey::new(origin, RecordType::SOA);
    match zone.inner.get(&apex) {
        Some(soa) => Ok(first_serial(soa.as_slice())),
        None => Ok(None),
    }
}
