//! What the journal of a zone gets of an update.
ghost use Rattle.std.specs.Prelude.{◌≡◌, [], true, IfOk, Some, option_copied};
ghost use Rattle.std.specs.List.{find};
ghost use Rattle.shown_zones.specs.Steps.{step_of};
ghost use Rattle.zone_journal.specs.Journals.{IsPut};
ghost use Rattle.zone_database.specs.Databases.{begins_at, zones_in};
ghost use Rattle.zone_database.specs.Versions.{IsAfterAny};
ghost use Rattle.held_updates.specs.Changing.{IsChangeAbout, IsFrameOf};
ghost use Rattle.held_updates.specs.Journaling.{IsFrameFrom, IsFrameIf, IsJournaled};

use crate::committing::serial_of;
use crate::planned::UpdatedZone;
use shown_zones::{ZoneStep, step_between};
use std::alloc::Global;
use update_in_place::{Changed, step_of};
use zone_database::{NextZone, Zone, ZoneDatabase};
use zone_journal::{EntryFault, push_step};
use zone_proto::{LowerName, Name};

/// The zone of an origin after a change of the one that is there, with the serial of that one and what its journal gets if one is kept. The zones
/// stay as they are. Refused as `write_entry` of `zone_journal` refuses the step from one to the other.
///
/// It costs what the sets cost that change, as [`next_zone`](ZoneDatabase::next_zone) of the database says.
pub(crate) fn changed_zone(
    alloc: Global,
    zones: &mut ZoneDatabase,
    is_kept: bool,
    origin: &LowerName,
    changed: Changed,
) -> Result<UpdatedZone, EntryFault>
    requires { IsChangeAbout origin.now
        (find (begins_at origin.now) (zones_in zones.old)) changed }
    ensures zone { IfOk result (λ updated. IsAfterAny origin.now
        (find (begins_at origin.now) (zones_in zones.old)) changed (Some updated.zone)) }
    ensures journaled { IfOk result
        (IsJournaled is_kept (find (begins_at origin.now) (zones_in zones.old))) }
    ensures same { zones_in zones.new ≡ zones_in zones.old }
{
    let Some(before) = zones.get(origin) else {
        return Err(EntryFault::Unreadable);
    };
    // That the sets are those of a zone is told where they are lent.
    let _sets = before.inner.as_map();
    let Ok(replaces) = serial_of(Some(before)) else {
        return Err(EntryFault::Memory);
    };
    let frame = frame_if_kept(alloc, is_kept, origin, &changed)?;
    match zones.next_zone(alloc, origin, changed) {
        Ok(Some(zone)) => {
            let _sets = zone.zone().inner.as_map();
            Ok(UpdatedZone {
                zone,
                replaces,
                frame,
            })
        }
        Ok(None) => Err(EntryFault::Unreadable),
        Err(_) => Err(EntryFault::Memory),
    }
}

/// What the journal of a zone of an origin gets of a change of its sets, if one is kept, and else no octets. It costs what these sets cost.
///
/// # Errors
///
/// `Unreadable` where a version has no SOA, so that there is no step from one to the other; `Unwritable` where an entry can't have it, as `write_entry`
/// of `zone_journal` refuses it. `Memory` may come in place of either.
pub fn frame_if_kept(
    alloc: Global,
    is_kept: bool,
    origin: &LowerName,
    changed: &Changed,
) -> Result<Vec<u8>, EntryFault>
    ensures { IfOk result
        (λ frame. IsFrameOf is_kept origin.now changed.now frame.items) }
{
    if is_kept {
        frame_of_change(alloc, origin, changed)
    } else {
        Ok(Vec::new(alloc))
    }
}

/// What the journal of a zone of an origin gets of a change.
fn frame_of_change(
    alloc: Global,
    origin: &LowerName,
    changed: &Changed,
) -> Result<Vec<u8>, EntryFault>
    ensures { IfOk result (λ frame. IsFrameOf true origin.now changed.now frame.items) }
{
    let Ok(name) = origin.clone() else {
        return Err(EntryFault::Memory);
    };
    match step_of(alloc, origin, changed) {
        Ok(Some(step)) => {
            let frame = framed(alloc, name, &step)?;
            Ok(frame)
        }
        Ok(None) => Err(EntryFault::Unreadable),
        Err(_) => Err(EntryFault::Memory),
    }
}

/// A zone after an update that was made by itself, with the serial of the one before it and what its journal gets if one is kept; `before` is the
/// zone before it. Refused as `write_entry` of `zone_journal` refuses the step from one to the other.
pub fn journaled(
    alloc: Global,
    is_kept: bool,
    before: Option<&Zone>,
    zone: Zone,
) -> Result<UpdatedZone, EntryFault>
    ensures zone { IfOk result (λ updated. updated.zone ≡ zone) }
    ensures journaled { IfOk result (IsJournaled is_kept (option_copied before.entry)) }
{
    let Ok(replaces) = serial_of(before) else {
        drop(zone);
        return Err(EntryFault::Memory);
    };
    match frame_if(alloc, is_kept, before, &zone) {
        Ok(frame) => Ok(UpdatedZone {
            zone: NextZone::of(zone),
            replaces,
            frame,
        }),
        Err(fault) => {
            drop(zone);
            Err(fault)
        }
    }
}

/// What the journal of a zone gets of the step from one version to another, if one is kept, and else no octets.
fn frame_if(
    alloc: Global,
    is_kept: bool,
    before: Option<&Zone>,
    after: &Zone,
) -> Result<Vec<u8>, EntryFault>
    ensures { IfOk result
        (λ frame. IsFrameIf is_kept (option_copied before.entry) after.now frame.items) }
{
    if !is_kept {
        return Ok(Vec::new(alloc));
    }
    frame_of(alloc, before, after)
}

/// What the journal of a zone gets of the step from one version to another.
fn frame_of(alloc: Global, before: Option<&Zone>, after: &Zone) -> Result<Vec<u8>, EntryFault>
    ensures { IfOk result
        (λ frame. IsFrameFrom (option_copied before.entry) after.now frame.items) }
{
    let Some(before) = before else {
        return Err(EntryFault::Unreadable);
    };
    let (old, new) = (before.inner.record_map(), after.inner.record_map());
    // That they are those of a zone is told where they are lent.
    let _sets = new.as_map();
    let Ok(origin) = after.origin.clone() else {
        return Err(EntryFault::Memory);
    };
    match step_between(alloc, &after.origin, old, new) {
        Ok(Some(step)) => {
            let frame = framed(alloc, origin, &step)?;
            Ok(frame)
        }
        Ok(None) => Err(EntryFault::Unreadable),
        Err(_) => Err(EntryFault::Memory),
    }
}

/// The frame of the entry of a step of the zone of an origin.
fn framed(alloc: Global, origin: LowerName, step: &ZoneStep) -> Result<Vec<u8>, EntryFault>
    ensures { IfOk result (λ frame. IsPut [] frame.items (step_of step.now)) }
{
    let mut frame = Vec::new(alloc);
    push_step(alloc, &Name::from(origin), step, &mut frame)?;
    Ok(frame)
}
