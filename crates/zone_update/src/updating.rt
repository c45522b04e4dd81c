//! An update of a zone (RFC 2136 section 3).
ghost use Rattle.std.specs.Prelude.{◌≡◌, true, false, IfOk, IfSome, IsOkUnless};
ghost use Rattle.std.specs.Option.{IfNone};
ghost use Rattle.zone_map.specs.Zones.{Sets};
ghost use Rattle.zone_update.specs.Entries.{Gives, listed};
ghost use Rattle.zone_update.specs.Changes.{changes_of};
ghost use Rattle.zone_update.specs.Updates.{course_of, finished, run, serial_before, updated, GivesChanged};

use crate::change::{Change, change_of};
use crate::entry::{Entry, Update};
use crate::prerequisites::meet;
use crate::processing::process;
use crate::refusal::Refusal;
use crate::serials::{finished, zone_serial};
use std::alloc::Global;
use zone_difference::copied;
use zone_map::RecordMap;
use zone_proto::{LowerName, ProtoError, RecordType, RrKey};

/// The sets of the zone of an origin after an update. Those that it has are only read, so a refusal leaves nothing to undo.
///
/// The prerequisites are looked at (RFC 2136 section 3.2), then all records of the update section (section 3.4.1), and then the
/// changes are made in order (section 3.4.2), on a copy. Where they change anything and leave the serial of the SOA as it was, that
/// goes on by one (section 3.6). Sets that change lose their signatures; denials stay as they are, and are to be made anew.
///
/// # Errors
///
/// The first of these. For a prerequisite, in their order: `FormErr` where its TTL isn't 0, its class is none of the zone's, ANY and
/// NONE, or it has data where there are to be none or none where there are to be some; `NotZone` where its name isn't at or below the
/// origin; and `NXDomain`, `YXDomain`, `NXRRSet` or `YXRRSet` where the zone isn't as it says (section 3.2). `NXRRSet` where a set whose
/// records are named hasn't just these. For a record of the update section, in their order: `NotZone`, `FormErr` for its class, TTL,
/// type or data (section 3.4.1), and `Refused` for the sets that follow from others: NSEC, NSEC3, NSEC3PARAM and RRSIG. `Memory` where
/// none is found, in place of any of these.
pub fn updated(
    alloc: Global,
    origin: &LowerName,
    zone: &RecordMap,
    update: Update,
) -> Result<RecordMap, Refusal>
    ensures { Gives result
        (updated origin.now zone.now update.prerequisites.items update.changes.items) }
{
    let Update {
        prerequisites,
        changes,
    } = update;
    if let Err(refusal) = meet(alloc, origin, zone.as_map(), prerequisites) {
        return Err(refusal);
    }
    let changes = match changes_of(alloc, origin, changes) {
        Ok(changes) => changes,
        Err(refusal) => return Err(refusal),
    };
    match changed(alloc, origin, zone, changes) {
        Ok(records) => Ok(records),
        Err(_) => Err(Refusal::Memory),
    }
}

/// The sets of the zone of an origin once the changes of an update are made, with the serial that they leave: as [`updated`] makes them, but
/// that the serial doesn't go on by itself. None where nothing changes. So who signs the zone anew, with the next serial, begins.
///
/// # Errors
///
/// Those of [`updated`].
pub fn changed_sets(
    alloc: Global,
    origin: &LowerName,
    zone: &RecordMap,
    update: Update,
) -> Result<Option<RecordMap>, Refusal>
    ensures { GivesChanged result
        (course_of origin.now zone.now update.prerequisites.items update.changes.items) }
{
    let Update {
        prerequisites,
        changes,
    } = update;
    if let Err(refusal) = meet(alloc, origin, zone.as_map(), prerequisites) {
        return Err(refusal);
    }
    let changes = match changes_of(alloc, origin, changes) {
        Ok(changes) => changes,
        Err(refusal) => return Err(refusal),
    };
    match run_beside(alloc, origin, zone, changes) {
        Ok(after) => Ok(after),
        Err(_) => Err(Refusal::Memory),
    }
}

/// What all records of the update section ask for, or the first refusal.
fn changes_of(
    alloc: Global,
    origin: &LowerName,
    entries: Vec<Entry>,
) -> Result<Vec<Change>, Refusal>
    ensures { Gives (listed result) (changes_of origin.now entries.items) }
{
    let mut changes = Vec::with_capacity(alloc, entries.len())?;
    for entry in entries {
        match change_of(origin, entry) {
            Ok(change) => changes.push(change)?,
            Err(refusal) => return Err(refusal),
        }
    }
    Ok(changes)
}

/// The sets with all changes made, and with the serial that they want.
fn changed(
    alloc: Global,
    origin: &LowerName,
    zone: &RecordMap,
    changes: Vec<Change>,
) -> Result<RecordMap, ProtoError>
    ensures ok { IfOk result (λ after. after
        ≡ finished origin.now zone.now
        (run origin.now (serial_before origin.now zone.now)
        (record { sets = zone.now; changed = false }) changes.items)) }
    ensures err { IsOkUnless result ProtoError.Memory }
{
    let apex = RrKey::new(origin.clone()?, RecordType::SOA);
    let serial = zone_serial(zone.as_map(), &apex).unwrap_or(0);
    let mut records = copied(alloc, zone)?;
    if run(alloc, &mut records, origin, serial, changes)? {
        return finished(origin, zone, records);
    }
    Ok(records)
}

/// The sets with all changes made, beside those of the zone; none where nothing changes.
fn run_beside(
    alloc: Global,
    origin: &LowerName,
    zone: &RecordMap,
    changes: Vec<Change>,
) -> Result<Option<RecordMap>, ProtoError>
    ensures some { IfOk result (λ found. IfSome found (λ after.
        run origin.now (serial_before origin.now zone.now)
        (record { sets = zone.now; changed = false }) changes.items
        ≡ record { sets = after; changed = true })) }
    ensures none { IfOk result (λ found. IfNone found
        ((s : Sets)
        × (run origin.now (serial_before origin.now zone.now)
        (record { sets = zone.now; changed = false }) changes.items
        ≡ record { sets = s; changed = false }))) }
    ensures err { IsOkUnless result ProtoError.Memory }
{
    let apex = RrKey::new(origin.clone()?, RecordType::SOA);
    let serial = zone_serial(zone.as_map(), &apex).unwrap_or(0);
    let mut records = copied(alloc, zone)?;
    if run(alloc, &mut records, origin, serial, changes)? {
        return Ok(Some(records));
    }
    Ok(None)
}

/// Makes the changes in order, and tells whether they changed anything. Where it is refused, by `Memory`, some are made.
fn run(
    alloc: Global,
    records: &mut RecordMap,
    origin: &LowerName,
    serial: u32,
    changes: Vec<Change>,
) -> Result<bool, ProtoError>
    ensures ok { IfOk result (λ changed. record { sets = records.new; changed = changed }
        ≡ run origin.now serial (record { sets = records.old; changed = false }) changes.items) }
    ensures err { IsOkUnless result ProtoError.Memory }
{
    let mut changed = false;
    for change in changes {
        changed |= process(alloc, records, origin, serial, change)?;
    }
    Ok(changed)
}
