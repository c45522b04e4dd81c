//! Signatures put into an update of a signed zone that was prepared.
ghost use Rattle.std.specs.Prelude.{◌≡◌, IfErr, IfOk, OnOk, Some};
ghost use Rattle.std.specs.List.{find};
ghost use Rattle.zone_map.specs.Renewals.{with_signatures};
ghost use Rattle.zone_planning.specs.Filling.{filled};
ghost use Rattle.zone_database.specs.Databases.{begins_at, zones_in};
ghost use Rattle.zone_database.specs.Zones.{zone_of_records};
ghost use Rattle.held_updates.specs.Journaling.{IsJournaled};
ghost use Rattle.signed_updates.specs.Finishing.{IsCurrent, IsUnfinished};

use held_updates::{UpdatedZone, journaled, zone_after};
use std::alloc::Global;
use update_denials::{CommitFault, Prepared, Uncommitted, commit};
use zone_database::{Zone, ZoneDatabase};
use zone_journal::EntryFault;
use zone_map::RecordMap;
use zone_proto::{LowerName, Seq};

/// Why an update that was prepared isn't finished.
#[derive(Drop)]
pub enum Unfinished {
    /// The signatures aren't put in: the zone that was updated isn't there any more, which its serial tells; they don't fit; or no memory was
    /// found. What was prepared is handed back.
    Uncommitted(Uncommitted),
    /// A journal can't take the change, or no memory was found for it. The update is given up.
    Unjournaled(EntryFault),
}

/// The zone of an origin after an update that was prepared, with these signatures in the places of the blank ones, in order; the zones of the database
/// are only read. `commit_update` of `held_updates` has it take its place.
///
/// Where journals are kept, `is_kept`, it comes with the frame that the journal of the zone gets before: of the whole step, with signatures and
/// denials.
///
/// # Errors
///
/// `Uncommitted` with `Overtaken` where the zone isn't there any more or has another serial than the one that was updated; then with
/// `Signatures` for signatures that don't fit, as `finish` of `zone_planning` says. Then `Unjournaled` where a journal can't take the
/// change: `write_entry` of `zone_journal` refuses it. Each may come of a want of memory.
pub fn finish_signed_update(
    alloc: Global,
    zones: &ZoneDatabase,
    origin: LowerName,
    prepared: Prepared,
    signatures: &[Seq<u8>],
    is_kept: bool,
) -> Result<UpdatedZone, Unfinished>
    ensures zone { IfOk result (λ u. u.zone
        ≡ zone_of_records origin
        (with_signatures prepared.plan.records (filled prepared.plan.records signatures.now))) }
    ensures journaled { IfOk result
        (IsJournaled is_kept (find (begins_at origin) (zones_in zones.now))) }
    ensures current { OnOk result
        (IsCurrent origin prepared (find (begins_at origin) (zones_in zones.now))) }
    ensures fault { IfErr result
        (IsUnfinished origin (find (begins_at origin) (zones_in zones.now))
        prepared signatures.now) }
{
    let Some(before) = zones.get(&origin) else {
        return Err(Unfinished::Uncommitted(Uncommitted {
            prepared,
            fault: CommitFault::Overtaken,
        }));
    };
    match commit(
        alloc,
        &origin,
        before.inner.record_map(),
        prepared,
        signatures,
    ) {
        Ok(after) => match updated_zone(alloc, origin, before, after, is_kept) {
            Ok(updated) => Ok(updated),
            Err(fault) => Err(Unfinished::Unjournaled(fault)),
        },
        Err(uncommitted) => Err(Unfinished::Uncommitted(uncommitted)),
    }
}

/// The zone of an origin with these sets after an update of another, and what the journal of the zone gets. Refused as `write_entry` of
/// `zone_journal` refuses the step from one to the other.
fn updated_zone(
    alloc: Global,
    origin: LowerName,
    before: &Zone,
    after: RecordMap,
    is_kept: bool,
) -> Result<UpdatedZone, EntryFault>
    ensures zone { IfOk result (λ u. u.zone ≡ zone_of_records origin after) }
    ensures journaled { IfOk result (IsJournaled is_kept (Some before.now)) }
{
    match zone_after(alloc, origin, after) {
        Ok(zone) => journaled(alloc, is_kept, Some(before), zone),
        Err(_) => Err(EntryFault::Memory),
    }
}
