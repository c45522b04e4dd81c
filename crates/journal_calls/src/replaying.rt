//! Zones that their journals lead to, among those that are kept.
ghost use Rattle.std.specs.Prelude.{◌≡◌, ◌≤◌, length, take};
ghost use Rattle.std.specs.List.{find};
ghost use Rattle.journal_frames.specs.Journals.{whole};
ghost use Rattle.zone_database.specs.Databases.{begins_at, zones_in};
ghost use Rattle.journal_calls.specs.Replays.{fault_told, ReplaysAt, ReplaysHeld, ReplaysNamed};

use crate::outcome::JournalOutcome;
use call_handles::Handle;
use held_updates::replayed_zone;
use journal_frames::whole_length;
use std::alloc::Global;
use zone_database::{DatabaseHandle, Outcome, ZoneDatabase, origin_of};
use zone_journal::ReplayFault;
use zone_proto::LowerName;

/// Puts the zone that its journal leads to in place of the zone of an origin, one of those that a handle holds, as [`replayed_zone`] makes it. Writes
/// how many octets of the journal are whole frames into `intact`: what stands behind them is to be cut off before the next frame is put there.
///
/// `NoZone` where there is no zone of this origin; `NoEntry` where a whole frame of the journal has no entry, and `Misfit` where one doesn't fit the
/// zone before it; `BadName`, `NoMemory` and `Closed` as elsewhere. With all but `Done` the zones stay.
#[tactic(auto, using(crate::proofs::ReplayFacts::replayed_held))]
pub fn replay(
    alloc: Global,
    zones: &mut DatabaseHandle,
    origin: &[u8],
    journal: &[u8],
    intact: &mut usize,
) -> JournalOutcome
    ensures zones { ReplaysHeld origin.now journal.now zones.old.held result zones.new.held }
    ensures intact { take intact.new journal.now ≡ whole journal.now }
    ensures inside { intact.new ≤ length journal.now }
{
    *intact = whole_length(journal);
    match zones.take(alloc) {
        Some(mut database) => {
            let outcome = replay_in(alloc, &mut database, origin, journal);
            zones.put(database);
            outcome
        }
        None => JournalOutcome::Usual(Outcome::Closed),
    }
}

/// The same in the zones of a database.
#[tactic(auto, using(crate::proofs::ReplayFacts::replayed_named, crate::proofs::ReplayFacts::unread))]
fn replay_in(
    alloc: Global,
    database: &mut ZoneDatabase,
    origin: &[u8],
    journal: &[u8],
) -> JournalOutcome
    ensures { ReplaysNamed origin.now journal.now (zones_in database.old) result
        (zones_in database.new) }
{
    match origin_of(alloc, origin) {
        Ok(name) => {
            let origin = LowerName::from(name);
            replay_at(alloc, database, &origin, journal)
        }
        Err(outcome) => JournalOutcome::Usual(outcome),
    }
}

/// The same of the zone of an origin.
#[tactic(auto, using(crate::proofs::ReplayFacts::no_zone, crate::proofs::ReplayFacts::replayed_at, crate::proofs::ReplayFacts::not_put, crate::proofs::ReplayFacts::refused_at))]
fn replay_at(
    alloc: Global,
    database: &mut ZoneDatabase,
    origin: &LowerName,
    journal: &[u8],
) -> JournalOutcome
    ensures { ReplaysAt journal.now (find (begins_at origin.now) (zones_in database.old))
        (zones_in database.old) result (zones_in database.new) }
{
    let Some(zone) = database.get(origin) else {
        return JournalOutcome::Usual(Outcome::NoZone);
    };
    match replayed_zone(alloc, zone, journal) {
        Ok(after) => match database.put(alloc, after) {
            Ok(()) => JournalOutcome::Usual(Outcome::Done),
            Err(_) => JournalOutcome::Usual(Outcome::NoMemory),
        },
        Err(fault) => fault_told(fault),
    }
}

/// How a fault of a journal is told.
fn fault_told(fault: ReplayFault) -> JournalOutcome
    ensures { result ≡ fault_told fault }
{
    match fault {
        ReplayFault::NoEntry => JournalOutcome::NoEntry,
        ReplayFault::Misfit => JournalOutcome::Misfit,
        ReplayFault::Memory => JournalOutcome::Usual(Outcome::NoMemory),
    }
}
