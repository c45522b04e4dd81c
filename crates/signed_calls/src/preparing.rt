//! Updates that are prepared in the zones that are kept, of which one is signed.
ghost use Rattle.std.specs.Prelude.{◌≡◌, None, option_map};
ghost use Rattle.zone_database.specs.Databases.{zones_in};
ghost use Rattle.signed_calls.specs.Preparing.{PreparesByAccess, PreparesGiven, PreparesHeld, PreparesWhole, PreparesZones, rooms};

use crate::asking::{asked_version, hold_version};
use crate::outcome::PrepareOutcome;
use crate::signed_zone::{GivenZone, SignedZone, given};
use crate::telling::tell;
use arrival_calls::ClientMessage;
use call_handles::Handle;
use held_updates::UpdateAccess;
use journal_calls::{JournalOutcome, PlannedHandle};
use plan_calls::{PlanHandle, Signing};
use signed_updates::begin_signed_update;
use std::alloc::Global;
use update_calls::UpdatesHandle;
use zone_database::{DatabaseHandle, Outcome, ZoneDatabase};

/// Carries out a client's update beside its zone, as [`begin`](journal_calls::begin) does; but where it is one of this zone, and that is signed, as
/// [`begin_signed_update`] prepares it. Then the handle of the plan holds the zone after the update, of which the plan's calls hand out what is to
/// be signed, and there are no octets for a journal yet: [`sign`](crate::sign) gives them. What both handles held before is given up. No zone
/// changes.
///
/// With NSEC the update is made in the version of the zone that is to take its place, as [`begin_asked_version`](signed_versions::begin_asked_version)
/// does that, where it changes no more than its names: the plan has the sets that get other signatures alone, and both calls take time by these. Signatures
/// of other sets stay, whenever they end.
///
/// `BadName`, `BadKeys` and `BadDenial` where what is said of the signed zone isn't so, and `Unplanned` where a record of the zone after the
/// update has data that no octets are. `NoUpdate`, `NoRoom`, `NoMemory`, `Closed` and `NoKeys` as there. With all but `Done` the rooms stay, and
/// nothing is held.
#[tactic(auto, using(crate::proofs::PrepareFacts::by_zones))]
pub fn prepare(
    alloc: Global,
    update: &mut PlannedHandle,
    plan: &mut PlanHandle,
    zones: &mut DatabaseHandle,
    updates: &mut UpdatesHandle,
    message: &ClientMessage<'_>,
    zone: &SignedZone<'_>,
    how: &Signing,
    buffer: &mut [u8],
    written: &mut usize,
    frame: &mut [u8],
    frame_written: &mut usize,
) -> PrepareOutcome
    ensures prepared { PreparesHeld updates.old.held message.now zone.now how.now zones.old.held
        result
        (rooms written.new buffer.old buffer.new frame_written.new frame.old frame.new)
        update.new.held plan.new.held }
    ensures zones { option_map zones_in zones.new.held
        ≡ option_map zones_in zones.old.held }
    ensures updates { updates.new.held ≡ updates.old.held }
{
    journal_calls::free(alloc, update);
    plan_calls::calls::free(alloc, plan);
    *written = 0;
    *frame_written = 0;
    match zones.take(alloc) {
        Some(mut database) => {
            let outcome = prepare_in(
                alloc,
                update,
                plan,
                &mut database,
                updates,
                message,
                zone,
                how,
                buffer,
                written,
                frame,
                frame_written,
            );
            zones.put(database);
            outcome
        }
        None => PrepareOutcome::Update(JournalOutcome::Usual(Outcome::Closed)),
    }
}

/// The same in the zones of a database.
#[tactic(auto, using(crate::proofs::PrepareFacts::by_access))]
fn prepare_in(
    alloc: Global,
    update: &mut PlannedHandle,
    plan: &mut PlanHandle,
    database: &mut ZoneDatabase,
    updates: &mut UpdatesHandle,
    message: &ClientMessage<'_>,
    zone: &SignedZone<'_>,
    how: &Signing,
    buffer: &mut [u8],
    written: &mut usize,
    frame: &mut [u8],
    frame_written: &mut usize,
) -> PrepareOutcome
    requires update { update.old.held ≡ None }
    requires plan { plan.old.held ≡ None }
    requires written { written.old ≡ 0 }
    requires frame_written { frame_written.old ≡ 0 }
    ensures prepared { PreparesByAccess updates.old.held message.now zone.now how.now
        (zones_in database.old) result
        (rooms written.new buffer.old buffer.new frame_written.new frame.old frame.new)
        update.new.held plan.new.held }
    ensures updates { updates.new.held ≡ updates.old.held }
    ensures same { zones_in database.new ≡ zones_in database.old }
{
    match updates.take(alloc) {
        Some(held) => {
            let outcome = prepare_by(
                alloc,
                update,
                plan,
                database,
                &held,
                message,
                zone,
                how,
                buffer,
                written,
                frame,
                frame_written,
            );
            updates.put(held);
            outcome
        }
        None => PrepareOutcome::Update(JournalOutcome::NoKeys),
    }
}

/// The same by these keys and rules.
#[tactic(auto, using(crate::proofs::PrepareFacts::by_given, crate::proofs::PrepareFacts::not_given))]
fn prepare_by(
    alloc: Global,
    update: &mut PlannedHandle,
    plan: &mut PlanHandle,
    database: &mut ZoneDatabase,
    access: &UpdateAccess,
    message: &ClientMessage<'_>,
    zone: &SignedZone<'_>,
    how: &Signing,
    buffer: &mut [u8],
    written: &mut usize,
    frame: &mut [u8],
    frame_written: &mut usize,
) -> PrepareOutcome
    requires update { update.old.held ≡ None }
    requires plan { plan.old.held ≡ None }
    requires written { written.old ≡ 0 }
    requires frame_written { frame_written.old ≡ 0 }
    ensures prepared { PreparesGiven access.now message.now zone.now how.now
        (zones_in database.old) result
        (rooms written.new buffer.old buffer.new frame_written.new frame.old frame.new)
        update.new.held plan.new.held }
    ensures same { zones_in database.new ≡ zones_in database.old }
{
    match given(alloc, zone, how) {
        Ok(given) => prepare_given(
            alloc,
            update,
            plan,
            database,
            access,
            message,
            given,
            buffer,
            written,
            frame,
            frame_written,
        ),
        Err(outcome) => PrepareOutcome::Plan(outcome),
    }
}

/// The same where the signed zone of this origin is signed so.
#[tactic(auto, using(crate::proofs::PrepareFacts::was_asked, crate::proofs::PrepareFacts::unasked, crate::proofs::PrepareFacts::unmade))]
fn prepare_given(
    alloc: Global,
    update: &mut PlannedHandle,
    plan: &mut PlanHandle,
    database: &mut ZoneDatabase,
    access: &UpdateAccess,
    message: &ClientMessage<'_>,
    given: GivenZone,
    buffer: &mut [u8],
    written: &mut usize,
    frame: &mut [u8],
    frame_written: &mut usize,
) -> PrepareOutcome
    requires update { update.old.held ≡ None }
    requires plan { plan.old.held ≡ None }
    requires written { written.old ≡ 0 }
    requires frame_written { frame_written.old ≡ 0 }
    ensures prepared { PreparesZones access.now given.origin given.signing message.now
        (zones_in database.old) result
        (rooms written.new buffer.old buffer.new frame_written.new frame.old frame.new)
        update.new.held plan.new.held }
    ensures same { zones_in database.new ≡ zones_in database.old }
{
    let mut out = Vec::new(alloc);
    match asked_version(alloc, database, access, &given, message, &mut out) {
        Ok(Some(version)) => hold_version(
            alloc,
            update,
            plan,
            version,
            out.as_slice(),
            buffer,
            written,
            frame,
            frame_written,
        ),
        Ok(None) => prepare_whole(
            alloc,
            update,
            plan,
            database,
            access,
            message,
            given,
            buffer,
            written,
            frame,
            frame_written,
        ),
        Err(_) => PrepareOutcome::Update(JournalOutcome::Usual(Outcome::NoMemory)),
    }
}

/// The same of the whole zone.
#[tactic(auto, using(crate::proofs::PrepareFacts::was_begun, crate::proofs::PrepareFacts::unbegun))]
fn prepare_whole(
    alloc: Global,
    update: &mut PlannedHandle,
    plan: &mut PlanHandle,
    database: &mut ZoneDatabase,
    access: &UpdateAccess,
    message: &ClientMessage<'_>,
    given: GivenZone,
    buffer: &mut [u8],
    written: &mut usize,
    frame: &mut [u8],
    frame_written: &mut usize,
) -> PrepareOutcome
    requires update { update.old.held ≡ None }
    requires plan { plan.old.held ≡ None }
    requires written { written.old ≡ 0 }
    requires frame_written { frame_written.old ≡ 0 }
    ensures prepared { PreparesWhole access.now given.origin given.signing message.now
        (zones_in database.old) result
        (rooms written.new buffer.old buffer.new frame_written.new frame.old frame.new)
        update.new.held plan.new.held }
    ensures same { zones_in database.new ≡ zones_in database.old }
{
    let GivenZone { origin, signing } = given;
    let mut out = Vec::new(alloc);
    match begin_signed_update(
        alloc,
        database,
        access,
        &origin,
        signing,
        message.moment,
        true,
        message.octets,
        &mut out,
    ) {
        Ok(begun) => tell(
            alloc,
            update,
            plan,
            origin,
            begun,
            out.as_slice(),
            buffer,
            written,
            frame,
            frame_written,
        ),
        Err(_) => PrepareOutcome::Update(JournalOutcome::Usual(Outcome::NoMemory)),
    }
}
