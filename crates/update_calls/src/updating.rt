//! Updates carried out in the zones that are kept.
ghost use Rattle.std.specs.Prelude.{◌≡◌};
ghost use Rattle.zone_database.specs.Databases.{zones_in};
ghost use Rattle.update_calls.specs.Updates.{changed_by, told, IsGivenBy, TellsAnswer, UpdatesByAccess, UpdatesHeld, UpdatesZones};

use crate::handle::UpdatesHandle;
use crate::outcome::UpdateOutcome;
use arrival_calls::ClientMessage;
use call_handles::Handle;
use held_updates::{UpdateAccess, UpdateAnswer, update_with_keys};
use std::alloc::Global;
use zone_database::{DatabaseHandle, Outcome, ZoneDatabase, give};

/// Carries out a client's update in the zones that a handle holds, by the keys and the rules that another holds, as [`update_with_keys`] does:
/// writes the response into the room, its length into `written`, and 1 into `changed` where a zone was replaced, and else 0.
///
/// `NoUpdate` where the message is no update; `NoRoom` where the response is longer than the room: then `written` says how many octets it has, and
/// no zone changes. `NoMemory`, `Closed` and `NoKeys` as elsewhere. With all but `Done` the room and the zones stay.
#[tactic(auto, using(crate::proofs::CallFacts::by_zones))]
pub fn update(
    alloc: Global,
    zones: &mut DatabaseHandle,
    updates: &mut UpdatesHandle,
    message: &ClientMessage<'_>,
    buffer: &mut [u8],
    written: &mut usize,
    changed: &mut u32,
) -> UpdateOutcome
    ensures zones { UpdatesHeld updates.old.held message.now zones.old.held
        (told result written.new buffer.old buffer.new changed.new) zones.new.held }
    ensures same { updates.new.held ≡ updates.old.held }
{
    match zones.take(alloc) {
        Some(mut database) => {
            let outcome = update_in(
                alloc,
                &mut database,
                updates,
                message,
                buffer,
                written,
                changed,
            );
            zones.put(database);
            outcome
        }
        None => {
            *written = 0;
            *changed = 0;
            UpdateOutcome::Usual(Outcome::Closed)
        }
    }
}

/// The same in the zones of a database.
#[tactic(auto, using(crate::proofs::CallFacts::by_access))]
fn update_in(
    alloc: Global,
    database: &mut ZoneDatabase,
    updates: &mut UpdatesHandle,
    message: &ClientMessage<'_>,
    buffer: &mut [u8],
    written: &mut usize,
    changed: &mut u32,
) -> UpdateOutcome
    ensures zones { UpdatesByAccess updates.old.held message.now (zones_in database.old)
        (told result written.new buffer.old buffer.new changed.new) (zones_in database.new) }
    ensures same { updates.new.held ≡ updates.old.held }
{
    match updates.take(alloc) {
        Some(held) => {
            let outcome = update_by(alloc, database, &held, message, buffer, written, changed);
            updates.put(held);
            outcome
        }
        None => {
            *written = 0;
            *changed = 0;
            UpdateOutcome::NoKeys
        }
    }
}

/// The same by these keys and rules.
#[tactic(auto, using(crate::proofs::CallFacts::answered, crate::proofs::CallFacts::unanswered))]
fn update_by(
    alloc: Global,
    database: &mut ZoneDatabase,
    access: &UpdateAccess,
    message: &ClientMessage<'_>,
    buffer: &mut [u8],
    written: &mut usize,
    changed: &mut u32,
) -> UpdateOutcome
    ensures { UpdatesZones access.now message.now (zones_in database.old)
        (told result written.new buffer.old buffer.new changed.new) (zones_in database.new) }
{
    let mut out = Vec::new(alloc);
    let room = buffer.len();
    match update_with_keys(
        alloc,
        database,
        access,
        message.moment,
        room,
        message.octets,
        &mut out,
    ) {
        Ok(answer) => tell_answer(&answer, out.as_slice(), buffer, written, changed),
        Err(_) => {
            *written = 0;
            *changed = 0;
            UpdateOutcome::Usual(Outcome::NoMemory)
        }
    }
}

/// Tells what came of a message, whose response has these octets.
#[tactic(auto, using(crate::proofs::CallFacts::other_told, crate::proofs::CallFacts::refused_told, crate::proofs::CallFacts::same_told, crate::proofs::CallFacts::long_told, crate::proofs::CallFacts::updated_told))]
fn tell_answer(
    answer: &UpdateAnswer,
    octets: &[u8],
    buffer: &mut [u8],
    written: &mut usize,
    changed: &mut u32,
) -> UpdateOutcome
    ensures { TellsAnswer answer.now octets.now
        (told result written.new buffer.old buffer.new changed.new) }
{
    *changed = changed_by(answer);
    match answer {
        UpdateAnswer::Other => {
            *written = 0;
            UpdateOutcome::NoUpdate
        }
        UpdateAnswer::Refused => give_response(octets, buffer, written),
        UpdateAnswer::Unchanged => give_response(octets, buffer, written),
        UpdateAnswer::TooLong => give_response(octets, buffer, written),
        UpdateAnswer::Updated(_) => give_response(octets, buffer, written),
    }
}

/// 1 where a zone was replaced, and else 0.
fn changed_by(answer: &UpdateAnswer) -> u32
    ensures { result ≡ changed_by answer.now }
{
    match answer {
        UpdateAnswer::Updated(_) => 1,
        _ => 0,
    }
}

/// Writes a response into the room, unless it is longer than that, and its length.
fn give_response(octets: &[u8], buffer: &mut [u8], written: &mut usize) -> UpdateOutcome
    ensures { IsGivenBy octets.now result written.new buffer.old buffer.new }
{
    let (outcome, count) = give(octets, buffer);
    *written = count;
    UpdateOutcome::Usual(outcome)
}
