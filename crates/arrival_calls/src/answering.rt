//! Messages answered with options from the zones that a handle holds.
ghost use Rattle.std.specs.Prelude.{◌≡◌};
ghost use Rattle.zone_database.specs.Databases.{zones_in};
ghost use Rattle.arrival_calls.specs.ArrivalCalls.{AnswersArrivalHeld, IsArrivalAnswered};

use crate::responding::FromDatabase;
use crate::summary_numbers::{SummaryNumbers, numbers_of};
use call_handles::Handle;
use server_options::{Arrival, ServerOptions, answer_arrival as answer_with_options};
use std::alloc::Global;
use zone_database::calls::FIRST_BUFFER;
use zone_database::{DatabaseHandle, Outcome, ZoneDatabase, give};

/// Answers a message from the zones that a handle holds, as [`answer_arrival`](server_options::answer_arrival) does: writes the response into
/// the room, its length into `written`, and what it was into `summary`.
///
/// `Done` with a response, and `NoRoom` where it is longer than the room: then `written` says how many octets it has. `Ignored` where the
/// message gets no answer, `NoMemory` where no memory is found, and `Closed` where the handle holds no zones: then `written` is 0, and
/// `summary` stays. The room stays as it was after anything but `Done`.
pub(crate) fn answer_arrival(
    alloc: Global,
    zones: &mut DatabaseHandle,
    options: &ServerOptions<'_>,
    arrival: &Arrival<'_>,
    buffer: &mut [u8],
    written: &mut usize,
    summary: &mut SummaryNumbers,
) -> Outcome
    ensures answer { AnswersArrivalHeld options.now arrival.now zones.old.held summary.old result
        written.new buffer.old buffer.new summary.new }
    ensures same { zones.new.held ≡ zones.old.held }
{
    let (outcome, count, told) = answer_held(alloc, zones, options, arrival, buffer, *summary);
    *written = count;
    *summary = told;
    outcome
}

/// The same, with the length of the response and what it was beside how the call ended.
fn answer_held(
    alloc: Global,
    zones: &mut DatabaseHandle,
    options: &ServerOptions<'_>,
    arrival: &Arrival<'_>,
    buffer: &mut [u8],
    before: SummaryNumbers,
) -> (Outcome, usize, SummaryNumbers)
    ensures answer { AnswersArrivalHeld options.now arrival.now zones.old.held before result.0
        result.1 buffer.old buffer.new result.2 }
    ensures same { zones.new.held ≡ zones.old.held }
{
    match zones.take(alloc) {
        Some(database) => {
            let answer = answer_from(alloc, &database, options, arrival, buffer, before);
            zones.put(database);
            answer
        }
        None => (Outcome::Closed, 0, before),
    }
}

/// The same from the zones of a database.
fn answer_from(
    alloc: Global,
    database: &ZoneDatabase,
    options: &ServerOptions<'_>,
    arrival: &Arrival<'_>,
    buffer: &mut [u8],
    before: SummaryNumbers,
) -> (Outcome, usize, SummaryNumbers)
    ensures { IsArrivalAnswered (zones_in database.now) options.now arrival.now before result.0
        result.1 buffer.old buffer.new result.2 }
{
    let Ok(mut out) = Vec::with_capacity(alloc, FIRST_BUFFER) else {
        return (Outcome::NoMemory, 0, before);
    };
    let responder = FromDatabase(database);
    match answer_with_options(alloc, &responder, options, arrival, &mut out) {
        Ok(summary) => {
            if out.is_empty() {
                return (Outcome::Ignored, 0, before);
            }
            let (outcome, count) = give(out.as_slice(), buffer);
            (outcome, count, numbers_of(summary))
        }
        Err(_) => (Outcome::NoMemory, 0, before),
    }
}
