//! Messages answered by keys, from zones that are kept.
ghost use Rattle.std.specs.Prelude.{◌≡◌, ◌⊎◌, Some};
ghost use Rattle.zone_database.specs.Databases.{zones_in};
ghost use Rattle.transfer_calls.specs.Transfers.{AnswersByAccess, AnswersByZones, AnswersKeyed, AnswersMessage, IsGivenBy, TellsAnswer, whole_of};

use crate::access_handle::AccessHandle;
use crate::outcome::TransferOutcome;
use crate::transfer_handle::TransferHandle;
use arrival_calls::ClientMessage;
use call_handles::Handle;
use held_steps::HeldAnswer;
use held_transfers::{HeldTransfer, KeyedAnswer, TransferAccess, answer_with_keys};
use std::alloc::Global;
use zone_database::calls::transport_of;
use zone_database::{DatabaseHandle, Outcome, ZoneDatabase, give};
use zone_server::Transport;

/// Answers a client's message from the zones that a handle holds, by the keys that another holds, as [`answer_with_keys`] does: writes the
/// response into the room, and its length into `written`; or has the handle of the transfer hold a zone that is sent.
///
/// `Unkeyed` where the message has no TSIG and asks for no transfer; `Transfer` where the messages of a zone follow; `NoRoom` where the response
/// is longer than the room: then `written` says how many octets it has. `Ignored`, `NoMemory`, `Closed`, `NoKeys` and `BadTransport` as
/// elsewhere. With all but `Done` the room stays, and with all but `Transfer` what the handle of the transfer holds.
pub fn begin(
    alloc: Global,
    transfer: &mut TransferHandle,
    zones: &mut DatabaseHandle,
    access: &mut AccessHandle,
    message: &ClientMessage<'_>,
    buffer: &mut [u8],
    written: &mut usize,
) -> TransferOutcome
    ensures answer { AnswersMessage zones.old.held access.old.held message.now transfer.old.held
        result written.new buffer.old buffer.new transfer.new.held }
    ensures zones { zones.new.held ≡ zones.old.held }
    ensures access { access.new.held ≡ access.old.held }
{
    match transport_of(message.limit, message.transport) {
        Some(transport) => begin_by(
            alloc, transfer, zones, access, message, transport, buffer, written,
        ),
        None => {
            *written = 0;
            TransferOutcome::Usual(Outcome::BadTransport)
        }
    }
}

/// The same of a message that came by a transport.
#[tactic(auto, using(crate::proofs::CallFacts::by_zones))]
fn begin_by(
    alloc: Global,
    transfer: &mut TransferHandle,
    zones: &mut DatabaseHandle,
    access: &mut AccessHandle,
    message: &ClientMessage<'_>,
    transport: Transport,
    buffer: &mut [u8],
    written: &mut usize,
) -> TransferOutcome
    ensures answer { AnswersByZones zones.old.held access.old.held transport message.now
        transfer.old.held result written.new buffer.old buffer.new transfer.new.held }
    ensures zones { zones.new.held ≡ zones.old.held }
    ensures access { access.new.held ≡ access.old.held }
{
    match zones.take(alloc) {
        Some(database) => {
            let outcome = begin_from(
                alloc, transfer, &database, access, message, transport, buffer, written,
            );
            zones.put(database);
            outcome
        }
        None => {
            *written = 0;
            TransferOutcome::Usual(Outcome::Closed)
        }
    }
}

/// The same from the zones of a database.
#[tactic(auto, using(crate::proofs::CallFacts::by_access))]
fn begin_from(
    alloc: Global,
    transfer: &mut TransferHandle,
    database: &ZoneDatabase,
    access: &mut AccessHandle,
    message: &ClientMessage<'_>,
    transport: Transport,
    buffer: &mut [u8],
    written: &mut usize,
) -> TransferOutcome
    ensures answer { AnswersByAccess access.old.held (zones_in database.now) transport message.now
        transfer.old.held result written.new buffer.old buffer.new transfer.new.held }
    ensures access { access.new.held ≡ access.old.held }
{
    match access.take(alloc) {
        Some(held) => {
            let outcome = begin_with(
                alloc, transfer, database, &held, message, transport, buffer, written,
            );
            access.put(held);
            outcome
        }
        None => {
            *written = 0;
            TransferOutcome::NoKeys
        }
    }
}

/// The same by these keys.
#[tactic(auto, using(crate::proofs::CallFacts::answered, crate::proofs::CallFacts::unanswered))]
fn begin_with(
    alloc: Global,
    transfer: &mut TransferHandle,
    database: &ZoneDatabase,
    access: &TransferAccess,
    message: &ClientMessage<'_>,
    transport: Transport,
    buffer: &mut [u8],
    written: &mut usize,
) -> TransferOutcome
    ensures { AnswersKeyed access.now (zones_in database.now) transport message.now
        transfer.old.held result written.new buffer.old buffer.new transfer.new.held }
{
    let mut out = Vec::new(alloc);
    match answer_with_keys(
        alloc,
        database,
        access,
        message.moment,
        transport,
        message.octets,
        &mut out,
    ) {
        Ok(answer) => tell_answer(alloc, answer, out.as_slice(), transfer, buffer, written),
        Err(_) => {
            *written = 0;
            TransferOutcome::Usual(Outcome::NoMemory)
        }
    }
}

/// Tells an answer, whose octets are there if it is a response.
fn tell_answer(
    alloc: Global,
    answer: KeyedAnswer,
    octets: &[u8],
    transfer: &mut TransferHandle,
    buffer: &mut [u8],
    written: &mut usize,
) -> TransferOutcome
    ensures { TellsAnswer answer octets.now transfer.old.held result written.new buffer.old
        buffer.new transfer.new.held }
{
    match answer {
        KeyedAnswer::Unkeyed => {
            *written = 0;
            TransferOutcome::Unkeyed
        }
        KeyedAnswer::Nothing => {
            *written = 0;
            TransferOutcome::Usual(Outcome::Ignored)
        }
        KeyedAnswer::Response => give_response(octets, buffer, written),
        KeyedAnswer::Transfer(held) => {
            *written = 0;
            put_transfer(alloc, transfer, held)
        }
    }
}

/// Writes a response into the room, unless it is longer than that, and its length.
pub(crate) fn give_response(
    octets: &[u8],
    buffer: &mut [u8],
    written: &mut usize,
) -> TransferOutcome
    ensures { IsGivenBy octets.now result written.new buffer.old buffer.new }
{
    let (outcome, count) = give(octets, buffer);
    *written = count;
    TransferOutcome::Usual(outcome)
}

/// Has a handle hold a transfer, in place of what it holds; `NoMemory` leaves that.
fn put_transfer(alloc: Global, transfer: &mut TransferHandle, held: HeldTransfer) -> TransferOutcome
    ensures { ((result ≡ TransferOutcome.Transfer) × (transfer.new.held ≡ Some (whole_of held)))
        ⊎ ((result ≡ TransferOutcome.Usual Outcome.NoMemory)
        × (transfer.new.held ≡ transfer.old.held)) }
{
    match Box::new(alloc, HeldAnswer::new(held)) {
        Ok(held) => {
            transfer.put(held);
            TransferOutcome::Transfer
        }
        Err(_) => TransferOutcome::Usual(Outcome::NoMemory),
    }
}
