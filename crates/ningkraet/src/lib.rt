//! The zones of a server for programs that aren't written in Rattle: what `include/ningkraet.h` declares, each by one call of
//! `zone_database`, `arrival_calls`, `transfer_calls`, `update_calls`, `journal_calls`, `notify_calls`, `expiry_calls`, `plan_calls`, `signed_calls`,
//! `file_calls` or `text_calls`. C passes no allocator; to C a slice is a pointer and a length, and a `&mut` a pointer.
#![tactic(auto)]

ghost use Rattle.std.specs.Prelude.{◌≡◌, ◌≤◌, [], None, Some, length, option_map, take};
ghost use Rattle.journal_frames.specs.Journals.{whole};
ghost use Rattle.arrival_calls.specs.ArrivalCalls.{AnswersClient};
ghost use Rattle.zone_database.specs.Calls.{transport_of, AnswersHeld, AsksHeld, ChangesHeld, IsAdded, IsCreated, IsDropped, IsLoaded, IsPrepared, IsSerial, IsReported};
ghost use Rattle.zone_database.specs.Databases.{zones_in};
ghost use Rattle.zone_database.specs.Outcomes.{code_of, Codes};
ghost use Rattle.transfer_calls.specs.Accesses.{AllowsHeld, ReadsAccess};
ghost use Rattle.transfer_calls.specs.Outcomes.{Codes as TransferCodes};
ghost use Rattle.transfer_calls.specs.Steps.{BeginsSteps, NotesHeld, ShortensHeld};
ghost use Rattle.transfer_calls.specs.Transfers.{AnswersMessage, GivesMessage};
ghost use Rattle.update_calls.specs.Accesses.{ReadsAccess as ReadsUpdates, RulesHeld, TellsFault};
ghost use Rattle.update_calls.specs.Outcomes.{Codes as UpdateCodes};
ghost use Rattle.journal_calls.specs.Outcomes.{Codes as JournalCodes};
ghost use Rattle.journal_calls.specs.Plans.{plan_told, CommitsHeld, PlansHeld};
ghost use Rattle.journal_calls.specs.Replays.{ReplaysHeld};
ghost use Rattle.update_calls.specs.Updates.{told, UpdatesHeld};
ghost use Rattle.message_notify.specs.Notifies.{response_of};
ghost use Rattle.notify_calls.specs.NotifyCalls.{ReadsResponse, WritesNotify};
ghost use Rattle.expiry_calls.specs.Expiry.{Expires};

pub mod plans;
pub mod signed;
pub mod zone_files;

use arrival_calls::{ClientMessage, ServerSettings, SummaryNumbers, answer_client};
use journal_calls::PlannedHandle;
use notify_calls::calls as notifies;
use std::alloc::Global;
use transfer_calls::{AccessHandle, StepsHandle, TransferHandle};
use update_calls::{RuleTexts, UpdatesHandle};
use zone_database::{DatabaseHandle, calls};

/// The number of the interface. It grows where a call or a code changes or goes.
#[unsafe(no_mangle)]
pub extern "C" fn nk_interface() -> u32
    ensures { result ≡ 1 }
{
    1
}

/// Makes a database without zones in place of what is kept.
#[unsafe(no_mangle)]
pub extern "C" fn nk_zones_new(alloc: Global, zones: &mut DatabaseHandle) -> u32
    ensures { Codes result (λ o. IsCreated [] zones.old.held o zones.new.held) }
{
    calls::create(alloc, zones).code()
}

/// Has another hold the same zones, in place of what it holds. They are in memory once, and each of the two has others
/// put in and taken out by itself.
#[unsafe(no_mangle)]
pub extern "C" fn nk_zones_copy(
    alloc: Global,
    zones: &mut DatabaseHandle,
    other: &mut DatabaseHandle,
) -> u32
    ensures copied { Codes result (λ o.
        AsksHeld (λ zs end. IsCreated zs other.old.held end other.new.held)
        (other.new.held ≡ other.old.held) zones.old.held o) }
    ensures same { zones.new.held ≡ zones.old.held }
{
    calls::copy(alloc, zones, other).code()
}

/// Gives the memory of what is kept back. Nothing is kept then.
#[unsafe(no_mangle)]
pub extern "C" fn nk_zones_free(alloc: Global, zones: &mut DatabaseHandle)
    ensures { zones.new.held ≡ None }
{
    calls::free(alloc, zones)
}

/// Puts the zone that a text makes in place of the one of its origin, or among the others, and writes what is reported
/// about the text into the room.
#[unsafe(no_mangle)]
pub extern "C" fn nk_zones_load(
    alloc: Global,
    zones: &mut DatabaseHandle,
    origin: &[u8],
    text: &[u8],
    buffer: &mut [u8],
    written: &mut usize,
) -> u32
    ensures { Codes result (λ o.
        ChangesHeld (IsLoaded origin.now text.now) zones.old.held o zones.new.held
        × IsReported o written.new buffer.old buffer.new) }
{
    calls::load(alloc, zones, origin, text, buffer, written).code()
}

/// Puts the zone that a text makes among the others, unless there is one of its origin, and writes what is reported
/// about the text into the room.
#[unsafe(no_mangle)]
pub extern "C" fn nk_zones_add(
    alloc: Global,
    zones: &mut DatabaseHandle,
    origin: &[u8],
    text: &[u8],
    buffer: &mut [u8],
    written: &mut usize,
) -> u32
    ensures { Codes result (λ o.
        ChangesHeld (IsAdded origin.now text.now) zones.old.held o zones.new.held
        × IsReported o written.new buffer.old buffer.new) }
{
    calls::add(alloc, zones, origin, text, buffer, written).code()
}

/// Takes the zone of an origin out.
#[unsafe(no_mangle)]
pub extern "C" fn nk_zones_drop(alloc: Global, zones: &mut DatabaseHandle, origin: &[u8]) -> u32
    ensures { Codes result (λ o.
        ChangesHeld (IsDropped origin.now) zones.old.held o zones.new.held) }
{
    calls::remove(alloc, zones, origin).code()
}

/// Has the zone of an origin expire: until it is loaded again, it fails.
#[unsafe(no_mangle)]
pub extern "C" fn nk_zones_expire(alloc: Global, zones: &mut DatabaseHandle, origin: &[u8]) -> u32
    ensures { Codes result (λ o.
        ChangesHeld (Expires origin.now) zones.old.held o zones.new.held) }
{
    expiry_calls::expire(alloc, zones, origin).code()
}

/// Keeps the answers that the zone of an origin gives most, as the octets that go out. No zone and no answer changes.
#[unsafe(no_mangle)]
pub extern "C" fn nk_zones_prepare(alloc: Global, zones: &mut DatabaseHandle, origin: &[u8]) -> u32
    ensures { Codes result (λ o.
        ChangesHeld (IsPrepared origin.now) zones.old.held o zones.new.held) }
{
    calls::prepare(alloc, zones, origin).code()
}

/// Writes the serial of the zone of an origin.
#[unsafe(no_mangle)]
pub extern "C" fn nk_zones_serial(
    alloc: Global,
    zones: &mut DatabaseHandle,
    origin: &[u8],
    serial: &mut u32,
) -> u32
    ensures serial { Codes result (λ o.
        AsksHeld (IsSerial origin.now serial.old serial.new) (serial.new ≡ serial.old)
        zones.old.held o) }
    ensures same { zones.new.held ≡ zones.old.held }
{
    calls::serial(alloc, zones, origin, serial).code()
}

/// Answers a message from the zones, and writes the response into the room. No zone is signed here, so nothing depends on the moment.
#[unsafe(no_mangle)]
pub extern "C" fn nk_zones_answer(
    alloc: Global,
    zones: &mut DatabaseHandle,
    _now: u64,
    query: &[u8],
    limit: usize,
    transport: u32,
    buffer: &mut [u8],
    written: &mut usize,
) -> u32
    ensures answer { Codes result (λ o.
        AnswersHeld (transport_of limit transport) query.now zones.old.held o written.new
        buffer.old buffer.new) }
    ensures same { zones.new.held ≡ zones.old.held }
{
    calls::answer(alloc, zones, query, limit, transport, buffer, written).code()
}

/// Answers a client's message from the zones, with options of EDNS, writes the response into the room, and writes what it was.
#[unsafe(no_mangle)]
pub extern "C" fn nk_zones_answer_client(
    alloc: Global,
    zones: &mut DatabaseHandle,
    settings: &ServerSettings<'_>,
    message: &ClientMessage<'_>,
    buffer: &mut [u8],
    written: &mut usize,
    summary: &mut SummaryNumbers,
) -> u32
    ensures answer { Codes result (λ o. AnswersClient settings.now message.now zones.old.held
        summary.old o written.new buffer.old buffer.new summary.new) }
    ensures same { zones.new.held ≡ zones.old.held }
{
    answer_client(alloc, zones, settings, message, buffer, written, summary).code()
}

/// Has another hold the keys of a text, in place of what it holds; nobody may have a zone then. Writes what is wrong with a text that is
/// refused into the room.
#[unsafe(no_mangle)]
pub extern "C" fn nk_zones_keys(
    alloc: Global,
    access: &mut AccessHandle,
    text: &[u8],
    buffer: &mut [u8],
    written: &mut usize,
) -> u32
    ensures { Codes result (λ o. ReadsAccess text.now access.old.held o access.new.held
        × IsReported o written.new buffer.old buffer.new) }
{
    transfer_calls::read_access(alloc, access, text, buffer, written).code()
}

/// Lets those have the zone of an origin who have the key of a name, or anybody where the name has no octets.
#[unsafe(no_mangle)]
pub extern "C" fn nk_zones_allow(
    alloc: Global,
    access: &mut AccessHandle,
    origin: &[u8],
    key: &[u8],
) -> u32
    ensures { TransferCodes result (λ o.
        AllowsHeld origin.now key.now access.old.held o access.new.held) }
{
    transfer_calls::allow(alloc, access, origin, key).code()
}

/// Gives the memory of the keys that are kept back. None are kept then.
#[unsafe(no_mangle)]
pub extern "C" fn nk_access_free(alloc: Global, access: &mut AccessHandle)
    ensures { access.new.held ≡ None }
{
    transfer_calls::free_access(alloc, access)
}

/// Answers a client's message that has a TSIG or asks for a transfer, by the keys that are kept: writes the response into the room, or has the
/// transfer begin.
#[unsafe(no_mangle)]
pub extern "C" fn nk_transfer_begin(
    alloc: Global,
    transfer: &mut TransferHandle,
    zones: &mut DatabaseHandle,
    access: &mut AccessHandle,
    message: &ClientMessage<'_>,
    buffer: &mut [u8],
    written: &mut usize,
) -> u32
    ensures answer { TransferCodes result (λ o.
        AnswersMessage zones.old.held access.old.held message.now transfer.old.held o written.new
        buffer.old buffer.new transfer.new.held) }
    ensures zones { zones.new.held ≡ zones.old.held }
    ensures access { access.new.held ≡ access.old.held }
{
    transfer_calls::begin(alloc, transfer, zones, access, message, buffer, written).code()
}

/// Writes the next message of a transfer into the room, at a moment.
#[unsafe(no_mangle)]
pub extern "C" fn nk_transfer_next(
    alloc: Global,
    transfer: &mut TransferHandle,
    now: u64,
    buffer: &mut [u8],
    written: &mut usize,
) -> u32
    ensures { TransferCodes result (λ o. GivesMessage now transfer.old.held o written.new buffer.old
        buffer.new transfer.new.held) }
{
    transfer_calls::next(alloc, transfer, now, buffer, written).code()
}

/// Has steps go out in place of a zone whose transfer began: those that the one lacks who asked by this message.
#[unsafe(no_mangle)]
pub extern "C" fn nk_transfer_steps(
    alloc: Global,
    transfer: &mut TransferHandle,
    steps: &mut StepsHandle,
    message: &[u8],
) -> u32
    ensures sent { TransferCodes result (λ o. ShortensHeld steps.old.held message.now
        transfer.old.held o transfer.new.held) }
    ensures steps { steps.new.held ≡ steps.old.held }
{
    transfer_calls::shorten(alloc, transfer, steps, message).code()
}

/// Gives the memory of the transfer that is kept back. None is kept then.
#[unsafe(no_mangle)]
pub extern "C" fn nk_transfer_free(alloc: Global, transfer: &mut TransferHandle)
    ensures { transfer.new.held ≡ None }
{
    transfer_calls::free(alloc, transfer)
}

/// Keeps the steps of no zone in place of what is kept, and says how many records those of one zone may have.
#[unsafe(no_mangle)]
pub extern "C" fn nk_steps_new(alloc: Global, steps: &mut StepsHandle, most: u32) -> u32
    ensures { Codes result (λ o. BeginsSteps most steps.old.held o steps.new.held) }
{
    transfer_calls::new_steps(alloc, steps, most).code()
}

/// Keeps the step to the version of the zone of an origin that is kept, from the one that was noted before.
#[unsafe(no_mangle)]
pub extern "C" fn nk_steps_note(
    alloc: Global,
    steps: &mut StepsHandle,
    zones: &mut DatabaseHandle,
    origin: &[u8],
) -> u32
    ensures noted { TransferCodes result (λ o.
        NotesHeld None origin.now zones.old.held steps.old.held o steps.new.held) }
    ensures zones { zones.new.held ≡ zones.old.held }
{
    transfer_calls::note_zone(alloc, steps, zones, origin, None).code()
}

/// Keeps the version of the zone of an origin that is kept, with the steps of its journal, in place of what was noted of the zone before.
#[unsafe(no_mangle)]
pub extern "C" fn nk_steps_recall(
    alloc: Global,
    steps: &mut StepsHandle,
    zones: &mut DatabaseHandle,
    origin: &[u8],
    journal: &[u8],
) -> u32
    ensures noted { TransferCodes result (λ o.
        NotesHeld (Some journal.now) origin.now zones.old.held steps.old.held o steps.new.held) }
    ensures zones { zones.new.held ≡ zones.old.held }
{
    transfer_calls::note_zone(alloc, steps, zones, origin, Some(journal)).code()
}

/// Gives the memory of the steps that are kept back. None are kept then.
#[unsafe(no_mangle)]
pub extern "C" fn nk_steps_free(alloc: Global, steps: &mut StepsHandle)
    ensures { steps.new.held ≡ None }
{
    transfer_calls::free_steps(alloc, steps)
}

/// Has another hold the keys of a text, in place of what it holds; no zone has a rule then. Writes what is wrong with a text that is refused
/// into the room.
#[unsafe(no_mangle)]
pub extern "C" fn nk_updates_keys(
    alloc: Global,
    updates: &mut UpdatesHandle,
    text: &[u8],
    buffer: &mut [u8],
    written: &mut usize,
) -> u32
    ensures { Codes result (λ o. ReadsUpdates text.now updates.old.held o updates.new.held
        × TellsFault o written.new buffer.old buffer.new) }
{
    update_calls::read_access(alloc, updates, text, buffer, written).code()
}

/// Adds a rule of who may change what in a zone, behind those that the zone has.
#[unsafe(no_mangle)]
pub extern "C" fn nk_updates_rule(
    alloc: Global,
    updates: &mut UpdatesHandle,
    rule: &RuleTexts<'_>,
) -> u32
    ensures { UpdateCodes result (λ o.
        RulesHeld rule.now updates.old.held o updates.new.held) }
{
    update_calls::add_rule(alloc, updates, rule).code()
}

/// Gives the memory of the keys and rules that are kept back. None are kept then.
#[unsafe(no_mangle)]
pub extern "C" fn nk_updates_free(alloc: Global, updates: &mut UpdatesHandle)
    ensures { updates.new.held ≡ None }
{
    update_calls::free(alloc, updates)
}

/// Carries out an update of one of the zones, by the keys and rules that are kept, and writes the response into the room.
#[unsafe(no_mangle)]
pub extern "C" fn nk_zones_update(
    alloc: Global,
    zones: &mut DatabaseHandle,
    updates: &mut UpdatesHandle,
    message: &ClientMessage<'_>,
    buffer: &mut [u8],
    written: &mut usize,
    changed: &mut u32,
) -> u32
    ensures zones { UpdateCodes result (λ o.
        UpdatesHeld updates.old.held message.now zones.old.held
        (told o written.new buffer.old buffer.new changed.new) zones.new.held) }
    ensures same { updates.new.held ≡ updates.old.held }
{
    update_calls::update(alloc, zones, updates, message, buffer, written, changed).code()
}

/// Carries out an update beside its zone, by the keys and rules that are kept, writes the response into one room and what the zone's journal gets into
/// the other, and keeps the zone after the update where it is another.
#[unsafe(no_mangle)]
pub extern "C" fn nk_update_begin(
    alloc: Global,
    update: &mut PlannedHandle,
    zones: &mut DatabaseHandle,
    updates: &mut UpdatesHandle,
    message: &ClientMessage<'_>,
    buffer: &mut [u8],
    written: &mut usize,
    frame: &mut [u8],
    frame_written: &mut usize,
) -> u32
    ensures update { JournalCodes result (λ o.
        PlansHeld updates.old.held message.now zones.old.held
        (plan_told o written.new buffer.old buffer.new frame_written.new frame.old frame.new)
        update.new.held) }
    ensures zones { option_map zones_in zones.new.held
        ≡ option_map zones_in zones.old.held }
    ensures updates { updates.new.held ≡ updates.old.held }
{
    journal_calls::begin(
        alloc,
        update,
        zones,
        updates,
        message,
        buffer,
        written,
        frame,
        frame_written,
    )
    .code()
}

/// Puts the zone after an update in place of the one that was updated, if that is still there. None is kept then, however it ends.
#[unsafe(no_mangle)]
pub extern "C" fn nk_update_commit(
    alloc: Global,
    update: &mut PlannedHandle,
    zones: &mut DatabaseHandle,
) -> u32
    ensures zones { JournalCodes result (λ o.
        CommitsHeld update.old.held zones.old.held o zones.new.held) }
    ensures update { update.new.held ≡ None }
{
    journal_calls::commit(alloc, update, zones).code()
}

/// Gives the memory of the zone after an update back. None is kept then.
#[unsafe(no_mangle)]
pub extern "C" fn nk_update_free(alloc: Global, update: &mut PlannedHandle)
    ensures { update.new.held ≡ None }
{
    journal_calls::free(alloc, update)
}

/// Puts the zone that its journal leads to in place of the zone of an origin, and writes how many octets of the journal are whole.
#[unsafe(no_mangle)]
pub extern "C" fn nk_zones_replay(
    alloc: Global,
    zones: &mut DatabaseHandle,
    origin: &[u8],
    journal: &[u8],
    intact: &mut usize,
) -> u32
    ensures zones { JournalCodes result (λ o.
        ReplaysHeld origin.now journal.now zones.old.held o zones.new.held) }
    ensures intact { take intact.new journal.now ≡ whole journal.now }
    ensures inside { intact.new ≤ length journal.now }
{
    journal_calls::replay(alloc, zones, origin, journal, intact).code()
}

/// Writes the NOTIFY for the zone of an origin into the room.
#[unsafe(no_mangle)]
pub extern "C" fn nk_notify_write(
    alloc: Global,
    id: u32,
    origin: &[u8],
    buffer: &mut [u8],
    written: &mut usize,
) -> u32
    ensures { Codes result (λ o.
        WritesNotify id origin.now o written.new buffer.old buffer.new) }
{
    notifies::write(alloc, id, origin, buffer, written).code()
}

/// Reads the response to a NOTIFY.
#[unsafe(no_mangle)]
pub extern "C" fn nk_notify_read(message: &[u8], id: &mut u32, code: &mut u32) -> u32
    ensures { Codes result (λ o.
        ReadsResponse (response_of message.now) o id.old id.new code.old code.new) }
{
    notifies::read_response(message, id, code).code()
}
