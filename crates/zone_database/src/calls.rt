//! What a program that isn't written in Rattle asks of the zones that it keeps: the calls of `ningkraet`.
ghost use Rattle.std.specs.Prelude.{◌≡◌, [], None};
ghost use Rattle.zone_database.specs.Databases.{zones_in};
ghost use Rattle.zone_database.specs.Calls.{transport_of, AnswersHeld, AsksHeld, ChangesHeld, IsAdded, IsAnswered, IsCreated, IsDropped, IsLoaded, IsPrepared, IsSerial, IsReported};

use crate::buffer::{give, tell};
use crate::database::ZoneDatabase;
use crate::handle::DatabaseHandle;
use crate::loads::{add_zone, load_zone, prepare_zone, remove_zone};
use crate::outcome::Outcome;
use crate::serials::serial_of;
use call_handles::Handle;
use std::alloc::Global;
use std::mem;
use zone_server::{Answered, Transport};

/// How many octets a response has room for before more is taken.
pub const FIRST_BUFFER: usize = 512;

/// Makes a database without zones in place of what a handle holds, whose memory is given back. Where there isn't enough
/// memory, what it holds stays.
pub fn create(alloc: Global, zones: &mut DatabaseHandle) -> Outcome
    ensures { IsCreated [] zones.old.held result zones.new.held }
{
    match Box::new(alloc, ZoneDatabase::new(alloc)) {
        Ok(database) => {
            zones.put(database);
            Outcome::Done
        }
        Err(_) => Outcome::NoMemory,
    }
}

/// Gives the memory of what a handle holds back. It holds nothing then.
pub fn free(alloc: Global, zones: &mut DatabaseHandle)
    ensures { zones.new.held ≡ None }
{
    drop(mem::replace(zones, DatabaseHandle::empty(alloc)));
}

/// Has another handle hold the same zones, in place of what it holds. The zones are in memory once, and each of the two
/// handles has others put in and taken out by itself. Where there isn't enough memory, what the other holds stays.
pub fn copy(alloc: Global, zones: &mut DatabaseHandle, other: &mut DatabaseHandle) -> Outcome
    ensures copied { AsksHeld (λ zs o. IsCreated zs other.old.held o other.new.held)
        (other.new.held ≡ other.old.held) zones.old.held result }
    ensures same { zones.new.held ≡ zones.old.held }
{
    match zones.take(alloc) {
        Some(database) => {
            let outcome = put_copy(alloc, &database, other);
            zones.put(database);
            outcome
        }
        None => Outcome::Closed,
    }
}

/// Has a handle hold the zones of a database.
fn put_copy(alloc: Global, database: &ZoneDatabase, other: &mut DatabaseHandle) -> Outcome
    ensures { IsCreated (zones_in database.now) other.old.held result other.new.held }
{
    let Ok(copy) = database.copy(alloc) else {
        return Outcome::NoMemory;
    };
    match Box::new(alloc, copy) {
        Ok(copy) => {
            other.put(copy);
            Outcome::Done
        }
        Err(_) => Outcome::NoMemory,
    }
}

/// Puts the zone of an origin that the text of a zone file makes in place of the one of this origin, or among the
/// others, and writes what is reported about the text into the room.
pub fn load(
    alloc: Global,
    zones: &mut DatabaseHandle,
    origin: &[u8],
    text: &[u8],
    buffer: &mut [u8],
    written: &mut usize,
) -> Outcome
    ensures zones { ChangesHeld (IsLoaded origin.now text.now) zones.old.held result
        zones.new.held }
    ensures told { IsReported result written.new buffer.old buffer.new }
{
    let mut told = String::new(alloc);
    let outcome = load_held(alloc, zones, origin, text, &mut told);
    *written = tell(outcome, told.as_bytes(), buffer);
    outcome
}

/// The same, with what is told as a text.
#[tactic(auto, using(crate::proofs::CallFacts::changed))]
fn load_held(
    alloc: Global,
    zones: &mut DatabaseHandle,
    origin: &[u8],
    text: &[u8],
    told: &mut String,
) -> Outcome
    ensures { ChangesHeld (IsLoaded origin.now text.now) zones.old.held result zones.new.held }
{
    match zones.take(alloc) {
        Some(mut database) => {
            let outcome = load_zone(alloc, &mut database, origin, text, told);
            zones.put(database);
            outcome
        }
        None => Outcome::Closed,
    }
}

/// Puts the zone of an origin that the text of a zone file makes among the others, unless there is one of this origin,
/// and writes what is reported about the text into the room.
pub fn add(
    alloc: Global,
    zones: &mut DatabaseHandle,
    origin: &[u8],
    text: &[u8],
    buffer: &mut [u8],
    written: &mut usize,
) -> Outcome
    ensures zones { ChangesHeld (IsAdded origin.now text.now) zones.old.held result
        zones.new.held }
    ensures told { IsReported result written.new buffer.old buffer.new }
{
    let mut told = String::new(alloc);
    let outcome = add_held(alloc, zones, origin, text, &mut told);
    *written = tell(outcome, told.as_bytes(), buffer);
    outcome
}

/// The same, with what is told as a text.
#[tactic(auto, using(crate::proofs::CallFacts::changed))]
fn add_held(
    alloc: Global,
    zones: &mut DatabaseHandle,
    origin: &[u8],
    text: &[u8],
    told: &mut String,
) -> Outcome
    ensures { ChangesHeld (IsAdded origin.now text.now) zones.old.held result zones.new.held }
{
    match zones.take(alloc) {
        Some(mut database) => {
            let outcome = add_zone(alloc, &mut database, origin, text, told);
            zones.put(database);
            outcome
        }
        None => Outcome::Closed,
    }
}

/// Takes the zone of an origin out.
#[tactic(auto, using(crate::proofs::CallFacts::changed))]
pub fn remove(alloc: Global, zones: &mut DatabaseHandle, origin: &[u8]) -> Outcome
    ensures { ChangesHeld (IsDropped origin.now) zones.old.held result zones.new.held }
{
    match zones.take(alloc) {
        Some(mut database) => {
            let outcome = remove_zone(alloc, &mut database, origin);
            zones.put(database);
            outcome
        }
        None => Outcome::Closed,
    }
}

/// Keeps the answers that the zone of an origin gives most, as the octets that go out, until the zone is replaced or taken
/// out. No zone and no answer changes.
#[tactic(auto, using(crate::proofs::CallFacts::changed))]
pub fn prepare(alloc: Global, zones: &mut DatabaseHandle, origin: &[u8]) -> Outcome
    ensures { ChangesHeld (IsPrepared origin.now) zones.old.held result zones.new.held }
{
    match zones.take(alloc) {
        Some(mut database) => {
            let outcome = prepare_zone(alloc, &mut database, origin);
            zones.put(database);
            outcome
        }
        None => Outcome::Closed,
    }
}

/// Writes the serial of the zone of an origin.
pub fn serial(alloc: Global, zones: &mut DatabaseHandle, origin: &[u8], serial: &mut u32) -> Outcome
    ensures serial { AsksHeld (IsSerial origin.now serial.old serial.new) (serial.new ≡ serial.old)
        zones.old.held result }
    ensures same { zones.new.held ≡ zones.old.held }
{
    match zones.take(alloc) {
        Some(database) => {
            let outcome = serial_of(alloc, &database, origin, serial);
            zones.put(database);
            outcome
        }
        None => Outcome::Closed,
    }
}

/// Answers a message from the zones, and writes the response into the room. The way over UDP takes `limit` octets.
pub fn answer(
    alloc: Global,
    zones: &mut DatabaseHandle,
    message: &[u8],
    limit: usize,
    transport: u32,
    buffer: &mut [u8],
    written: &mut usize,
) -> Outcome
    ensures answer { AnswersHeld (transport_of limit transport) message.now zones.old.held result
        written.new buffer.old buffer.new }
    ensures same { zones.new.held ≡ zones.old.held }
{
    let (outcome, count) = match transport_of(limit, transport) {
        Some(transport) => answer_held(alloc, zones, message, transport, buffer),
        None => (Outcome::BadTransport, 0),
    };
    *written = count;
    outcome
}

/// The transport of a number: 0 is UDP, by which the way takes `limit` octets, and 1 is TCP.
pub fn transport_of(limit: usize, number: u32) -> Option<Transport>
    ensures { result ≡ transport_of limit number }
{
    match number {
        0 => Some(Transport::Udp {
            limit: limit.min(65_535) as u16,
        }),
        1 => Some(Transport::Tcp),
        _ => None,
    }
}

/// Answers a message that came by a transport.
fn answer_held(
    alloc: Global,
    zones: &mut DatabaseHandle,
    message: &[u8],
    transport: Transport,
    buffer: &mut [u8],
) -> (Outcome, usize)
    ensures answer { AnswersHeld (Some transport) message.now zones.old.held result.0 result.1
        buffer.old buffer.new }
    ensures same { zones.new.held ≡ zones.old.held }
{
    match zones.take(alloc) {
        Some(database) => {
            let answer = answer_from(alloc, &database, message, transport, buffer);
            zones.put(database);
            answer
        }
        None => (Outcome::Closed, 0),
    }
}

/// Answers a message from the zones of a database, and gives the length of the response beside how the call ended.
fn answer_from(
    alloc: Global,
    database: &ZoneDatabase,
    message: &[u8],
    transport: Transport,
    buffer: &mut [u8],
) -> (Outcome, usize)
    ensures { IsAnswered (zones_in database.now) transport message.now result.0 result.1
        buffer.old buffer.new }
{
    let Ok(mut out) = Vec::with_capacity(alloc, FIRST_BUFFER) else {
        return (Outcome::NoMemory, 0);
    };
    match database.answer(alloc, message, transport, &mut out) {
        Ok(Answered::Response) => give(out.as_slice(), buffer),
        Ok(Answered::Nothing) => (Outcome::Ignored, 0),
        Err(_) => (Outcome::NoMemory, 0),
    }
}
