//! The calls that rows write.

use crate::left::Left;
use call_handles::Handle;
use compared_rows::octets_of;
use line_text::TextError;
use std::alloc::Global;
use zone_database::{DatabaseHandle, Outcome, calls};

/// A call, with what it is handed beside a handle.
#[derive(Drop)]
pub enum Call<'r> {
    New,
    Free,
    Copy,
    Move,
    Load(&'r str, String),
    Add(&'r str, String),
    Drop(&'r str),
    Prepare(&'r str),
    Serial(&'r str),
    Answer(Vec<u8>, usize, u32),
}

/// Reads a call.
pub fn read_call(alloc: Global, words: &str) -> Result<Call<'_>, TextError> {
    let (verb, rest) = words.split_once(' ').unwrap_or((words, ""));
    let (first, behind) = rest.split_once(' ').unwrap_or((rest, ""));
    match verb {
        "new" => Ok(Call::New),
        "free" => Ok(Call::Free),
        "copy" => Ok(Call::Copy),
        "move" => Ok(Call::Move),
        "load" => Ok(Call::Load(first, behind.replace(alloc, "|", "\n")?)),
        "add" => Ok(Call::Add(first, behind.replace(alloc, "|", "\n")?)),
        "drop" => Ok(Call::Drop(rest)),
        "prepare" => Ok(Call::Prepare(rest)),
        "serial" => Ok(Call::Serial(rest)),
        "answer" => read_answer(alloc, first, behind),
        _ => Err(TextError::BadText),
    }
}

/// Reads the call that answers a message: its limit and its octets come after the transport.
fn read_answer<'r>(alloc: Global, transport: &str, words: &str) -> Result<Call<'r>, TextError> {
    let (limit, hex) = words.split_once(' ').unwrap_or((words, ""));
    let (Ok(limit), Ok(transport)) = (limit.parse::<usize>(), transport.parse::<u32>()) else {
        return Err(TextError::BadText);
    };
    Ok(Call::Answer(octets_of(alloc, hex)?, limit, transport))
}

/// Makes a call of a handle beside another one.
pub fn make(
    alloc: Global,
    call: &Call<'_>,
    zones: &mut DatabaseHandle,
    other: &mut DatabaseHandle,
    left: &mut Left,
) -> Outcome {
    let (room, written) = (left.room.as_mut_slice(), &mut left.written);
    match call {
        Call::New => calls::create(alloc, zones),
        Call::Free => {
            calls::free(alloc, zones);
            Outcome::Done
        }
        Call::Copy => calls::copy(alloc, zones, other),
        Call::Move => move_over(alloc, zones, other),
        Call::Load(origin, text) => {
            let (origin, text) = (origin.as_bytes(), text.as_bytes());
            calls::load(alloc, zones, origin, text, room, written)
        }
        Call::Add(origin, text) => {
            let (origin, text) = (origin.as_bytes(), text.as_bytes());
            calls::add(alloc, zones, origin, text, room, written)
        }
        Call::Drop(origin) => calls::remove(alloc, zones, origin.as_bytes()),
        Call::Prepare(origin) => calls::prepare(alloc, zones, origin.as_bytes()),
        Call::Serial(origin) => { calls::serial(alloc, zones, origin.as_bytes(), &mut left.serial) }
        Call::Answer(message, limit, transport) => calls::answer(
            alloc,
            zones,
            message.as_slice(),
            *limit,
            *transport,
            room,
            written,
        ),
    }
}

/// Puts what is taken out of a handle into another one.
fn move_over(alloc: Global, zones: &mut DatabaseHandle, other: &mut DatabaseHandle) -> Outcome {
    match zones.take(alloc) {
        Some(database) => {
            other.put(database);
            Outcome::Done
        }
        None => Outcome::Closed,
    }
}
