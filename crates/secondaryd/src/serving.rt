//! The frames of an input, answered.

use crate::events::{NoMemory, Progress};
use crate::following::Following;
use crate::frames::{Event, EventKind, read_event, write_frame};
use std::alloc::{AllocError, Global};
use std::io;
use std::io::{ErrorKind, Read, Write};
use zone_printing::MasterZoneText;
use zone_secondary::Poll;

/// Why the frames of an input aren't answered to its end.
#[derive(Drop)]
pub enum Stop {
    /// A read or a write failed.
    Failed(ErrorKind),
    /// No memory was found.
    Memory,
}

impl From<io::Error> for Stop {
    fn from(error: io::Error) -> Stop {
        Stop::Failed(error.kind())
    }
}

impl From<NoMemory> for Stop {
    fn from(_: NoMemory) -> Stop {
        Stop::Memory
    }
}

impl From<AllocError> for Stop {
    fn from(_: AllocError) -> Stop {
        Stop::Memory
    }
}

/// Answers the frames of an input, up to its end.
pub fn serve<R: Read, W: Write>(
    alloc: Global,
    following: &mut Following,
    input: &mut R,
    output: &mut W,
) -> Result<(), Stop> {
    for _ in 0..u64::MAX {
        let Some(event) = read_event(alloc, input)? else {
            return Ok(());
        };
        if following.expire(alloc, event.moment) {
            write_frame(output, b'x', &[])?;
        }
        answer(alloc, following, &event, output)?;
        write_frame(output, b'd', &following.state.due().from.to_be_bytes())?;
        output.flush()?;
    }
    Ok(())
}

/// Answers a frame.
fn answer<W: Write>(
    alloc: Global,
    following: &mut Following,
    event: &Event,
    output: &mut W,
) -> Result<(), Stop> {
    match event.kind {
        EventKind::MayAsk => ask(alloc, following, event, output),
        EventKind::Message => take(alloc, following, event, output),
        EventKind::Failure => {
            following.fail(event.moment);
            Ok(())
        }
        EventKind::Notification => {
            if let Some(response) = following.notify(
                alloc,
                event.octets.as_slice(),
                event.moment,
            )? {
                write_frame(output, b'r', response.as_slice())?;
            }
            Ok(())
        }
        EventKind::Time => Ok(()),
    }
}

/// Writes the question that is due, if one is.
fn ask<W: Write>(
    alloc: Global,
    following: &mut Following,
    event: &Event,
    output: &mut W,
) -> Result<(), Stop> {
    match event.octets.as_slice() {
        [high, low] => {
            let id = u16::from_be_bytes([*high, *low]);
            if let Some(query) = following.ask(alloc, id, event.moment)? {
                write_frame(output, b'q', query.as_slice())?;
            }
            Ok(())
        }
        _ => Err(Stop::Failed(ErrorKind::InvalidData)),
    }
}

/// Takes a message, and writes what comes of it.
fn take<W: Write>(
    alloc: Global,
    following: &mut Following,
    event: &Event,
    output: &mut W,
) -> Result<(), Stop> {
    match following.take(alloc, event.octets.as_slice(), event.moment) {
        Progress::More | Progress::Unasked => return Ok(()),
        Progress::Taken => {
            let zone = MasterZoneText(alloc, &following.apex, &following.held);
            let text = format!(in alloc; "{zone}")?;
            write_frame(output, b'z', text.as_bytes())?;
        }
        Progress::Serial(_, Poll::Newer) => {}
        Progress::Serial(_, Poll::Same) => write_frame(output, b'k', &[])?,
        Progress::Serial(serial, Poll::Older) => {
            let line = format!(in alloc; "the primary has version {serial}, which is older")?;
            write_frame(output, b'l', line.as_bytes())?;
        }
        Progress::Wrong(fault) => {
            let line = format!(in alloc; "a message isn't taken: {fault}")?;
            write_frame(output, b'l', line.as_bytes())?;
        }
        Progress::Unsigned => write_frame(output, b'l', b"the last message isn't signed")?,
        Progress::NotTaken(fault) => {
            let line = format!(in alloc; "nothing is taken of the answer: {fault}")?;
            write_frame(output, b'l', line.as_bytes())?;
        }
    }
    Ok(write_frame(output, b'e', &[])?)
}
