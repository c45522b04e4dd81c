//! What calls leave in the places that they are handed.

use crate::call::Call;
use line_text::HexText;
use std::alloc::{AllocError, Global};
use std::str;
use zone_database::Outcome;

/// The octet of which a room is full before a call. No row has a text or a response that ends with it.
const FULL: u8 = 255;

/// What stands in place of a number before a call.
const BEFORE: u32 = 999;

/// The places that a call may write.
#[derive(Drop)]
pub struct Left {
    /// The room for a text or a response.
    pub room: Vec<u8>,
    /// How many octets of it are written.
    pub written: usize,
    /// The serial of a zone.
    pub serial: u32,
}

impl Left {
    /// The places before a call, with a room of so many octets.
    pub fn new(alloc: Global, room: usize) -> Result<Left, AllocError> {
        Ok(Left {
            room: vec![in alloc; FULL; room]?,
            written: BEFORE as usize,
            serial: BEFORE,
        })
    }

    /// The room up to the last octet that was changed.
    pub fn changed(&self) -> &[u8] {
        let room = self.room.as_slice();
        let mut end = 0usize;
        for (index, octet) in room.iter().enumerate() {
            if *octet != FULL {
                end = index.saturating_add(1);
            }
        }
        room.get(..end).unwrap_or(room)
    }
}

/// How a call ended, and what it left in the places of its own.
pub fn told(
    alloc: Global,
    call: &Call<'_>,
    outcome: Outcome,
    left: &Left,
) -> Result<String, AllocError> {
    let (code, written, changed) = (outcome.code(), left.written, left.changed());
    match call {
        Call::Load(_, _) | Call::Add(_, _) => {
            let lines = str::from_utf8(changed).unwrap_or("no text");
            let lines = lines.replace(alloc, "\n", "|")?;
            format!(in alloc; "{code} {written} {lines}")
        }
        Call::Serial(_) => format!(in alloc; "{code} {}", left.serial),
        Call::Answer(_, _, _) => format!(in alloc; "{code} {written} {}", HexText(changed)),
        _ => format!(in alloc; "{code}"),
    }
}
