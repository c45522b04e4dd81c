//! Calls of rows, and how they are made.

use crate::call::{Call, make, read_call};
use crate::left::{Left, told};
use alloc_failures::Scarcity;
use call_handles::Handle;
use compared_rows::Caller;
use line_text::TextError;
use std::alloc::{AllocError, Global};
use zone_database::{DatabaseHandle, Outcome};

/// How many octets a room has where a row doesn't say it.
const DEFAULT_BUFFER: usize = 1_232;

/// How much more memory a call gets each time, in octets, and how often it is made at most.
const STEP: usize = 48;

const TRIES: usize = 1_000;

/// The handles of a file, which hold nothing where it begins.
#[derive(Drop)]
pub struct Handles {
    one: DatabaseHandle,
    two: DatabaseHandle,
}

impl Caller for Handles {
    fn new(alloc: Global) -> Handles {
        Handles {
            one: DatabaseHandle::empty(alloc),
            two: DatabaseHandle::empty(alloc),
        }
    }

    fn answer(&mut self, alloc: Global, call: &str) -> Result<String, TextError> {
        let (way, row) = call.split_once(": ").unwrap_or(("", call));
        let (handle, words) = row.split_once(' ').unwrap_or((row, ""));
        let call = read_call(alloc, words)?;
        let Handles { one, two } = self;
        match handle {
            "one" => Ok(call_answer(alloc, way, &call, one, two)?),
            "two" => Ok(call_answer(alloc, way, &call, two, one)?),
            _ => Err(TextError::BadText),
        }
    }
}

/// The answer to a call that is made in a way.
fn call_answer(
    alloc: Global,
    way: &str,
    call: &Call<'_>,
    zones: &mut DatabaseHandle,
    other: &mut DatabaseHandle,
) -> Result<String, AllocError> {
    let (kind, number) = way.split_once(' ').unwrap_or((way, ""));
    let mut left = Left::new(alloc, number.parse::<usize>().unwrap_or(DEFAULT_BUFFER))?;
    let tries = match kind {
        "without" => 1,
        "after" => TRIES,
        _ => {
            let outcome = make(alloc, call, zones, other, &mut left);
            return told(alloc, call, outcome, &left);
        }
    };
    let mut scarce = Scarcity::new(alloc)?;
    scarce.begin(tries)?;
    let (refused, outcome) = make_scarcely(
        alloc,
        &mut scarce,
        tries,
        call,
        zones,
        other,
        &mut left,
    );
    scarce.end();
    let told = told(alloc, call, outcome, &left)?;
    let before = if refused == 0 { "" } else { "refused, then " };
    format!(in alloc; "{before}{told}")
}

/// Makes a call with no room, then with more room each time, until memory isn't refused to it, or it wrote something although it
/// was: how often it was refused before, and how it ended.
fn make_scarcely(
    alloc: Global,
    scarce: &mut Scarcity,
    tries: usize,
    call: &Call<'_>,
    zones: &mut DatabaseHandle,
    other: &mut DatabaseHandle,
    left: &mut Left,
) -> (usize, Outcome) {
    let mut outcome = Outcome::NoMemory;
    for refused in 0..tries {
        scarce.leave(refused.saturating_mul(STEP));
        outcome = make(alloc, call, zones, other, left);
        if outcome != Outcome::NoMemory || !left.changed().is_empty() {
            return (refused, outcome);
        }
    }
    (0, outcome)
}
