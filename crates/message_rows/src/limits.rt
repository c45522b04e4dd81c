//! Responses written at each limit, and read.

use message_reading::{Header, MessageError, read_message};
use message_writing::{Response, WriteError, write_response};
use std::alloc::{AllocError, Global};

/// What became of a response: how many records the message has in its sections, and whether TC is set; or why there is none.
#[derive(Clone, Copy, PartialEq, Eq, Debug)]
enum Outcome {
    NoRoom,
    BadCode,
    Unwritable,
    Unread,
    Written(u16, u16, u16, bool),
}

/// What becomes of a response at each limit from 12 octets on, below the last one: told where it is another than at the limit
/// before.
pub fn limits_answer(
    alloc: Global,
    response: &Response<'_, '_>,
    last: u16,
) -> Result<String, AllocError> {
    let mut told = String::new(alloc);
    let mut before = None;
    for limit in 12..last {
        let outcome = outcome_of(alloc, response, limit)?;
        if before != Some(outcome) {
            tell(&mut told, limit, outcome)?;
        }
        before = Some(outcome);
    }
    Ok(told)
}

/// What becomes of a response at a limit.
fn outcome_of(
    alloc: Global,
    response: &Response<'_, '_>,
    limit: u16,
) -> Result<Outcome, AllocError> {
    let mut out = Vec::new(alloc);
    match write_response(alloc, &mut out, response, limit) {
        Ok(()) => outcome_of_octets(alloc, out.as_slice(), limit),
        Err(WriteError::NoRoom) => Ok(Outcome::NoRoom),
        Err(WriteError::BadCode) => Ok(Outcome::BadCode),
        Err(WriteError::Unwritable) => Ok(Outcome::Unwritable),
        Err(WriteError::Memory) => Err(AllocError),
    }
}

/// What octets are that were written within a limit.
fn outcome_of_octets(alloc: Global, octets: &[u8], limit: u16) -> Result<Outcome, AllocError> {
    if octets.len() > usize::from(limit) {
        return Ok(Outcome::Unread);
    }
    match read_message(alloc, octets) {
        Ok(message) => Ok(counts_of(message.header)),
        Err(MessageError::Malformed) => Ok(Outcome::Unread),
        Err(MessageError::Memory) => Err(AllocError),
    }
}

/// What a header counts.
fn counts_of(header: Header) -> Outcome {
    Outcome::Written(
        header.answers,
        header.authorities,
        header.additionals,
        header.truncated,
    )
}

/// Adds a limit and what becomes of the response there.
fn tell(told: &mut String, limit: u16, outcome: Outcome) -> Result<(), AllocError> {
    if !told.is_empty() {
        write!(told, ", ")?;
    }
    match outcome {
        Outcome::NoRoom => write!(told, "{limit}: no room"),
        Outcome::BadCode => write!(told, "{limit}: no such code"),
        Outcome::Unwritable => write!(told, "{limit}: unwritable"),
        Outcome::Unread => write!(told, "{limit}: WRONG"),
        Outcome::Written(answers, authorities, additionals, truncated) => {
            let tc = if truncated { " tc" } else { "" };
            write!(told, "{limit}: {answers} {authorities} {additionals}{tc}")
        }
    }
}
