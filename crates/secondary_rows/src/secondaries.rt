//! Secondary zones, led through events.

use line_text::{TextError, Words, read_u32};
use std::alloc::Global;
use zone_proto::is_newer;
use zone_secondary::{Due, Poll, Question, Secondary, Version};

/// Which question is due after each event.
pub fn secondary_answer(alloc: Global, mut words: Words<'_>) -> Result<String, TextError> {
    let mut text = String::new(alloc);
    let mut secondary = Secondary::new(0);
    for _ in 0..u16::MAX {
        let Some(verb) = words.take() else {
            return Ok(text);
        };
        let said = event(&mut secondary, verb, &mut words)?;
        let due = due_text(alloc, secondary.due())?;
        write!(text, "{said} {due}, ")?;
    }
    Err(TextError::BadText)
}

/// Leads a secondary through an event: what the call said.
fn event(
    secondary: &mut Secondary,
    verb: &[u8],
    words: &mut Words<'_>,
) -> Result<&'static str, TextError> {
    match verb {
        b"new" => *secondary = Secondary::new(words.take_u64()?),
        b"kept" => {
            let version = read_version(words)?;
            let confirmed = words.take_u64()?;
            let now = words.take_u64()?;
            *secondary = Secondary::with_zone(version, confirmed, now);
        }
        b"ask" => secondary.ask(words.take_u64()?),
        b"fail" => secondary.fail(words.take_u64()?),
        _ => return told_event(secondary, verb, words),
    }
    Ok("")
}

/// The same for the events that bring something, and for the questions.
fn told_event(
    secondary: &mut Secondary,
    verb: &[u8],
    words: &mut Words<'_>,
) -> Result<&'static str, TextError> {
    match verb {
        b"notify" => {
            let hint = read_u32(words.take_needed()?);
            secondary.notify(hint, words.take_u64()?);
            Ok("")
        }
        b"poll" => {
            let serial = words.take_u32()?;
            let poll = secondary.poll(serial, words.take_u64()?);
            Ok(poll_word(poll))
        }
        b"got" => {
            let version = read_version(words)?;
            secondary.transferred(version, words.take_u64()?);
            Ok("")
        }
        b"expire" => {
            let is_expired = secondary.expire(words.take_u64()?);
            Ok(if is_expired { "expired" } else { "kept" })
        }
        b"serves" => {
            let is_served = secondary.serves(words.take_u64()?);
            Ok(if is_served { "served" } else { "not served" })
        }
        _ => Err(TextError::BadText),
    }
}

/// Reads a version.
fn read_version(words: &mut Words<'_>) -> Result<Version, TextError> {
    Ok(Version {
        serial: words.take_u32()?,
        refresh: words.take_u32()?,
        retry: words.take_u32()?,
        expire: words.take_u32()?,
    })
}

/// What the serial of a primary says.
fn poll_word(poll: Poll) -> &'static str {
    match poll {
        Poll::Newer => "newer",
        Poll::Same => "same",
        Poll::Older => "older",
    }
}

/// A question and the moment from which on it is due.
fn due_text(alloc: Global, due: Due) -> Result<String, TextError> {
    Ok(match due.question {
        Question::Soa => format!(in alloc; "soa {}", due.from)?,
        Question::Changes(serial) => format!(in alloc; "changes {serial} {}", due.from)?,
        Question::Zone => format!(in alloc; "zone {}", due.from)?,
    })
}

/// Whether the first of two serials is newer.
pub fn newer_answer(alloc: Global, mut words: Words<'_>) -> Result<String, TextError> {
    let serial = words.take_u32()?;
    let than = words.take_u32()?;
    words.end()?;
    Ok(format!(in alloc; "{}", is_newer(serial, than))?)
}
