//! Messages of updates, and what they say.

use crate::entries::read_update;
use compared_rows::{octets_of, read_octets};
use line_text::{HexText, TextError, Words, read_name};
use std::alloc::Global;
use update_message::{UpdateError, read_update as read_message, write_response};
use zone_update::{Content, Entry, Update};

/// Whether octets in hex are an update of a zone with these entries.
pub fn message_answer(alloc: Global, words: &str) -> Result<String, TextError> {
    let (octets, left) = words.split_once(" ").ok_or(TextError::BadText)?;
    let (zone, entries) = left.split_once(" ").unwrap_or((left, ""));
    let octets = octets_of(alloc, octets)?;
    let zone = read_name(alloc, &mut Words::new(zone.as_bytes()))?;
    let update = match read_message(alloc, octets.as_slice()) {
        Ok(update) => update,
        Err(error) => return Ok(format!(in alloc; "{}", error_word(error)?)?),
    };
    let wanted = if entries.is_empty() {
        Update {
            prerequisites: Vec::new(alloc),
            changes: Vec::new(alloc),
        }
    } else {
        read_update(alloc, entries)?
    };
    let word = if update.zone != zone {
        "another zone"
    } else if !is_same_update(&update.update, &wanted) {
        "other entries"
    } else if update.has_extension {
        "yes, with OPT"
    } else {
        "yes"
    };
    Ok(format!(in alloc; "{word}")?)
}

/// The response to a message in hex, with a code, in hex.
pub fn response_answer(alloc: Global, words: &str) -> Result<String, TextError> {
    let mut words = Words::new(words.as_bytes());
    let octets = read_octets(alloc, &mut words)?;
    let code = words.take_u16()?;
    words.end()?;
    let update = match read_message(alloc, octets.as_slice()) {
        Ok(update) => update,
        Err(error) => return Ok(format!(in alloc; "{}", error_word(error)?)?),
    };
    if update.header.opcode > 15 || code > 15 {
        return Err(TextError::BadText);
    }
    let mut out = Vec::new(alloc);
    write_response(&mut out, update.header, code as u8, update.has_extension)?;
    Ok(format!(in alloc; "{}", HexText(out.as_slice()))?)
}

/// The word for why a message isn't read.
fn error_word(error: UpdateError) -> Result<&'static str, TextError> {
    match error {
        UpdateError::NoUpdate => Ok("no update"),
        UpdateError::Malformed(_) => Ok("malformed"),
        UpdateError::OtherClass(_) => Ok("another class"),
        UpdateError::Memory => Err(TextError::Memory),
    }
}

/// Whether updates have the same entries.
fn is_same_update(one: &Update, other: &Update) -> bool {
    are_same(one.prerequisites.as_slice(), other.prerequisites.as_slice())
        && are_same(one.changes.as_slice(), other.changes.as_slice())
}

/// Whether entries are the same, one after the other.
fn are_same(ones: &[Entry], others: &[Entry]) -> bool {
    ones.len() == others.len()
        && ones
            .iter()
            .zip(others.iter())
            .all(|(one, other)| is_same(one, other))
}

/// Whether entries are the same.
fn is_same(one: &Entry, other: &Entry) -> bool {
    one.name == other.name
        && one.record_type == other.record_type
        && one.dns_class == other.dns_class
        && one.ttl == other.ttl
        && is_same_content(&one.content, &other.content)
}

/// Whether entries have the same data, or alike none.
fn is_same_content(one: &Content, other: &Content) -> bool {
    match (one, other) {
        (Content::Empty, Content::Empty) | (Content::Unread, Content::Unread) => true,
        (Content::Data(one), Content::Data(other)) => *one == *other,
        _ => false,
    }
}
