//! How a text is cut into entries.

use std::alloc::{AllocError, Global};
use zone_scanner::{Entry, EntryError, EntryReader, Word};

/// The entries of a text that comes in pieces of so many octets: each word with its place and in its quotes, and with `+` if
/// it is joined to the one before; `-` before an indented entry; `/` between entries; and the fault with its place.
pub fn answer(alloc: Global, text: &[u8], length: usize) -> Result<String, AllocError> {
    let mut told = String::new(alloc);
    match tell_entries(alloc, text, length, &mut told) {
        Ok(()) => Ok(told),
        Err(EntryError::Memory) => Err(AllocError),
        Err(EntryError::Fault(fault)) => {
            let (place, reason) = (fault.place, fault.reason);
            write!(&mut told, "{}:{}: {}", place.line, place.column, reason)?;
            Ok(told)
        }
    }
}

/// Adds the entries of a text up to its end, or its first fault.
fn tell_entries(
    alloc: Global,
    text: &[u8],
    length: usize,
    told: &mut String,
) -> Result<(), EntryError> {
    let mut reader = EntryReader::new(alloc);
    let mut rest = text;
    for _ in 0..text.len() {
        if rest.is_empty() {
            break;
        }
        let piece = rest.get(..length).unwrap_or(rest);
        let (count, entry) = reader.take_entry(alloc, piece)?;
        tell_if_there(told, &entry)?;
        rest = &rest[count..];
    }
    let entry = reader.finish(alloc)?;
    tell_if_there(told, &entry)?;
    Ok(())
}

fn tell_if_there(told: &mut String, entry: &Option<Entry>) -> Result<(), AllocError> {
    match entry {
        Some(entry) => tell_entry(told, entry),
        None => Ok(()),
    }
}

fn tell_entry(told: &mut String, entry: &Entry) -> Result<(), AllocError> {
    if entry.is_indented() {
        write!(told, "- ")?;
    }
    for word in entry.words() {
        tell_word(told, word)?;
    }
    write!(told, "/ ")
}

fn tell_word(told: &mut String, word: &Word) -> Result<(), AllocError> {
    let place = word.place();
    let joined = if word.is_joined() { "+" } else { "" };
    let quote = if word.is_quoted() { "\"" } else { "" };
    write!(told, "{joined}{}:{} {quote}", place.line, place.column)?;
    for octet in word.octets() {
        match octet {
            33..=126 => write!(told, "{}", char::from(*octet))?,
            _ => write!(told, "{{{octet}}}")?,
        }
    }
    write!(told, "{quote} ")
}
