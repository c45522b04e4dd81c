//! The entries of an update, as words write them.

use line_text::{TextError, Words, read_data, read_name, read_type, read_u16};
use std::alloc::Global;
use zone_proto::DNSClass;
use zone_update::{Content, Entry, Update};

/// How many entries a row has at most.
const MOST: usize = 64;

/// Reads the entries of an update, between which semicolons stand.
pub fn read_update(alloc: Global, text: &str) -> Result<Update, TextError> {
    let mut update = Update {
        prerequisites: Vec::new(alloc),
        changes: Vec::new(alloc),
    };
    let mut left = text;
    for _ in 0..MOST {
        match left.split_once("; ") {
            Some((entry, others)) => {
                add_entry(alloc, &mut update, entry)?;
                left = others;
            }
            None => {
                add_entry(alloc, &mut update, left)?;
                return Ok(update);
            }
        }
    }
    Err(TextError::BadText)
}

/// Adds an entry to its section.
fn add_entry(alloc: Global, update: &mut Update, text: &str) -> Result<(), TextError> {
    let mut words = Words::new(text.as_bytes());
    let section = words.take_needed()?;
    let entry = read_entry(alloc, &mut words)?;
    words.end()?;
    match section {
        b"need" => update.prerequisites.push(entry)?,
        b"change" => update.changes.push(entry)?,
        _ => return Err(TextError::BadText),
    }
    Ok(())
}

/// Reads an entry.
fn read_entry(alloc: Global, words: &mut Words<'_>) -> Result<Entry, TextError> {
    let name = read_name(alloc, words)?;
    let ttl = words.take_u32()?;
    let dns_class = read_class(words)?;
    let record_type = read_type(words)?;
    let content = match words.take_needed()? {
        b"empty" => Content::Empty,
        b"unread" => Content::Unread,
        b"data" => Content::Data(read_data(alloc, record_type, words)?),
        _ => return Err(TextError::BadText),
    };
    Ok(Entry {
        name,
        record_type,
        dns_class,
        ttl,
        content,
    })
}

/// Reads a class.
fn read_class(words: &mut Words<'_>) -> Result<DNSClass, TextError> {
    match words.take_needed()? {
        b"IN" => Ok(DNSClass::IN),
        b"NONE" => Ok(DNSClass::NONE),
        b"ANY" => Ok(DNSClass::ANY),
        word => match read_u16(word) {
            Some(number) => Ok(DNSClass(number)),
            None => Err(TextError::BadText),
        },
    }
}
