//! Responses that rows mean.

use crate::sets::{Set, groups_of, read_set};
use compared_rows::octets_of;
use line_text::{TextError, Words};
use message_reading::{Query, ReadError, read_query};
use message_writing::{Group, Response};
use std::alloc::{AllocError, Global};

/// A response, and how many octets it may have.
#[derive(Drop)]
pub struct Meant {
    /// The limit in octets.
    pub limit: u16,
    code: u16,
    size: u16,
    authoritative: bool,
    query: Query,
    answers: Vec<Set>,
    authorities: Vec<Set>,
    glue: Vec<Set>,
    additionals: Vec<Set>,
}

/// The groups of a response's sections.
#[derive(Drop)]
pub struct Sections<'m> {
    answers: Vec<Group<'m>>,
    authorities: Vec<Group<'m>>,
    glue: Vec<Group<'m>>,
    additionals: Vec<Group<'m>>,
}

/// Reads a response.
pub fn read_meant(alloc: Global, text: &str) -> Result<Meant, TextError> {
    let Some((head, rest)) = text.split_once("; ") else {
        return Err(TextError::BadText);
    };
    let (hex, sets) = rest.split_once("; ").unwrap_or((rest, ""));
    let query = query_of(alloc, hex)?;
    let mut meant = read_head(alloc, head, query)?;
    for set in sets.split("; ") {
        add_set(alloc, &mut meant, set)?;
    }
    Ok(meant)
}

/// A query that hex writes. One of another version of EDNS is answered too.
fn query_of(alloc: Global, hex: &str) -> Result<Query, TextError> {
    let octets = octets_of(alloc, hex)?;
    match read_query(alloc, octets.as_slice()) {
        Ok(query) | Err(ReadError::BadVersion(query)) => Ok(query),
        Err(ReadError::Memory) => Err(TextError::Memory),
        Err(_) => Err(TextError::BadText),
    }
}

/// Reads what precedes the query, of a response without records.
fn read_head(alloc: Global, head: &str, query: Query) -> Result<Meant, TextError> {
    let mut words = Words::new(head.as_bytes());
    let limit = words.take_u16()?;
    let code = words.take_u16()?;
    let size = words.take_u16()?;
    let authoritative = words.take_needed()? == b"aa".as_slice();
    words.end()?;
    Ok(Meant {
        limit,
        code,
        size,
        authoritative,
        query,
        answers: Vec::new(alloc),
        authorities: Vec::new(alloc),
        glue: Vec::new(alloc),
        additionals: Vec::new(alloc),
    })
}

/// Adds a set to its section.
fn add_set(alloc: Global, meant: &mut Meant, text: &str) -> Result<(), TextError> {
    if text.is_empty() {
        return Ok(());
    }
    let Some((section, text)) = text.split_once(" ") else {
        return Err(TextError::BadText);
    };
    let set = read_set(alloc, text)?;
    match section {
        "answer" => meant.answers.push(set)?,
        "authority" => meant.authorities.push(set)?,
        "glue" => meant.glue.push(set)?,
        "additional" => meant.additionals.push(set)?,
        _ => return Err(TextError::BadText),
    }
    Ok(())
}

/// The groups of the sections of a response.
pub fn sections_of(alloc: Global, meant: &Meant) -> Result<Sections<'_>, AllocError> {
    Ok(Sections {
        answers: groups_of(alloc, meant.answers.as_slice())?,
        authorities: groups_of(alloc, meant.authorities.as_slice())?,
        glue: groups_of(alloc, meant.glue.as_slice())?,
        additionals: groups_of(alloc, meant.additionals.as_slice())?,
    })
}

/// The response.
pub fn response_of<'g, 'm>(meant: &'m Meant, sections: &'g Sections<'m>) -> Response<'g, 'm> {
    Response {
        query: &meant.query,
        authoritative: meant.authoritative,
        code: meant.code,
        size: meant.size,
        answers: sections.answers.as_slice(),
        authorities: sections.authorities.as_slice(),
        glue: sections.glue.as_slice(),
        additionals: sections.additionals.as_slice(),
    }
}
