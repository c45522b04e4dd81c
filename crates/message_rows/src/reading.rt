//! Messages that are read.

use crate::text::{message_text, query_text};
use alloc_failures::scarce_answer;
use compared_rows::octets_of;
use line_text::{DataText, TextError};
use message_reading::{MessageError, ReadError, plain_data_of, read_message, read_query};
use std::alloc::Global;
use zone_proto::RecordType;

/// The word for octets that are read.
const READ: &str = "read";

/// The answer to a call that reads octets.
pub fn read_answer(alloc: Global, verb: &str, words: &str) -> Result<String, TextError> {
    match verb {
        "query" => Ok(query_text(alloc, octets_of(alloc, words)?.as_slice())?),
        "message" => Ok(message_text(alloc, octets_of(alloc, words)?.as_slice())?),
        "data" => data_answer(alloc, words),
        "fronts" => fronts_answer(alloc, words),
        "refusals" => refusals_answer(alloc, words),
        _ => Err(TextError::BadText),
    }
}

/// The data of a type that hex writes behind it.
fn data_answer(alloc: Global, words: &str) -> Result<String, TextError> {
    let (word, hex) = words.split_once(" ").ok_or(TextError::BadText)?;
    let record_type = RecordType::from_text(word).ok_or(TextError::BadText)?;
    let octets = octets_of(alloc, hex)?;
    match plain_data_of(alloc, record_type, octets.as_slice())? {
        Some(rdata) => Ok(format!(in alloc; "{}", DataText(&rdata))?),
        None => Ok(format!(in alloc; "malformed")?),
    }
}

/// The word for whether octets are read as a query or as a message; none if memory is refused.
fn word_of(alloc: Global, kind: &str, octets: &[u8]) -> Option<&'static str> {
    if kind == "query" {
        match read_query(alloc, octets) {
            Ok(_) => Some(READ),
            Err(ReadError::Memory) => None,
            Err(_) => Some("malformed"),
        }
    } else {
        match read_message(alloc, octets) {
            Ok(_) => Some(READ),
            Err(MessageError::Memory) => None,
            Err(MessageError::Malformed) => Some("malformed"),
        }
    }
}

/// How many proper fronts of the octets are read that hex writes behind their kind.
fn fronts_answer(alloc: Global, words: &str) -> Result<String, TextError> {
    let (kind, hex) = words.split_once(" ").ok_or(TextError::BadText)?;
    let octets = octets_of(alloc, hex)?;
    let mut read = 0usize;
    for count in 0..octets.len() {
        if word_of(alloc, kind, &octets[..count]) == Some(READ) {
            read = read.saturating_add(1);
        }
    }
    Ok(format!(in alloc; "{read} of {} read", octets.len())?)
}

/// Whether reading the octets that hex writes behind their kind was refused memory, and whether they were read then.
fn refusals_answer(alloc: Global, words: &str) -> Result<String, TextError> {
    let (kind, hex) = words.split_once(" ").ok_or(TextError::BadText)?;
    let octets = octets_of(alloc, hex)?;
    Ok(scarce_answer(alloc, || word_of(alloc, kind, octets.as_slice()))?)
}
