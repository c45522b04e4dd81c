//! Responses that are written.

use crate::limits::limits_answer;
use crate::meant::{Meant, read_meant, response_of, sections_of};
use alloc_failures::scarce_answer;
use line_text::{HexText, TextError};
use message_writing::{Response, WriteError, write_response};
use std::alloc::{AllocError, Global};

/// The answer to a call that writes a response.
pub fn written_answer(alloc: Global, verb: &str, words: &str) -> Result<String, TextError> {
    let meant = read_meant(alloc, words)?;
    Ok(answer_of(alloc, verb, &meant)?)
}

/// What becomes of a response.
fn answer_of(alloc: Global, verb: &str, meant: &Meant) -> Result<String, AllocError> {
    let sections = sections_of(alloc, meant)?;
    let response = response_of(meant, &sections);
    match verb {
        "write" | "length" => write_answer(alloc, verb, &response, meant.limit),
        "limits" => limits_answer(alloc, &response, meant.limit),
        _ => scarce_answer(alloc, || word_of(alloc, &response, meant.limit)),
    }
}

/// The octets of a response, or how many they are, or why there are none.
fn write_answer(
    alloc: Global,
    verb: &str,
    response: &Response<'_, '_>,
    limit: u16,
) -> Result<String, AllocError> {
    let mut out = Vec::new(alloc);
    match write_response(alloc, &mut out, response, limit) {
        Ok(()) if verb == "length" => format!(in alloc; "{} octets", out.len()),
        Ok(()) => format!(in alloc; "{}", HexText(out.as_slice())),
        Err(WriteError::NoRoom) => format!(in alloc; "no room"),
        Err(WriteError::BadCode) => format!(in alloc; "no such code"),
        Err(WriteError::Unwritable) => format!(in alloc; "unwritable"),
        Err(WriteError::Memory) => Err(AllocError),
    }
}

/// The word for whether a response is written; none if memory is refused, and no octets are left.
fn word_of(alloc: Global, response: &Response<'_, '_>, limit: u16) -> Option<&'static str> {
    let mut out = Vec::new(alloc);
    match write_response(alloc, &mut out, response, limit) {
        Ok(()) => Some("written"),
        Err(WriteError::Memory) if out.is_empty() => None,
        Err(_) => Some("not written"),
    }
}
