//! Requests that are signed, and their responses checked.

use crate::checking::error_word;
use compared_rows::read_octets;
use line_text::{HexText, TextError, Words, read_hex};
use message_tsig::{CheckedResponse, Key, ResponseChecker, ResponseFault, sign_request};
use std::alloc::{AllocError, Global};

/// Reads the number of a key, the first of which is 1.
fn read_number<'k>(keys: &'k [Key], words: &mut Words<'_>) -> Result<&'k Key, TextError> {
    let number = usize::from(words.take_u16()?);
    match keys.get(number.saturating_sub(1)) {
        Some(key) => Ok(key),
        None => Err(TextError::BadText),
    }
}

/// A request, signed.
pub fn ask_answer(alloc: Global, keys: &[Key], mut words: Words<'_>) -> Result<String, TextError> {
    let key = read_number(keys, &mut words)?;
    let moment = words.take_u64()?;
    let fudge = words.take_u16()?;
    let request = read_octets(alloc, &mut words)?;
    words.end()?;
    let signed = sign_request(alloc, key, moment, fudge, request.as_slice())?;
    Ok(format!(in alloc;
        "{} {}",
        HexText(signed.mac.as_slice()),
        HexText(signed.message.as_slice())
    )?)
}

/// What the messages of a response to a request with a MAC are found to be, and whether the response may end with the last.
pub fn answers_answer(
    alloc: Global,
    keys: &[Key],
    mut words: Words<'_>,
) -> Result<String, TextError> {
    let key = read_number(keys, &mut words)?;
    let moment = words.take_u64()?;
    let mac = read_octets(alloc, &mut words)?;
    let mut checker = ResponseChecker::new(alloc, mac.as_slice())?;
    let mut text = String::new(alloc);
    for _ in 0..u16::MAX {
        let Some(word) = words.take() else {
            break;
        };
        let Some(message) = read_hex(alloc, word)? else {
            return Err(TextError::BadText);
        };
        let found = checker.check(alloc, key, moment, message.as_slice())?;
        let said = found_answer(alloc, &found)?;
        write!(text, "{said} ")?;
    }
    let end = if checker.is_complete() {
        "complete"
    } else {
        "incomplete"
    };
    Ok(format!(in alloc; "{text}{end}")?)
}

/// What a message is found to be.
fn found_answer(alloc: Global, found: &CheckedResponse) -> Result<String, AllocError> {
    match found {
        CheckedResponse::Signed(_, rest) => {
            format!(in alloc; "signed {}", HexText(rest.as_slice()))
        }
        CheckedResponse::Unsigned => format!(in alloc; "unsigned"),
        CheckedResponse::Refused(tsig) => {
            format!(in alloc; "refused {} {}", tsig.error, HexText(tsig.other.as_slice()))
        }
        CheckedResponse::RefusedUnsigned(tsig) => {
            format!(in alloc; "refused-unsigned {}", tsig.error)
        }
        CheckedResponse::Wrong(ResponseFault::Missing) => format!(in alloc; "missing"),
        CheckedResponse::Wrong(ResponseFault::Malformed) => format!(in alloc; "malformed"),
        CheckedResponse::Wrong(ResponseFault::Tsig(error)) => {
            format!(in alloc; "{}", error_word(*error))
        }
    }
}
