//! Octets as rows write them.

use line_text::{TextError, Words, read_hex};
use std::alloc::Global;

/// Reads octets from the next word: hex, or `-` for none. Refused by `BadText` where there is no word, or another one.
pub fn read_octets(alloc: Global, words: &mut Words<'_>) -> Result<Vec<u8>, TextError> {
    read_hex(alloc, words.take_needed()?)?.ok_or(TextError::BadText)
}

/// The octets that a text writes in hex, in which spaces are passed over, or `-` for none. Refused by `BadText` where it writes none.
pub fn octets_of(alloc: Global, hex: &str) -> Result<Vec<u8>, TextError> {
    let digits = hex.replace(alloc, " ", "")?;
    read_hex(alloc, digits.as_bytes())?.ok_or(TextError::BadText)
}
