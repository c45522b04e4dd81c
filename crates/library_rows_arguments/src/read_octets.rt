//! Reads octets.

use crate::fault::Fault;
use crate::read_arguments::take_text;
use line_text::{TextError, Words, read_hex};
use std::alloc::Global;

/// Reads octets in hex, `-` for none, which `*` and a number after them repeat.
pub fn read_octets(alloc: Global, words: &mut Words<'_>) -> Result<Vec<u8>, TextError> {
    let word = take_text(words);
    match word.split_once('*') {
        Some((part, count)) => repeated(alloc, part, count),
        None => octets_of(alloc, word),
    }
}

/// The octets that a word of hex writes.
fn octets_of(alloc: Global, word: &str) -> Result<Vec<u8>, TextError> {
    match read_hex(alloc, word.as_bytes()) {
        Ok(octets) => octets.ok_or(TextError::BadText),
        Err(_) => Err(TextError::Memory),
    }
}

fn repeated(alloc: Global, part: &str, count: &str) -> Result<Vec<u8>, TextError> {
    let count = count.parse::<u16>().ok().ok_or(TextError::BadText)?;
    let word = part.repeat(alloc, usize::from(count))?;
    octets_of(alloc, word.as_str())
}

/// Reads the octets that are left of a row.
pub fn read_labels(
    alloc: Global,
    labels: &mut Vec<Vec<u8>>,
    fault: &mut Fault,
    words: &mut Words<'_>,
) {
    for _ in 0..u64::MAX {
        match words.take() {
            Some(word) => fault.push(labels, read_octets(alloc, &mut Words::new(word))),
            None => break,
        }
    }
}
