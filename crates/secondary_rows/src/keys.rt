//! Files of keys, read.

use key_files::{Algorithm, KeyEntry, KeyFileError, read_keys};
use line_text::{HexText, TextError};
use std::alloc::{AllocError, Global};

/// The keys of a text, or its first fault.
pub fn keys_answer(alloc: Global, words: &str) -> Result<String, TextError> {
    let text = with_line_breaks(alloc, words.as_bytes())?;
    match read_keys(alloc, text.as_slice()) {
        Ok(entries) => Ok(entries_answer(alloc, entries.as_slice())?),
        Err(KeyFileError::Memory) => Err(TextError::Memory),
        Err(KeyFileError::Fault(fault)) => Ok(format!(in alloc; "{fault}")?),
    }
}

/// A text with its line breaks.
pub fn with_line_breaks(alloc: Global, octets: &[u8]) -> Result<Vec<u8>, AllocError> {
    let mut text = Vec::new(alloc);
    let mut is_escape = false;
    for octet in octets {
        if is_escape {
            text.push(escaped(*octet))?;
            is_escape = false;
        } else if *octet == b'\\' {
            is_escape = true;
        } else {
            text.push(*octet)?;
        }
    }
    Ok(text)
}

/// The octet that is written by another behind a backslash.
fn escaped(octet: u8) -> u8 {
    match octet {
        b'n' => b'\n',
        b'r' => b'\r',
        _ => octet,
    }
}

/// Keys, as rows write them.
fn entries_answer(alloc: Global, entries: &[KeyEntry]) -> Result<String, AllocError> {
    let mut text = String::new(alloc);
    for entry in entries {
        let word = algorithm_word(entry.algorithm);
        write!(
            text,
            "{} {word} {};",
            entry.name,
            HexText(entry.secret.as_slice())
        )?;
    }
    Ok(text)
}

/// The name of an algorithm.
fn algorithm_word(algorithm: Algorithm) -> &'static str {
    match algorithm {
        Algorithm::Sha1 => "hmac-sha1",
        Algorithm::Sha224 => "hmac-sha224",
        Algorithm::Sha256 => "hmac-sha256",
        Algorithm::Sha384 => "hmac-sha384",
        Algorithm::Sha512 => "hmac-sha512",
    }
}
