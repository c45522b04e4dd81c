//! How a word is read by itself.

use crate::octets::octets_of;
use line_text::HexText;
use std::alloc::{AllocError, Global};
use std::fmt::Display;
use zone_proto::{Name, ProtoError};
use zone_tokens::{
    read_algorithm, read_base64, read_class, read_hex_digits, read_ipv4_word, read_ipv6_word,
    read_moment, read_name_under, read_octets, read_salt, read_string, read_ttl, read_type_word,
};

/// What a word is read as: the first word of a row says by which call, and the rest is the word. `name` has the origin before
/// its word.
pub fn answer(alloc: Global, row: &str) -> Result<String, AllocError> {
    let (call, rest) = row.split_once(' ').unwrap_or((row, ""));
    if call == "name" {
        let (origin, rest) = rest.split_once(' ').unwrap_or((rest, ""));
        let word = octets_of(alloc, rest)?;
        return name_answer(alloc, origin, word.as_slice());
    }
    let word = octets_of(alloc, rest)?;
    match call {
        "octets" | "string" | "hex" | "salt" | "base64" => list_answer(
            alloc,
            call,
            word.as_slice(),
        ),
        "ipv4" | "ipv6" => address_answer(alloc, call, word.as_slice()),
        _ => number_answer(alloc, call, word.as_slice()),
    }
}

/// A name, or why it isn't read.
fn name_answer(alloc: Global, origin: &str, word: &[u8]) -> Result<String, AllocError> {
    match read_name(alloc, origin, word) {
        Ok(name) => format!(in alloc; "{name}"),
        Err(ProtoError::Memory) => Err(AllocError),
        Err(error) => format!(in alloc; "{error}"),
    }
}

fn read_name(alloc: Global, origin: &str, word: &[u8]) -> Result<Name, ProtoError> {
    let origin = Name::parse(alloc, origin)?;
    read_name_under(alloc, &origin, word)
}

/// Octets in hex.
fn list_answer(alloc: Global, call: &str, word: &[u8]) -> Result<String, AllocError> {
    let octets = match call {
        "octets" => read_octets(alloc, word)?,
        "string" => read_string(alloc, word)?,
        "hex" => read_hex_digits(alloc, word)?,
        "salt" => read_salt(alloc, word)?,
        _ => read_base64(alloc, word)?,
    };
    match octets {
        Some(octets) => format!(in alloc; "{}", HexText(octets.as_slice())),
        None => none(alloc),
    }
}

/// The octets of an address in hex.
fn address_answer(alloc: Global, call: &str, word: &[u8]) -> Result<String, AllocError> {
    if call == "ipv4" {
        return match read_ipv4_word(word) {
            Some(address) => format!(in alloc; "{}", HexText(&address)),
            None => none(alloc),
        };
    }
    match read_ipv6_word(alloc, word)? {
        Some(address) => format!(in alloc; "{}", HexText(&address)),
        None => none(alloc),
    }
}

/// A number, or a type or a class as it is printed.
fn number_answer(alloc: Global, call: &str, word: &[u8]) -> Result<String, AllocError> {
    match call {
        "ttl" => told(alloc, &read_ttl(word)),
        "moment" => told(alloc, &read_moment(word)),
        "type" => told(alloc, &read_type_word(alloc, word)?),
        "class" => told(alloc, &read_class(alloc, word)?),
        "algorithm" => told(alloc, &read_algorithm(alloc, word)?),
        _ => format!(in alloc; "an unknown call"),
    }
}

fn told<T: Display>(alloc: Global, value: &Option<T>) -> Result<String, AllocError> {
    match value {
        Some(value) => format!(in alloc; "{value}"),
        None => none(alloc),
    }
}

fn none(alloc: Global) -> Result<String, AllocError> {
    format!(in alloc; "none")
}
