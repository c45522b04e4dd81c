//! Words of rows that mean keys and algorithms.

use compared_rows::read_octets;
use line_text::{TextError, Words, read_name};
use message_tsig::{Algorithm, Key, KeyZones, Secret};
use std::alloc::Global;
use zone_proto::LowerName;

/// Reads the name of an algorithm (RFC 8945 section 6).
pub fn read_algorithm(words: &mut Words<'_>) -> Result<Algorithm, TextError> {
    match words.take_needed()? {
        b"hmac-sha1" => Ok(Algorithm::Sha1),
        b"hmac-sha224" => Ok(Algorithm::Sha224),
        b"hmac-sha256" => Ok(Algorithm::Sha256),
        b"hmac-sha384" => Ok(Algorithm::Sha384),
        b"hmac-sha512" => Ok(Algorithm::Sha512),
        _ => Err(TextError::BadText),
    }
}

/// Reads a key.
pub fn read_key(alloc: Global, words: &mut Words<'_>) -> Result<Key, TextError> {
    let name = read_name(alloc, words)?;
    let algorithm = read_algorithm(words)?;
    let secret = read_octets(alloc, words)?;
    words.end()?;
    Ok(Key {
        name: LowerName::new(&name)?,
        algorithm,
        secret: Secret::new(secret),
        zones: KeyZones::All,
    })
}
