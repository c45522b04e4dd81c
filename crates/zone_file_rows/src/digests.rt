//! The digests of the zones that records of zone files make.

use crate::loading::loaded;
use crate::octets::octets_of;
use crate::zone::{error_line, read};
use alloc_failures::until_given;
use std::alloc::{AllocError, Global};
use std::fmt::Write;
use zone_builder::Loaded;
use zone_digest::{DigestAlgorithm, zone_digest};

/// The answer to a row, which is `sha384` or `sha512`, an origin and a zone file: the digest of the zone in hex; behind `refused, then`
/// where memory was refused before.
pub fn answer(alloc: Global, row: &str) -> Result<String, AllocError> {
    let (algorithm, rest) = row.split_once(' ').unwrap_or((row, ""));
    let (origin, text) = rest.split_once(' ').unwrap_or((rest, ""));
    let text = octets_of(alloc, text)?;
    match read(alloc, origin, text.as_slice()) {
        Ok(records) => match loaded(alloc, origin, records.as_slice()) {
            Ok(loaded) => digest_answer(alloc, algorithm_of(algorithm), &loaded),
            Err(fault) => format!(in alloc; "no zone: {fault}"),
        },
        Err(error) => error_line(alloc, &error),
    }
}

/// The algorithm of a word.
fn algorithm_of(word: &str) -> DigestAlgorithm {
    match word {
        "sha512" => DigestAlgorithm::Sha512,
        _ => DigestAlgorithm::Sha384,
    }
}

/// The digest of a zone, with a little more memory each time.
fn digest_answer(
    alloc: Global,
    algorithm: DigestAlgorithm,
    loaded: &Loaded,
) -> Result<String, AllocError> {
    match until_given(alloc, || digest(alloc, algorithm, loaded))? {
        None => format!(in alloc; "refused"),
        Some((0, digest)) => told(alloc, "", digest.as_slice()),
        Some((_, digest)) => told(alloc, "refused, then ", digest.as_slice()),
    }
}

/// The digest of a zone; none if memory was refused.
fn digest(alloc: Global, algorithm: DigestAlgorithm, loaded: &Loaded) -> Option<Vec<u8>> {
    zone_digest(alloc, algorithm, &loaded.origin, &loaded.records).ok()
}

/// Octets in hex.
fn told(alloc: Global, before: &str, octets: &[u8]) -> Result<String, AllocError> {
    let mut line = format!(in alloc; "{before}")?;
    for octet in octets {
        write!(line, "{octet:02x}")?;
    }
    Ok(line)
}
