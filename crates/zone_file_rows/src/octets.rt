//! The octets that a row writes.

use std::alloc::{AllocError, Global};

/// The octets of a row: those of its text, but for `{10}`, which is an octet by its number, and `{97x300}`, which is one so
/// many times.
pub fn octets_of(alloc: Global, row: &str) -> Result<Vec<u8>, AllocError> {
    let mut octets = Vec::new(alloc);
    for part in row.split('{') {
        match part.split_once('}') {
            Some((number, rest)) => {
                push_numbered(&mut octets, number)?;
                octets.extend_from_slice(rest.as_bytes())?;
            }
            None => octets.extend_from_slice(part.as_bytes())?,
        }
    }
    Ok(octets)
}

/// Adds an octet by its number, and as often as the number behind an `x` says.
fn push_numbered(octets: &mut Vec<u8>, text: &str) -> Result<(), AllocError> {
    let (number, count) = text.split_once('x').unwrap_or((text, "1"));
    let octet = number.parse::<u8>().unwrap_or(b'?');
    for _ in 0..count.parse::<u32>().unwrap_or(0) {
        octets.push(octet)?;
    }
    Ok(())
}
