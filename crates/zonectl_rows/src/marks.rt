//! Octets that are in a text as marks: `%{7f}` is the octet 7f, and `%{7f*3}` three of them.

use std::alloc::{AllocError, Global};

/// The octets of a text with marks; `%{}` is none. None if a mark can't be read.
pub fn read(alloc: Global, text: &str) -> Result<Option<Vec<u8>>, AllocError> {
    let mut octets = Vec::new(alloc);
    for (i, part) in text.split("%{").enumerate() {
        let plain = match part.split_once("}") {
            Some((mark, plain)) if i > 0 => {
                let Some((octet, count)) = octets_of(mark) else {
                    return Ok(None);
                };
                for _ in 0..count {
                    octets.push(octet)?;
                }
                plain
            }
            _ if i > 0 => return Ok(None),
            _ => part,
        };
        octets.extend_from_slice(plain.as_bytes())?;
    }
    Ok(Some(octets))
}

/// The octet of a mark, and how often it is there.
fn octets_of(mark: &str) -> Option<(u8, usize)> {
    if mark.is_empty() {
        return Some((0, 0));
    }
    let (octet, count) = mark.split_once("*").unwrap_or((mark, "1"));
    let octet = u8::from_str_radix(octet, 16).ok()?;
    Some((octet, count.parse::<usize>().ok()?))
}
