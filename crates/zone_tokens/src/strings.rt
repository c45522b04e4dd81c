//! Strings of octets.
ghost use Rattle.std.specs.Prelude.{◌≡◌, IfOk, option_map};
ghost use Rattle.zone_tokens.specs.Strings.{escape_step, octets_of_text, string_of_word};

use std::alloc::{AllocError, Global};

/// What comes before an octet of a string.
#[derive(Clone, Copy, PartialEq, Eq, Debug)]
pub(crate) enum Escape {
    /// No escape.
    NoEscape,
    /// A backslash.
    Backslash,
    /// A backslash and a digit of this value.
    OneDigit(u8),
    /// A backslash and two digits of this value.
    TwoDigits(u16),
}

/// Reads the octets of a string from its text (RFC 1035 section 5.1): a backslash and three decimal digits are the
/// octet of that value, a backslash and another octet are that octet, and any other octet is itself. None if the word
/// is no such text: a backslash is its last octet, or digits behind one are too few or write more than 255.
pub fn read_octets(alloc: Global, word: &[u8]) -> Result<Option<Vec<u8>>, AllocError>
    ensures { IfOk result (λ octets. option_map (λ o. o.items) octets ≡ octets_of_text word.now) }
{
    let mut octets = Vec::new(alloc);
    let mut escape = Escape::NoEscape;
    for octet in word {
        let Some((whole, next)) = escape_step(escape, *octet) else {
            return Ok(None);
        };
        if let Some(whole) = whole {
            octets.push(whole)?;
        }
        escape = next;
    }
    match escape {
        Escape::NoEscape => Ok(Some(octets)),
        _ => Ok(None),
    }
}

/// Takes an octet of the text: gives the octet of the string that is whole then, if one is, and what precedes the next.
fn escape_step(escape: Escape, octet: u8) -> Option<(Option<u8>, Escape)>
    ensures { result ≡ escape_step escape octet }
{
    match escape {
        Escape::NoEscape => {
            if octet == b'\\' {
                Some((None, Escape::Backslash))
            } else {
                Some((Some(octet), Escape::NoEscape))
            }
        }
        Escape::Backslash => {
            if octet.is_ascii_digit() {
                Some((None, Escape::OneDigit(octet - b'0')))
            } else {
                Some((Some(octet), Escape::NoEscape))
            }
        }
        Escape::OneDigit(tens) => {
            if !octet.is_ascii_digit() {
                return None;
            }
            Some((
                None,
                Escape::TwoDigits(u16::from(tens) * 10 + u16::from(octet - b'0')),
            ))
        }
        Escape::TwoDigits(tens) => {
            if !octet.is_ascii_digit() {
                return None;
            }
            let value = u32::from(tens) * 10 + u32::from(octet - b'0');
            if value > 255 {
                return None;
            }
            Some((Some(value as u8), Escape::NoEscape))
        }
    }
}

/// Reads a string as data have it: its length in one octet, and its octets (RFC 1035 section 3.3). None if the word is
/// no text of a string, or has more than 255 octets.
pub fn read_string(alloc: Global, word: &[u8]) -> Result<Option<Vec<u8>>, AllocError>
    ensures { IfOk result (λ octets. option_map (λ o. o.items) octets ≡ string_of_word word.now) }
{
    let Some(octets) = read_octets(alloc, word)? else {
        return Ok(None);
    };
    if octets.len() > 255 {
        return Ok(None);
    }
    let mut string = Vec::with_capacity(alloc, octets.len() + 1)?;
    string.push(octets.len() as u8)?;
    string.extend_from_slice(octets.as_slice())?;
    Ok(Some(string))
}
