//! Octets in hex, read and printed.
ghost use Rattle.std.specs.Prelude.{◌≡◌, ◌<◌, Some, IfOk, option_map};
ghost use Rattle.std.specs.Char.{digit_char};
ghost use Rattle.line_text.specs.Hex.{hex_digit, hex_octets, hex_of_octet, hex_text, hex_word};

use crate::numbers::read_digit;
use std::alloc::{AllocError, Global};
use std::fmt;

/// Reads the octets that a word of hex writes: two digits each, in either case, and `-` for none. Gives None if the
/// word isn't hex.
pub fn read_hex(alloc: Global, word: &[u8]) -> Result<Option<Vec<u8>>, AllocError>
    ensures { IfOk result (λ octets. option_map (λ o. o.items) octets ≡ hex_word word.now) }
{
    match word {
        [] => Ok(None),
        [b'-'] => Ok(Some(Vec::new(alloc))),
        _ => read_octets(alloc, word),
    }
}

/// Reads the octets that hex digits write.
#[tactic(auto, using(crate::proofs::HexFacts::after_one_more, crate::proofs::HexFacts::after_none))]
fn read_octets(alloc: Global, digits: &[u8]) -> Result<Option<Vec<u8>>, AllocError>
    ensures { IfOk result (λ octets. option_map (λ o. o.items) octets ≡ hex_octets digits.now) }
{
    let mut octets = Vec::with_capacity(alloc, digits.len() / 2)?;
    let mut rest = digits;
    while let Some((high, others)) = rest.split_first() {
        let Some((low, others)) = others.split_first() else {
            return Ok(None);
        };
        let (Some(high), Some(low)) = (read_hex_digit(*high), read_hex_digit(*low)) else {
            return Ok(None);
        };
        octets.push(high * 16 + low)?;
        rest = others;
    }
    Ok(Some(octets))
}

/// Reads a hex digit in either case.
fn read_hex_digit(octet: u8) -> Option<u8>
    ensures { result ≡ hex_digit octet }
{
    Some(read_digit(octet, 16)? as u8)
}

/// Octets in hex, in lower case, and `-` for none.
#[derive(Drop)]
pub struct HexText<'r>(pub &'r [u8]);

impl fmt::Display for HexText<'_> {
    ghost output = { λ h. Some (hex_text h.0.now) };

    fn fmt<W: fmt::Write>(&self, f: &mut fmt::Formatter<W>) -> fmt::Result {
        if self.0.is_empty() {
            return write!(f, "-");
        }
        for octet in self.0 {
            write!(f, "{}", HexOctet(*octet))?;
        }
        Ok(())
    }
}

/// An octet in hex.
#[derive(Drop)]
pub(crate) struct HexOctet(pub u8);

impl fmt::Display for HexOctet {
    ghost output = { λ o. Some (hex_of_octet o.0) };

    fn fmt<W: fmt::Write>(&self, f: &mut fmt::Formatter<W>) -> fmt::Result {
        let high = digit_character(self.0 / 16);
        let low = digit_character(self.0 % 16);
        write!(f, "{high}{low}")
    }
}

/// The character of a digit of hex, in lower case.
fn digit_character(digit: u8) -> char
    requires { digit < 16 }
    ensures { result ≡ digit_char digit }
{
    char::from_digit(u32::from(digit), 16).unwrap_or('0')
}
