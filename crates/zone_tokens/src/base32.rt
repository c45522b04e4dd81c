//! Octets that are written in base32hex.
ghost use Rattle.std.specs.Prelude.{◌≡◌, ◌<◌, ◌*◌, length, map, IfOk, option_map, string_bytes};
ghost use Rattle.std.specs.Char.{to_ascii_lowercase};
ghost use Rattle.zone_proto.specs.Base32.{base32_text};
ghost use Rattle.zone_tokens.specs.Base32.{base32_octets, five_bits_at, octet_from, octets_in};

use std::alloc::{AllocError, Global};
use zone_proto::base32_dnssec;

/// Reads octets from base32hex without padding, letters in either case (RFC 4648 section 7), as an NSEC3 has its next
/// hash (RFC 5155 section 3.3). None if the word isn't that, or where bits that are left over behind the last octet
/// aren't zero.
pub fn read_base32(alloc: Global, word: &[u8]) -> Result<Option<Vec<u8>>, AllocError>
    ensures { IfOk result
        (λ octets. option_map (λ o. o.items) octets ≡ base32_octets word.now) }
{
    let octets = octets_in(alloc, word)?;
    let text = text_of(alloc, octets.as_slice())?;
    let lower = to_lower(alloc, word)?;
    if text.as_bytes() == lower.as_slice() {
        Ok(Some(octets))
    } else {
        Ok(None)
    }
}

/// The octets that a word has the bits of.
#[tactic(auto, using(crate::proofs::Base32Facts::next_octet, crate::proofs::Base32Facts::all_octets))]
fn octets_in(alloc: Global, word: &[u8]) -> Result<Vec<u8>, AllocError>
    ensures { IfOk result (λ octets. octets.items ≡ octets_in word.now) }
{
    // Eight characters stand for five octets.
    let count = word.len() / 8 * 5 + word.len() % 8 * 5 / 8;
    let mut octets = Vec::with_capacity(alloc, count)?;
    for k in 0..count {
        octets.push(octet_at(word, k))?;
    }
    Ok(octets)
}

/// The octet at an index among those that a word has the bits of.
fn octet_at(word: &[u8], k: usize) -> u8
    requires { k * 8 < length word.now * 5 }
    ensures { result ≡ octet_from word.now (k * 8) }
{
    let bit = k % 5 * 8;
    let at = k / 5 * 8 + bit / 5;
    let bits = five_bits_at(word, at) * 1024
        + five_bits_at(word, at + 1) * 32
        + five_bits_at(word, at + 2);
    ((bits >> (7 - bit % 5)) % 256) as u8
}

/// The number of five bits that the character at an index stands for.
fn five_bits_at(word: &[u8], at: usize) -> u32
    ensures value { result ≡ five_bits_at word.now at }
    ensures small { result < 32 }
{
    let octet = word.get(at).copied().unwrap_or(0);
    char::from(octet).to_digit(32).unwrap_or(0)
}

/// The text of octets in base32hex.
fn text_of(alloc: Global, octets: &[u8]) -> Result<String, AllocError>
    ensures { IfOk result (λ text. string_bytes text ≡ base32_text octets.now) }
{
    match base32_dnssec(alloc, octets) {
        Ok(text) => Ok(text),
        Err(_) => Err(AllocError),
    }
}

/// A copy of a word in lower case: its letters of ASCII.
fn to_lower(alloc: Global, word: &[u8]) -> Result<Vec<u8>, AllocError>
    ensures { IfOk result (λ w. w.items ≡ map to_ascii_lowercase word.now) }
{
    word.iter()
        .map(|octet| octet.to_ascii_lowercase())
        .collect(alloc)
}
