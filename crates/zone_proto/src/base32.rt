//! Digests in base32hex, as the owners of NSEC3 sets have them and as NSEC3 records are printed.
ghost use Rattle.std.specs.Prelude.{◌≡◌, ◌<◌, ◌+◌, ◌*◌, ◌/◌, length, slice_index, string_bytes, Some, IfOk, IsOkUnless};
ghost use Rattle.std.specs.Char.{digit_char};
ghost use Rattle.zone_proto.specs.Base32.{base32_count, base32_text, five_bits};

use crate::error::ProtoError;
use std::alloc::Global;
use std::fmt;

/// The text of octets in base32hex: five bits a character from the highest on, the last one filled with zero bits, in
/// lower case and without padding (RFC 4648 section 7, RFC 5155 section 3.3). Fails only for lack of memory.
pub fn base32_dnssec(alloc: Global, octets: &[u8]) -> Result<String, ProtoError>
    ensures ok { IfOk result (λ text. string_bytes text ≡ base32_text octets.now) }
    ensures err { IsOkUnless result ProtoError.Memory }
{
    let mut text = String::with_capacity(alloc, character_count(octets))?;
    for i in 0..character_count(octets) {
        text.push(character(five_bits(octets, i)))?;
    }
    Ok(text)
}

/// Octets, printed in base32hex as `base32_dnssec` writes them.
#[derive(Drop)]
pub struct Base32Text<'r>(pub &'r [u8]);

impl fmt::Display for Base32Text<'_> {
    ghost output = { λ o. Some (base32_text o.0.now) };

    fn fmt<W: fmt::Write>(&self, f: &mut fmt::Formatter<W>) -> fmt::Result {
        for i in 0..character_count(self.0) {
            write!(f, "{}", character(five_bits(self.0, i)))?;
        }
        Ok(())
    }
}

/// The character that stands for a number of five bits: from `0` to `9` and then from `a` to `v`.
fn character(number: u8) -> char
    requires { number < 32 }
    ensures { result ≡ digit_char number }
{
    if number < 10 {
        (b'0' + number) as char
    } else {
        (b'a' + (number - 10)) as char
    }
}

/// How many characters octets take, the last one for what is left over.
fn character_count(octets: &[u8]) -> usize
    ensures { result ≡ base32_count (length octets.now) }
{
    octets.len() / 5 * 8 + (octets.len() % 5 * 8).div_ceil(5)
}

/// The number of the five bits that the character at this index stands for; zero bits follow the last octet.
fn five_bits(octets: &[u8], i: usize) -> u8
    ensures value { result ≡ five_bits octets.now (i * 5) }
    ensures small { result < 32 }
{
    // Eight characters stand for five octets.
    let bit = i % 8 * 5;
    let at = i / 8 * 5 + bit / 8;
    let pair = u32::from(octet_at(octets, at)) * 256 + u32::from(octet_at(octets, at + 1));
    ((pair >> (11 - bit % 8)) % 32) as u8
}

/// The octet at an index, and 0 past the end.
fn octet_at(octets: &[u8], at: usize) -> u8
    ensures { result ≡ slice_index octets.now at }
{
    octets.get(at).copied().unwrap_or(0)
}
