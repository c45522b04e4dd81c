//! Octets that one word writes: tags, groups of hex, octets with hyphens between them, addresses of access points.
ghost use Rattle.std.specs.Prelude.{◌≡◌, ◌≤◌, Ok, Some, None, IfOk, option_map, length};
ghost use Rattle.std.specs.Char.{is_ascii_alphanumeric};
ghost use Rattle.std.specs.List.{list_all};
ghost use Rattle.line_text.specs.Hex.{hex_octet};
ghost use Rattle.record_fields.specs.Readings.{Gives};
ghost use Rattle.record_fields.specs.Fields.{Left};
ghost use Rattle.record_fields.specs.Rows.{behind};
ghost use Rattle.record_fields.specs.Parts.{access_point_of_word, is_tag, next_access_point, next_certificate_type, next_digest_type, next_eui48, next_eui64, next_groups, next_scheme, next_tag, pairs_of, pairs_of_word, scheme_named, without_dots};

use crate::fault::{ReadError, Reason};
use crate::names::push_counted;
use crate::words::Words;
use line_text::{read_ipv6, read_u8};
use std::alloc::{AllocError, Global};
use zone_tokens::{read_certificate_type, read_digest_type, read_hex_digits, to_upper};

/// Takes the type of a digest.
pub(crate) fn take_digest_type(alloc: Global, words: &mut Words<'_>) -> Result<u8, ReadError>
    ensures { Gives (λ x. (x, words.new)) result (next_digest_type words.old) }
{
    let word = words.take()?;
    match read_digest_type(alloc, word.octets())? {
        Some(value) => Ok(value),
        None => Err(words.fault(Reason::DigestType)),
    }
}

/// Takes the type of a certificate.
pub(crate) fn take_certificate_type(alloc: Global, words: &mut Words<'_>) -> Result<u16, ReadError>
    ensures { Gives (λ x. (x, words.new)) result (next_certificate_type words.old) }
{
    let word = words.take()?;
    match read_certificate_type(alloc, word.octets())? {
        Some(value) => Ok(value),
        None => Err(words.fault(Reason::CertificateType)),
    }
}

/// Takes a scheme of notifications.
pub(crate) fn take_scheme(alloc: Global, words: &mut Words<'_>) -> Result<u8, ReadError>
    ensures { Gives (λ x. (x, words.new)) result (next_scheme words.old) }
{
    let word = words.take()?;
    match read_scheme(alloc, word.octets())? {
        Some(value) => Ok(value),
        None => Err(words.fault(Reason::Scheme)),
    }
}

/// Reads a scheme of notifications: its number, or the one mnemonic that is registered (RFC 9859 section 6.2). None if the word is
/// none.
fn read_scheme(alloc: Global, word: &[u8]) -> Result<Option<u8>, AllocError>
    ensures { IfOk result (λ scheme. scheme ≡ scheme_named word.now) }
{
    if let Some(number) = read_u8(word) {
        return Ok(Some(number));
    }
    let upper = to_upper(alloc, word)?;
    if upper.as_slice() == b"NOTIFY".as_slice() {
        Ok(Some(1))
    } else {
        Ok(None)
    }
}

/// Takes the tag of a CAA, and appends its octets behind their count.
pub(crate) fn push_tag(words: &mut Words<'_>, out: &mut Vec<u8>) -> Result<(), ReadError>
    ensures { Gives (λ _. (out.new.items, words.new)) result
        (behind out.old.items (next_tag words.old)) }
{
    let word = words.take()?;
    let tag = word.octets();
    if !is_tag(tag) || tag.len() > 255 {
        return Err(words.fault(Reason::Tag));
    }
    Ok(push_counted(tag, out)?)
}

/// Whether octets are a tag of a CAA: letters and digits, one at least (RFC 8659 section 4.1).
pub fn is_tag(octets: &[u8]) -> bool
    ensures { result ≡ is_tag octets.now }
{
    match octets {
        [] => false,
        [_, ..] => has_letters_and_digits(octets),
    }
}

fn has_letters_and_digits(octets: &[u8]) -> bool
    ensures { result ≡ list_all is_ascii_alphanumeric octets.now }
{
    octets.iter().all(|octet| octet.is_ascii_alphanumeric())
}

/// Takes 64 bits, written as four groups of hex digits, and appends them.
pub(crate) fn push_groups(
    alloc: Global,
    words: &mut Words<'_>,
    out: &mut Vec<u8>,
) -> Result<(), ReadError>
    ensures { Gives (λ _. (out.new.items, words.new)) result
        (behind out.old.items (next_groups words.old)) }
{
    let word = words.take()?;
    let mut text = Vec::from_slice(alloc, word.octets())?;
    text.extend_from_slice(b":0000:0000:0000:0000")?;
    match read_ipv6(text.as_slice()) {
        Some(address) => Ok(out.extend_from_slice(&address[..8])?),
        None => Err(words.fault(Reason::Groups)),
    }
}

/// Takes six octets, written with hyphens between them, and appends them.
pub(crate) fn push_eui48(
    alloc: Global,
    words: &mut Words<'_>,
    out: &mut Vec<u8>,
) -> Result<(), ReadError>
    ensures { Gives (λ _. (out.new.items, words.new)) result
        (behind out.old.items (next_eui48 words.old)) }
{
    let word = words.take()?;
    match pairs_of_word(alloc, 6, word.octets())? {
        Some(octets) => Ok(out.extend_from_slice(octets.as_slice())?),
        None => Err(words.fault(Reason::Eui48)),
    }
}

/// Takes eight octets, written with hyphens between them, and appends them.
pub(crate) fn push_eui64(
    alloc: Global,
    words: &mut Words<'_>,
    out: &mut Vec<u8>,
) -> Result<(), ReadError>
    ensures { Gives (λ _. (out.new.items, words.new)) result
        (behind out.old.items (next_eui64 words.old)) }
{
    let word = words.take()?;
    match pairs_of_word(alloc, 8, word.octets())? {
        Some(octets) => Ok(out.extend_from_slice(octets.as_slice())?),
        None => Err(words.fault(Reason::Eui64)),
    }
}

/// Takes the address of an access point, written in hex behind `0x`, and appends it.
pub(crate) fn push_access_point(
    alloc: Global,
    words: &mut Words<'_>,
    out: &mut Vec<u8>,
) -> Result<(), ReadError>
    ensures { Gives (λ _. (out.new.items, words.new)) result
        (behind out.old.items (next_access_point words.old)) }
{
    let word = words.take()?;
    match access_point_of_word(alloc, word.octets())? {
        Some(octets) => Ok(out.extend_from_slice(octets.as_slice())?),
        None => Err(words.fault(Reason::AccessPoint)),
    }
}

/// The octets that hex digits behind `0x` write, with dots between them or not.
fn access_point_of_word(alloc: Global, word: &[u8]) -> Result<Option<Vec<u8>>, AllocError>
    ensures { IfOk result
        (λ octets. option_map (λ o. o.items) octets ≡ access_point_of_word word.now) }
{
    match word {
        [b'0', b'x' | b'X', digits @ ..] => {
            let digits = without_dots(alloc, digits)?;
            read_hex_digits(alloc, digits.as_slice())
        }
        _ => Ok(None),
    }
}

/// A word without its dots.
fn without_dots(alloc: Global, word: &[u8]) -> Result<Vec<u8>, AllocError>
    ensures { IfOk result (λ octets. octets.items ≡ without_dots word.now) }
{
    word.iter()
        .copied()
        .filter(|octet| *octet != b'.')
        .collect(alloc)
}

/// The octets that pairs of hex digits with hyphens between them write, if they are so many.
fn pairs_of_word(alloc: Global, count: usize, word: &[u8]) -> Result<Option<Vec<u8>>, AllocError>
    ensures { IfOk result
        (λ octets. option_map (λ o. o.items) octets ≡ pairs_of_word count word.now) }
{
    match pairs_of(alloc, word)? {
        Some(octets) => {
            if octets.len() == count {
                Ok(Some(octets))
            } else {
                Ok(None)
            }
        }
        None => Ok(None),
    }
}

/// The octets that pairs of hex digits with hyphens between them write.
#[tactic(auto, using(crate::proofs::PairFacts::pair_step, crate::proofs::PairFacts::pair_last))]
fn pairs_of(alloc: Global, word: &[u8]) -> Result<Option<Vec<u8>>, AllocError>
    ensures { IfOk result (λ octets. option_map (λ o. o.items) octets ≡ pairs_of word.now) }
{
    let mut octets = Vec::new(alloc);
    let mut rest = word;
    while let Some((high, others)) = rest.split_first() {
        let Some((low, others)) = others.split_first() else {
            return Ok(None);
        };
        let Some(octet) = hex_octet(*high, *low) else {
            return Ok(None);
        };
        octets.push(octet)?;
        match others.split_first() {
            None => return Ok(Some(octets)),
            Some((b'-', more)) => rest = more,
            Some(_) => return Ok(None),
        }
    }
    Ok(None)
}

/// The octet that two hex digits write, the high one first.
fn hex_octet(high: u8, low: u8) -> Option<u8>
    ensures { result ≡ hex_octet high low }
{
    let high = char::from(high).to_digit(16)?;
    let low = char::from(low).to_digit(16)?;
    Some((high * 16 + low) as u8)
}
