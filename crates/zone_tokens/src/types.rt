//! Types, classes and algorithms.
ghost use Rattle.std.specs.Prelude.{◌≡◌, ◌==◌, Some, None, IfOk, option_map};
ghost use Rattle.std.specs.Char.{to_ascii_uppercase};
ghost use Rattle.std.specs.List.{list_all};
ghost use Rattle.zone_proto.specs.TypeText.{number_of};
ghost use Rattle.zone_tokens.specs.Types.{algorithm_named, algorithm_words, certificate_type_named, certificate_type_words, class_named, digest_type_named, digest_type_words, further_type, type_by_number, type_named, upper, upper_class, upper_type};

use crate::registry;
use line_text::{read_u8, read_u16};
use std::alloc::{AllocError, Global};
use std::str;
use zone_proto::{DNSClass, RecordType};

/// Reads a type by its word in the registry of types, in any case, or as `TYPE` and its number (RFC 3597 section 5).
/// None if the word is neither.
#[tactic(auto, using(crate::proofs::WordTexts::type_as_is))]
pub fn read_type_word(alloc: Global, word: &[u8]) -> Result<Option<RecordType>, AllocError>
    ensures { IfOk result (λ t. t ≡ type_named word.now) }
{
    if is_upper(word) {
        return Ok(type_of(word));
    }
    let upper = to_upper(alloc, word)?;
    Ok(type_of(upper.as_slice()))
}

/// Reads a class by its word, in any case: `IN`, `CH`, `HS`, or `CLASS` and the number of one of these (RFC 3597
/// section 5). None if the word is neither.
#[tactic(auto, using(crate::proofs::WordTexts::class_as_is))]
pub fn read_class(alloc: Global, word: &[u8]) -> Result<Option<DNSClass>, AllocError>
    ensures { IfOk result (λ c. c ≡ class_named word.now) }
{
    if is_upper(word) {
        return Ok(class_of(word));
    }
    let upper = to_upper(alloc, word)?;
    Ok(class_of(upper.as_slice()))
}

/// Reads an algorithm of DNSSEC by its number, or by its mnemonic in any case, as `RSASHA256` (RFC 4034 sections 2.2,
/// 3.2 and 5.3). None if the word is neither.
pub fn read_algorithm(alloc: Global, word: &[u8]) -> Result<Option<u8>, AllocError>
    ensures { IfOk result (λ a. a ≡ algorithm_named word.now) }
{
    if let Some(number) = read_u8(word) {
        return Ok(Some(number));
    }
    let upper = to_upper(alloc, word)?;
    Ok(algorithm_of(upper.as_slice()))
}

/// Reads the type of a digest by its number, or by its mnemonic in any case, as `SHA-256` (RFC 4034 appendix A.2). None if the
/// word is neither.
pub fn read_digest_type(alloc: Global, word: &[u8]) -> Result<Option<u8>, AllocError>
    ensures { IfOk result (λ d. d ≡ digest_type_named word.now) }
{
    if let Some(number) = read_u8(word) {
        return Ok(Some(number));
    }
    let upper = to_upper(alloc, word)?;
    Ok(digest_type_of(upper.as_slice()))
}

/// Reads the type of a certificate by its number, or by its mnemonic in any case, as `PKIX` (RFC 4398 section 2.1). None if the
/// word is neither.
pub fn read_certificate_type(alloc: Global, word: &[u8]) -> Result<Option<u16>, AllocError>
    ensures { IfOk result (λ c. c ≡ certificate_type_named word.now) }
{
    if let Some(number) = read_u16(word) {
        return Ok(Some(number));
    }
    let upper = to_upper(alloc, word)?;
    Ok(certificate_type_of(upper.as_slice()))
}

/// A copy of a word in upper case: its letters of ASCII.
pub fn to_upper(alloc: Global, word: &[u8]) -> Result<Vec<u8>, AllocError>
    ensures { IfOk result (λ w. w.items ≡ upper word.now) }
{
    word.iter()
        .map(|octet| octet.to_ascii_uppercase())
        .collect(alloc)
}

/// Whether a word is its own copy in upper case.
fn is_upper(word: &[u8]) -> bool
    ensures { result ≡ list_all (λ b. to_ascii_uppercase b == b) word.now }
{
    word.iter()
        .all(|octet| octet.to_ascii_uppercase() == *octet)
}

/// The type that a word in upper case names.
#[tactic(auto, using(crate::proofs::WordTexts::types))]
fn type_of(word: &[u8]) -> Option<RecordType>
    ensures { result ≡ upper_type word.now }
{
    let Ok(text) = str::from_utf8(word) else {
        return None;
    };
    match RecordType::from_text(text) {
        Some(known) => Some(known),
        None => further_type(text),
    }
}

/// The type that a word of the registry names, but for those that `RecordType` reads.
fn further_type(text: &str) -> Option<RecordType>
    ensures { result ≡ option_map type_by_number (further_type text.now) }
{
    Some(RecordType(further_number(text)?))
}

fn further_number(text: &str) -> Option<u16>
    ensures { result ≡ further_type text.now }
{
    if let Some(number) = registry::first_type(text) {
        return Some(number);
    }
    if let Some(number) = registry::second_type(text) {
        return Some(number);
    }
    if let Some(number) = registry::third_type(text) {
        return Some(number);
    }
    registry::last_type(text)
}

/// The class that a word in upper case names.
#[tactic(auto, using(crate::proofs::WordTexts::class_not_text))]
fn class_of(word: &[u8]) -> Option<DNSClass>
    ensures { result ≡ upper_class word.now }
{
    match str::from_utf8(word) {
        Ok(text) => Some(DNSClass(registry::class(text)?)),
        Err(_) => None,
    }
}

/// The algorithm that a word in upper case names.
#[tactic(auto, using(crate::proofs::WordTexts::algorithm_not_text))]
fn algorithm_of(word: &[u8]) -> Option<u8>
    ensures { result ≡ number_of word.now algorithm_words }
{
    match str::from_utf8(word) {
        Ok(text) => registry::algorithm(text),
        Err(_) => None,
    }
}

/// The type of a digest that a word in upper case names.
#[tactic(auto, using(crate::proofs::WordTexts::digest_type_not_text))]
fn digest_type_of(word: &[u8]) -> Option<u8>
    ensures { result ≡ number_of word.now digest_type_words }
{
    match str::from_utf8(word) {
        Ok(text) => registry::digest_type(text),
        Err(_) => None,
    }
}

/// The type of a certificate that a word in upper case names.
#[tactic(auto, using(crate::proofs::WordTexts::certificate_type_not_text))]
fn certificate_type_of(word: &[u8]) -> Option<u16>
    ensures { result ≡ number_of word.now certificate_type_words }
{
    match str::from_utf8(word) {
        Ok(text) => registry::certificate_type(text),
        Err(_) => None,
    }
}
