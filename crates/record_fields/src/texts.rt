//! Strings, hex and base64.
ghost use Rattle.std.specs.Prelude.{◌≡◌, ◌++◌, Ok, Some, None, IfOk, option_map, length, ◌==◌};
ghost use Rattle.base64.specs.Engines.{standard};
ghost use Rattle.base64.specs.GeneralPurpose.{decoded_of};
ghost use Rattle.record_fields.specs.Readings.{Gives, after};
ghost use Rattle.record_fields.specs.Fields.{Left};
ghost use Rattle.record_fields.specs.Rows.{behind};
ghost use Rattle.record_fields.specs.Texts.{any_hex, hex_left, next_base64, next_base64_if_there, next_generic, next_hex, next_octets, next_string, next_string_if_there, next_strings, of_length, strings_of, texts_of};

use crate::fault::{Fault, ReadError, Reason};
use crate::fields::take_u16;
use crate::words::Words;
use std::alloc::{AllocError, Global};
use zone_scanner::Word;
use zone_tokens::{read_base64, read_hex_digits, read_octets, read_string};

/// Takes a string, in quotes or not, and appends its octets behind their count.
pub(crate) fn push_string(
    alloc: Global,
    words: &mut Words<'_>,
    out: &mut Vec<u8>,
) -> Result<(), ReadError>
    ensures { Gives (λ _. (out.new.items, words.new)) result
        (behind out.old.items (next_string words.old)) }
{
    let word = words.take_any()?;
    match read_string(alloc, word.octets())? {
        Some(octets) => Ok(out.extend_from_slice(octets.as_slice())?),
        None => Err(words.fault(Reason::Text)),
    }
}

/// The same, if a word is left.
pub(crate) fn push_string_if_there(
    alloc: Global,
    words: &mut Words<'_>,
    out: &mut Vec<u8>,
) -> Result<(), ReadError>
    ensures { Gives (λ _. (out.new.items, words.new)) result
        (behind out.old.items (next_string_if_there words.old)) }
{
    match words.rest() {
        [] => Ok(()),
        [_, ..] => push_string(alloc, words, out),
    }
}

/// Takes octets of any count, in quotes or not, and appends them.
pub(crate) fn push_octets(
    alloc: Global,
    words: &mut Words<'_>,
    out: &mut Vec<u8>,
) -> Result<(), ReadError>
    ensures { Gives (λ _. (out.new.items, words.new)) result
        (behind out.old.items (next_octets words.old)) }
{
    let word = words.take_any()?;
    match read_octets(alloc, word.octets())? {
        Some(octets) => Ok(out.extend_from_slice(octets.as_slice())?),
        None => Err(words.fault(Reason::Escapes)),
    }
}

/// Takes strings to the end of the entry, one or more, and appends their octets.
pub(crate) fn push_strings(
    alloc: Global,
    words: &mut Words<'_>,
    out: &mut Vec<u8>,
) -> Result<(), ReadError>
    ensures { Gives (λ _. (out.new.items, words.new)) result
        (behind out.old.items (next_strings words.old)) }
{
    let strings = words.take_rest();
    match strings {
        [] => Err(words.fault(Reason::Missing)),
        [_, ..] => push_all_strings(alloc, strings, out),
    }
}

/// Appends the octets of strings.
fn push_all_strings(alloc: Global, words: &[Word], out: &mut Vec<u8>) -> Result<(), ReadError>
    ensures { Gives (λ _. out.new.items) result (after out.old.items (strings_of words.now)) }
{
    for word in words {
        let Some(string) = read_string(alloc, word.octets())? else {
            return Err(ReadError::Fault(Fault {
                place: word.place(),
                reason: Reason::Text,
            }));
        };
        out.extend_from_slice(string.as_slice())?;
    }
    Ok(())
}

/// Takes hex to the end of the entry, and appends its octets.
pub(crate) fn push_hex(
    alloc: Global,
    words: &mut Words<'_>,
    out: &mut Vec<u8>,
) -> Result<(), ReadError>
    ensures { Gives (λ _. (out.new.items, words.new)) result
        (behind out.old.items (next_hex words.old)) }
{
    let first = words.take()?;
    let texts = words.take_rest();
    let mut text = Vec::from_slice(alloc, first.octets())?;
    push_texts(texts, &mut text)?;
    match read_hex_digits(alloc, text.as_slice())? {
        Some(octets) => Ok(out.extend_from_slice(octets.as_slice())?),
        None => Err(words.fault(Reason::Hex)),
    }
}

/// Takes base64 to the end of the entry, and gives its octets.
///
/// # Errors
///
/// A fault where the words aren't base64, or there is none; `Memory` if memory is refused.
pub fn take_base64(alloc: Global, words: &mut Words<'_>) -> Result<Vec<u8>, ReadError>
    ensures { Gives (λ os. (os.items, words.new)) result (next_base64 words.old) }
{
    let first = words.take()?;
    let texts = words.take_rest();
    let mut text = Vec::from_slice(alloc, first.octets())?;
    push_texts(texts, &mut text)?;
    match read_base64(alloc, text.as_slice())? {
        Some(octets) => Ok(octets),
        None => Err(words.fault(Reason::Base64)),
    }
}

/// Takes base64 to the end of the entry, and appends its octets.
pub(crate) fn push_base64(
    alloc: Global,
    words: &mut Words<'_>,
    out: &mut Vec<u8>,
) -> Result<(), ReadError>
    ensures { Gives (λ _. (out.new.items, words.new)) result
        (behind out.old.items (next_base64 words.old)) }
{
    let octets = take_base64(alloc, words)?;
    Ok(out.extend_from_slice(octets.as_slice())?)
}

/// The same, if a word is left.
pub(crate) fn push_base64_if_there(
    alloc: Global,
    words: &mut Words<'_>,
    out: &mut Vec<u8>,
) -> Result<(), ReadError>
    ensures { Gives (λ _. (out.new.items, words.new)) result
        (behind out.old.items (next_base64_if_there words.old)) }
{
    match words.rest() {
        [] => Ok(()),
        [_, ..] => push_base64(alloc, words, out),
    }
}

/// Puts the texts of words behind a text. A fault if one is in quotes.
fn push_texts(words: &[Word], text: &mut Vec<u8>) -> Result<(), ReadError>
    ensures { Gives (λ _. text.new.items) result (after text.old.items (texts_of words.now)) }
{
    for word in words {
        if word.is_quoted() {
            return Err(ReadError::Fault(Fault {
                place: word.place(),
                reason: Reason::Quoted,
            }));
        }
        text.extend_from_slice(word.octets())?;
    }
    Ok(())
}

/// Takes data that are written as `\#`, their length and hex digits (RFC 3597 section 5), and gives their octets.
///
/// # Errors
///
/// A fault if a word is missing, or the digits aren't those of so many octets; `Memory` if memory is refused.
pub fn take_generic(alloc: Global, words: &mut Words<'_>) -> Result<Vec<u8>, ReadError>
    ensures { Gives (λ os. (os.items, words.new)) result (next_generic words.old) }
{
    let _ = words.take()?;
    let count = take_u16(words)?;
    let texts = words.take_rest();
    let mut text = Vec::new(alloc);
    push_texts(texts, &mut text)?;
    match hex_of_length(alloc, text.as_slice(), count)? {
        Some(octets) => Ok(octets),
        None => Err(words.fault(Reason::HexOctets)),
    }
}

/// Reads so many octets from hex digits.
fn hex_of_length(alloc: Global, digits: &[u8], count: u16) -> Result<Option<Vec<u8>>, AllocError>
    ensures { IfOk result
        (λ octets. option_map (λ o. o.items) octets ≡ of_length count (any_hex digits.now)) }
{
    match digits {
        [] => Ok(if_length(Vec::new(alloc), count)),
        [_, ..] => match read_hex_digits(alloc, digits)? {
            Some(octets) => Ok(if_length(octets, count)),
            None => Ok(None),
        },
    }
}

/// Octets, if they are so many.
fn if_length(octets: Vec<u8>, count: u16) -> Option<Vec<u8>>
    ensures { option_map (λ o. o.items) result ≡ of_length count (Some octets.items) }
{
    if octets.len() == usize::from(count) {
        Some(octets)
    } else {
        None
    }
}
