//! Requests whose TSIG is checked.

use compared_rows::read_octets;
use line_text::{HexText, TextError, Words};
use message_tsig::{Checked, Key, Place, Tsig, TsigError, check_request, place_of};
use std::alloc::{AllocError, Global};

/// Where a message has its TSIG record.
pub fn place_answer(alloc: Global, mut words: Words<'_>) -> Result<String, TextError> {
    let message = read_octets(alloc, &mut words)?;
    words.end()?;
    Ok(match place_of(message.as_slice()) {
        Place::Absent => format!(in alloc; "absent")?,
        Place::Misplaced => format!(in alloc; "misplaced")?,
        Place::Last(offset) => format!(in alloc; "{offset}")?,
    })
}

/// Reads a moment and a request.
fn read_request(alloc: Global, words: &mut Words<'_>) -> Result<(u64, Vec<u8>), TextError> {
    let moment = words.take_u64()?;
    let request = read_octets(alloc, words)?;
    words.end()?;
    Ok((moment, request))
}

/// What the TSIG of a request is found to be.
pub fn check_answer(
    alloc: Global,
    keys: &[Key],
    mut words: Words<'_>,
) -> Result<String, TextError> {
    let (moment, request) = read_request(alloc, &mut words)?;
    match check_request(alloc, keys, moment, request.as_slice())? {
        Checked::Unsigned => Ok(format!(in alloc; "unsigned")?),
        Checked::Malformed => Ok(format!(in alloc; "malformed")?),
        Checked::Signed(tsig, key, rest) => {
            found_text(alloc, "signed", &tsig, Some(key), rest.as_slice())
        }
        Checked::Refused(tsig, error, key, rest) => {
            found_text(alloc, error_word(error), &tsig, key, rest.as_slice())
        }
    }
}

/// The word of an error (RFC 8945 section 3).
pub fn error_word(error: TsigError) -> &'static str {
    match error {
        TsigError::BadSig => "BADSIG",
        TsigError::BadKey => "BADKEY",
        TsigError::BadTime => "BADTIME",
        TsigError::BadTrunc => "BADTRUNC",
    }
}

/// What is found of a TSIG; the key, its fields and the request without it where the MAC is that of a key.
fn found_text(
    alloc: Global,
    word: &str,
    tsig: &Tsig,
    key: Option<&Key>,
    rest: &[u8],
) -> Result<String, TextError> {
    let Some(key) = key else {
        return Ok(format!(in alloc; "{word}")?);
    };
    let (time, fudge, id) = (tsig.time, tsig.fudge, tsig.original_id);
    Ok(format!(in alloc; "{word} {} {time} {fudge} {id} {}", key.name, HexText(rest))?)
}

/// Whether a request is found signed.
fn is_signed(alloc: Global, keys: &[Key], moment: u64, request: &[u8]) -> Result<bool, TextError> {
    match check_request(alloc, keys, moment, request)? {
        Checked::Signed(_, _, _) => Ok(true),
        _ => Ok(false),
    }
}

/// How many of the requests are found signed in which one bit is another one.
pub fn changed_answer(
    alloc: Global,
    keys: &[Key],
    mut words: Words<'_>,
) -> Result<String, TextError> {
    let (moment, request) = read_request(alloc, &mut words)?;
    let (mut signed, mut tried) = (0usize, 0usize);
    for offset in 0..request.len() {
        for bit in [1u8, 2, 4, 8, 16, 32, 64, 128] {
            let changed = with_bit_changed(alloc, request.as_slice(), offset, bit)?;
            if is_signed(alloc, keys, moment, changed.as_slice())? {
                signed = signed.saturating_add(1);
            }
            tried = tried.saturating_add(1);
        }
    }
    Ok(format!(in alloc; "{signed} of {tried} signed")?)
}

/// Octets with one bit of the octet at an offset changed.
fn with_bit_changed(
    alloc: Global,
    octets: &[u8],
    offset: usize,
    bit: u8,
) -> Result<Vec<u8>, AllocError> {
    let mut changed = Vec::from_slice(alloc, octets)?;
    if let Some(octet) = changed.as_mut_slice().get_mut(offset) {
        *octet ^= bit;
    }
    Ok(changed)
}

/// How many proper fronts of a request are found signed.
pub fn fronts_answer(
    alloc: Global,
    keys: &[Key],
    mut words: Words<'_>,
) -> Result<String, TextError> {
    let (moment, request) = read_request(alloc, &mut words)?;
    let octets = request.as_slice();
    let mut signed = 0usize;
    for count in 0..octets.len() {
        if is_signed(alloc, keys, moment, &octets[..count])? {
            signed = signed.saturating_add(1);
        }
    }
    Ok(format!(in alloc; "{signed} of {} signed", octets.len())?)
}
