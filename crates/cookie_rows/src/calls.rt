//! Calls of rows.

use compared_rows::{Caller, read_octets};
use line_text::{HexText, TextError, Words, read_u16, read_u32};
use message_cookies::{CheckedCookie, CookieSecrets, check_cookie, make_cookie, siphash};
use message_options::{ends_with_opt, opt_of, option_value, push_option, put_options};
use std::alloc::Global;

/// Makes calls of which none leaves anything.
#[derive(Drop)]
pub struct CookieCaller;

impl Caller for CookieCaller {
    fn new(_alloc: Global) -> CookieCaller {
        CookieCaller
    }

    fn answer(&mut self, alloc: Global, call: &str) -> Result<String, TextError> {
        let (verb, words) = call.split_once(" ").unwrap_or((call, ""));
        let words = Words::new(words.as_bytes());
        match verb {
            "siphash" => siphash_answer(alloc, words),
            "make" => make_answer(alloc, words),
            "check" => check_answer(alloc, words),
            "changed" => changed_answer(alloc, words),
            "option" => option_answer(alloc, words),
            "put" => put_answer(alloc, words),
            _ => Err(TextError::BadText),
        }
    }
}

/// Reads a secret, of 16 octets; none for none.
fn read_secret(alloc: Global, words: &mut Words<'_>) -> Result<Option<[u8; 16]>, TextError> {
    let octets = read_octets(alloc, words)?;
    if octets.is_empty() {
        return Ok(None);
    }
    if octets.len() != 16 {
        return Err(TextError::BadText);
    }
    let mut secret = [0u8; 16];
    secret.copy_from_slice(octets.as_slice());
    Ok(Some(secret))
}

/// Reads a secret that has to be there.
fn read_needed(alloc: Global, words: &mut Words<'_>) -> Result<[u8; 16], TextError> {
    match read_secret(alloc, words)? {
        Some(secret) => Ok(secret),
        None => Err(TextError::BadText),
    }
}

/// Reads a moment.
fn read_moment(words: &mut Words<'_>) -> Result<u32, TextError> {
    let word = words.take_needed()?;
    read_u32(word).ok_or(TextError::BadText)
}

/// Reads the code of an option.
fn read_code(words: &mut Words<'_>) -> Result<u16, TextError> {
    let word = words.take_needed()?;
    read_u16(word).ok_or(TextError::BadText)
}

/// A code.
fn siphash_answer(alloc: Global, mut words: Words<'_>) -> Result<String, TextError> {
    let key = read_needed(alloc, &mut words)?;
    let text = read_octets(alloc, &mut words)?;
    words.end()?;
    let code = siphash(key, text.as_slice(), &[]).to_le_bytes();
    Ok(format!(in alloc; "{}", HexText(&code))?)
}

/// A cookie.
fn make_answer(alloc: Global, mut words: Words<'_>) -> Result<String, TextError> {
    let secret = read_needed(alloc, &mut words)?;
    let client = read_octets(alloc, &mut words)?;
    let address = read_octets(alloc, &mut words)?;
    let moment = read_moment(&mut words)?;
    words.end()?;
    if client.len() != 8 {
        return Err(TextError::BadText);
    }
    let cookie = make_cookie(alloc, secret, client.as_slice(), address.as_slice(), moment)?;
    Ok(format!(in alloc; "{}", HexText(cookie.as_slice()))?)
}

/// What a cookie is found to be.
fn check_answer(alloc: Global, mut words: Words<'_>) -> Result<String, TextError> {
    let current = read_needed(alloc, &mut words)?;
    let previous = read_secret(alloc, &mut words)?;
    let cookie = read_octets(alloc, &mut words)?;
    let address = read_octets(alloc, &mut words)?;
    let moment = read_moment(&mut words)?;
    words.end()?;
    let secrets = CookieSecrets { current, previous };
    let found = check_cookie(&secrets, cookie.as_slice(), address.as_slice(), moment);
    Ok(format!(in alloc; "{}", word_of(found))?)
}

/// The word for what a cookie is found to be.
fn word_of(found: CheckedCookie) -> &'static str {
    match found {
        CheckedCookie::Malformed => "malformed",
        CheckedCookie::ClientAlone => "alone",
        CheckedCookie::Invalid => "invalid",
        CheckedCookie::Valid => "valid",
    }
}

/// How many cookies are valid that have one bit changed.
fn changed_answer(alloc: Global, mut words: Words<'_>) -> Result<String, TextError> {
    let current = read_needed(alloc, &mut words)?;
    let mut cookie = read_octets(alloc, &mut words)?;
    let address = read_octets(alloc, &mut words)?;
    let moment = read_moment(&mut words)?;
    words.end()?;
    let secrets = CookieSecrets {
        current,
        previous: None,
    };
    let mut valid = 0usize;
    for at in 0..cookie.len() {
        for bit in 0..8u32 {
            flip(cookie.as_mut_slice(), at, bit);
            if check_cookie(&secrets, cookie.as_slice(), address.as_slice(), moment)
                == CheckedCookie::Valid
            {
                valid = valid.saturating_add(1);
            }
            flip(cookie.as_mut_slice(), at, bit);
        }
    }
    Ok(format!(in alloc; "{valid}")?)
}

/// Changes a bit.
fn flip(octets: &mut [u8], at: usize, bit: u32) {
    if let Some(octet) = octets.get_mut(at) {
        *octet ^= 1u8.wrapping_shl(bit);
    }
}

/// The value of an option in a message.
fn option_answer(alloc: Global, mut words: Words<'_>) -> Result<String, TextError> {
    let code = read_code(&mut words)?;
    let message = read_octets(alloc, &mut words)?;
    words.end()?;
    let value = match opt_of(message.as_slice()) {
        None => None,
        Some((_, options)) => option_value(code, options),
    };
    match value {
        None => Ok(format!(in alloc; "none")?),
        Some(value) => Ok(format!(in alloc; "{}", HexText(value))?),
    }
}

/// A message with an option more.
fn put_answer(alloc: Global, mut words: Words<'_>) -> Result<String, TextError> {
    let code = read_code(&mut words)?;
    let value = read_octets(alloc, &mut words)?;
    let mut message = read_octets(alloc, &mut words)?;
    words.end()?;
    if value.len() > 1_000 || !ends_with_opt(message.as_slice()) {
        return Ok(format!(in alloc; "none")?);
    }
    let mut options = Vec::new(alloc);
    push_option(&mut options, code, value.as_slice())?;
    if options.len() > 65_535 {
        return Err(TextError::BadText);
    }
    put_options(&mut message, options.as_slice())?;
    Ok(format!(in alloc; "{}", HexText(message.as_slice()))?)
}
