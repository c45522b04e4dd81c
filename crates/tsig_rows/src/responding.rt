//! Responses that are signed.

use compared_rows::read_octets;
use line_text::{HexText, TextError, Words, read_hex};
use message_tsig::{Checked, Key, ResponseSigner, Tsig, check_request, refuse};
use std::alloc::Global;

/// The messages of the response to a request, signed: their octets, with spaces between them.
pub fn respond_answer(
    alloc: Global,
    keys: &[Key],
    mut words: Words<'_>,
) -> Result<String, TextError> {
    let moment = words.take_u64()?;
    let limit = words.take_u16()?;
    let request = read_octets(alloc, &mut words)?;
    match check_request(alloc, keys, moment, request.as_slice())? {
        Checked::Signed(tsig, key, _) => {
            signed_text(alloc, moment, usize::from(limit), &tsig, key, &mut words)
        }
        _ => Ok(format!(in alloc; "not signed")?),
    }
}

/// The messages that words write, signed.
fn signed_text(
    alloc: Global,
    moment: u64,
    limit: usize,
    tsig: &Tsig,
    key: &Key,
    words: &mut Words<'_>,
) -> Result<String, TextError> {
    let mut signer = ResponseSigner::new(alloc, tsig)?;
    let mut text = String::new(alloc);
    for _ in 0..u16::MAX {
        let Some(word) = words.take() else {
            return Ok(text);
        };
        let Some(message) = read_hex(alloc, word)? else {
            return Err(TextError::BadText);
        };
        let signed = signer.sign(alloc, key, moment, limit, message.as_slice())?;
        write!(text, " {}", HexText(signed.as_slice()))?;
    }
    Err(TextError::BadText)
}

/// The response to a request whose TSIG is refused.
pub fn refuse_answer(
    alloc: Global,
    keys: &[Key],
    mut words: Words<'_>,
) -> Result<String, TextError> {
    let moment = words.take_u64()?;
    let request = read_octets(alloc, &mut words)?;
    words.end()?;
    match check_request(alloc, keys, moment, request.as_slice())? {
        Checked::Refused(tsig, error, key, rest) => {
            let response = refuse(alloc, &tsig, error, key, moment, rest.as_slice())?;
            Ok(format!(in alloc; "{}", HexText(response.as_slice()))?)
        }
        _ => Ok(format!(in alloc; "not refused")?),
    }
}
