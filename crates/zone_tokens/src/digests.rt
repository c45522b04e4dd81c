//! Octets that are written in hex or in base64.
ghost use Rattle.std.specs.Prelude.{◌≡◌, IfOk, option_map};
ghost use Rattle.base64.specs.Engines.{standard};
ghost use Rattle.base64.specs.GeneralPurpose.{decoded_of};
ghost use Rattle.line_text.specs.Hex.{hex_word};
ghost use Rattle.zone_tokens.specs.Hex.{hex_text};

use base64::DecodeAllocError;
use base64::engine::general_purpose::STANDARD;
use line_text::read_hex;
use std::alloc::{AllocError, Global};

/// Reads one octet or more from hex digits, two each, in either case. None if the text isn't that.
pub fn read_hex_digits(alloc: Global, text: &[u8]) -> Result<Option<Vec<u8>>, AllocError>
    ensures { IfOk result (λ octets. option_map (λ o. o.items) octets ≡ hex_text text.now) }
{
    match text {
        [] | [_] => Ok(None),
        [_, _, ..] => read_hex(alloc, text),
    }
}

/// Reads the salt of an NSEC3: hex digits, or `-` for an empty one (RFC 5155 section 3.3). None if the word is neither.
pub fn read_salt(alloc: Global, word: &[u8]) -> Result<Option<Vec<u8>>, AllocError>
    ensures { IfOk result (λ octets. option_map (λ o. o.items) octets ≡ hex_word word.now) }
{
    read_hex(alloc, word)
}

/// Reads octets from base64 in the standard alphabet, padded (RFC 4648 section 4). None if the text isn't that.
#[tactic(auto, unfolding(base64::specs::GeneralPurpose::decoded_of))]
pub fn read_base64(alloc: Global, text: &[u8]) -> Result<Option<Vec<u8>>, AllocError>
    ensures { IfOk result
        (λ octets. option_map (λ o. o.items) octets ≡ decoded_of standard text.now) }
{
    match STANDARD.decode(alloc, text) {
        Ok(octets) => Ok(Some(octets)),
        Err(DecodeAllocError::OutOfMemory) => Err(AllocError),
        Err(DecodeAllocError::DecodeError(_)) => Ok(None),
    }
}
