//! Strings of octets, in quotes, and as they are in data, each behind its length.
ghost use Rattle.std.specs.Prelude.{◌≡◌, ◌+◌, ◌∷◌, [], length, map, option_map, Some, None, IfSome, IsTrue, ◌↔◌};
ghost use Rattle.message_reading.specs.Octets.{counted_of};
ghost use Rattle.zone_file_writer.specs.Others.{string_word};
ghost use Rattle.zone_file_writer.specs.Rows.{all_strings};
ghost use Rattle.zone_file_writer.specs.Strings.{escaped, escaped_octet, further_text, quoted_text, strings_of};

use crate::octets::NumberedOctet;
use std::fmt;

/// Octets in quotes.
#[derive(Drop)]
pub(crate) struct QuotedText<'r>(pub &'r [u8]);

impl fmt::Display for QuotedText<'_> {
    ghost output = { λ o. Some (quoted_text o.0.now) };

    fn fmt<W: fmt::Write>(&self, f: &mut fmt::Formatter<W>) -> fmt::Result {
        write!(f, "\"{}\"", EscapedText(self.0))
    }
}

/// Octets as they are between quotes.
#[derive(Drop)]
pub(crate) struct EscapedText<'r>(pub &'r [u8]);

impl fmt::Display for EscapedText<'_> {
    ghost output = { λ o. Some (escaped o.0.now) };

    fn fmt<W: fmt::Write>(&self, f: &mut fmt::Formatter<W>) -> fmt::Result {
        for octet in self.0 {
            write!(f, "{}", EscapedOctet(*octet))?;
        }
        Ok(())
    }
}

/// An octet as it is between quotes: a quote and a backslash behind a backslash, a printing character of ASCII as
/// itself, and any other octet as `\` and three digits (RFC 1035 section 5.1).
#[derive(Drop)]
struct EscapedOctet(u8);

impl fmt::Display for EscapedOctet {
    ghost output = { λ o. Some (escaped_octet o.0) };

    fn fmt<W: fmt::Write>(&self, f: &mut fmt::Formatter<W>) -> fmt::Result {
        let octet = self.0;
        if octet == b'"' || octet == b'\\' {
            return write!(f, "\\{}", octet as char);
        }
        if octet >= b' ' && octet <= b'~' {
            return write!(f, "{}", octet as char);
        }
        write!(f, "{}", NumberedOctet(octet))
    }
}

/// Strings, each with a space before it, as far as octets are strings.
#[derive(Drop)]
pub(crate) struct FurtherStrings<'r>(pub &'r [u8]);

impl fmt::Display for FurtherStrings<'_> {
    ghost output = { λ o. Some (further_text o.0.now) };

    fn fmt<W: fmt::Write>(&self, f: &mut fmt::Formatter<W>) -> fmt::Result {
        let mut rest = self.0;
        while let Some((string, others)) = split_string(rest) {
            write!(f, " {}", QuotedText(string))?;
            rest = others;
        }
        Ok(())
    }
}

/// Whether octets are strings to their end.
#[tactic(auto, using(crate::proofs::StringFacts::one_more, crate::proofs::StringFacts::none))]
fn are_strings(octets: &[u8]) -> bool
    ensures { IsTrue result ↔ ((strings_of octets.now).1 ≡ []) }
{
    let mut rest = octets;
    while let Some((_, others)) = split_string(rest) {
        rest = others;
    }
    rest.is_empty()
}

/// The first of the strings that octets are, and the octets of the others; none if octets aren't strings to their end,
/// one at least.
#[tactic(auto, using(crate::proofs::StringFacts::text_some, crate::proofs::StringFacts::text_none, crate::proofs::StringFacts::text_broken))]
pub(crate) fn split_strings(octets: &[u8]) -> Option<(&[u8], &[u8])>
    ensures some { IfSome result (λ s. all_strings (strings_of octets.now)
        ≡ Some (string_word s.0.now ∷ map string_word (strings_of s.1.now).0)) }
    ensures none { result ≡ None → all_strings (strings_of octets.now) ≡ None }
{
    let (first, others) = split_string(octets)?;
    if are_strings(others) {
        Some((first, others))
    } else {
        None
    }
}

/// The string at the start of octets, behind its length, and the octets behind it; none if no whole string is there.
pub(crate) fn split_string(octets: &[u8]) -> Option<(&[u8], &[u8])>
    ensures value { option_map (λ s. (s.0.now, s.1.now)) result ≡ counted_of octets.now }
    ensures size { IfSome result
        (λ s. 1 + length s.0.now + length s.1.now ≡ length octets.now) }
{
    let (count, rest) = octets.split_first()?;
    let count = usize::from(*count);
    if count > rest.len() {
        return None;
    }
    Some((&rest[..count], &rest[count..]))
}
