//! Words that stand bare.
ghost use Rattle.std.specs.Prelude.{◌≡◌, Some, false};
ghost use Rattle.zone_file_writer.specs.BareWords.{are_of_word, goes_on, is_bare, word_octet, word_octets};

use crate::octets::NumberedOctet;
use std::fmt;

/// Whether an octet goes on with a word that stands bare.
fn goes_on(octet: u8) -> bool
    ensures { result ≡ goes_on octet }
{
    octet > b')' && octet != b';'
}

/// Whether a text is read as one bare word as it stands, and not as the beginning of data written as `\#`.
pub(crate) fn is_bare(text: &[u8]) -> bool
    ensures { result ≡ is_bare text.now }
{
    match text {
        [] => false,
        [_, ..] => text != b"\\#".as_slice() && are_of_word(text),
    }
}

/// Whether octets go on with a word, and no backslash is at their end.
fn are_of_word(text: &[u8]) -> bool
    ensures { result ≡ are_of_word false text.now }
{
    let mut is_escaped = false;
    for octet in text {
        if !goes_on(*octet) {
            return false;
        }
        is_escaped = !is_escaped && *octet == b'\\';
    }
    !is_escaped
}

/// Octets as they are in a bare word.
#[derive(Drop)]
pub(crate) struct WordOctets<'r>(pub &'r [u8]);

impl fmt::Display for WordOctets<'_> {
    ghost output = { λ o. Some (word_octets o.0.now) };

    fn fmt<W: fmt::Write>(&self, f: &mut fmt::Formatter<W>) -> fmt::Result {
        for octet in self.0 {
            write!(f, "{}", WordOctet(*octet))?;
        }
        Ok(())
    }
}

/// An octet as it is in a bare word: a printing one that goes on with it, and is no backslash, as itself, and any other octet as `\`
/// and three digits (RFC 1035 section 5.1).
#[derive(Drop)]
pub(crate) struct WordOctet(pub u8);

impl fmt::Display for WordOctet {
    ghost output = { λ o. Some (word_octet o.0) };

    fn fmt<W: fmt::Write>(&self, f: &mut fmt::Formatter<W>) -> fmt::Result {
        let octet = self.0;
        if goes_on(octet) && octet <= b'~' && octet != b'\\' {
            return write!(f, "{}", octet as char);
        }
        write!(f, "{}", NumberedOctet(octet))
    }
}
