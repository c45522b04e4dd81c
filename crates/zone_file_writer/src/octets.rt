//! Octets in hex, in base64, by their numbers, and as the data of any type.
ghost use Rattle.std.specs.Prelude.{◌≡◌, ◌<◌, ◌∷◌, Some};
ghost use Rattle.zone_proto.specs.TextForm.{backslash, three_digits};
ghost use Rattle.base64.specs.Engines.{standard};
ghost use Rattle.base64.specs.GeneralPurpose.{encode_of};
ghost use Rattle.zone_file_writer.specs.Others.{base64_text, hex_digit, hex_digits, hex_octet, octets_words};
ghost use Rattle.zone_file_writer.specs.Words.{words_text};

use base64::display::Base64Display;
use base64::engine::general_purpose::STANDARD;
use std::fmt;

/// Octets as `\#`, how many they are, and hex digits if they are any (RFC 3597 section 5).
#[derive(Drop)]
pub(crate) struct OctetsText<'r>(pub &'r [u8]);

impl fmt::Display for OctetsText<'_> {
    ghost output = { λ o. Some (words_text (octets_words o.0.now)) };

    fn fmt<W: fmt::Write>(&self, f: &mut fmt::Formatter<W>) -> fmt::Result {
        let octets = self.0;
        write!(f, "\\# {}", octets.len())?;
        if octets.is_empty() {
            return Ok(());
        }
        write!(f, " {}", HexText(octets))
    }
}

/// Octets in hex, two digits each, letters in upper case.
#[derive(Drop)]
pub(crate) struct HexText<'r>(pub &'r [u8]);

impl fmt::Display for HexText<'_> {
    ghost output = { λ o. Some (hex_digits o.0.now) };

    fn fmt<W: fmt::Write>(&self, f: &mut fmt::Formatter<W>) -> fmt::Result {
        for octet in self.0 {
            write!(f, "{}", HexOctet(*octet))?;
        }
        Ok(())
    }
}

/// An octet in hex.
#[derive(Drop)]
struct HexOctet(u8);

impl fmt::Display for HexOctet {
    ghost output = { λ o. Some (hex_octet o.0) };

    fn fmt<W: fmt::Write>(&self, f: &mut fmt::Formatter<W>) -> fmt::Result {
        let high = hex_digit(self.0 / 16);
        let low = hex_digit(self.0 % 16);
        write!(f, "{high}{low}")
    }
}

/// An octet by its number, as it is in names and strings: `\` and three digits (RFC 1035 section 5.1).
#[derive(Drop)]
pub(crate) struct NumberedOctet(pub u8);

impl fmt::Display for NumberedOctet {
    ghost output = { λ o. Some (backslash ∷ three_digits o.0) };

    fn fmt<W: fmt::Write>(&self, f: &mut fmt::Formatter<W>) -> fmt::Result {
        let octet = self.0;
        let hundreds = (b'0' + octet / 100) as char;
        let tens = (b'0' + octet / 10 % 10) as char;
        let ones = (b'0' + octet % 10) as char;
        write!(f, "\\{hundreds}{tens}{ones}")
    }
}

/// A digit of hex.
fn hex_digit(digit: u8) -> char
    requires { digit < 16 }
    ensures { result ≡ hex_digit digit }
{
    if digit < 10 {
        (b'0' + digit) as char
    } else {
        (b'A' + (digit - 10)) as char
    }
}

/// Octets in base64.
#[derive(Drop)]
pub(crate) struct Base64Text<'r>(pub &'r [u8]);

impl fmt::Display for Base64Text<'_> {
    ghost output = { λ o. Some (base64_text o.0.now) };

    fn fmt<W: fmt::Write>(&self, f: &mut fmt::Formatter<W>) -> fmt::Result {
        write!(f, "{}", Base64Display::new(self.0, &STANDARD))
    }
}
