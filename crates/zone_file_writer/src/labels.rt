//! Names as data have them, in wire form.
ghost use Rattle.std.specs.Prelude.{◌≡◌, Some};
ghost use Rattle.zone_proto.specs.Text.{is_plain, label_text, octet_text};
ghost use Rattle.zone_file_writer.specs.Labels.{is_end, is_name, is_wire_form, part_text, parts_text};
ghost use Rattle.zone_file_writer.specs.Strings.{strings_of};

use crate::octets::NumberedOctet;
use crate::strings::split_string;
use std::fmt;

/// Whether octets are the wire form of a name, of 255 octets at most (RFC 1035 section 3.1).
pub(crate) fn is_wire_form(octets: &[u8]) -> bool
    ensures { result ≡ is_wire_form octets.now }
{
    octets.len() <= 255 && are_labels(octets)
}

/// Whether octets are labels of 1 to 63 octets, and one without octets behind them.
#[tactic(auto, using(crate::proofs::LabelFacts::label_more, crate::proofs::LabelFacts::label_long, crate::proofs::LabelFacts::label_last, crate::proofs::LabelFacts::label_none))]
fn are_labels(octets: &[u8]) -> bool
    ensures { result ≡ is_name (strings_of octets.now) }
{
    let mut rest = octets;
    while let Some((label, others)) = split_string(rest) {
        if label.len() == 0 {
            return is_end(others);
        }
        if label.len() > 63 {
            return false;
        }
        rest = others;
    }
    false
}

/// Whether no octets are left.
fn is_end(octets: &[u8]) -> bool
    ensures { result ≡ is_end octets.now }
{
    match octets {
        [] => true,
        [_, ..] => false,
    }
}

/// Labels as far as octets are labels, each with a dot behind it.
#[derive(Drop)]
pub(crate) struct LabelsText<'r>(pub &'r [u8]);

impl fmt::Display for LabelsText<'_> {
    ghost output = { λ o. Some (parts_text o.0.now) };

    fn fmt<W: fmt::Write>(&self, f: &mut fmt::Formatter<W>) -> fmt::Result {
        let mut rest = self.0;
        while let Some((label, others)) = split_string(rest) {
            write!(f, "{}", LabelText(label))?;
            rest = others;
        }
        Ok(())
    }
}

/// A label with a dot behind it; nothing of one without octets.
#[derive(Drop)]
struct LabelText<'r>(&'r [u8]);

impl fmt::Display for LabelText<'_> {
    ghost output = { λ l. Some (part_text l.0.now) };

    fn fmt<W: fmt::Write>(&self, f: &mut fmt::Formatter<W>) -> fmt::Result {
        match self.0 {
            [] => Ok(()),
            label @ [_, ..] => write!(f, "{}.", PlainText(label)),
        }
    }
}

/// Octets of a label: letters, digits, `-`, `_` and `*` as themselves, and others as `\` and three digits.
#[derive(Drop)]
struct PlainText<'r>(&'r [u8]);

impl fmt::Display for PlainText<'_> {
    ghost use Rattle.std.specs.List.{flat_map};

    ghost output = { λ l. Some (flat_map octet_text l.0.now) };

    fn fmt<W: fmt::Write>(&self, f: &mut fmt::Formatter<W>) -> fmt::Result {
        for octet in self.0 {
            write!(f, "{}", PlainOctet(*octet))?;
        }
        Ok(())
    }
}

/// An octet of a label.
#[derive(Drop)]
struct PlainOctet(u8);

impl fmt::Display for PlainOctet {
    ghost output = { λ o. Some (octet_text o.0) };

    fn fmt<W: fmt::Write>(&self, f: &mut fmt::Formatter<W>) -> fmt::Result {
        let octet = self.0;
        if is_plain(octet) {
            return write!(f, "{}", octet as char);
        }
        write!(f, "{}", NumberedOctet(octet))
    }
}

/// Whether an octet is printed as itself: a letter, a digit, `-`, `_` or `*`.
fn is_plain(octet: u8) -> bool
    ensures { result ≡ is_plain octet }
{
    matches!(octet, b'0'..=b'9' | b'A'..=b'Z' | b'a'..=b'z' | b'-' | b'_' | b'*')
}
