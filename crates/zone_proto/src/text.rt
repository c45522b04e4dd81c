//! How names are printed.
ghost use Rattle.std.specs.Prelude.{◌≡◌, ◌++◌, ◌≤◌, length, take, IfSome, Some};
ghost use Rattle.zone_proto.specs.Text.{is_plain, octet_text, label_text, name_text};

use crate::labels_iter::Labels;
use crate::lower_name::LowerName;
use crate::name::Name;
use std::fmt;

/// How many octets the text of a name has at most if all of its octets are plain: one for each octet of its labels and one
/// for each dot, as in the wire form without the root (RFC 1035 section 3.1).
const LONGEST_PLAIN: usize = 254;

/// Whether the octet is printed as itself: a letter, a digit, `-`, `_` or `*`.
fn is_plain(octet: u8) -> bool
    ensures { result ≡ is_plain octet }
{
    // Nearly all octets of names are the first two of these.
    octet.is_ascii_lowercase()
        || octet.is_ascii_digit()
        || matches!(octet, b'A'..=b'Z' | b'-' | b'_' | b'*')
}

/// An octet as it is printed.
#[derive(Drop)]
struct OctetText(u8);

impl fmt::Display for OctetText {
    ghost output = { λ o. Some (octet_text o.0) };

    fn fmt<W: fmt::Write>(&self, f: &mut fmt::Formatter<W>) -> fmt::Result {
        let octet = self.0;
        if is_plain(octet) {
            write!(f, "{}", octet as char)
        } else {
            let hundreds = (b'0' + octet / 100) as char;
            let tens = (b'0' + octet / 10 % 10) as char;
            let ones = (b'0' + octet % 10) as char;
            write!(f, "\\{hundreds}{tens}{ones}")
        }
    }
}

/// A label as it is printed, with its dot.
#[derive(Drop)]
struct LabelText<'l>(&'l [u8]);

impl fmt::Display for LabelText<'_> {
    ghost output = { λ l. Some (label_text l.0.now) };

    fn fmt<W: fmt::Write>(&self, f: &mut fmt::Formatter<W>) -> fmt::Result {
        for octet in self.0 {
            write!(f, "{}", OctetText(*octet))?;
        }
        write!(f, ".")
    }
}

/// The labels of a name as they are printed.
#[derive(Drop)]
struct NameText<'n>(Labels<'n>);

impl fmt::Display for NameText<'_> {
    ghost output = { λ n. Some (name_text n.0) };

    fn fmt<W: fmt::Write>(&self, f: &mut fmt::Formatter<W>) -> fmt::Result {
        let mut room = [0; LONGEST_PLAIN];
        if let Some(text) = plain_text(self.0.clone(), &mut room) {
            return f.write_str(text);
        }
        if self.0.len() == 0 {
            return write!(f, ".");
        }
        for label in self.0.clone() {
            write!(f, "{}", LabelText(label))?;
        }
        Ok(())
    }
}

/// The text of at least one label, all of whose octets are plain, put into the room; none if one isn't, or where the
/// room is too short.
fn plain_text<'r>(labels: Labels<'_>, room: &'r mut [u8]) -> Option<&'r str>
    ensures { IfSome result (λ text. text.now ≡ name_text labels.entry) }
{
    let end = put_labels(labels, room)?;
    std::str::from_utf8(&room[..end]).ok()
}

/// Puts the text of at least one label into the front of the room, and answers where it ends.
fn put_labels(labels: Labels<'_>, room: &mut [u8]) -> Option<usize>
    ensures fits { IfSome result (λ end. end ≤ length room.new) }
    ensures text { IfSome result (λ end. take end room.new ≡ name_text labels.entry) }
{
    let mut end = 0;
    for label in labels {
        end = put_label(label, room, end)?;
    }
    if end == 0 { None } else { Some(end) }
}

/// Appends the text of a label to the front of the room, and answers where it ends.
fn put_label(label: &[u8], room: &mut [u8], front: usize) -> Option<usize>
    requires { front ≤ length room.old }
    ensures room { length room.new ≡ length room.old }
    ensures fits { IfSome result (λ end. end ≤ length room.new) }
    ensures text { IfSome result
        (λ end. take end room.new ≡ take front room.old ++ label_text label.now) }
{
    if room.len() - front <= label.len() {
        return None;
    }
    let mut end = front;
    for octet in label {
        if !is_plain(*octet) {
            return None;
        }
        room[end] = *octet;
        end += 1;
    }
    room[end] = b'.';
    Some(end + 1)
}

/// Each label and a dot after it; the root is a dot. ASCII letters, digits, `-`, `_` and `*` stand for themselves, and
/// any other octet is written as a backslash and three decimal digits (RFC 1035 section 5.1).
impl fmt::Display for Name {
    ghost output = { λ n. Some (name_text n) };

    fn fmt<W: fmt::Write>(&self, f: &mut fmt::Formatter<W>) -> fmt::Result {
        write!(f, "{}", NameText(self.labels()))
    }
}

/// Printed as `Name` is.
impl fmt::Display for LowerName {
    ghost output = { λ n. Some (name_text n) };

    fn fmt<W: fmt::Write>(&self, f: &mut fmt::Formatter<W>) -> fmt::Result {
        write!(f, "{}", NameText(self.labels()))
    }
}
