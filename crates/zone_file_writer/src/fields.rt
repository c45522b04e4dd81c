//! Fields of one word, printed behind a text, with a space before each.
ghost use Rattle.std.specs.Prelude.{◌≡◌, ◌<◌, ◌≤◌, length, IfOk, IfSome, option_map, string_bytes};
ghost use Rattle.std.specs.Option.{option_copied};
ghost use Rattle.message_reading.specs.Octets.{counted_of, long_of, octet_of, octets_of, short_of};
ghost use Rattle.record_fields.specs.declared.field.Field.TheVariants as field;
ghost use Rattle.zone_file_writer.specs.Rows.{appended, field_words, name_front, name_word, number_word, one_word, pairs_word};

use crate::fronts::{front_name, front_octets};
use crate::labels::LabelsText;
use crate::pairs::{GroupsText, PairsText};
use crate::strings::{EscapedText, QuotedText, split_string};
use crate::types::TypeText;
use message_reading::{long_of, short_of};
use record_fields::{is_of_messages, is_tag};
use std::alloc::AllocError;
use std::fmt::Write;
use zone_proto::RecordType;

/// Appends a number of 8 bits.
pub(crate) fn push_octet<'o>(
    octets: &'o [u8],
    text: &mut String,
) -> Result<Option<&'o [u8]>, AllocError>
    ensures { IfOk result (λ rest. option_map (λ r. (string_bytes text.new, r.now)) rest
        ≡ appended (string_bytes text.old) (one_word number_word (octet_of octets.now))) }
{
    match octets {
        [] => Ok(None),
        [number, rest @ ..] => {
            write!(text, " {number}")?;
            Ok(Some(rest))
        }
    }
}

/// Appends a number of 16 bits.
pub(crate) fn push_short<'o>(
    octets: &'o [u8],
    text: &mut String,
) -> Result<Option<&'o [u8]>, AllocError>
    ensures { IfOk result (λ rest. option_map (λ r. (string_bytes text.new, r.now)) rest
        ≡ appended (string_bytes text.old) (one_word number_word (short_of octets.now))) }
{
    match short_of(octets) {
        None => Ok(None),
        Some((number, rest)) => {
            write!(text, " {number}")?;
            Ok(Some(rest))
        }
    }
}

/// Appends a number of 32 bits.
pub(crate) fn push_long<'o>(
    octets: &'o [u8],
    text: &mut String,
) -> Result<Option<&'o [u8]>, AllocError>
    ensures { IfOk result (λ rest. option_map (λ r. (string_bytes text.new, r.now)) rest
        ≡ appended (string_bytes text.old) (one_word number_word (long_of octets.now))) }
{
    match long_of(octets) {
        None => Ok(None),
        Some((number, rest)) => {
            write!(text, " {number}")?;
            Ok(Some(rest))
        }
    }
}

/// Appends a type, if records have it.
pub(crate) fn push_type<'o>(
    octets: &'o [u8],
    text: &mut String,
) -> Result<Option<&'o [u8]>, AllocError>
    ensures { IfOk result (λ rest. option_map (λ r. (string_bytes text.new, r.now)) rest
        ≡ appended (string_bytes text.old) (field_words field.RecordType octets.now)) }
{
    match short_of(octets) {
        None => Ok(None),
        Some((number, rest)) => {
            let record_type = RecordType(number);
            if is_of_messages(record_type) {
                return Ok(None);
            }
            write!(text, " {}", TypeText(record_type))?;
            Ok(Some(rest))
        }
    }
}

/// Appends an IPv4 address.
pub(crate) fn push_ipv4<'o>(
    octets: &'o [u8],
    text: &mut String,
) -> Result<Option<&'o [u8]>, AllocError>
    ensures { IfOk result (λ rest. option_map (λ r. (string_bytes text.new, r.now)) rest
        ≡ appended (string_bytes text.old) (field_words field.Ipv4 octets.now)) }
{
    match front_octets(4, octets) {
        Some(([a, b, c, d], rest)) => {
            write!(text, " {a}.{b}.{c}.{d}")?;
            Ok(Some(rest))
        }
        _ => Ok(None),
    }
}

/// Appends a name, which is absolute.
pub(crate) fn push_name<'o>(
    octets: &'o [u8],
    text: &mut String,
) -> Result<Option<&'o [u8]>, AllocError>
    ensures value { IfOk result (λ rest. option_map (λ r. (string_bytes text.new, r.now)) rest
        ≡ appended (string_bytes text.old) (one_word name_word (name_front octets.now))) }
    ensures shorter { IfOk result (λ rest. IfSome rest (λ r. length r.now < length octets.now)) }
{
    match front_name(octets) {
        None => Ok(None),
        Some((name, rest)) => {
            if name.len() == 1 {
                write!(text, " .")?;
            } else {
                write!(text, " {}", LabelsText(name))?;
            }
            Ok(Some(rest))
        }
    }
}

/// Appends a string, in quotes.
pub(crate) fn push_string<'o>(
    octets: &'o [u8],
    text: &mut String,
) -> Result<Option<&'o [u8]>, AllocError>
    ensures { IfOk result (λ rest. option_map (λ r. (string_bytes text.new, r.now)) rest
        ≡ appended (string_bytes text.old) (field_words field.Text octets.now)) }
{
    match split_string(octets) {
        None => Ok(None),
        Some((string, rest)) => {
            write!(text, " {}", QuotedText(string))?;
            Ok(Some(rest))
        }
    }
}

/// Appends the tag of a CAA.
pub(crate) fn push_tag<'o>(
    octets: &'o [u8],
    text: &mut String,
) -> Result<Option<&'o [u8]>, AllocError>
    ensures { IfOk result (λ rest. option_map (λ r. (string_bytes text.new, r.now)) rest
        ≡ appended (string_bytes text.old) (field_words field.Tag octets.now)) }
{
    match split_string(octets) {
        Some((tag, rest)) if is_tag(tag) => {
            write!(text, " {}", EscapedText(tag))?;
            Ok(Some(rest))
        }
        _ => Ok(None),
    }
}

/// Appends 64 bits, in four groups of hex.
pub(crate) fn push_groups<'o>(
    octets: &'o [u8],
    text: &mut String,
) -> Result<Option<&'o [u8]>, AllocError>
    ensures { IfOk result (λ rest. option_map (λ r. (string_bytes text.new, r.now)) rest
        ≡ appended (string_bytes text.old) (field_words field.Groups octets.now)) }
{
    match front_octets(8, octets) {
        Some(([a, b, c, d, e, f, g, h], rest)) => {
            let (first, second) = (GroupsText(*a, *b, *c, *d), GroupsText(*e, *f, *g, *h));
            write!(text, " {first}:{second}")?;
            Ok(Some(rest))
        }
        _ => Ok(None),
    }
}

/// Appends so many octets, in hex with hyphens.
pub(crate) fn push_pairs<'o>(
    count: usize,
    octets: &'o [u8],
    text: &mut String,
) -> Result<Option<&'o [u8]>, AllocError>
    ensures { IfOk result (λ rest. option_map (λ r. (string_bytes text.new, r.now)) rest
        ≡ appended (string_bytes text.old) (one_word pairs_word (octets_of count octets.now))) }
{
    match front_octets(count, octets) {
        None => Ok(None),
        Some((pairs, rest)) => {
            write!(text, " {}", PairsText(pairs))?;
            Ok(Some(rest))
        }
    }
}
