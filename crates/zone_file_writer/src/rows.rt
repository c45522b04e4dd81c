//! Data printed by a row of the table, field by field.
ghost use Rattle.std.specs.Prelude.{◌≡◌, IfOk, Some, None, if◌then◌else◌, option_map, string_bytes};
ghost use Rattle.zone_file_writer.specs.Rows.{appended, behind_spaces, ended, ending_words, field_words, fields_words, names_within, row_words, some_words};

use crate::fields::{
    push_groups, push_ipv4, push_long, push_name, push_octet, push_pairs, push_short, push_string,
    push_tag, push_type,
};
use crate::hosts::{push_gateway, push_identity, push_relay};
use crate::locations::push_location;
use crate::octets::{Base64Text, HexText};
use crate::parameters::push_parameters;
use crate::prefixes::push_prefixes;
use crate::strings::{FurtherStrings, QuotedText, split_string, split_strings};
use crate::type_lists::push_type_list;
use record_fields::{Ending, Field, Row};
use std::alloc::{AllocError, Global};
use std::fmt::Write;

/// The words of data by the row of their type, each with a space before it; none if the octets aren't of the form of the row,
/// or of no word.
#[tactic(auto, using(crate::proofs::RowTexts::row_more, crate::proofs::RowTexts::row_stuck, crate::proofs::RowTexts::no_words))]
pub(crate) fn row_text(
    alloc: Global,
    row: &Row,
    octets: &[u8],
) -> Result<Option<String>, AllocError>
    ensures { IfOk result (λ text. option_map string_bytes text
        ≡ option_map behind_spaces (some_words (row_words row.now octets.now))) }
{
    let mut text = String::new(alloc);
    let mut left = row.1;
    let mut rest = octets;
    while let Some((field, others)) = left.split_first() {
        let Some(behind) = push_field(field, rest, &mut text)? else {
            return Ok(None);
        };
        left = others;
        rest = behind;
    }
    if push_ending(alloc, row.2, rest, &mut text)? && !text.is_empty() {
        Ok(Some(text))
    } else {
        Ok(None)
    }
}

/// Appends the words of the field at the front of octets, and gives the octets behind it; none if the octets don't begin with
/// such a field.
fn push_field<'o>(
    field: Field,
    octets: &'o [u8],
    text: &mut String,
) -> Result<Option<&'o [u8]>, AllocError>
    ensures { IfOk result (λ rest. option_map (λ r. (string_bytes text.new, r.now)) rest
        ≡ appended (string_bytes text.old) (field_words field octets.now)) }
{
    match field {
        Field::Number8 | Field::Algorithm | Field::DigestType | Field::Scheme => {
            push_octet(octets, text)
        }
        Field::Number16 | Field::CertificateType => push_short(octets, text),
        Field::Number32 => push_long(octets, text),
        Field::RecordType => push_type(octets, text),
        Field::Ipv4 => push_ipv4(octets, text),
        Field::Name => push_name(octets, text),
        Field::Text => push_string(octets, text),
        Field::Tag => push_tag(octets, text),
        Field::Groups => push_groups(octets, text),
        Field::Eui48 => push_pairs(6, octets, text),
        Field::Eui64 => push_pairs(8, octets, text),
        Field::Gateway => push_gateway(octets, text),
        Field::Relay => push_relay(octets, text),
        Field::Identity => push_identity(octets, text),
    }
}

/// Appends the words of what stands behind the fields, and gives whether the octets are that.
fn push_ending(
    alloc: Global,
    ending: Ending,
    octets: &[u8],
    text: &mut String,
) -> Result<bool, AllocError>
    ensures { IfOk result (λ is. (if is then Some (string_bytes text.new) else None)
        ≡ ended (string_bytes text.old) (ending_words ending octets.now)) }
{
    match ending {
        Ending::Nothing => Ok(octets.is_empty()),
        Ending::Texts => push_strings(octets, text),
        Ending::TextIfThere => push_string_if_there(octets, text),
        Ending::Octets => {
            write!(text, " {}", QuotedText(octets))?;
            Ok(true)
        }
        Ending::Hex => push_hex(octets, text),
        Ending::Base64 => push_base64(octets, text),
        Ending::Base64IfThere => push_base64_if_there(octets, text),
        Ending::Names => push_names(octets, text),
        Ending::Parameters => push_parameters(alloc, octets, text),
        Ending::Types => push_type_list(alloc, octets, text),
        Ending::Location => push_location(alloc, octets, text),
        Ending::Prefixes => push_prefixes(alloc, octets, text),
        Ending::AccessPoint => push_access_point(octets, text),
    }
}

/// Appends strings, one or more.
#[tactic(auto, using(crate::proofs::StringFacts::spread))]
fn push_strings(octets: &[u8], text: &mut String) -> Result<bool, AllocError>
    ensures { IfOk result (λ is. (if is then Some (string_bytes text.new) else None)
        ≡ ended (string_bytes text.old) (ending_words Ending.Texts octets.now)) }
{
    match split_strings(octets) {
        Some((first, others)) => {
            write!(text, " {}{}", QuotedText(first), FurtherStrings(others))?;
            Ok(true)
        }
        None => Ok(false),
    }
}

/// Appends a string, if one is there.
fn push_string_if_there(octets: &[u8], text: &mut String) -> Result<bool, AllocError>
    ensures { IfOk result (λ is. (if is then Some (string_bytes text.new) else None)
        ≡ ended (string_bytes text.old) (ending_words Ending.TextIfThere octets.now)) }
{
    if octets.is_empty() {
        return Ok(true);
    }
    match split_string(octets) {
        Some((string, [])) => {
            write!(text, " {}", QuotedText(string))?;
            Ok(true)
        }
        _ => Ok(false),
    }
}

/// Appends octets in hex, if they are some.
fn push_hex(octets: &[u8], text: &mut String) -> Result<bool, AllocError>
    ensures { IfOk result (λ is. (if is then Some (string_bytes text.new) else None)
        ≡ ended (string_bytes text.old) (ending_words Ending.Hex octets.now)) }
{
    match octets {
        [] => Ok(false),
        [_, ..] => {
            write!(text, " {}", HexText(octets))?;
            Ok(true)
        }
    }
}

/// Appends octets in hex behind `0x`, if they are some.
fn push_access_point(octets: &[u8], text: &mut String) -> Result<bool, AllocError>
    ensures { IfOk result (λ is. (if is then Some (string_bytes text.new) else None)
        ≡ ended (string_bytes text.old) (ending_words Ending.AccessPoint octets.now)) }
{
    match octets {
        [] => Ok(false),
        [_, ..] => {
            write!(text, " 0x{}", HexText(octets))?;
            Ok(true)
        }
    }
}

/// Appends octets in base64, if they are some.
fn push_base64(octets: &[u8], text: &mut String) -> Result<bool, AllocError>
    ensures { IfOk result (λ is. (if is then Some (string_bytes text.new) else None)
        ≡ ended (string_bytes text.old) (ending_words Ending.Base64 octets.now)) }
{
    match octets {
        [] => Ok(false),
        [_, ..] => {
            write!(text, " {}", Base64Text(octets))?;
            Ok(true)
        }
    }
}

/// The same, where there may be none.
fn push_base64_if_there(octets: &[u8], text: &mut String) -> Result<bool, AllocError>
    ensures { IfOk result (λ is. (if is then Some (string_bytes text.new) else None)
        ≡ ended (string_bytes text.old) (ending_words Ending.Base64IfThere octets.now)) }
{
    match octets {
        [] => Ok(true),
        [_, ..] => push_base64(octets, text),
    }
}

/// Appends names, none or more.
#[tactic(auto, using(crate::proofs::RowTexts::name_more, crate::proofs::RowTexts::name_stuck, crate::proofs::RowTexts::names_end))]
fn push_names(octets: &[u8], text: &mut String) -> Result<bool, AllocError>
    ensures { IfOk result (λ is. (if is then Some (string_bytes text.new) else None)
        ≡ ended (string_bytes text.old) (ending_words Ending.Names octets.now)) }
{
    let mut rest = octets;
    while !rest.is_empty() {
        match push_name(rest, text)? {
            Some(behind) => rest = behind,
            None => return Ok(false),
        }
    }
    Ok(true)
}
