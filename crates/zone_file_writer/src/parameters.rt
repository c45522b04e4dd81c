//! The parameters of a service, printed.
ghost use Rattle.std.specs.Prelude.{◌≡◌, ◌<◌, ◌∷◌, ◌++◌, Some, None, Ok, IfOk, IfSome, OnOk, if◌then◌else◌, length, option_map, string_bytes};
ghost use Rattle.std.specs.List.{flat_map};
ghost use Rattle.std.specs.Option.{option_copied};
ghost use Rattle.zone_proto.specs.TypeText.{word_of};
ghost use Rattle.service_parameters.specs.Parameters.{key_value};
ghost use Rattle.zone_file_writer.specs.Parameters.{are_read, front_printed, is_list, item_behind, item_of, items_text, key_text, key_words, parameter_front, parameter_text, parameters_words, protocol_octet, read_of, value_text, with_printed};
ghost use Rattle.zone_file_writer.specs.Rows.{ended};

use crate::addresses::Ipv6Text;
use crate::bare_words::{WordOctet, WordOctets, is_bare};
use crate::fronts::front_octets;
use crate::octets::Base64Text;
use crate::strings::split_string;
use message_reading::short_of;
use service_parameters::{ParameterError, Parameters};
use std::alloc::{AllocError, Global};
use std::fmt;
use std::fmt::Write;

/// The names of keys, by their numbers (RFC 9460 section 14.3.2).
const KEY_WORDS: [(u16, &str); 9] = [
    (0, "mandatory"),
    (1, "alpn"),
    (2, "no-default-alpn"),
    (3, "port"),
    (4, "ipv4hint"),
    (5, "ech"),
    (6, "ipv6hint"),
    (7, "dohpath"),
    (8, "ohttp"),
];

/// Appends parameters, each as a word, and gives whether the octets are parameters and the words are read as the same octets.
#[tactic(auto, using(crate::proofs::ParameterTexts::parameter_more, crate::proofs::ParameterTexts::parameter_stuck, crate::proofs::ParameterTexts::last_read, crate::proofs::ParameterTexts::not_all, crate::proofs::ParameterTexts::skipped))]
pub(crate) fn push_parameters(
    alloc: Global,
    octets: &[u8],
    text: &mut String,
) -> Result<bool, AllocError>
    ensures { IfOk result (λ is. (if is then Some (string_bytes text.new) else None)
        ≡ ended (string_bytes text.old) (parameters_words octets.now)) }
{
    let mut parameters = Parameters::new(alloc);
    let mut rest = octets;
    for _ in 0..octets.len() {
        if !rest.is_empty() {
            match push_parameter(alloc, rest, &mut parameters, text)? {
                Some(behind) => rest = behind,
                None => return Ok(false),
            }
        }
    }
    if rest.is_empty() {
        are_octets(alloc, &parameters, octets)
    } else {
        Ok(false)
    }
}

/// Appends the parameter at the front of octets as a word, adds it to those before it, and gives the octets behind it; none if no
/// whole one is there, or the word isn't read.
fn push_parameter<'o>(
    alloc: Global,
    octets: &'o [u8],
    parameters: &mut Parameters,
    text: &mut String,
) -> Result<Option<&'o [u8]>, AllocError>
    ensures { IfOk result (λ rest.
        option_map (λ r. (parameters.new, string_bytes text.new, r.now)) rest
        ≡ front_printed parameters.old (string_bytes text.old) octets.now) }
{
    let Some((key, value, behind)) = front_parameter(octets) else {
        return Ok(None);
    };
    let word = parameter_text(alloc, key, value)?;
    if !add_printed(alloc, word.as_bytes(), parameters)? {
        return Ok(None);
    }
    write!(text, " {word}")?;
    Ok(Some(behind))
}

/// The parameter at the front of octets: its key, its value, and the octets behind it. None if no whole one is there.
fn front_parameter(octets: &[u8]) -> Option<(u16, &[u8], &[u8])>
    ensures { option_map (λ x. (key_value x.0 x.1.now, x.2.now)) result
        ≡ parameter_front octets.now }
{
    let (key, rest) = short_of(octets)?;
    let (size, rest) = short_of(rest)?;
    let (value, rest) = front_octets(usize::from(size), rest)?;
    Some((key, value, rest))
}

/// Reads a word that is to be printed beside the parameters before it, and gives whether it is read.
fn add_printed(alloc: Global, word: &[u8], parameters: &mut Parameters) -> Result<bool, AllocError>
    ensures { IfOk result (λ is. (if is then Some parameters.new else None)
        ≡ read_of (with_printed parameters.old word.now)) }
{
    if !is_bare(word) {
        return Ok(false);
    }
    match parameters.add(alloc, word) {
        Ok(()) => Ok(true),
        Err(ParameterError::Memory) => Err(AllocError),
        Err(ParameterError::Fault(_)) => Ok(false),
    }
}

/// Whether parameters that were read are these octets.
fn are_octets(alloc: Global, parameters: &Parameters, octets: &[u8]) -> Result<bool, AllocError>
    ensures { IfOk result (λ is. is ≡ are_read octets.now (Ok parameters.now)) }
{
    match parameters.octets(alloc) {
        Ok(read) => Ok(read.as_slice() == octets),
        Err(ParameterError::Memory) => Err(AllocError),
        Err(ParameterError::Fault(_)) => Ok(false),
    }
}

/// A parameter as a word.
fn parameter_text(alloc: Global, key: u16, value: &[u8]) -> Result<String, AllocError>
    ensures { IfOk result
        (λ text. string_bytes text ≡ parameter_text (key_value key value.now)) }
{
    let mut text = String::new(alloc);
    write!(text, "{}", KeyText(key))?;
    push_value(key, value, &mut text)?;
    Ok(text)
}

/// A key by its name, or as `key` and its number.
#[derive(Drop)]
struct KeyText(u16);

impl fmt::Display for KeyText {
    ghost output = { λ k. Some (key_text k.0) };

    fn fmt<W: fmt::Write>(&self, f: &mut fmt::Formatter<W>) -> fmt::Result {
        match key_word(self.0) {
            Some(word) => write!(f, "{word}"),
            None => write!(f, "key{}", self.0),
        }
    }
}

/// The name of a key.
fn key_word(key: u16) -> Option<&'static str>
    ensures { option_copied result ≡ word_of key key_words }
{
    let named = KEY_WORDS.iter().find(|named| key == named.0)?;
    Some(named.1)
}

/// Appends a value behind a `=`; nothing for one without octets.
fn push_value(key: u16, value: &[u8], text: &mut String) -> Result<(), AllocError>
    ensures { OnOk result
        (string_bytes text.new ≡ string_bytes text.old ++ value_text key value.now) }
{
    if is_list(key) {
        return push_items(key, value, text);
    }
    match value {
        [] => Ok(()),
        [_, ..] => {
            if key == 5 {
                write!(text, "={}", Base64Text(value))
            } else {
                write!(text, "={}", WordOctets(value))
            }
        }
    }
}

/// Whether the value of a key is printed as a list, as that of one number is.
fn is_list(key: u16) -> bool
    ensures { result ≡ is_list key }
{
    key == 0 || key == 1 || key == 3 || key == 4 || key == 6
}

/// Appends the items of a list, the first behind a `=` and the others behind a comma, up to octets that are none.
#[tactic(auto, using(crate::proofs::ParameterTexts::item_more, crate::proofs::ParameterTexts::item_none, crate::proofs::ParameterTexts::items_end))]
fn push_items(key: u16, value: &[u8], text: &mut String) -> Result<(), AllocError>
    ensures { OnOk result (string_bytes text.new
        ≡ string_bytes text.old ++ items_text (length value.now) key 61 value.now) }
{
    let mut rest = value;
    let mut sign = '=';
    for _ in 0..value.len() {
        match push_item(key, sign, rest, text)? {
            None => return Ok(()),
            Some(behind) => rest = behind,
        }
        sign = ',';
    }
    Ok(())
}

/// Appends the item at the front of octets behind a sign, and gives the octets behind it; none if no whole item is there.
fn push_item<'o>(
    key: u16,
    sign: char,
    octets: &'o [u8],
    text: &mut String,
) -> Result<Option<&'o [u8]>, AllocError>
    requires { sign < 128 }
    ensures some { IfOk result (λ rest. IfSome rest
        (λ r. item_behind (string_bytes text.old) sign (item_of key octets.now)
        ≡ Some (string_bytes text.new, r.now))) }
    ensures none { IfOk result (λ rest. rest ≡ None
        → (item_of key octets.now ≡ None) × (string_bytes text.new ≡ string_bytes text.old)) }
{
    match key {
        1 => match split_string(octets) {
            None => Ok(None),
            Some((protocol, rest)) => {
                write!(text, "{sign}{}", ProtocolText(protocol))?;
                Ok(Some(rest))
            }
        },
        4 => match front_octets(4, octets) {
            Some(([a, b, c, d], rest)) => {
                write!(text, "{sign}{a}.{b}.{c}.{d}")?;
                Ok(Some(rest))
            }
            _ => Ok(None),
        },
        6 => match front_octets(16, octets) {
            None => Ok(None),
            Some((front, rest)) => {
                let mut address = [0; 16];
                address.copy_from_slice(front);
                write!(text, "{sign}{}", Ipv6Text(&address))?;
                Ok(Some(rest))
            }
        },
        _ => match short_of(octets) {
            None => Ok(None),
            Some((number, rest)) => {
                if key == 0 {
                    write!(text, "{sign}{}", KeyText(number))?;
                } else {
                    write!(text, "{sign}{number}")?;
                }
                Ok(Some(rest))
            }
        },
    }
}

/// The identifier of a protocol, as an item of a list.
#[derive(Drop)]
struct ProtocolText<'r>(&'r [u8]);

impl fmt::Display for ProtocolText<'_> {
    ghost output = { λ o. Some (flat_map protocol_octet o.0.now) };

    fn fmt<W: fmt::Write>(&self, f: &mut fmt::Formatter<W>) -> fmt::Result {
        for octet in self.0 {
            write!(f, "{}", ProtocolOctet(*octet))?;
        }
        Ok(())
    }
}

/// An octet of such an identifier: a comma and a backslash with a backslash in front, which another one stands before.
#[derive(Drop)]
struct ProtocolOctet(u8);

impl fmt::Display for ProtocolOctet {
    ghost output = { λ o. Some (protocol_octet o.0) };

    fn fmt<W: fmt::Write>(&self, f: &mut fmt::Formatter<W>) -> fmt::Result {
        match self.0 {
            b',' => write!(f, "\\\\,"),
            b'\\' => write!(f, "\\\\\\\\"),
            octet => write!(f, "{}", WordOctet(octet)),
        }
    }
}
