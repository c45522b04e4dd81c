//! Gateways, relays and identities of hosts, printed behind a text.
ghost use Rattle.std.specs.Prelude.{◌≡◌, [], ◌∷◌, IfOk, option_map, string_bytes};
ghost use Rattle.zone_file_writer.specs.Rows.{appended, gateway_words, host_word, identity_words, one_host, relay_words, tag_and_key};

use crate::addresses::Ipv6Text;
use crate::fields::{push_ipv4, push_name};
use crate::fronts::front_octets;
use crate::octets::{Base64Text, HexText};
use message_reading::short_of;
use std::alloc::AllocError;
use std::fmt::Write;

/// Appends a gateway: its type, the algorithm of the key behind it, and where it is.
pub(crate) fn push_gateway<'o>(
    octets: &'o [u8],
    text: &mut String,
) -> Result<Option<&'o [u8]>, AllocError>
    ensures { IfOk result (λ rest. option_map (λ r. (string_bytes text.new, r.now)) rest
        ≡ appended (string_bytes text.old) (gateway_words octets.now)) }
{
    match octets {
        [kind, algorithm, host @ ..] => {
            write!(text, " {kind} {algorithm}")?;
            push_host(*kind, host, text)
        }
        _ => Ok(None),
    }
}

/// Appends a relay: whether others are to be found, its type, and where it is.
pub(crate) fn push_relay<'o>(
    octets: &'o [u8],
    text: &mut String,
) -> Result<Option<&'o [u8]>, AllocError>
    ensures { IfOk result (λ rest. option_map (λ r. (string_bytes text.new, r.now)) rest
        ≡ appended (string_bytes text.old) (relay_words octets.now)) }
{
    match octets {
        [first, host @ ..] => {
            let (discovery, kind) = (*first / 128, *first % 128);
            write!(text, " {discovery} {kind}")?;
            push_host(kind, host, text)
        }
        [] => Ok(None),
    }
}

/// Appends where a host is, by the number that says how that is written.
fn push_host<'o>(
    kind: u8,
    octets: &'o [u8],
    text: &mut String,
) -> Result<Option<&'o [u8]>, AllocError>
    ensures { IfOk result (λ rest. option_map (λ r. (string_bytes text.new, r.now)) rest
        ≡ appended (string_bytes text.old) (one_host (host_word kind octets.now))) }
{
    match kind {
        0 => {
            write!(text, " .")?;
            Ok(Some(octets))
        }
        1 => push_ipv4(octets, text),
        2 => push_ipv6(octets, text),
        3 => push_name(octets, text),
        _ => Ok(None),
    }
}

/// Appends an IPv6 address.
fn push_ipv6<'o>(octets: &'o [u8], text: &mut String) -> Result<Option<&'o [u8]>, AllocError>
    ensures { IfOk result (λ rest. option_map (λ r. (string_bytes text.new, r.now)) rest
        ≡ appended (string_bytes text.old) (one_host (host_word 2 octets.now))) }
{
    match front_octets(16, octets) {
        None => Ok(None),
        Some((front, rest)) => {
            let mut address = [0; 16];
            address.copy_from_slice(front);
            write!(text, " {}", Ipv6Text(&address))?;
            Ok(Some(rest))
        }
    }
}

/// Appends the identity of a host: the algorithm of its key, its tag and its key.
pub(crate) fn push_identity<'o>(
    octets: &'o [u8],
    text: &mut String,
) -> Result<Option<&'o [u8]>, AllocError>
    ensures { IfOk result (λ rest. option_map (λ r. (string_bytes text.new, r.now)) rest
        ≡ appended (string_bytes text.old) (identity_words octets.now)) }
{
    match octets {
        [count, algorithm, others @ ..] => {
            push_tag_and_key(usize::from(*count), *algorithm, others, text)
        }
        _ => Ok(None),
    }
}

/// Appends an algorithm, and a tag and a key behind the count of octets of the key.
fn push_tag_and_key<'o>(
    count: usize,
    algorithm: u8,
    octets: &'o [u8],
    text: &mut String,
) -> Result<Option<&'o [u8]>, AllocError>
    ensures { IfOk result (λ rest. option_map (λ r. (string_bytes text.new, r.now)) rest
        ≡ appended (string_bytes text.old) (tag_and_key count algorithm octets.now)) }
{
    let Some((size, rest)) = short_of(octets) else {
        return Ok(None);
    };
    let Some((tag, rest)) = front_octets(count, rest) else {
        return Ok(None);
    };
    let Some((key, rest)) = front_octets(usize::from(size), rest) else {
        return Ok(None);
    };
    if tag.is_empty() || key.is_empty() {
        return Ok(None);
    }
    write!(text, " {algorithm} {} {}", HexText(tag), Base64Text(key))?;
    Ok(Some(rest))
}
