//! Gateways, relays and identities of hosts.
ghost use Rattle.std.specs.Prelude.{◌≡◌, ◌≤◌, [], IfOk, vec_len};
ghost use Rattle.record_fields.specs.Readings.{Gives};
ghost use Rattle.record_fields.specs.Fields.{Left, next};
ghost use Rattle.record_fields.specs.Rows.{behind};
ghost use Rattle.record_fields.specs.Hosts.{identity_octets, key_of_word, next_flag, next_gateway, next_host, next_identity, next_relay, no_host, tag_of_word};

use crate::fault::{ReadError, Reason};
use crate::fields::{take_ipv4, take_ipv6, take_u8};
use crate::names::push_name;
use crate::words::Words;
use line_text::read_u8;
use message_writing::push_short;
use std::alloc::{AllocError, Global};
use zone_proto::Name;
use zone_tokens::{read_base64, read_hex_digits};

/// Takes a gateway: its type, the algorithm of the key behind it, and where it is; and appends their octets.
#[tactic(auto, using(crate::proofs::RowFacts::two_first), unfolding(crate::specs::Hosts::next_gateway))]
pub(crate) fn push_gateway(
    alloc: Global,
    origin: &Name,
    words: &mut Words<'_>,
    out: &mut Vec<u8>,
) -> Result<(), ReadError>
    ensures { Gives (λ _. (out.new.items, words.new)) result
        (behind out.old.items (next_gateway origin.now words.old)) }
{
    let kind = take_u8(words)?;
    let algorithm = take_u8(words)?;
    out.push(kind)?;
    out.push(algorithm)?;
    push_host(alloc, origin, kind, words, out)
}

/// Takes a relay: whether others are to be found, its type, and where it is; and appends their octets.
#[tactic(auto, using(crate::proofs::RowFacts::one_first), unfolding(crate::specs::Hosts::next_relay))]
pub(crate) fn push_relay(
    alloc: Global,
    origin: &Name,
    words: &mut Words<'_>,
    out: &mut Vec<u8>,
) -> Result<(), ReadError>
    ensures { Gives (λ _. (out.new.items, words.new)) result
        (behind out.old.items (next_relay origin.now words.old)) }
{
    let discovery = take_flag(words)?;
    let kind = take_u8(words)?;
    if kind > 3 {
        return Err(words.fault(Reason::HostType));
    }
    out.push(discovery * 128 + kind)?;
    push_host(alloc, origin, kind, words, out)
}

/// Takes a number that is 0 or 1.
fn take_flag(words: &mut Words<'_>) -> Result<u8, ReadError>
    ensures { Gives (λ x. (x, words.new)) result (next_flag words.old) }
{
    let word = words.take()?;
    match read_u8(word.octets()) {
        Some(0) => Ok(0),
        Some(1) => Ok(1),
        _ => Err(words.fault(Reason::Flag)),
    }
}

/// Takes where a host is, by the number that says how that is written, and appends its octets.
fn push_host(
    alloc: Global,
    origin: &Name,
    kind: u8,
    words: &mut Words<'_>,
    out: &mut Vec<u8>,
) -> Result<(), ReadError>
    ensures { Gives (λ _. (out.new.items, words.new)) result
        (behind out.old.items (next_host origin.now kind words.old)) }
{
    match kind {
        0 => take_no_host(words),
        1 => Ok(out.extend_from_slice(&take_ipv4(words)?)?),
        2 => Ok(out.extend_from_slice(&take_ipv6(alloc, words)?)?),
        3 => push_name(alloc, origin, words, out),
        _ => Err(words.fault(Reason::HostType)),
    }
}

/// Takes the dot that stands for no host.
fn take_no_host(words: &mut Words<'_>) -> Result<(), ReadError>
    ensures { Gives (λ _. ([], words.new)) result (next no_host Reason.NoHost words.old) }
{
    let word = words.take()?;
    if word.octets() == b".".as_slice() {
        Ok(())
    } else {
        Err(words.fault(Reason::NoHost))
    }
}

/// Takes the identity of a host: the algorithm of its key, its tag and its key; and appends their octets.
#[tactic(auto, unfolding(crate::specs::Hosts::next_identity))]
pub(crate) fn push_identity(
    alloc: Global,
    words: &mut Words<'_>,
    out: &mut Vec<u8>,
) -> Result<(), ReadError>
    ensures { Gives (λ _. (out.new.items, words.new)) result
        (behind out.old.items (next_identity words.old)) }
{
    let algorithm = take_u8(words)?;
    let tag = take_host_tag(alloc, words)?;
    let key = take_host_key(alloc, words)?;
    out.push(tag.len() as u8)?;
    out.push(algorithm)?;
    push_short(out, key.len() as u16)?;
    out.extend_from_slice(tag.as_slice())?;
    Ok(out.extend_from_slice(key.as_slice())?)
}

/// Takes the tag of a host, in hex.
fn take_host_tag(alloc: Global, words: &mut Words<'_>) -> Result<Vec<u8>, ReadError>
    ensures value { Gives (λ os. (os.items, words.new)) result
        (next tag_of_word Reason.HostTag words.old) }
    ensures short { IfOk result (λ os. vec_len os ≤ 255) }
{
    let word = words.take()?;
    match read_hex_digits(alloc, word.octets())? {
        Some(tag) if tag.len() <= 255 => Ok(tag),
        _ => Err(words.fault(Reason::HostTag)),
    }
}

/// Takes the key of a host, in base64.
fn take_host_key(alloc: Global, words: &mut Words<'_>) -> Result<Vec<u8>, ReadError>
    ensures value { Gives (λ os. (os.items, words.new)) result
        (next key_of_word Reason.HostKey words.old) }
    ensures short { IfOk result (λ os. vec_len os ≤ 65535) }
{
    let word = words.take()?;
    match read_base64(alloc, word.octets())? {
        Some(key) if key.len() <= 65535 => Ok(key),
        _ => Err(words.fault(Reason::HostKey)),
    }
}
