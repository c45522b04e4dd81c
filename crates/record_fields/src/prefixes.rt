//! Address prefixes (RFC 3123).
ghost use Rattle.std.specs.Prelude.{◌≡◌, ◌≤◌, IfOk, IfSome, length, option_map, vec_len};
ghost use Rattle.record_fields.specs.Readings.{Gives, after};
ghost use Rattle.record_fields.specs.Fields.{Left};
ghost use Rattle.record_fields.specs.Prefixes.{address_of, count_octet, length_of, most_bits, prefix_octets, prefix_of_family, prefix_of_word, used, with_family, without_zeros};
ghost use Rattle.record_fields.specs.Rows.{behind};
ghost use Rattle.record_fields.specs.Texts.{next_prefixes, prefixes_of};

use crate::fault::{Fault, ReadError, Reason};
use crate::signs::{before_sign, behind_sign};
use crate::words::Words;
use line_text::{read_u8, read_u16};
use message_writing::push_short;
use std::alloc::{AllocError, Global};
use zone_scanner::Word;
use zone_tokens::{read_ipv4_word, read_ipv6_word};

/// Takes address prefixes to the end of the entry, and appends their octets.
pub(crate) fn push_prefixes(
    alloc: Global,
    words: &mut Words<'_>,
    out: &mut Vec<u8>,
) -> Result<(), ReadError>
    ensures { Gives (λ _. (out.new.items, words.new)) result
        (behind out.old.items (next_prefixes words.old)) }
{
    let prefixes = words.take_rest();
    push_all(alloc, prefixes, out)
}

/// Appends the octets of the prefixes that words are.
fn push_all(alloc: Global, words: &[Word], out: &mut Vec<u8>) -> Result<(), ReadError>
    ensures { Gives (λ _. out.new.items) result (after out.old.items (prefixes_of words.now)) }
{
    for word in words {
        if word.is_quoted() {
            return Err(fault_at(word, Reason::Quoted));
        }
        let Some(octets) = read_prefix(alloc, word.octets())? else {
            return Err(fault_at(word, Reason::Prefix));
        };
        out.extend_from_slice(octets.as_slice())?;
    }
    Ok(())
}

/// A fault at the place of a word.
fn fault_at(word: &Word, reason: Reason) -> ReadError
    ensures { result ≡ ReadError.Fault (record { place = word.now.place; reason = reason }) }
{
    ReadError::Fault(Fault {
        place: word.place(),
        reason,
    })
}

/// Reads an address prefix, and gives its octets: its family, which is 1 for IPv4 and 2 for IPv6, its length in bits, whether it is
/// negated and how many octets its address has, and these, without those of zero at the end (RFC 3123 section 4). None if the word
/// isn't one, as `1:192.0.2.0/24` and `!2:2001:db8::/32` are (section 5).
///
/// # Errors
///
/// `AllocError` if memory is refused.
#[tactic(auto, unfolding(crate::specs::Prefixes::prefix_of_word))]
pub fn read_prefix(alloc: Global, word: &[u8]) -> Result<Option<Vec<u8>>, AllocError>
    ensures { IfOk result (λ octets. option_map (λ o. o.items) octets ≡ prefix_of_word word.now) }
{
    match word {
        [] => Ok(None),
        [b'!', prefix @ ..] => read_with_family(alloc, true, prefix),
        [_, ..] => read_with_family(alloc, false, word),
    }
}

/// Reads a family, and a prefix of it behind a colon.
fn read_with_family(
    alloc: Global,
    negated: bool,
    word: &[u8],
) -> Result<Option<Vec<u8>>, AllocError>
    ensures { IfOk result
        (λ octets. option_map (λ o. o.items) octets ≡ with_family negated word.now) }
{
    match read_u16(before_sign(b':', word)) {
        Some(family) => read_of_family(alloc, negated, family, behind_sign(b':', word)),
        None => Ok(None),
    }
}

/// Reads a prefix of a family: an address, and a length behind a slash.
fn read_of_family(
    alloc: Global,
    negated: bool,
    family: u16,
    word: &[u8],
) -> Result<Option<Vec<u8>>, AllocError>
    ensures { IfOk result
        (λ octets. option_map (λ o. o.items) octets ≡ prefix_of_family negated family word.now) }
{
    let Some(address) = read_address(alloc, family, before_sign(b'/', word))? else {
        return Ok(None);
    };
    let Some(bits) = read_length(family, behind_sign(b'/', word)) else {
        return Ok(None);
    };
    let address = without_zeros(address.as_slice());
    Ok(Some(prefix_octets(alloc, negated, family, bits, address)?))
}

/// Reads an address of a family.
fn read_address(alloc: Global, family: u16, word: &[u8]) -> Result<Option<Vec<u8>>, AllocError>
    ensures value { IfOk result
        (λ octets. option_map (λ o. o.items) octets ≡ address_of family word.now) }
    ensures short { IfOk result (λ octets. IfSome octets (λ o. vec_len o ≤ 16)) }
{
    match family {
        1 => match read_ipv4_word(word) {
            Some(address) => Ok(Some(Vec::from_slice(alloc, &address)?)),
            None => Ok(None),
        },
        2 => match read_ipv6_word(alloc, word)? {
            Some(address) => Ok(Some(Vec::from_slice(alloc, &address)?)),
            None => Ok(None),
        },
        _ => Ok(None),
    }
}

/// Reads the length of a prefix of a family.
fn read_length(family: u16, word: &[u8]) -> Option<u8>
    ensures { result ≡ length_of family word.now }
{
    let bits = read_u8(word)?;
    if bits <= most_bits(family) {
        Some(bits)
    } else {
        None
    }
}

/// How many bits an address of a family has.
fn most_bits(family: u16) -> u8
    ensures { result ≡ most_bits family }
{
    if family == 1 { 32 } else { 128 }
}

/// An address without the octets of zero at its end.
fn without_zeros(address: &[u8]) -> &[u8]
    ensures value { result.now ≡ without_zeros address.now }
    ensures shorter { length result.now ≤ length address.now }
{
    let (front, _) = address.split_at(used(address));
    front
}

/// How many octets there are up to the last that isn't zero.
fn used(octets: &[u8]) -> usize
    ensures value { result ≡ used octets.now }
    ensures within { result ≤ length octets.now }
{
    match octets {
        [] => 0,
        [first, others @ ..] => {
            let count = used(others);
            if count == 0 && *first == 0 {
                0
            } else {
                count + 1
            }
        }
    }
}

/// The octets of a prefix.
fn prefix_octets(
    alloc: Global,
    negated: bool,
    family: u16,
    bits: u8,
    address: &[u8],
) -> Result<Vec<u8>, AllocError>
    requires { length address.now ≤ 127 }
    ensures { IfOk result
        (λ octets. octets.items ≡ prefix_octets negated family bits address.now) }
{
    let mut octets = Vec::new(alloc);
    push_short(&mut octets, family)?;
    octets.push(bits)?;
    octets.push(count_octet(negated, address.len() as u8))?;
    octets.extend_from_slice(address)?;
    Ok(octets)
}

/// How many octets the address of a prefix has, with the bit that negates it.
fn count_octet(negated: bool, count: u8) -> u8
    requires { count ≤ 127 }
    ensures { result ≡ count_octet negated count }
{
    if negated { 128 + count } else { count }
}
