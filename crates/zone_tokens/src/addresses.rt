//! Addresses.
ghost use Rattle.std.specs.Prelude.{◌≡◌, ◌+◌, ◌<◌, ◌≤◌, ◌==◌, Some, None, IfOk, IfSome, OnOk, length, count_by, option_map, option_and_then, string_bytes};
ghost use Rattle.line_text.specs.Addresses.{ipv6_text};
ghost use Rattle.zone_tokens.specs.Addresses.{double_at, full_form, groups_of_word, ipv4_of_word, ipv4_width, last_colon, numbers_of_word, unpadded, width, group_count, ipv6_of_word, with_groups, with_zero, with_zeros};

use line_text::{HexText, read_ipv4, read_ipv6};
use std::alloc::{AllocError, Global};

/// Reads an IPv4 address: four numbers from 0 to 255 with dots between them (RFC 1035 section 3.4.1), without leading
/// zeros, which some programs read as octal. None if the word isn't that.
pub fn read_ipv4_word(word: &[u8]) -> Option<[u8; 4]>
    ensures { result ≡ ipv4_of_word word.now }
{
    let address = read_ipv4(word)?;
    if word.len() == ipv4_width(&address) {
        Some(address)
    } else {
        None
    }
}

/// How many octets the text of an address has.
fn ipv4_width(address: &[u8]) -> usize
    requires { length address.now ≤ 4 }
    ensures { result ≡ ipv4_width address.now }
{
    let mut total = 3usize;
    for number in address {
        total += width(*number);
    }
    total
}

/// How many digits a number has.
fn width(number: u8) -> usize
    ensures value { result ≡ width number }
    ensures small { result ≤ 3 }
{
    if number < 10 {
        1
    } else if number < 100 {
        2
    } else {
        3
    }
}

/// Reads an IPv6 address: eight groups of hex digits, of which `::` leaves out groups of zeros, and in place of the last two of
/// which the four numbers of an IPv4 address may stand (RFC 4291 section 2.2). None if the word is none.
pub fn read_ipv6_word(alloc: Global, word: &[u8]) -> Result<Option<[u8; 16]>, AllocError>
    ensures { IfOk result (λ a. a ≡ ipv6_of_word word.now) }
{
    match read_groups(alloc, word)? {
        Some(address) => Ok(Some(address)),
        None => read_with_numbers(alloc, word),
    }
}

/// Reads an address whose last two groups are written as an IPv4 address.
fn read_with_numbers(alloc: Global, word: &[u8]) -> Result<Option<[u8; 16]>, AllocError>
    ensures { IfOk result (λ a. a ≡ numbers_of_word word.now) }
{
    if word.len() > 45 {
        return Ok(None);
    }
    let (front, back) = word.split_at(last_colon(word));
    let Some(numbers) = read_ipv4_word(back) else {
        return Ok(None);
    };
    let groups = two_groups(alloc, &numbers)?;
    let mut text = Vec::from_slice(alloc, front)?;
    text.extend_from_slice(groups.as_bytes())?;
    read_groups(alloc, text.as_slice())
}

/// Two groups of hex for the numbers of an IPv4 address.
fn two_groups(alloc: Global, numbers: &[u8; 4]) -> Result<String, AllocError>
    ensures { IfOk result (λ text. string_bytes text ≡ ipv6_text numbers.now) }
{
    let [a, b, c, d] = numbers;
    let (high, low) = ([*a, *b], [*c, *d]);
    format!(in alloc; "{}:{}", HexText(&high), HexText(&low))
}

/// How many octets stand up to the last colon, and with it; none if there is no colon.
fn last_colon(word: &[u8]) -> usize
    ensures value { result ≡ last_colon word.now }
    ensures within { result ≤ length word.now }
{
    match word {
        [] => 0,
        [first, others @ ..] => {
            if others.contains(&b':') {
                last_colon(others) + 1
            } else if *first == b':' {
                1
            } else {
                0
            }
        }
    }
}

/// Reads an address of groups.
fn read_groups(alloc: Global, word: &[u8]) -> Result<Option<[u8; 16]>, AllocError>
    ensures { IfOk result (λ a. a ≡ groups_of_word word.now) }
{
    if word.len() > 39 {
        return Ok(None);
    }
    let Some(at) = double_at(word) else {
        return Ok(read_ipv6(word));
    };
    match full_form(alloc, &word[..at], &word[at + 2..])? {
        None => Ok(None),
        Some(text) => Ok(read_ipv6(text.as_slice())),
    }
}

/// Where the first `::` begins.
fn double_at(word: &[u8]) -> Option<usize>
    ensures value { result ≡ double_at word.now }
    ensures within { IfSome result (λ k. k + 2 ≤ length word.now) }
{
    match word {
        [] => None,
        [_] => None,
        [b':', b':', ..] => Some(0),
        [_, rest @ ..] => Some(double_at(rest)? + 1),
    }
}

/// The address with all its groups.
fn full_form(alloc: Global, front: &[u8], back: &[u8]) -> Result<Option<Vec<u8>>, AllocError>
    requires front { length front.now < 100 }
    requires back { length back.now < 100 }
    ensures { IfOk result (λ t. option_map (λ t. t.items) t ≡ full_form front.now back.now) }
{
    let front_count = group_count(front);
    let back_count = group_count(back);
    if front_count + back_count >= 8 {
        return Ok(None);
    }
    let mut text = Vec::from_slice(alloc, front)?;
    push_zeros(&mut text, 8 - (front_count + back_count))?;
    push_groups(&mut text, back)?;
    Ok(Some(text))
}

/// How many groups a text has.
fn group_count(text: &[u8]) -> usize
    requires { length text.now < 100 }
    ensures value { result ≡ group_count text.now }
    ensures small { result ≤ 100 }
{
    match text {
        [] => 0,
        [_, ..] => 1 + colon_count(text),
    }
}

/// How many colons a text has.
fn colon_count(text: &[u8]) -> usize
    requires { length text.now < 100 }
    ensures value { result ≡ count_by (λ c. c == 58) text.now }
    ensures small { result < 100 }
{
    text.iter().filter(|octet| **octet == b':').count()
}

/// Appends groups of 0 to a text.
#[tactic(auto, using(crate::proofs::ZeroGroups::zeros_more, crate::proofs::ZeroGroups::zeros_none))]
fn push_zeros(text: &mut Vec<u8>, count: usize) -> Result<(), AllocError>
    ensures { OnOk result (text.new.items ≡ with_zeros count text.old.items) }
{
    for _ in 0..count {
        push_zero(text)?;
    }
    Ok(())
}

/// Appends a group of 0 to a text.
fn push_zero(text: &mut Vec<u8>) -> Result<(), AllocError>
    ensures { OnOk result (text.new.items ≡ with_zero text.old.items) }
{
    if text.is_empty() {
        text.push(b'0')?;
    } else {
        text.extend_from_slice(b":0")?;
    }
    Ok(())
}

/// Appends groups to a text.
fn push_groups(text: &mut Vec<u8>, groups: &[u8]) -> Result<(), AllocError>
    ensures { OnOk result (text.new.items ≡ with_groups text.old.items groups.now) }
{
    match groups {
        [] => Ok(()),
        [_, ..] => {
            text.push(b':')?;
            text.extend_from_slice(groups)?;
            Ok(())
        }
    }
}
