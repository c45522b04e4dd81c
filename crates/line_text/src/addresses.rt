//! IPv4 and IPv6 addresses, which are the data of A and AAAA records, read and printed.
ghost use Rattle.std.specs.Prelude.{◌≡◌, ◌≤◌, ◌<◌, ◌+◌, [], ◌∷◌, ◌++◌, take, Some, None, IfOk, IfErr};
ghost use Rattle.std.specs.Fmt.{decimal};
ghost use Rattle.line_text.specs.Addresses.{group_of_text, ipv4_of_text, ipv4_text, ipv6_of_text, ipv6_text};
ghost use Rattle.line_text.specs.Reading.{next_word};

use crate::error::TextError;
use crate::hex::HexOctet;
use crate::numbers::{read_number, read_u8};
use crate::parts::part_before;
use crate::words::Words;
use std::{fmt, str};

/// How many octets the text of an IPv4 address has at most: four numbers of three digits, and three dots.
const LONGEST_IPV4: usize = 15;

/// Reads an IPv4 address: four numbers from 0 to 255 with dots between them (RFC 1035 section 3.4.1). None if the word
/// isn't that. Doesn't allocate.
#[tactic(auto, using(crate::proofs::PartFacts::reading))]
pub fn read_ipv4(word: &[u8]) -> Option<[u8; 4]>
    ensures { result ≡ ipv4_of_text word.now }
{
    let mut address = [0u8; 4];
    let mut rest = Some(word);
    for i in 0..4usize {
        let (part, others) = part_before(rest?, b'.');
        address[i] = read_u8(part)?;
        rest = others;
    }
    match rest {
        None => Some(address),
        Some(_) => None,
    }
}

/// Reads an IPv6 address: eight groups of one to four hex digits with colons between them, none left out (RFC 4291
/// section 2.2, its first form). None if the word isn't that. Doesn't allocate.
#[tactic(auto, using(crate::proofs::PartFacts::reading))]
pub fn read_ipv6(word: &[u8]) -> Option<[u8; 16]>
    ensures { result ≡ ipv6_of_text word.now }
{
    let mut address = [0u8; 16];
    let mut rest = Some(word);
    for i in 0..8usize {
        let (part, others) = part_before(rest?, b':');
        let group = read_group(part)?;
        address[2 * i] = (group / 256) as u8;
        address[2 * i + 1] = (group % 256) as u8;
        rest = others;
    }
    match rest {
        None => Some(address),
        Some(_) => None,
    }
}

/// Reads one to four hex digits.
fn read_group(part: &[u8]) -> Option<u16>
    ensures { result ≡ group_of_text part.now }
{
    if part.len() > 4 {
        return None;
    }
    Some(read_number(part, 16, 65535)? as u16)
}

/// Reads the next word as an IPv4 address.
#[tactic(auto, using(crate::proofs::ReadingFacts::reading))]
pub(crate) fn take_ipv4(words: &mut Words<'_>) -> Result<[u8; 4], TextError>
    ensures ok { IfOk result (λ a. next_word ipv4_of_text words.old ≡ Some (a, words.new)) }
    ensures refusal { IfErr result (λ e. next_word ipv4_of_text words.old ≡ None) }
{
    let word = words.take_needed()?;
    read_ipv4(word).ok_or(TextError::BadText)
}

/// Reads the next word as an IPv6 address.
#[tactic(auto, using(crate::proofs::ReadingFacts::reading))]
pub(crate) fn take_ipv6(words: &mut Words<'_>) -> Result<[u8; 16], TextError>
    ensures ok { IfOk result (λ a. next_word ipv6_of_text words.old ≡ Some (a, words.new)) }
    ensures refusal { IfErr result (λ e. next_word ipv6_of_text words.old ≡ None) }
{
    let word = words.take_needed()?;
    read_ipv6(word).ok_or(TextError::BadText)
}

/// An IPv4 address as four numbers with dots between them.
#[derive(Drop)]
pub(crate) struct Ipv4Text<'r>(pub &'r [u8; 4]);

impl fmt::Display for Ipv4Text<'_> {
    ghost output = { λ a. Some (ipv4_text a.0.now) };

    fn fmt<W: fmt::Write>(&self, f: &mut fmt::Formatter<W>) -> fmt::Result {
        let mut room = [0; LONGEST_IPV4];
        let end = put_ipv4(self.0, &mut room);
        match str::from_utf8(&room[..end]) {
            Ok(text) => f.write_str(text),
            // This never comes: digits and dots are text.
            Err(_) => Err(fmt::Error),
        }
    }
}

/// Puts the text of an IPv4 address into the front of the room, and answers where it ends: so it is written in one piece.
fn put_ipv4(address: &[u8; 4], room: &mut [u8; LONGEST_IPV4]) -> usize
    ensures fits { result ≤ 15 }
    ensures text { take result room.new ≡ ipv4_text address.now }
{
    let [a, b, c, d] = address;
    let first = put_octet(*a, room, 0);
    let second = put_further(*b, room, first);
    let third = put_further(*c, room, second);
    put_further(*d, room, third)
}

/// Appends a dot and an octet in decimal digits to the front of the room, and answers where they end.
fn put_further(octet: u8, room: &mut [u8; LONGEST_IPV4], front: usize) -> usize
    requires { front ≤ 11 }
    ensures fits { result ≤ front + 4 }
    ensures text { take result room.new ≡ take front room.old ++ 46 ∷ decimal octet }
{
    room[front] = b'.';
    put_octet(octet, room, front + 1)
}

/// Appends an octet in decimal digits to the front of the room, and answers where it ends.
#[tactic(auto, using(crate::proofs::AddressTexts::ones))]
fn put_octet(octet: u8, room: &mut [u8; LONGEST_IPV4], front: usize) -> usize
    requires { front ≤ 12 }
    ensures fits { result ≤ front + 3 }
    ensures text { take result room.new ≡ take front room.old ++ decimal octet }
{
    let (hundreds, tens, ones) = (octet / 100, octet / 10 % 10, octet % 10);
    if octet >= 100 {
        let end = put_digit(hundreds, room, front);
        let end = put_digit(tens, room, end);
        put_digit(ones, room, end)
    } else if octet >= 10 {
        let end = put_digit(tens, room, front);
        put_digit(ones, room, end)
    } else {
        put_digit(ones, room, front)
    }
}

/// Appends a digit to the front of the room, and answers where it ends.
fn put_digit(digit: u8, room: &mut [u8; LONGEST_IPV4], front: usize) -> usize
    requires digit { digit < 10 }
    requires within { front ≤ 14 }
    ensures end { result ≡ front + 1 }
    ensures text { take result room.new ≡ take front room.old ++ (48 + digit) ∷ [] }
{
    room[front] = b'0' + digit;
    front + 1
}

/// An IPv6 address as eight groups of four hex digits with colons between them.
#[derive(Drop)]
pub(crate) struct Ipv6Text<'r>(pub &'r [u8; 16]);

impl fmt::Display for Ipv6Text<'_> {
    ghost output = { λ a. Some (ipv6_text a.0.now) };

    fn fmt<W: fmt::Write>(&self, f: &mut fmt::Formatter<W>) -> fmt::Result {
        let [a, b, c, d, e, g, h, i, j, k, l, m, n, o, p, q] = self.0;
        let (first, second) = (GroupsText(*a, *b, *c, *d), GroupsText(*e, *g, *h, *i));
        let (third, fourth) = (GroupsText(*j, *k, *l, *m), GroupsText(*n, *o, *p, *q));
        write!(f, "{first}:{second}:{third}:{fourth}")
    }
}

/// Two groups of an IPv6 address, of four hex digits each, with a colon between them.
#[derive(Drop)]
struct GroupsText(u8, u8, u8, u8);

impl fmt::Display for GroupsText {
    ghost output = { λ g. Some (ipv6_text (g.0 ∷ g.1 ∷ g.2 ∷ g.3 ∷ [])) };

    fn fmt<W: fmt::Write>(&self, f: &mut fmt::Formatter<W>) -> fmt::Result {
        let (a, b) = (HexOctet(self.0), HexOctet(self.1));
        let (c, d) = (HexOctet(self.2), HexOctet(self.3));
        write!(f, "{a}{b}:{c}{d}")
    }
}
