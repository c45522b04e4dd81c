//! IPv6 addresses, printed.
ghost use Rattle.std.specs.Prelude.{◌≡◌, ◌≤◌, ◌<◌, ◌+◌, ◌*◌, length, Some};
ghost use Rattle.std.specs.Char.{digit_char};
ghost use Rattle.zone_file_writer.specs.Addresses.{address_text, behind_colons, group_text, groups_of, groups_text, longest_run, zeros_in_front};

use std::fmt;

/// An IPv6 address in its recommended form (RFC 5952 section 4).
#[derive(Drop)]
pub(crate) struct Ipv6Text<'r>(pub &'r [u8; 16]);

impl fmt::Display for Ipv6Text<'_> {
    ghost output = { λ a. Some (address_text a.0.now) };

    fn fmt<W: fmt::Write>(&self, f: &mut fmt::Formatter<W>) -> fmt::Result {
        let groups = groups_of(self.0);
        let (start, count) = longest_run(&groups);
        if count < 2 {
            return write!(f, "{}", GroupsText(&groups));
        }
        let (front, back) = (&groups[..start], &groups[start + count..]);
        write!(f, "{}::{}", GroupsText(front), GroupsText(back))
    }
}

/// The eight groups of an address.
#[tactic(auto, using(crate::proofs::AddressGroups::groups_of_sixteen))]
fn groups_of(octets: &[u8; 16]) -> [u16; 8]
    ensures { result ≡ groups_of octets.now }
{
    let [a, b, c, d, e, f, g, h, i, j, k, l, m, n, o, p] = octets;
    [
        group(*a, *b),
        group(*c, *d),
        group(*e, *f),
        group(*g, *h),
        group(*i, *j),
        group(*k, *l),
        group(*m, *n),
        group(*o, *p),
    ]
}

fn group(high: u8, low: u8) -> u16
    ensures { result ≡ high * 256 + low }
{
    u16::from(high) * 256 + u16::from(low)
}

/// The first of the longest runs of groups of zero: how many groups come before it, and how many it has.
fn longest_run(groups: &[u16]) -> (usize, usize)
    ensures value { result ≡ longest_run groups.now }
    ensures within { result.0 + result.1 ≤ length groups.now }
{
    match groups {
        [] => (0, 0),
        [_, others @ ..] => {
            let here = zeros_in_front(groups);
            let (start, count) = longest_run(others);
            if count <= here {
                (0, here)
            } else {
                (start + 1, count)
            }
        }
    }
}

/// How many groups of zero stand in front.
fn zeros_in_front(groups: &[u16]) -> usize
    ensures value { result ≡ zeros_in_front groups.now }
    ensures within { result ≤ length groups.now }
{
    match groups {
        [] => 0,
        [first, others @ ..] => {
            if *first == 0 {
                1 + zeros_in_front(others)
            } else {
                0
            }
        }
    }
}

/// Groups with colons between them.
#[derive(Drop)]
struct GroupsText<'r>(&'r [u16]);

impl fmt::Display for GroupsText<'_> {
    ghost output = { λ gs. Some (groups_text gs.0.now) };

    fn fmt<W: fmt::Write>(&self, f: &mut fmt::Formatter<W>) -> fmt::Result {
        match self.0 {
            [] => Ok(()),
            [first, others @ ..] => write!(f, "{}{}", GroupText(*first), FurtherGroups(others)),
        }
    }
}

/// Groups, each behind a colon.
#[derive(Drop)]
struct FurtherGroups<'r>(&'r [u16]);

impl fmt::Display for FurtherGroups<'_> {
    ghost output = { λ gs. Some (behind_colons gs.0.now) };

    fn fmt<W: fmt::Write>(&self, f: &mut fmt::Formatter<W>) -> fmt::Result {
        for group in self.0 {
            write!(f, ":{}", GroupText(*group))?;
        }
        Ok(())
    }
}

/// A group in hex, without leading zeros.
#[derive(Drop)]
struct GroupText(u16);

impl fmt::Display for GroupText {
    ghost output = { λ g. Some (group_text g.0) };

    fn fmt<W: fmt::Write>(&self, f: &mut fmt::Formatter<W>) -> fmt::Result {
        let group = self.0;
        let last = digit(group % 16);
        if group < 16 {
            return write!(f, "{}", digit(group));
        }
        if group < 256 {
            return write!(f, "{}{last}", digit(group / 16));
        }
        let third = digit(group / 16 % 16);
        if group < 4096 {
            return write!(f, "{}{third}{last}", digit(group / 256));
        }
        let second = digit(group / 256 % 16);
        write!(f, "{}{second}{third}{last}", digit(group / 4096))
    }
}

/// A digit of hex, in lower case.
fn digit(digit: u16) -> char
    requires { digit < 16 }
    ensures { result ≡ digit_char digit }
{
    char::from_digit(u32::from(digit), 16).unwrap_or('0')
}
