//! Whether a TSIG is right (RFC 8945 sections 5.2.2 to 5.2.4).
ghost use Rattle.std.specs.Prelude.{◌≡◌, ◌++◌, IfOk};
ghost use Rattle.message_tsig.specs.Verdicts.{begins_with, by_mac, is_mac_length, is_within, mac_under, verdict_of};

use crate::key::Key;
use crate::octets::front;
use crate::tsig::Tsig;
use message_hmac::{mac, same_octets};
use std::alloc::{AllocError, Global};

/// What is wrong with a TSIG (RFC 8945 section 3).
#[derive(Clone, Copy, PartialEq, Eq, Debug)]
pub enum TsigError {
    /// The MAC isn't that of the message under the key: 16.
    BadSig,
    /// The server has no key of this name and algorithm: 17.
    BadKey,
    /// The server's time is further from the time at which the message was signed than its fudge: 18.
    BadTime,
    /// The MAC is right as far as it goes, but truncated: 22.
    BadTrunc,
}

/// What is found of a TSIG under a key.
#[derive(Clone, Copy, PartialEq, Eq, Debug)]
pub(crate) enum Verdict {
    /// It is right.
    Right,
    /// Its MAC has a length that none may have.
    Malformed,
    /// It is wrong.
    Wrong(TsigError),
}

/// What is found of a TSIG under a key at a moment, whose MAC is to be that of three pieces, one behind the other. Refused for want of
/// memory alone.
pub(crate) fn verdict_of(
    alloc: Global,
    key: &Key,
    now: u64,
    tsig: &Tsig,
    first: &[u8],
    second: &[u8],
    third: &[u8],
) -> Result<Verdict, AllocError>
    ensures { IfOk result (λ verdict. verdict
        ≡ verdict_of key.now now tsig.now ((first.now ++ second.now) ++ third.now)) }
{
    if !is_mac_length(key, tsig) {
        return Ok(Verdict::Malformed);
    }
    let right = mac(
        alloc,
        key.algorithm,
        key.secret.as_slice(),
        first,
        second,
        third,
    )?;
    Ok(by_mac(now, tsig, right.as_slice()))
}

/// The same beside the right MAC.
fn by_mac(now: u64, tsig: &Tsig, right: &[u8]) -> Verdict
    ensures { result ≡ by_mac now tsig.now right.now }
{
    if !begins_with(tsig.mac.as_slice(), right) {
        Verdict::Wrong(TsigError::BadSig)
    } else if !is_within(now, tsig) {
        Verdict::Wrong(TsigError::BadTime)
    } else if !same_octets(tsig.mac.as_slice(), right) {
        Verdict::Wrong(TsigError::BadTrunc)
    } else {
        Verdict::Right
    }
}

/// Whether a MAC may have so many octets.
fn is_mac_length(key: &Key, tsig: &Tsig) -> bool
    ensures { result ≡ is_mac_length key.now tsig.now }
{
    let (count, size) = (tsig.mac.as_slice().len(), key.algorithm.size());
    (size / 2).max(10) <= count && count <= size
}

/// Whether octets are the first ones of others.
fn begins_with(octets: &[u8], whole: &[u8]) -> bool
    ensures { result ≡ begins_with octets.now whole.now }
{
    same_octets(octets, front(whole, octets.len()))
}

/// Whether a moment is as near to that of a TSIG as this allows.
fn is_within(now: u64, tsig: &Tsig) -> bool
    ensures { result ≡ is_within now tsig.now }
{
    let fudge = u64::from(tsig.fudge);
    now.saturating_sub(tsig.time) <= fudge && tsig.time.saturating_sub(now) <= fudge
}
