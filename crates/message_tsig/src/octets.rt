//! What octets begin with, and parts of them.
ghost use Rattle.std.specs.Prelude.{◌≡◌, ◌≤◌, length, option_map, take, drop, slice_index};
ghost use Rattle.message_reading.specs.Octets.{alone};
ghost use Rattle.message_tsig.specs.Texts.{short_at};
ghost use Rattle.message_tsig.specs.Tsigs.{shortly_counted, time_of};

use message_reading::{long_of, octets_of, short_of};

/// A number of 48 bits, and what stands after it.
pub(crate) fn time_of(octets: &[u8]) -> Option<(u64, &[u8])>
    ensures { option_map (λ x. (x.0, x.1.now)) result ≡ time_of octets.now }
{
    let (high, rest) = short_of(octets)?;
    let (low, rest) = long_of(rest)?;
    Some((u64::from(high) * 4294967296 + u64::from(low), rest))
}

/// Octets behind a number of 16 bits that counts them, and what stands after them.
pub(crate) fn shortly_counted(octets: &[u8]) -> Option<(&[u8], &[u8])>
    ensures { option_map (λ x. (x.0.now, x.1.now)) result ≡ shortly_counted octets.now }
{
    let (count, rest) = short_of(octets)?;
    octets_of(usize::from(count), rest)
}

/// The octets behind a number that counts them, where nothing stands behind these.
pub(crate) fn only_counted(octets: &[u8]) -> Option<&[u8]>
    ensures { option_map (λ x. x.now) result ≡ alone (shortly_counted octets.now) }
{
    match shortly_counted(octets)? {
        (found, []) => Some(found),
        _ => None,
    }
}

/// The first octets, so many or all of them.
pub(crate) fn front(octets: &[u8], count: usize) -> &[u8]
    ensures value { result.now ≡ take count octets.now }
    ensures inside { length result.now ≤ length octets.now }
{
    if count < octets.len() {
        &octets[..count]
    } else {
        octets
    }
}

/// The octets behind so many.
pub(crate) fn behind(octets: &[u8], count: usize) -> &[u8]
    ensures { result.now ≡ drop count octets.now }
{
    if count < octets.len() {
        &octets[count..]
    } else {
        &[]
    }
}

/// The octet at an offset; 0 behind the last.
pub(crate) fn octet_at(octets: &[u8], at: usize) -> u8
    ensures { result ≡ slice_index octets.now at }
{
    if at < octets.len() { octets[at] } else { 0 }
}

/// The number of 16 bits at an offset.
pub(crate) fn short_at(octets: &[u8], at: usize) -> u16
    requires { at ≤ 65535 }
    ensures { result ≡ short_at at octets.now }
{
    u16::from(octet_at(octets, at)) * 256 + u16::from(octet_at(octets, at + 1))
}
