//! What octets begin with. Each call doesn't allocate.
ghost use Rattle.std.specs.Prelude.{◌≡◌, ◌≤◌, length, option_map};
ghost use Rattle.message_reading.specs.Octets.{alone, octet_of, short_of, long_of, octets_of, counted_of, past, offset_of};

/// The first octet, and what follows it; none if there are no octets.
pub fn octet_of(octets: &[u8]) -> Option<(u8, &[u8])>
    ensures { option_map (λ x. (x.0, x.1.now)) result ≡ octet_of octets.now }
{
    match octets {
        [octet, rest @ ..] => Some((*octet, rest)),
        [] => None,
    }
}

/// A number of 16 bits, the high octet first (RFC 1035 section 2.3.2), and what follows it; none if there are fewer
/// than two octets.
pub fn short_of(octets: &[u8]) -> Option<(u16, &[u8])>
    ensures { option_map (λ x. (x.0, x.1.now)) result ≡ short_of octets.now }
{
    match octets {
        [high, low, rest @ ..] => Some((u16::from(*high) * 256 + u16::from(*low), rest)),
        _ => None,
    }
}

/// A number of 32 bits, the high half first, and what follows it; none if there are fewer than four octets.
pub fn long_of(octets: &[u8]) -> Option<(u32, &[u8])>
    ensures { option_map (λ x. (x.0, x.1.now)) result ≡ long_of octets.now }
{
    let (high, rest) = short_of(octets)?;
    let (low, rest) = short_of(rest)?;
    Some((u32::from(high) * 65536 + u32::from(low), rest))
}

/// The number of 32 bits that octets are.
pub(crate) fn only_long_of(octets: &[u8]) -> Option<u32>
    ensures { result ≡ alone (long_of octets.now) }
{
    match long_of(octets)? {
        (number, []) => Some(number),
        _ => None,
    }
}

/// The first `count` octets, and what follows them; none if there are fewer.
pub fn octets_of(count: usize, octets: &[u8]) -> Option<(&[u8], &[u8])>
    ensures { option_map (λ x. (x.0.now, x.1.now)) result ≡ octets_of count octets.now }
{
    if count <= octets.len() {
        Some(octets.split_at(count))
    } else {
        None
    }
}

/// The octets that the first one counts, and what follows them.
pub(crate) fn counted_of(octets: &[u8]) -> Option<(&[u8], &[u8])>
    ensures { option_map (λ x. (x.0.now, x.1.now)) result ≡ counted_of octets.now }
{
    let (count, rest) = octet_of(octets)?;
    octets_of(usize::from(count), rest)
}

/// The offset of what is left of octets that are at an offset of a message.
pub(crate) fn past(at: usize, octets: &[u8], left: &[u8]) -> usize
    requires { at ≤ 9223372036854775807 }
    ensures { result ≡ past at octets.now left.now }
{
    at + octets.len().saturating_sub(left.len())
}

/// The offset at which the last octets of a message begin, as `name_of` and others are told it.
pub fn offset_of(message: &[u8], octets: &[u8]) -> usize
    ensures value { result ≡ offset_of message.now octets.now }
    ensures inside { result ≤ length message.now }
{
    message.len().saturating_sub(octets.len())
}
