//! Numbers, read from their digits.
ghost use Rattle.std.specs.Prelude.{◌≡◌, ◌≤◌, ◌+◌, ◌*◌, pos, option_map};
ghost use Rattle.line_text.specs.Numbers.{at_most, digit_of, number_within};

/// Reads a number of at most `most` from its digits in this base: one or more of them, leading zeros in any count, and no
/// sign.
pub(crate) fn read_number(word: &[u8], base: u32, most: u64) -> Option<u64>
    requires low { 2 ≤ base }
    requires high { base ≤ 36 }
    ensures { result ≡ number_within base most word.now }
{
    if word.is_empty() {
        return None;
    }
    let mut value = 0u64;
    for octet in word {
        let Some(digit) = read_digit(*octet, base) else {
            return None;
        };
        let Some(more) = with_digit(value, base, digit, most) else {
            return None;
        };
        value = more;
    }
    Some(value)
}

/// The number with one digit more, if it is at most `most`.
fn with_digit(value: u64, base: u32, digit: u32, most: u64) -> Option<u64>
    ensures { result ≡ at_most most (value * base + digit) }
{
    let more = value
        .checked_mul(u64::from(base))?
        .checked_add(u64::from(digit))?;
    if more <= most { Some(more) } else { None }
}

/// Reads a digit of this base, a letter in either case.
pub(crate) fn read_digit(octet: u8, base: u32) -> Option<u32>
    requires low { 2 ≤ base }
    requires high { base ≤ 36 }
    ensures { result ≡ digit_of base octet }
{
    char::from(octet).to_digit(base)
}

/// Reads a number from 0 to 255 in decimal digits: one or more of them, leading zeros in any count, and no sign. None
/// if the word isn't that. Doesn't allocate.
pub fn read_u8(word: &[u8]) -> Option<u8>
    ensures { result ≡ number_within 10 255 word.now }
{
    Some(read_number(word, 10, 255)? as u8)
}

/// Reads a number from 0 to 65535, as `read_u8` one to 255.
pub fn read_u16(word: &[u8]) -> Option<u16>
    ensures { result ≡ number_within 10 65535 word.now }
{
    Some(read_number(word, 10, 65535)? as u16)
}

/// Reads a number from 0 to 4294967295, as `read_u8` one to 255.
pub fn read_u32(word: &[u8]) -> Option<u32>
    ensures { result ≡ number_within 10 4294967295 word.now }
{
    Some(read_number(word, 10, 4294967295)? as u32)
}

/// Reads a number from 0 to 18446744073709551615, as `read_u8` one to 255.
pub(crate) fn read_u64(word: &[u8]) -> Option<u64>
    ensures { result ≡ number_within 10 18446744073709551615 word.now }
{
    read_number(word, 10, u64::MAX)
}

/// Reads a number of seconds from 0 to 2147483647, as the timers of an SOA are (RFC 1035 section 3.3.13), as `read_u8` one
/// to 255.
pub(crate) fn read_timer(word: &[u8]) -> Option<i32>
    ensures { result ≡ option_map pos (number_within 10 2147483647 word.now) }
{
    Some(read_number(word, 10, 2147483647)? as i32)
}
