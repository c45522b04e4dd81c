//! TTLs and other seconds.
ghost use Rattle.std.specs.Prelude.{◌≡◌, None, Some};
ghost use Rattle.line_text.specs.Numbers.{at_most, number_within};
ghost use Rattle.zone_tokens.specs.Ttls.{digit_more, in_seconds, in_units, period_of_word, seconds_of, timer_of_word, ttl_of_word, units_more};

use line_text::read_u32;

/// The most seconds of a TTL.
const LONGEST: u32 = 2_147_483_647;

/// The most seconds of a timer.
const LONGEST_TIMER: u32 = 4_294_967_295;

/// Reads a TTL: seconds in digits, or numbers with a unit each, as `1h30m` (weeks, days, hours, minutes and seconds by their
/// first letters, in either case). None if the word is neither, or the seconds are more than 2^31 - 1 (RFC 2181 section 8).
pub fn read_ttl(word: &[u8]) -> Option<u32>
    ensures { result ≡ ttl_of_word word.now }
{
    read_period(LONGEST, word)
}

/// Reads the seconds of a timer of an SOA, which are written as a TTL is (RFC 1035 section 3.3.13). None if the word isn't
/// that, or the seconds are more than 2^32 - 1.
pub fn read_timer(word: &[u8]) -> Option<u32>
    ensures { result ≡ timer_of_word word.now }
{
    read_period(LONGEST_TIMER, word)
}

/// Reads seconds, so many at most.
fn read_period(most: u32, word: &[u8]) -> Option<u32>
    ensures { result ≡ period_of_word most word.now }
{
    if word.is_empty() {
        return None;
    }
    match read_in_seconds(most, word) {
        Some(seconds) => Some(seconds),
        None => read_units(most, word),
    }
}

/// Reads seconds in digits.
fn read_in_seconds(most: u32, word: &[u8]) -> Option<u32>
    ensures { result ≡ in_seconds most word.now }
{
    if_at_most(most, read_u32(word)?)
}

/// Seconds, if they are so many at most.
fn if_at_most(most: u32, seconds: u32) -> Option<u32>
    ensures { result ≡ at_most most seconds }
{
    if seconds <= most { Some(seconds) } else { None }
}

/// Reads numbers with a unit each.
fn read_units(most: u32, word: &[u8]) -> Option<u32>
    ensures { result ≡ in_units most word.now None 0 }
{
    let mut number = None;
    let mut total = 0u32;
    for octet in word {
        if let Some(digit) = char::from(*octet).to_digit(10) {
            number = Some(digit_more(most, number, digit)?);
        } else {
            let unit = seconds_of(*octet)?;
            total = units_more(most, total, number, unit)?;
            number = None;
        }
    }
    match number {
        None => Some(total),
        Some(_) => None,
    }
}

/// A number with one digit more, if it is in range.
fn digit_more(most: u32, number: Option<u32>, digit: u32) -> Option<u32>
    ensures { result ≡ digit_more most number digit }
{
    match number {
        None => Some(digit),
        Some(number) => if_at_most(most, number.checked_mul(10)?.checked_add(digit)?),
    }
}

/// Seconds with a number of units more, if they are in range.
fn units_more(most: u32, total: u32, number: Option<u32>, unit: u32) -> Option<u32>
    ensures { result ≡ units_more most total number unit }
{
    let number = number?;
    if_at_most(most, total.checked_add(number.checked_mul(unit)?)?)
}

/// The seconds of a unit.
fn seconds_of(octet: u8) -> Option<u32>
    ensures { result ≡ seconds_of octet }
{
    match octet.to_ascii_lowercase() {
        b'w' => Some(604800),
        b'd' => Some(86400),
        b'h' => Some(3600),
        b'm' => Some(60),
        b's' => Some(1),
        _ => None,
    }
}
