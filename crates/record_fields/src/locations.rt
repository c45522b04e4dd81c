//! Locations (RFC 1876).
ghost use Rattle.std.specs.Prelude.{◌≡◌, ◌≤◌, ◌+◌, ◌<◌, IfOk, IfSome, option_map};
ghost use Rattle.record_fields.specs.Locations.{above_zero, altitude_of, angle_of, before_unit, behind_degrees, behind_minutes, below_zero, centimeters, direction_of, hundredths, length_of, location_of, location_of_line, minutes_of, next_angle, next_precision, next_text, power_form, precision_of, seconds_of, thousandths, toward, with_rest};

use crate::signs::{before_sign, behind_sign, sign_at};
use line_text::{Words, read_u8, read_u16, read_u32};
use message_writing::push_long;
use std::alloc::{AllocError, Global};

/// How far an angle is from zero at most, in thousandths of a second of arc, and the letters of the directions in which an angle counts up and down.
#[derive(Clone, Copy, PartialEq, Eq, Debug)]
pub struct Axis {
    pub most: u32,
    pub up: u8,
    pub down: u8,
}

/// That of latitudes.
pub const LATITUDE: Axis = Axis {
    most: 324_000_000,
    up: b'N',
    down: b'S',
};

/// That of longitudes.
pub const LONGITUDE: Axis = Axis {
    most: 648_000_000,
    up: b'E',
    down: b'W',
};

/// Reads a location from a line, and gives its octets: version 0, a size, two precisions, a latitude, a longitude and an altitude
/// (RFC 1876 section 2). None if the line isn't one (section 3).
///
/// # Errors
///
/// `AllocError` if memory is refused.
pub fn read_location(alloc: Global, line: &[u8]) -> Result<Option<Vec<u8>>, AllocError>
    ensures { IfOk result
        (λ octets. option_map (λ o. o.items) octets ≡ location_of_line line.now) }
{
    let Some(location) = location_of(&mut Words::new(line)) else {
        return Ok(None);
    };
    let mut octets = Vec::new(alloc);
    octets.push(0)?;
    octets.push(location.size)?;
    octets.push(location.horizontal)?;
    octets.push(location.vertical)?;
    push_long(&mut octets, location.latitude)?;
    push_long(&mut octets, location.longitude)?;
    push_long(&mut octets, location.altitude)?;
    Ok(Some(octets))
}

/// The parts of a location.
#[derive(Clone, Copy)]
pub(crate) struct Location {
    pub size: u8,
    pub horizontal: u8,
    pub vertical: u8,
    pub latitude: u32,
    pub longitude: u32,
    pub altitude: u32,
}

/// Reads a location from words, of which none is left.
#[tactic(auto, unfolding(crate::specs::Locations::location_of))]
fn location_of(words: &mut Words<'_>) -> Option<Location>
    ensures { result ≡ location_of words.old }
{
    let latitude = take_angle(&LATITUDE, words)?;
    let longitude = take_angle(&LONGITUDE, words)?;
    let altitude = altitude_of(words.take()?)?;
    let size = take_precision(0x12, words)?;
    let horizontal = take_precision(0x16, words)?;
    let vertical = take_precision(0x13, words)?;
    match words.take() {
        None => Some(Location {
            size,
            horizontal,
            vertical,
            latitude,
            longitude,
            altitude,
        }),
        Some(_) => None,
    }
}

/// Takes an angle.
#[tactic(auto, unfolding(crate::specs::Locations::next_angle))]
fn take_angle(axis: &Axis, words: &mut Words<'_>) -> Option<u32>
    ensures { option_map (λ n. (n, words.new)) result ≡ next_angle axis.now words.old }
{
    let degrees = u32::from(read_u8(words.take()?)?) * 3_600_000;
    let word = words.take()?;
    if let Some(up) = direction_of(axis, word) {
        return angle_of(axis, up, degrees);
    }
    let minutes = degrees + u32::from(minutes_of(word)?) * 60_000;
    let word = words.take()?;
    if let Some(up) = direction_of(axis, word) {
        return angle_of(axis, up, minutes);
    }
    let seconds = minutes + seconds_of(word)?;
    let up = direction_of(axis, words.take()?)?;
    angle_of(axis, up, seconds)
}

/// Whether a word is the letter of the direction that counts up; none if it is no direction of the axis.
fn direction_of(axis: &Axis, word: &[u8]) -> Option<bool>
    ensures { result ≡ direction_of axis.now word.now }
{
    match word {
        [letter] => {
            let letter = letter.to_ascii_uppercase();
            if letter == axis.up {
                Some(true)
            } else if letter == axis.down {
                Some(false)
            } else {
                None
            }
        }
        _ => None,
    }
}

/// So many thousandths of a second of arc up or down from zero.
fn angle_of(axis: &Axis, up: bool, thousandths: u32) -> Option<u32>
    requires { thousandths ≤ 1000000000 }
    ensures { result ≡ angle_of axis.now up thousandths }
{
    if thousandths > axis.most {
        None
    } else if up {
        Some(2_147_483_648 + thousandths)
    } else {
        Some(2_147_483_648 - thousandths)
    }
}

/// Minutes or whole seconds.
fn minutes_of(word: &[u8]) -> Option<u8>
    ensures value { result ≡ minutes_of word.now }
    ensures small { IfSome result (λ n. n ≤ 59) }
{
    let number = read_u8(word)?;
    if number <= 59 { Some(number) } else { None }
}

/// Seconds, in thousandths.
fn seconds_of(word: &[u8]) -> Option<u32>
    ensures value { result ≡ seconds_of word.now }
    ensures small { IfSome result (λ n. n ≤ 200000) }
{
    let seconds = minutes_of(before_sign(b'.', word))?;
    let thousandths = thousandths(behind_sign(b'.', word))?;
    Some(u32::from(seconds) * 1000 + u32::from(thousandths))
}

/// Up to three digits behind a point, as thousandths.
fn thousandths(digits: &[u8]) -> Option<u16>
    ensures { result ≡ thousandths digits.now }
{
    match digits {
        [] => Some(0),
        [a] => read_u16(&[*a, b'0', b'0']),
        [a, b] => read_u16(&[*a, *b, b'0']),
        [_, _, _] => read_u16(digits),
        _ => None,
    }
}

/// Up to two digits behind a point, as hundredths.
fn hundredths(digits: &[u8]) -> Option<u8>
    ensures { result ≡ hundredths digits.now }
{
    match digits {
        [] => Some(0),
        [a] => read_u8(&[*a, b'0']),
        [_, _] => read_u8(digits),
        _ => None,
    }
}

/// A length in meters, in centimeters.
fn length_of(word: &[u8]) -> Option<u64>
    ensures { result ≡ length_of word.now }
{
    let (number, unit) = word.split_at(sign_at(b'm', word));
    match unit {
        [] | [_] => centimeters(number),
        _ => None,
    }
}

/// Meters without their unit, in centimeters.
fn centimeters(word: &[u8]) -> Option<u64>
    ensures { result ≡ centimeters word.now }
{
    let meters = read_u32(before_sign(b'.', word))?;
    let hundredths = hundredths(behind_sign(b'.', word))?;
    Some(u64::from(meters) * 100 + u64::from(hundredths))
}

/// An altitude, in centimeters from 100,000 meters below on.
fn altitude_of(word: &[u8]) -> Option<u32>
    ensures { result ≡ altitude_of word.now }
{
    match word {
        [] => None,
        [b'-', depth @ ..] => below_zero(length_of(depth)?),
        [_, ..] => above_zero(length_of(word)?),
    }
}

/// That of so many centimeters below zero.
fn below_zero(depth: u64) -> Option<u32>
    ensures { result ≡ below_zero depth }
{
    if depth <= 10_000_000 {
        Some((10_000_000 - depth) as u32)
    } else {
        None
    }
}

/// That of so many centimeters above zero.
fn above_zero(height: u64) -> Option<u32>
    ensures { result ≡ above_zero height }
{
    if height <= 4_284_967_295 {
        Some((10_000_000 + height) as u32)
    } else {
        None
    }
}

/// Takes a size or a precision, if a word is left.
fn take_precision(default: u8, words: &mut Words<'_>) -> Option<u8>
    ensures { option_map (λ n. (n, words.new)) result ≡ next_precision default words.old }
{
    match words.take() {
        None => Some(default),
        Some(word) => precision_of(word),
    }
}

/// A size or a precision.
fn precision_of(word: &[u8]) -> Option<u8>
    ensures { result ≡ precision_of word.now }
{
    let centimeters = length_of(word)?;
    if centimeters <= 9_000_000_000 {
        power_form(centimeters)
    } else {
        None
    }
}

/// The first digit of a number, and the power of ten of that.
#[tactic(auto, using(crate::proofs::LocationFacts::power_found, crate::proofs::LocationFacts::power_more, crate::proofs::LocationFacts::power_none))]
fn power_form(number: u64) -> Option<u8>
    ensures { result ≡ power_form 10 0 number }
{
    let mut left = number;
    for exponent in 0..10u8 {
        if left < 10 {
            return Some(left as u8 * 16 + exponent);
        }
        left /= 10;
    }
    None
}
