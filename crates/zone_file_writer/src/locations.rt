//! Locations, printed.
ghost use Rattle.std.specs.Prelude.{◌≡◌, ◌<◌, ◌+◌, Some, None, IfOk, if◌then◌else◌, string_bytes};
ghost use Rattle.zone_file_writer.specs.Locations.{altitude_text, from_zero, is_octets, latitude_letter, line_text, location_front, location_texts, location_words, longitude_letter, meters_text, numbers_of, precision_text, seconds_text, size_text};
ghost use Rattle.zone_file_writer.specs.Rows.{ended};
ghost use Rattle.record_fields.specs.Locations.{location_of_line};

use message_reading::{long_of, octet_of};
use record_fields::read_location;
use std::alloc::{AllocError, Global};
use std::fmt;
use std::fmt::Write;

/// What the lower four bits of a size or a precision multiply the upper ones by: a power of ten up to the ninth, which others have
/// none of.
const POWERS: [u32; 16] = [
    1,
    10,
    100,
    1_000,
    10_000,
    100_000,
    1_000_000,
    10_000_000,
    100_000_000,
    1_000_000_000,
    0,
    0,
    0,
    0,
    0,
    0,
];

/// The parts of a location.
#[derive(Clone, Copy)]
pub(crate) struct Location {
    pub size: u8,
    pub horizontal: u8,
    pub vertical: u8,
    pub latitude: u32,
    pub longitude: u32,
    pub altitude: u32,
}

/// The parts at the front of octets, behind a version.
#[tactic(auto, unfolding(crate::specs::Locations::location_front))]
fn split_location(octets: &[u8]) -> Option<Location>
    ensures { result ≡ location_front octets.now }
{
    let (_, rest) = octet_of(octets)?;
    let (size, rest) = octet_of(rest)?;
    let (horizontal, rest) = octet_of(rest)?;
    let (vertical, rest) = octet_of(rest)?;
    let (latitude, rest) = long_of(rest)?;
    let (longitude, rest) = long_of(rest)?;
    let (altitude, _) = long_of(rest)?;
    Some(Location {
        size,
        horizontal,
        vertical,
        latitude,
        longitude,
        altitude,
    })
}

/// Appends the words of a location, and gives whether the octets are one that the words are read as.
#[tactic(auto, using(crate::proofs::LocationTexts::no_location, crate::proofs::LocationTexts::location_read, crate::proofs::LocationTexts::not_read))]
pub(crate) fn push_location(
    alloc: Global,
    octets: &[u8],
    text: &mut String,
) -> Result<bool, AllocError>
    ensures { IfOk result (λ is. (if is then Some (string_bytes text.new) else None)
        ≡ ended (string_bytes text.old) (location_words octets.now)) }
{
    let Some(location) = split_location(octets) else {
        return Ok(false);
    };
    let mut line = String::new(alloc);
    write!(line, "{}", LocationText(location))?;
    if !is_read(alloc, line.as_bytes(), octets)? {
        return Ok(false);
    }
    write!(text, "{line}")?;
    Ok(true)
}

/// A location, with each word behind a space.
#[derive(Drop)]
struct LocationText(Location);

impl fmt::Display for LocationText {
    ghost output = { λ p. Some (line_text (location_texts p.0)) };

    fn fmt<W: fmt::Write>(&self, f: &mut fmt::Formatter<W>) -> fmt::Result {
        let location = &self.0;
        let (north, east) = (
            latitude_letter(location.latitude),
            longitude_letter(location.longitude),
        );
        write!(f, "{} {north}", AngleText(location.latitude))?;
        write!(f, "{} {east}", AngleText(location.longitude))?;
        write!(f, " {}", AltitudeText(location.altitude))?;
        write!(f, " {}", PrecisionText(location.size))?;
        write!(f, " {}", PrecisionText(location.horizontal))?;
        write!(f, " {}", PrecisionText(location.vertical))
    }
}

/// Whether a line is read as a location of these octets.
fn is_read(alloc: Global, line: &[u8], octets: &[u8]) -> Result<bool, AllocError>
    ensures { IfOk result (λ is. is ≡ is_octets octets.now (location_of_line line.now)) }
{
    match read_location(alloc, line)? {
        Some(read) => Ok(read.as_slice() == octets),
        None => Ok(false),
    }
}

/// The direction of a latitude.
fn latitude_letter(latitude: u32) -> char
    ensures value { result ≡ latitude_letter latitude }
    ensures ascii { result < 128 }
{
    if latitude >= 2_147_483_648 { 'N' } else { 'S' }
}

/// The direction of a longitude.
fn longitude_letter(longitude: u32) -> char
    ensures value { result ≡ longitude_letter longitude }
    ensures ascii { result < 128 }
{
    if longitude >= 2_147_483_648 { 'E' } else { 'W' }
}

/// How far an angle is from zero.
fn from_zero(angle: u32) -> u32
    ensures { result ≡ from_zero angle }
{
    if angle >= 2_147_483_648 {
        angle - 2_147_483_648
    } else {
        2_147_483_648 - angle
    }
}

/// The degrees, minutes and seconds of an angle, each behind a space.
#[derive(Drop)]
struct AngleText(u32);

impl fmt::Display for AngleText {
    ghost output = { λ a. Some (line_text (numbers_of (from_zero a.0))) };

    fn fmt<W: fmt::Write>(&self, f: &mut fmt::Formatter<W>) -> fmt::Result {
        let thousandths = from_zero(self.0);
        let minutes = thousandths / 60_000 % 60;
        let seconds = SecondsText(thousandths % 60_000);
        write!(f, " {} {minutes} {seconds}", thousandths / 3_600_000)
    }
}

/// Seconds of so many thousandths, with three digits behind a point.
#[derive(Drop)]
struct SecondsText(u32);

impl fmt::Display for SecondsText {
    ghost output = { λ t. Some (seconds_text t.0) };

    fn fmt<W: fmt::Write>(&self, f: &mut fmt::Formatter<W>) -> fmt::Result {
        let thousandths = self.0 % 1000;
        let hundreds = digit(thousandths / 100);
        let tens = digit(thousandths / 10 % 10);
        let ones = digit(thousandths % 10);
        write!(f, "{}.{hundreds}{tens}{ones}", self.0 / 1000)
    }
}

/// The sign of a digit.
fn digit(value: u32) -> char
    requires { value < 10 }
    ensures { result ≡ 48 + value }
{
    (b'0' + value as u8) as char
}

/// So many centimeters as meters, with two digits behind a point.
#[derive(Drop)]
struct MetersText(u64);

impl fmt::Display for MetersText {
    ghost output = { λ m. Some (meters_text m.0) };

    fn fmt<W: fmt::Write>(&self, f: &mut fmt::Formatter<W>) -> fmt::Result {
        let hundredths = (self.0 % 100) as u32;
        let tens = digit(hundredths / 10 % 10);
        let ones = digit(hundredths % 10);
        write!(f, "{}.{tens}{ones}m", self.0 / 100)
    }
}

/// An altitude, which is counted from 100,000 meters below.
#[derive(Drop)]
struct AltitudeText(u32);

impl fmt::Display for AltitudeText {
    ghost output = { λ a. Some (altitude_text a.0) };

    fn fmt<W: fmt::Write>(&self, f: &mut fmt::Formatter<W>) -> fmt::Result {
        if self.0 >= 10_000_000 {
            write!(f, "{}", MetersText(u64::from(self.0 - 10_000_000)))
        } else {
            write!(f, "-{}", MetersText(u64::from(10_000_000 - self.0)))
        }
    }
}

/// A size or a precision, in whole meters where it is that.
#[derive(Drop)]
struct PrecisionText(u8);

impl fmt::Display for PrecisionText {
    ghost output = { λ p. Some (precision_text p.0) };

    fn fmt<W: fmt::Write>(&self, f: &mut fmt::Formatter<W>) -> fmt::Result {
        let power = POWERS[usize::from(self.0 % 16)];
        write!(f, "{}", SizeText(u64::from(self.0 / 16) * u64::from(power)))
    }
}

/// A length of so many centimeters, in whole meters where it is that.
#[derive(Drop)]
struct SizeText(u64);

impl fmt::Display for SizeText {
    ghost output = { λ s. Some (size_text s.0) };

    fn fmt<W: fmt::Write>(&self, f: &mut fmt::Formatter<W>) -> fmt::Result {
        if self.0 % 100 == 0 {
            write!(f, "{}m", self.0 / 100)
        } else {
            write!(f, "{}", MetersText(self.0))
        }
    }
}
