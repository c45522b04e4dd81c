//! Moments, as signatures have them (RFC 4034 section 3.2).
ghost use Rattle.std.specs.Prelude.{◌≡◌, ◌-◌, ◌*◌, ◌≤◌, ◌<◌, IsTrue, Some, None, length};
ghost use Rattle.zone_tokens.specs.Moments.{is_leap, days_before_year, days_in_months, length_in, length_of_month, is_date, days_before, seconds_since_1970, digits_at, date_of_word, moment_of_date, moment_of_word};

use line_text::{read_u16, read_u32};

/// A date and a time of day.
#[derive(Clone, Copy)]
struct Date {
    year: u16,
    month: u16,
    day: u16,
    hour: u16,
    minute: u16,
    second: u16,
}

/// Reads a moment: `YYYYMMDDHHmmSS` in UTC, from 1970 on, or seconds since the beginning of 1970 in digits. The result
/// is in seconds modulo 2^32 (RFC 4034 section 3.1.5). None if the word is neither.
pub fn read_moment(word: &[u8]) -> Option<u32>
    ensures { result ≡ moment_of_word word.now }
{
    if word.len() == 14 {
        moment_of(read_date(word)?)
    } else {
        read_u32(word)
    }
}

/// Reads a date from fourteen digits.
fn read_date(word: &[u8]) -> Option<Date>
    requires { length word.now ≡ 14 }
    ensures { result ≡ date_of_word word.now }
{
    let year = read_u16(&word[..4])?;
    let month = read_u16(&word[4..6])?;
    let day = read_u16(&word[6..8])?;
    let hour = read_u16(&word[8..10])?;
    let minute = read_u16(&word[10..12])?;
    let second = read_u16(&word[12..14])?;
    Some(Date {
        year,
        month,
        day,
        hour,
        minute,
        second,
    })
}

/// The moment of a date, if it is one from 1970 on.
fn moment_of(date: Date) -> Option<u32>
    ensures { result ≡ moment_of_date date }
{
    if is_date(date) {
        Some((seconds_since_1970(date) % 4294967296) as u32)
    } else {
        None
    }
}

/// Whether this is a date, from 1970 on, and a time of day.
fn is_date(date: Date) -> bool
    ensures { result ≡ is_date date }
{
    date.year >= 1970
        && date.month >= 1
        && date.month <= 12
        && date.day >= 1
        && date.day <= length_of_month(date)
        && date.hour < 24
        && date.minute < 60
        && date.second < 60
}

/// How many days the month of a date has.
fn length_of_month(date: Date) -> u16
    ensures { result ≡ length_of_month date }
{
    length_in(is_leap(date.year), date.month)
}

/// How many days a month has.
fn length_in(leap: bool, month: u16) -> u16
    ensures value { result ≡ length_in leap month }
    ensures small { result ≤ 31 }
{
    if month == 2 {
        if leap { 29 } else { 28 }
    } else if month == 4 || month == 6 || month == 9 || month == 11 {
        30
    } else {
        31
    }
}

fn is_leap(year: u16) -> bool
    ensures { result ≡ is_leap year }
{
    year % 4 == 0 && (year % 100 != 0 || year % 400 == 0)
}

/// The seconds since the beginning of 1970.
fn seconds_since_1970(date: Date) -> u64
    requires { IsTrue (is_date date) }
    ensures { result ≡ seconds_since_1970 date }
{
    let days = days_before_year(date.year)
        + days_before_month(date.month, is_leap(date.year))
        + (u64::from(date.day) - 1);
    (days - 719162) * 86400
        + u64::from(date.hour) * 3600
        + u64::from(date.minute) * 60
        + u64::from(date.second)
}

/// The days before a year, from the year 1 on.
fn days_before_year(year: u16) -> u64
    requires { 1 ≤ year }
    ensures { result ≡ days_before_year year }
{
    let years = u64::from(year) - 1;
    365 * years + years / 4 - years / 100 + years / 400
}

/// The days of a year before a month.
#[tactic(auto, using(crate::proofs::MonthFacts::month_more))]
fn days_before_month(month: u16, leap: bool) -> u64
    requires low { 1 ≤ month }
    requires high { month ≤ 12 }
    ensures value { result ≡ days_in_months leap (month - 1) }
    ensures small { result ≤ 31 * (month - 1) }
{
    let mut days = 0u64;
    for before in 0..month - 1 {
        days += u64::from(length_in(leap, before + 1));
    }
    days
}
