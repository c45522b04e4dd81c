//! Moments, printed as dates.
ghost use Rattle.std.specs.Prelude.{◌≡◌, ◌≤◌, ◌<◌, ◌*◌, Some};
ghost use Rattle.zone_tokens.specs.Moments.{days_before_year, days_in_months, is_leap, length_in};
ghost use Rattle.zone_file_writer.specs.Moments.{day_of_month, moment_text, month_of, month_within, two_digits, year_of};

use std::fmt;

/// The days from the first of January of the year 1 to the beginning of 1970.
const FIRST_DAY: u32 = 719_162;

/// A moment, in seconds since the beginning of 1970, as YYYYMMDDHHmmSS in UTC (RFC 4034 section 3.2).
#[derive(Drop)]
pub(crate) struct MomentText(pub u32);

impl fmt::Display for MomentText {
    ghost output = { λ m. Some (moment_text m.0) };

    #[tactic(auto, unfolding(crate::specs::Moments::moment_text))]
    fn fmt<W: fmt::Write>(&self, f: &mut fmt::Formatter<W>) -> fmt::Result {
        let date = date_of(self.0 / 86_400);
        let century = TwoDigits(date.year / 100);
        let year = TwoDigits(date.year % 100);
        let (month, day) = (TwoDigits(date.month), TwoDigits(date.day));
        write!(f, "{century}{year}{month}{day}")?;
        let time = self.0 % 86_400;
        let (hour, minute) = (TwoDigits(time / 3600), TwoDigits(time / 60 % 60));
        write!(f, "{hour}{minute}{}", TwoDigits(time % 60))
    }
}

/// A number below 100 in two digits.
#[derive(Drop)]
struct TwoDigits(u32);

impl fmt::Display for TwoDigits {
    ghost output = { λ n. Some (two_digits n.0) };

    fn fmt<W: fmt::Write>(&self, f: &mut fmt::Formatter<W>) -> fmt::Result {
        let tens = (b'0' + (self.0 / 10 % 10) as u8) as char;
        let ones = (b'0' + (self.0 % 10) as u8) as char;
        write!(f, "{tens}{ones}")
    }
}

/// A day of the calendar.
#[derive(Clone, Copy)]
struct Date {
    year: u32,
    month: u32,
    day: u32,
}

/// The date of a day, counted from the beginning of 1970.
#[tactic(auto, using(crate::proofs::DateFacts::year_begins, crate::proofs::DateFacts::month_begins))]
fn date_of(day: u32) -> Date
    requires { day < 49711 }
    ensures year { result.year ≡ year_of day }
    ensures month { result.month ≡ month_of day }
    ensures day { result.day ≡ day_of_month day }
{
    let year = year_of(day);
    let leap = is_leap(year);
    let day_of_year = day + FIRST_DAY - days_before_year(year);
    let month = month_within(12, leap, day_of_year);
    let day = day_of_year - days_in_months(leap, month - 1) + 1;
    Date { year, month, day }
}

/// The year of a day.
fn year_of(day: u32) -> u32
    requires { day < 49711 }
    ensures value { result ≡ year_of day }
    ensures low { 1970 ≤ result }
    ensures high { result < 2200 }
{
    let guess = 1970 + day / 366;
    if day + FIRST_DAY < days_before_year(guess + 1) {
        guess
    } else {
        guess + 1
    }
}

/// The days before a year, from the year 1 on.
fn days_before_year(year: u32) -> u32
    requires low { 1 ≤ year }
    requires high { year < 3000 }
    ensures value { result ≡ days_before_year year }
    ensures small { result < 2000000 }
{
    let years = year - 1;
    365 * years + years / 4 - years / 100 + years / 400
}

fn is_leap(year: u32) -> bool
    ensures { result ≡ is_leap year }
{
    year % 4 == 0 && (year % 100 != 0 || year % 400 == 0)
}

/// The last of the first months of a year that begins no later than a day of the year, both counted from the first on, the day
/// from 0.
fn month_within(months: u32, leap: bool, day: u32) -> u32
    requires { months ≤ 12 }
    ensures value { result ≡ month_within months leap day }
    ensures low { 1 ≤ result }
    ensures high { result ≤ 12 }
{
    if months == 0 {
        return 1;
    }
    if days_in_months(leap, months - 1) <= day {
        return months;
    }
    month_within(months - 1, leap, day)
}

/// The days of the first months of a year.
fn days_in_months(leap: bool, months: u32) -> u32
    requires { months ≤ 12 }
    ensures value { result ≡ days_in_months leap months }
    ensures small { result ≤ 31 * months }
{
    if months == 0 {
        return 0;
    }
    days_in_months(leap, months - 1) + length_in(leap, months)
}

/// How many days a month has.
fn length_in(leap: bool, month: u32) -> u32
    ensures value { result ≡ length_in leap month }
    ensures small { result ≤ 31 }
{
    if month == 2 {
        if leap { 29 } else { 28 }
    } else if month == 4 || month == 6 || month == 9 || month == 11 {
        30
    } else {
        31
    }
}
