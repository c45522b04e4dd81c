//! What the words behind the program's name ask for.

use std::alloc::Global;
use zone_proto::Name;
use zone_publication::Period;
use zone_texts::MOST_TOLD;
use zone_tokens::{read_moment, read_ttl};

/// How soon a signature may end before it is told, in seconds, where nothing else is said: three days.
const SOON: u32 = 259_200;

/// What is wanted of the program.
#[derive(Drop)]
pub struct Wanted<'w> {
    /// Whether the records are printed.
    pub is_printed: bool,
    /// The moment at which the zone is to be published, if that is asked of.
    pub period: Option<Period>,
    /// Whether what is found of hosts is a fault, and no warning.
    pub is_strict: bool,
    /// How many faults and warnings are told at most.
    pub most_told: usize,
    /// The name of the file.
    pub file: &'w str,
    /// The origin that the file begins with, and that of its zone, if one is named.
    pub origin: Option<Name>,
}

/// What words ask for: perhaps `--all` first; then `--print`, or `--at` and a moment, as signatures have them or `now`, perhaps with `--soon` and a time and
/// with `--strict` behind it, or neither; a file; and an origin or nothing. None if they aren't that.
pub fn wanted_by(alloc: Global, words: &[String], now: u32) -> Option<Wanted<'_>> {
    let (first, behind) = words.split_first()?;
    let wanted = match first.as_str() {
        "--all" => Wanted {
            most_told: usize::MAX,
            ..checked_by(alloc, behind, now)?
        },
        _ => checked_by(alloc, words, now)?,
    };
    Some(wanted)
}

/// What words behind that ask for.
fn checked_by(alloc: Global, words: &[String], now: u32) -> Option<Wanted<'_>> {
    let (first, behind) = words.split_first()?;
    match first.as_str() {
        "--print" => named_by(alloc, behind, true),
        "--at" => {
            let (moment, behind) = behind.split_first()?;
            let moment = moment_of(moment.as_str(), now)?;
            let (soon, behind) = soon_of(behind)?;
            let (is_strict, behind) = strictness_of(behind);
            Some(Wanted {
                period: Some(Period { moment, soon }),
                is_strict,
                ..named_by(alloc, behind, false)?
            })
        }
        _ => named_by(alloc, words, false),
    }
}

/// The moment that a word names, in seconds since 1970 modulo 2^32.
fn moment_of(word: &str, now: u32) -> Option<u32> {
    if word == "now" {
        Some(now)
    } else {
        read_moment(word.as_bytes())
    }
}

/// How many seconds are soon, and the words behind that.
fn soon_of(words: &[String]) -> Option<(u32, &[String])> {
    match words {
        [first, soon, behind @ ..] if first.as_str() == "--soon" => {
            Some((read_ttl(soon.as_str().as_bytes())?, behind))
        }
        _ => Some((SOON, words)),
    }
}

/// Whether hosts are strictly judged, and the words behind that.
fn strictness_of(words: &[String]) -> (bool, &[String]) {
    match words {
        [first, behind @ ..] if first.as_str() == "--strict" => (true, behind),
        _ => (false, words),
    }
}

/// What is wanted of the file that words name, and of the origin behind it.
fn named_by(alloc: Global, words: &[String], is_printed: bool) -> Option<Wanted<'_>> {
    let (file, others) = words.split_first()?;
    let origin = match others {
        [] => None,
        [origin] => Some(Name::parse(alloc, origin.as_str()).ok()?),
        _ => return None,
    };
    Some(Wanted {
        is_printed,
        period: None,
        is_strict: false,
        most_told: MOST_TOLD,
        file: file.as_str(),
        origin,
    })
}
