//! Journals replayed.

use crate::calls::Case;
use alloc_failures::scarce_answer;
use line_text::{RecordText, TextError};
use shown_zones::shown;
use std::alloc::{AllocError, Global};
use zone_difference::{Difference, difference_between};
use zone_journal::{ReplayFault, replayed};
use zone_map::RecordMap;
use zone_proto::RecordSet;

/// Replays the journal over the zone that it was begun over.
pub fn replay_answer(alloc: Global, case: &Case) -> Result<String, TextError> {
    let first = case.journal.shown.first().ok_or(TextError::BadText)?;
    match replayed(alloc, first, case.journal.octets.as_slice()) {
        Ok(zone) => {
            let now = shown(alloc, &case.zone)?;
            let word = if are_same(alloc, &zone, &now)? {
                "same"
            } else {
                "other"
            };
            let difference = difference_between(alloc, first, &zone)?;
            let text = difference_text(alloc, &difference)?;
            Ok(format!(in alloc; "{word}{text}")?)
        }
        Err(ReplayFault::Memory) => Err(TextError::Memory),
        Err(fault) => Ok(format!(in alloc; "{fault:?}")?),
    }
}

/// Replays it over the zone as it is now.
pub fn replay_here_answer(alloc: Global, case: &Case) -> Result<String, TextError> {
    match replayed(alloc, &case.zone, case.journal.octets.as_slice()) {
        Ok(_) => Ok(format!(in alloc; "a zone")?),
        Err(ReplayFault::Memory) => Err(TextError::Memory),
        Err(fault) => Ok(format!(in alloc; "{fault:?}")?),
    }
}

/// Whether replaying was refused memory, and whether it made a zone then.
pub fn replay_scarce_answer(alloc: Global, case: &Case) -> Result<String, TextError> {
    let first = case.journal.shown.first().ok_or(TextError::BadText)?;
    let journal = case.journal.octets.as_slice();
    Ok(scarce_answer(alloc, || word_of(alloc, first, journal))?)
}

/// What a journal leads to, in a word; none if memory is refused.
fn word_of(alloc: Global, zone: &RecordMap, journal: &[u8]) -> Option<&'static str> {
    match replayed(alloc, zone, journal) {
        Ok(_) => Some("a zone"),
        Err(ReplayFault::Memory) => None,
        Err(_) => Some("a fault"),
    }
}

/// Whether zones have equal sets.
pub fn are_same(alloc: Global, one: &RecordMap, other: &RecordMap) -> Result<bool, TextError> {
    let left = difference_between(alloc, one, other)?;
    Ok(left.taken.is_empty() && left.given.is_empty())
}

/// The records of sets that are taken out and given, each behind a semicolon.
pub fn difference_text(alloc: Global, difference: &Difference) -> Result<String, AllocError> {
    let mut text = String::new(alloc);
    write_sets(&mut text, "-", difference.taken.as_slice())?;
    write_sets(&mut text, "+", difference.given.as_slice())?;
    Ok(text)
}

/// Appends the records of sets and their signatures, each behind a sign.
fn write_sets(text: &mut String, sign: &str, sets: &[RecordSet]) -> Result<(), AllocError> {
    for set in sets {
        for record in set.as_slice() {
            write!(text, "; {sign} {}", RecordText(record))?;
        }
        for signature in set.rrsigs() {
            write!(text, "; {sign} {}", RecordText(signature))?;
        }
    }
    Ok(())
}
