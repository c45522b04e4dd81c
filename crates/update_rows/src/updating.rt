//! Zones updated, and what an update changes.

use crate::calls::Case;
use crate::entries::read_update;
use crate::versions::add_version;
use alloc_failures::scarce_answer;
use line_text::{RecordText, TextError, Words, read_name};
use std::alloc::{AllocError, Global};
use update_permission::updated_if_permitted;
use zone_difference::{Difference, applied, copied, difference_between};
use zone_map::RecordMap;
use zone_proto::{LowerName, Record, RecordSet};
use zone_update::{Refusal, updated};

/// Updates the zone: the code, and what is taken out and given.
pub fn update_answer(alloc: Global, case: &mut Case, text: &str) -> Result<String, TextError> {
    let update = read_update(alloc, text)?;
    let origin = LowerName::new(&case.origin)?;
    match updated(alloc, &origin, &case.zone, update) {
        Ok(after) => exchange(alloc, case, Ok(Some(after))),
        Err(refusal) => exchange(alloc, case, Err(refusal)),
    }
}

/// The same where the table of rules permits it to who has the key that is named first.
pub fn ask_answer(alloc: Global, case: &mut Case, words: &str) -> Result<String, TextError> {
    let (key, text) = words.split_once(" ").ok_or(TextError::BadText)?;
    let key = read_name(alloc, &mut Words::new(key.as_bytes()))?;
    ask_by(alloc, case, Some(&LowerName::new(&key)?), text)
}

/// The same to who has none.
pub fn unsigned_ask_answer(
    alloc: Global,
    case: &mut Case,
    text: &str,
) -> Result<String, TextError> {
    ask_by(alloc, case, None, text)
}

/// Updates the zone where the table of rules permits it.
fn ask_by(
    alloc: Global,
    case: &mut Case,
    key: Option<&LowerName>,
    text: &str,
) -> Result<String, TextError> {
    let update = read_update(alloc, text)?;
    let origin = LowerName::new(&case.origin)?;
    let rules = case.rules.as_slice();
    let made = updated_if_permitted(alloc, rules, key, &origin, &case.zone, update);
    exchange(alloc, case, made)
}

/// Takes the zone after an update, if there is one: the code, and what is taken out and given.
pub fn exchange(
    alloc: Global,
    case: &mut Case,
    made: Result<Option<RecordMap>, Refusal>,
) -> Result<String, TextError> {
    match made {
        Ok(None) => Ok(format!(in alloc; "NOERROR")?),
        Ok(Some(after)) => {
            let difference = difference_between(alloc, &case.zone, &after)?;
            let told = format!(in alloc; "NOERROR{}", difference_text(alloc, &difference)?)?;
            let before = copied(alloc, &case.zone)?;
            if !difference.given.is_empty() {
                add_version(alloc, case, &before, &after)?;
            }
            case.zone = after;
            case.last = Some((before, difference));
            Ok(told)
        }
        Err(Refusal::Memory) => Err(TextError::Memory),
        Err(refusal) => Ok(format!(in alloc; "{}", code_word(refusal))?),
    }
}

/// The word of a refusal (RFC 2136 section 2.2).
pub fn code_word(refusal: Refusal) -> &'static str {
    match refusal {
        Refusal::FormErr => "FORMERR",
        Refusal::NXDomain => "NXDOMAIN",
        Refusal::Refused => "REFUSED",
        Refusal::YXDomain => "YXDOMAIN",
        Refusal::YXRRSet => "YXRRSET",
        Refusal::NXRRSet => "NXRRSET",
        Refusal::NotAuth => "NOTAUTH",
        Refusal::NotZone => "NOTZONE",
        Refusal::Memory => "SERVFAIL",
    }
}

/// The records that are taken out and given, each behind a semicolon.
pub fn difference_text(alloc: Global, difference: &Difference) -> Result<String, AllocError> {
    let mut text = String::new(alloc);
    write_only(
        &mut text,
        "-",
        difference.taken.as_slice(),
        difference.given.as_slice(),
    )?;
    write_only(
        &mut text,
        "+",
        difference.given.as_slice(),
        difference.taken.as_slice(),
    )?;
    Ok(text)
}

/// Appends the records of sets that others haven't, each behind a sign.
fn write_only(
    text: &mut String,
    sign: &str,
    sets: &[RecordSet],
    others: &[RecordSet],
) -> Result<(), AllocError> {
    for set in sets {
        for record in set.as_slice() {
            if !has_record(others, record) {
                write!(text, "; {sign} {}", RecordText(record))?;
            }
        }
    }
    Ok(())
}

/// Whether sets have a record, with its TTL.
fn has_record(sets: &[RecordSet], record: &Record) -> bool {
    sets.iter().any(|set| set.as_slice().iter().any(|other| is_same(other, record)))
}

/// Whether records are equal, TTLs too, which equality passes over.
fn is_same(one: &Record, other: &Record) -> bool {
    *one == *other && one.ttl == other.ttl
}

/// Applies the last difference backwards: whether the zone is then the one before.
pub fn back_answer(alloc: Global, case: &mut Case) -> Result<String, TextError> {
    let Some((before, difference)) = case.last.take() else {
        return Err(TextError::BadText);
    };
    let Difference { taken, given } = difference;
    let backwards = Difference {
        taken: given,
        given: taken,
    };
    match applied(alloc, &case.zone, backwards) {
        Ok(zone) => {
            let left = difference_between(alloc, &before, &zone)?;
            let is_same = left.taken.is_empty() && left.given.is_empty();
            case.zone = zone;
            Ok(format!(in alloc; "{is_same}")?)
        }
        Err(error) => Ok(format!(in alloc; "{error:?}")?),
    }
}

/// Whether an update was refused memory, and its code in the end.
pub fn scarce_update_answer(alloc: Global, case: &Case, text: &str) -> Result<String, TextError> {
    let origin = LowerName::new(&case.origin)?;
    Ok(scarce_answer(alloc, || code_of(alloc, &origin, &case.zone, text))?)
}

/// The code of an update; none if memory is refused.
fn code_of(
    alloc: Global,
    origin: &LowerName,
    zone: &RecordMap,
    text: &str,
) -> Option<&'static str> {
    match read_update(alloc, text) {
        Ok(update) => match updated(alloc, origin, zone, update) {
            Ok(_) => Some("NOERROR"),
            Err(Refusal::Memory) => None,
            Err(refusal) => Some(code_word(refusal)),
        },
        Err(TextError::Memory) => None,
        Err(TextError::BadText) => Some("a row that can't be read"),
    }
}
