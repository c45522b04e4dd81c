//! Journals that are cut off, or changed in one octet.

use crate::calls::Case;
use crate::journal::Journal;
use crate::replays::are_same;
use line_text::{TextError, Words};
use std::alloc::{AllocError, Global};
use zone_journal::{ReplayFault, journal_from, replayed};
use zone_map::RecordMap;
use zone_proto::{LowerName, RecordType, RrKey};

/// The versions that what a journal has behind one of them leads to, cut off behind each of its octets in turn.
pub fn cuts_answer(alloc: Global, case: &Case, text: &str) -> Result<String, TextError> {
    let mut words = Words::new(text.as_bytes());
    let place = words.take_u16()?;
    words.end()?;
    let journal = &case.journal;
    let version = journal
        .shown
        .get(usize::from(place))
        .ok_or(TextError::BadText)?;
    let key = RrKey::new(LowerName::new(&case.origin)?, RecordType::SOA);
    let soa = version.get(&key).ok_or(TextError::BadText)?;
    let behind = journal_from(alloc, soa, journal.octets.as_slice())?;
    let mut places = Vec::new(alloc);
    for end in 0..behind.len() {
        note(
            &mut places,
            place_of(alloc, journal, version, &behind[..end])?,
        )?;
    }
    note(&mut places, place_of(alloc, journal, version, behind)?)?;
    Ok(places_text(alloc, places.as_slice())?)
}

/// The versions that a journal leads to of which each octet is changed in turn.
pub fn changed_answer(alloc: Global, journal: &Journal) -> Result<String, TextError> {
    let first = journal.shown.first().ok_or(TextError::BadText)?;
    let mut places = Vec::new(alloc);
    for at in 0..journal.octets.len() {
        let octets = changed_at(alloc, journal.octets.as_slice(), at)?;
        note(
            &mut places,
            place_of(alloc, journal, first, octets.as_slice())?,
        )?;
    }
    Ok(places_text(alloc, places.as_slice())?)
}

/// Octets with a bit of one of them changed.
fn changed_at(alloc: Global, octets: &[u8], at: usize) -> Result<Vec<u8>, AllocError> {
    let mut changed = Vec::from_slice(alloc, octets)?;
    if let Some(octet) = changed.as_mut_slice().get_mut(at) {
        *octet ^= 1;
    }
    Ok(changed)
}

/// The place of the version that octets lead to from another.
fn place_of(
    alloc: Global,
    journal: &Journal,
    version: &RecordMap,
    octets: &[u8],
) -> Result<Option<usize>, TextError> {
    match replayed(alloc, version, octets) {
        Ok(zone) => place_among(alloc, journal.shown.as_slice(), &zone),
        Err(ReplayFault::Memory) => Err(TextError::Memory),
        Err(_) => Ok(None),
    }
}

/// The place of a zone among others.
fn place_among(
    alloc: Global,
    zones: &[RecordMap],
    zone: &RecordMap,
) -> Result<Option<usize>, TextError> {
    for (place, other) in zones.iter().enumerate() {
        if are_same(alloc, other, zone)? {
            return Ok(Some(place));
        }
    }
    Ok(None)
}

/// Appends a place if it isn't the last one.
fn note(places: &mut Vec<Option<usize>>, place: Option<usize>) -> Result<(), AllocError> {
    if places.last() != Some(&place) {
        places.push(place)?;
    }
    Ok(())
}

/// Places as text.
fn places_text(alloc: Global, places: &[Option<usize>]) -> Result<String, AllocError> {
    let mut text = String::new(alloc);
    for (at, place) in places.iter().enumerate() {
        let between = if at == 0 { "" } else { " " };
        match place {
            None => write!(text, "{between}none")?,
            Some(place) => write!(text, "{between}{place}")?,
        }
    }
    Ok(text)
}
