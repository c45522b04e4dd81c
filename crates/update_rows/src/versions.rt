//! The versions that a zone had.

use crate::calls::Case;
use crate::updating::difference_text;
use line_text::{TextError, Words};
use std::alloc::Global;
use zone_difference::difference_between;
use zone_history::{Version, difference_since, versions_since};
use zone_map::RecordMap;
use zone_proto::{LowerName, RecordType, RrKey, first_serial};

/// Adds the version that a zone had before an update.
pub fn add_version(
    alloc: Global,
    case: &mut Case,
    before: &RecordMap,
    after: &RecordMap,
) -> Result<(), TextError> {
    let apex = RrKey::new(LowerName::new(&case.origin)?, RecordType::SOA);
    let serial = serial_under(before, &apex);
    let difference = difference_between(alloc, before, after)?;
    case.versions.push(Version { serial, difference })?;
    Ok(())
}

/// The serial of the SOA under a key, 0 without one.
fn serial_under(zone: &RecordMap, apex: &RrKey) -> u32 {
    match zone.get(apex) {
        Some(set) => first_serial(set.as_slice()).unwrap_or(0),
        None => 0,
    }
}

/// How many versions who has a serial lacks, and what they changed together.
pub fn since_answer(alloc: Global, case: &Case, words: &str) -> Result<String, TextError> {
    let mut words = Words::new(words.as_bytes());
    let serial = words.take_u32()?;
    words.end()?;
    let Some(versions) = versions_since(case.versions.as_slice(), serial) else {
        return Ok(format!(in alloc; "none")?);
    };
    match difference_since(alloc, &case.zone, versions) {
        Ok(difference) => {
            let text = difference_text(alloc, &difference)?;
            Ok(format!(in alloc; "{}{text}", versions.len())?)
        }
        Err(error) => Ok(format!(in alloc; "{error:?}")?),
    }
}
