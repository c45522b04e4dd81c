//! Messages of updates, answered.

use crate::calls::Case;
use crate::updating::exchange;
use alloc_failures::scarce_answer;
use compared_rows::octets_of;
use line_text::{HexText, TextError, Words, read_name};
use std::alloc::Global;
use update_answers::{UpdateFault, UpdateReply, answer_update};
use zone_proto::LowerName;

/// The code of a response for want of memory (RFC 1035 section 4.1.1).
const SERVFAIL: u8 = 2;

/// The response to octets in hex of who has the key that is named first, and what is taken out and given.
pub fn reply_answer(alloc: Global, case: &mut Case, words: &str) -> Result<String, TextError> {
    let (key, octets) = words.split_once(" ").ok_or(TextError::BadText)?;
    let key = read_name(alloc, &mut Words::new(key.as_bytes()))?;
    reply_to(alloc, case, Some(&LowerName::new(&key)?), octets)
}

/// The same to who has none.
pub fn unsigned_reply_answer(
    alloc: Global,
    case: &mut Case,
    octets: &str,
) -> Result<String, TextError> {
    reply_to(alloc, case, None, octets)
}

/// The response to octets in hex, and what is taken out and given.
fn reply_to(
    alloc: Global,
    case: &mut Case,
    key: Option<&LowerName>,
    octets: &str,
) -> Result<String, TextError> {
    let octets = octets_of(alloc, octets)?;
    let origin = LowerName::new(&case.origin)?;
    let mut out = Vec::new(alloc);
    let rules = case.rules.as_slice();
    match answer_update(
        alloc,
        &mut out,
        octets.as_slice(),
        &origin,
        &case.zone,
        rules,
        key,
    ) {
        Ok(UpdateReply::Refused) => Ok(format!(in alloc; "{}", HexText(out.as_slice()))?),
        Ok(UpdateReply::Unchanged) => {
            Ok(format!(in alloc; "{} unchanged", HexText(out.as_slice()))?)
        }
        Ok(UpdateReply::Updated(after)) => {
            let told = exchange(alloc, case, Ok(Some(after)))?;
            Ok(format!(in alloc; "{} {told}", HexText(out.as_slice()))?)
        }
        Err(UpdateFault::NoUpdate) => Ok(format!(in alloc; "no update")?),
        Err(UpdateFault::Memory) => Err(TextError::Memory),
    }
}

/// Whether an update in hex of who has the key that is named first was refused memory, and the code of its response in the end.
pub fn scarce_reply_answer(alloc: Global, case: &Case, words: &str) -> Result<String, TextError> {
    let (key, octets) = words.split_once(" ").ok_or(TextError::BadText)?;
    let key = LowerName::new(&read_name(alloc, &mut Words::new(key.as_bytes()))?)?;
    let octets = octets_of(alloc, octets)?;
    let origin = LowerName::new(&case.origin)?;
    Ok(scarce_answer(
        alloc,
        || code_of(alloc, &origin, case, &key, octets.as_slice()),
    )?)
}

/// The code of the response to an update; none if memory is refused.
fn code_of(
    alloc: Global,
    origin: &LowerName,
    case: &Case,
    key: &LowerName,
    octets: &[u8],
) -> Option<u8> {
    let mut out = Vec::new(alloc);
    let rules = case.rules.as_slice();
    answer_update(
        alloc,
        &mut out,
        octets,
        origin,
        &case.zone,
        rules,
        Some(key),
    )
    .ok()?;
    match out.get(3) {
        Some(code) if *code != SERVFAIL => Some(*code),
        _ => None,
    }
}
