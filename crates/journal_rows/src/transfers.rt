//! Steps sent to a secondary.

use crate::calls::Case;
use crate::replays::difference_text;
use condensed_steps::condensed;
use difference_messages::{
    DifferenceAnswer, DifferenceFault, DifferenceReply, difference_groups, reply_to, serial_of,
    write_next,
};
use line_text::{RecordText, TextError, Words};
use message_reading::{Query, ReadError, read_query};
use message_writing::Group;
use shown_zones::{ZoneStep, difference_of};
use std::alloc::{AllocError, Global};
use std::slice::from_ref;
use transfer_reading::{
    AnswerFault, Asked, Outcome, OutcomeFault, Question, Transfer, write_query,
};
use zone_map::RecordMap;
use zone_proto::{LowerName, RData, Record, RecordSet};

/// What answers a secondary that holds the version of a serial.
pub fn changes_answer(alloc: Global, case: &Case, text: &str) -> Result<String, TextError> {
    let mut words = Words::new(text.as_bytes());
    let held = words.take_u32()?;
    let limit = words.take_u16()?;
    words.end()?;
    let steps = case.journal.steps.as_slice();
    let newest = newest_of(case)?;
    match reply_to(held, newest, steps) {
        DifferenceReply::StartOfAuthority => Ok(format!(in alloc; "SOA")?),
        DifferenceReply::WholeZone => Ok(format!(in alloc; "whole zone")?),
        DifferenceReply::StepsFrom(place) => {
            let left = steps_behind(steps, place)?;
            sent_answer(alloc, case, held, place, left, limit)
        }
    }
}

/// The steps that a secondary is sent which holds the version of a serial, condensed into one: in how many messages, and what it has then; and the
/// records that the step deletes and adds.
pub fn condensed_answer(alloc: Global, case: &Case, text: &str) -> Result<String, TextError> {
    let mut words = Words::new(text.as_bytes());
    let held = words.take_u32()?;
    let limit = words.take_u16()?;
    words.end()?;
    let steps = case.journal.steps.as_slice();
    let DifferenceReply::StepsFrom(place) = reply_to(held, newest_of(case)?, steps) else {
        return Ok(format!(in alloc; "none")?);
    };
    let origin = LowerName::new(&case.origin)?;
    let Some(step) = condensed(alloc, &origin, steps_behind(steps, place)?)? else {
        return Ok(format!(in alloc; "no SOA")?);
    };
    let sent = sent_answer(alloc, case, held, place, from_ref(&step), limit)?;
    let difference = difference_of(alloc, step)?;
    let text = difference_text(alloc, &difference)?;
    Ok(format!(in alloc; "{sent}{text}")?)
}

/// The steps from a place on.
fn steps_behind(steps: &[ZoneStep], place: usize) -> Result<&[ZoneStep], TextError> {
    if place > steps.len() {
        return Err(TextError::BadText);
    }
    let (_, left) = steps.split_at(place);
    Ok(left)
}

/// The serial of the last version.
pub fn newest_of(case: &Case) -> Result<u32, TextError> {
    let last = case
        .journal
        .steps
        .as_slice()
        .last()
        .ok_or(TextError::BadText)?;
    serial_of(&last.new_soa).ok_or(TextError::BadText)
}

/// In how many messages steps to the last version are sent, and what a secondary has then that had the version at a place.
fn sent_answer(
    alloc: Global,
    case: &Case,
    held: u32,
    place: usize,
    steps: &[ZoneStep],
    limit: u16,
) -> Result<String, TextError> {
    let asked = Asked {
        id: 7,
        origin: case.origin.clone()?,
        question: Question::Changes(held),
    };
    let query = query_of(alloc, &asked)?;
    let last = steps.last().ok_or(TextError::BadText)?;
    let groups = difference_groups(alloc, &last.new_soa, steps)?;
    let mut transfer = Transfer::new(alloc, asked);
    match count_sent(alloc, &query, groups.as_slice(), limit, &mut transfer)? {
        None => Ok(format!(in alloc; "not taken")?),
        Some(count) => {
            let word = made_of(alloc, case, place, transfer)?;
            Ok(format!(in alloc; "messages: {count}, {word}")?)
        }
    }
}

/// The query of a secondary.
fn query_of(alloc: Global, asked: &Asked) -> Result<Query, TextError> {
    let octets = write_query(alloc, asked)?;
    match read_query(alloc, octets.as_slice()) {
        Ok(query) => Ok(query),
        Err(ReadError::Memory) => Err(TextError::Memory),
        Err(_) => Err(TextError::BadText),
    }
}

/// Sends all messages to a secondary: how many; none where one can't be sent, or isn't taken.
fn count_sent(
    alloc: Global,
    query: &Query,
    groups: &[Group<'_>],
    limit: u16,
    transfer: &mut Transfer,
) -> Result<Option<usize>, TextError> {
    if limit < 282 {
        return Err(TextError::BadText);
    }
    let mut sent = 0usize;
    let mut message = Vec::new(alloc);
    for count in 0..usize::MAX {
        let answer = DifferenceAnswer {
            query,
            groups,
            size: 1232,
            limit,
        };
        match write_next(alloc, &answer, sent, &mut message) {
            Ok(Some(next)) => sent = next,
            Ok(None) => return Ok(Some(count)),
            Err(DifferenceFault::Memory) => return Err(TextError::Memory),
            Err(DifferenceFault::Unsendable) => return Ok(None),
        }
        if !is_taken(alloc, transfer, message.as_slice())? {
            return Ok(None);
        }
    }
    Ok(None)
}

/// Whether a secondary takes a message.
fn is_taken(alloc: Global, transfer: &mut Transfer, message: &[u8]) -> Result<bool, TextError> {
    match transfer.take(alloc, message) {
        Ok(()) => Ok(true),
        Err(AnswerFault::Memory) => Err(TextError::Memory),
        Err(_) => Ok(false),
    }
}

/// Whether a secondary has the last version, that had the one at a place.
fn made_of(
    alloc: Global,
    case: &Case,
    place: usize,
    transfer: Transfer,
) -> Result<&'static str, TextError> {
    let versions = case.journal.shown.as_slice();
    let before = versions.get(place).ok_or(TextError::BadText)?;
    let last = versions.last().ok_or(TextError::BadText)?;
    let held = records_of(alloc, before)?;
    let wanted = records_of(alloc, last)?;
    match transfer.finish(alloc, held.as_slice()) {
        Ok(Outcome::Zone(records)) => Ok(compared(alloc, records.as_slice(), wanted.as_slice())?),
        Ok(Outcome::Serial(_)) => Ok("a serial"),
        Err(OutcomeFault::Memory) => Err(TextError::Memory),
        Err(_) => Ok("a fault"),
    }
}

/// Whether records are the same, TTLs included.
fn compared(
    alloc: Global,
    records: &[Record],
    wanted: &[Record],
) -> Result<&'static str, AllocError> {
    let one = records_text(alloc, records)?;
    let other = records_text(alloc, wanted)?;
    Ok(if one.as_str() == other.as_str() {
        "same"
    } else {
        "other"
    })
}

/// Records as text.
fn records_text(alloc: Global, records: &[Record]) -> Result<String, AllocError> {
    let mut text = String::new(alloc);
    for record in records {
        write!(text, "{}; ", RecordText(record))?;
    }
    Ok(text)
}

/// The records of a zone, of each set its signatures last.
fn records_of(alloc: Global, zone: &RecordMap) -> Result<Vec<Record>, TextError> {
    let mut records = Vec::new(alloc);
    for (_, set) in zone.iter() {
        for record in set.as_slice() {
            records.push(record.clone()?)?;
        }
        for signature in set.rrsigs() {
            records.push(signature.clone()?)?;
        }
    }
    Ok(records)
}
