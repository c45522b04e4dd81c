//! Calls of rows.

use crate::changes::{changed_answer, cuts_answer};
use crate::journal::{Journal, frame_answer, journal_answer, version_answer};
use crate::keeping::{keep_answer, kept_answer};
use crate::replays::{replay_answer, replay_here_answer, replay_scarce_answer};
use crate::transfers::{changes_answer, condensed_answer};
use compared_rows::Caller;
use line_text::{TextError, Words, read_key, read_name, read_record};
use std::alloc::Global;
use zone_map::RecordMap;
use zone_proto::{DNSClass, Name};

/// What the rows so far have made.
#[derive(Drop)]
pub struct Case {
    /// The origin of the zone.
    pub origin: Name,
    /// Its sets.
    pub zone: RecordMap,
    /// Its journal, and the versions that it had.
    pub journal: Journal,
}

impl Caller for Case {
    /// A zone without records, of the root.
    fn new(alloc: Global) -> Case {
        Case {
            origin: Name::root(alloc),
            zone: RecordMap::new(alloc),
            journal: Journal::new(alloc),
        }
    }

    fn answer(&mut self, alloc: Global, call: &str) -> Result<String, TextError> {
        let (verb, text) = call.split_once(" ").unwrap_or((call, ""));
        match verb {
            "origin" => origin_answer(alloc, self, text),
            "add" => add_answer(alloc, self, text),
            "drop" => drop_answer(alloc, self, text),
            "journal" => journal_answer(alloc, self),
            "version" => version_answer(alloc, self),
            "frame" => frame_answer(alloc, self, text),
            "replay" => replay_answer(alloc, self),
            "replay-here" => replay_here_answer(alloc, self),
            "cuts" => cuts_answer(alloc, self, text),
            "changed-octets" => changed_answer(alloc, &self.journal),
            "scarce-replay" => replay_scarce_answer(alloc, self),
            "changes" => changes_answer(alloc, self, text),
            "condensed" => condensed_answer(alloc, self, text),
            "keep" => keep_answer(alloc, self, text),
            "kept" => kept_answer(alloc, self, text),
            _ => Err(TextError::BadText),
        }
    }
}

/// Begins a zone.
fn origin_answer(alloc: Global, case: &mut Case, text: &str) -> Result<String, TextError> {
    let mut words = Words::new(text.as_bytes());
    case.origin = read_name(alloc, &mut words)?;
    words.end()?;
    case.zone.clear();
    Ok(format!(in alloc; "begun")?)
}

/// Inserts a record.
fn add_answer(alloc: Global, case: &mut Case, text: &str) -> Result<String, TextError> {
    let mut words = Words::new(text.as_bytes());
    let record = read_record(alloc, &mut words)?;
    words.end()?;
    let is_taken = case.zone.upsert(record, 0, DNSClass::IN)?;
    Ok(format!(in alloc; "{is_taken}")?)
}

/// Removes a set.
fn drop_answer(alloc: Global, case: &mut Case, text: &str) -> Result<String, TextError> {
    let mut words = Words::new(text.as_bytes());
    let key = read_key(alloc, &mut words)?;
    words.end()?;
    let was_there = case.zone.remove(&key).is_some();
    Ok(format!(in alloc; "{was_there}")?)
}
