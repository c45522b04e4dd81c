//! Calls of rows.

use crate::messages::{message_answer, response_answer};
use crate::policy::{permit_answer, read_rule, unsigned_answer};
use crate::replies::{reply_answer, scarce_reply_answer, unsigned_reply_answer};
use crate::signing::{
    denials_answer, overtaken_answer, sign_answer, signed_ask_answer, signed_reply_answer,
    signed_update_answer,
};
use crate::updating::{
    ask_answer, back_answer, scarce_update_answer, unsigned_ask_answer, update_answer,
};
use crate::versions::since_answer;
use compared_rows::Caller;
use line_text::{TextError, Words, read_name, read_record};
use std::alloc::Global;
use update_policy::Rule;
use zone_difference::Difference;
use zone_history::Version;
use zone_map::RecordMap;
use zone_proto::{DNSClass, Name, NxProofKind};

/// What the rows so far have made.
#[derive(Drop)]
pub struct Case {
    /// The origin of the zone.
    pub origin: Name,
    /// Its sets.
    pub zone: RecordMap,
    /// Those before the last update, and what that changed.
    pub last: Option<(RecordMap, Difference)>,
    /// How it denies once it is signed.
    pub kind: NxProofKind,
    /// The versions that it had, the oldest one first.
    pub versions: Vec<Version>,
    /// The table of rules.
    pub rules: Vec<Rule>,
}

impl Caller for Case {
    /// A zone without records, of the root, and no rules.
    fn new(alloc: Global) -> Case {
        Case {
            origin: Name::root(alloc),
            zone: RecordMap::new(alloc),
            last: None,
            kind: NxProofKind::Nsec,
            versions: Vec::new(alloc),
            rules: Vec::new(alloc),
        }
    }

    fn answer(&mut self, alloc: Global, call: &str) -> Result<String, TextError> {
        let (verb, words) = call.split_once(" ").unwrap_or((call, ""));
        match verb {
            "origin" => origin_answer(alloc, self, words),
            "record" => record_answer(alloc, self, words),
            "update" => update_answer(alloc, self, words),
            "ask" => ask_answer(alloc, self, words),
            "ask-unsigned" => unsigned_ask_answer(alloc, self, words),
            "reply" => reply_answer(alloc, self, words),
            "reply-unsigned" => unsigned_reply_answer(alloc, self, words),
            "scarce-reply" => scarce_reply_answer(alloc, self, words),
            "back" => back_answer(alloc, self),
            "denials" => denials_answer(alloc, self, words),
            "sign" => sign_answer(alloc, self),
            "signed-update" => signed_update_answer(alloc, self, words),
            "signed-ask" => signed_ask_answer(alloc, self, words),
            "signed-reply" => signed_reply_answer(alloc, self, words),
            "overtaken" => overtaken_answer(alloc, self, words),
            "since" => since_answer(alloc, self, words),
            "scarce" => scarce_update_answer(alloc, self, words),
            "rule" => rule_answer(alloc, self, words),
            "message" => message_answer(alloc, words),
            "response" => response_answer(alloc, words),
            "permit" => permit_answer(alloc, self.rules.as_slice(), words),
            "permit-unsigned" => unsigned_answer(alloc, self.rules.as_slice(), words),
            _ => Err(TextError::BadText),
        }
    }
}

/// Begins a zone.
fn origin_answer(alloc: Global, case: &mut Case, words: &str) -> Result<String, TextError> {
    let mut words = Words::new(words.as_bytes());
    case.origin = read_name(alloc, &mut words)?;
    words.end()?;
    case.zone.clear();
    case.versions.clear();
    Ok(format!(in alloc; "begun")?)
}

/// Inserts a record.
fn record_answer(alloc: Global, case: &mut Case, words: &str) -> Result<String, TextError> {
    let mut words = Words::new(words.as_bytes());
    let record = read_record(alloc, &mut words)?;
    words.end()?;
    Ok(if case.zone.upsert(record, 0, DNSClass::IN)? {
        format!(in alloc; "taken")?
    } else {
        format!(in alloc; "not taken")?
    })
}

/// Adds a rule: how many there are.
fn rule_answer(alloc: Global, case: &mut Case, words: &str) -> Result<String, TextError> {
    let rule = read_rule(alloc, &mut Words::new(words.as_bytes()))?;
    case.rules.push(rule)?;
    Ok(format!(in alloc; "{}", case.rules.len())?)
}
