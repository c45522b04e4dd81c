//! Calls of rows.

use crate::keys::keys_answer;
use crate::notifies::{notify_answer, read_notify_answer, read_response_answer, response_answer};
use crate::rules::rules_answer;
use crate::secondaries::{newer_answer, secondary_answer};
use alloc_failures::scarce_answer;
use compared_rows::{Caller, unless_refused};
use line_text::{TextError, Words};
use message_notify::NotifyOutcome;
use std::alloc::Global;

/// Makes calls of which none leaves anything.
#[derive(Drop)]
pub struct SecondaryCaller;

impl Caller for SecondaryCaller {
    fn new(_alloc: Global) -> SecondaryCaller {
        SecondaryCaller
    }

    fn answer(&mut self, alloc: Global, call: &str) -> Result<String, TextError> {
        match call.strip_prefix("scarce ") {
            Some(call) => Ok(scarce_answer(alloc, || {
                unless_refused(alloc, call_answer(alloc, call))
            })?),
            None => call_answer(alloc, call),
        }
    }
}

/// The answer to a call other than `scarce`.
fn call_answer(alloc: Global, call: &str) -> Result<String, TextError> {
    let (verb, text) = call.split_once(" ").unwrap_or((call, ""));
    let words = Words::new(text.as_bytes());
    match verb {
        "keys" => keys_answer(alloc, text),
        "rules" => rules_answer(alloc, text),
        "notify" => notify_answer(alloc, words),
        "taken" => response_answer(alloc, NotifyOutcome::Taken, words),
        "unknown" => response_answer(alloc, NotifyOutcome::NotAuthoritative, words),
        "refused" => response_answer(alloc, NotifyOutcome::Refused, words),
        "read-notify" => read_notify_answer(alloc, words),
        "read-response" => read_response_answer(alloc, words),
        "secondary" => secondary_answer(alloc, words),
        "newer" => newer_answer(alloc, words),
        _ => Err(TextError::BadText),
    }
}
