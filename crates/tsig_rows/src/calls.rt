//! Calls of rows.

use crate::asking::{answers_answer, ask_answer};
use crate::checking::{changed_answer, check_answer, fronts_answer, place_answer};
use crate::keys::{read_algorithm, read_key};
use crate::responding::{refuse_answer, respond_answer};
use alloc_failures::scarce_answer;
use compared_rows::{Caller, read_octets, unless_refused};
use line_text::{HexText, TextError, Words};
use message_hmac::mac;
use message_tsig::Key;
use std::alloc::Global;

/// Makes calls with the keys that those before added.
#[derive(Drop)]
pub struct TsigCaller {
    keys: Vec<Key>,
}

impl Caller for TsigCaller {
    fn new(alloc: Global) -> TsigCaller {
        TsigCaller {
            keys: Vec::new(alloc),
        }
    }

    fn answer(&mut self, alloc: Global, call: &str) -> Result<String, TextError> {
        if let Some(words) = call.strip_prefix("key ") {
            let key = read_key(alloc, &mut Words::new(words.as_bytes()))?;
            self.keys.push(key)?;
            return Ok(format!(in alloc; "{}", self.keys.len())?);
        }
        let keys = self.keys.as_slice();
        match call.strip_prefix("scarce ") {
            Some(call) => Ok(scarce_answer(alloc, || {
                unless_refused(alloc, call_answer(alloc, keys, call))
            })?),
            None => call_answer(alloc, keys, call),
        }
    }
}

/// The answer to a call that takes keys as they are.
fn call_answer(alloc: Global, keys: &[Key], call: &str) -> Result<String, TextError> {
    let (verb, words) = call.split_once(" ").unwrap_or((call, ""));
    let words = Words::new(words.as_bytes());
    match verb {
        "mac" => mac_answer(alloc, words),
        "place" => place_answer(alloc, words),
        "check" => check_answer(alloc, keys, words),
        "changed" => changed_answer(alloc, keys, words),
        "fronts" => fronts_answer(alloc, keys, words),
        "respond" => respond_answer(alloc, keys, words),
        "refuse" => refuse_answer(alloc, keys, words),
        "ask" => ask_answer(alloc, keys, words),
        "answers" => answers_answer(alloc, keys, words),
        _ => Err(TextError::BadText),
    }
}

/// The MAC of a text.
fn mac_answer(alloc: Global, mut words: Words<'_>) -> Result<String, TextError> {
    let algorithm = read_algorithm(&mut words)?;
    let key = read_octets(alloc, &mut words)?;
    let text = read_octets(alloc, &mut words)?;
    words.end()?;
    let code = mac(alloc, algorithm, key.as_slice(), text.as_slice(), &[], &[])?;
    Ok(format!(in alloc; "{}", HexText(code.as_slice()))?)
}
