//! Calls of rows.

use crate::access::{KeyedServer, allow_told, keys_told, request_told, zone_told};
use crate::answers::{answer_told, query_told};
use crate::signed::{finish_told, prepare_told};
use crate::updates::{commit_told, expire_told, plan_told, records_told, rule_told, update_told};
use compared_rows::Caller;
use line_text::{TextError, Words, read_record};
use std::alloc::Global;
use zone_proto::Record;

/// Makes calls with the records that those before added, and of the server that they made.
#[derive(Drop)]
pub struct TransferCaller {
    held: Vec<Record>,
    server: KeyedServer,
}

impl Caller for TransferCaller {
    fn new(alloc: Global) -> TransferCaller {
        TransferCaller {
            held: Vec::new(alloc),
            server: KeyedServer::new(alloc),
        }
    }

    fn answer(&mut self, alloc: Global, call: &str) -> Result<String, TextError> {
        let (verb, text) = call.split_once(" ").unwrap_or((call, ""));
        let words = Words::new(text.as_bytes());
        match verb {
            "held" => held_answer(alloc, &mut self.held, words),
            "query" => query_told(alloc, words),
            "answer" => answer_told(alloc, self.held.as_slice(), words),
            "keys" => keys_told(alloc, &mut self.server, text),
            "zone" => zone_told(alloc, &mut self.server, text),
            "allow" => allow_told(alloc, &mut self.server, words),
            "request" => request_told(alloc, &self.server, words),
            "rule" => rule_told(alloc, &mut self.server, words),
            "update" => update_told(alloc, &mut self.server, words),
            "plan" => plan_told(alloc, &mut self.server, words),
            "prepare" => prepare_told(alloc, &mut self.server, words),
            "finish" => finish_told(alloc, &mut self.server),
            "commit" => commit_told(alloc, &mut self.server),
            "expire" => expire_told(alloc, &mut self.server, words),
            "records" => records_told(alloc, &self.server, words),
            _ => Err(TextError::BadText),
        }
    }
}

/// How many records are held, with one more.
fn held_answer(
    alloc: Global,
    held: &mut Vec<Record>,
    mut words: Words<'_>,
) -> Result<String, TextError> {
    let given = read_record(alloc, &mut words)?;
    words.end()?;
    held.push(given)?;
    Ok(format!(in alloc; "{}", held.len())?)
}
