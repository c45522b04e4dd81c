//! Calls of rows.

use crate::reading::read_answer;
use crate::writing::written_answer;
use compared_rows::Caller;
use line_text::TextError;
use std::alloc::Global;

/// Makes calls of which none leaves anything.
#[derive(Drop)]
pub struct MessageCaller;

impl Caller for MessageCaller {
    fn new(_alloc: Global) -> MessageCaller {
        MessageCaller
    }

    fn answer(&mut self, alloc: Global, call: &str) -> Result<String, TextError> {
        let (verb, words) = call.split_once(" ").ok_or(TextError::BadText)?;
        match verb {
            "write" | "length" | "limits" | "scarce" => written_answer(alloc, verb, words),
            _ => read_answer(alloc, verb, words),
        }
    }
}
