//! The calls that need no zone of rows, by their subjects.

use crate::answers::make_answer_call;
use crate::handlers::make_parked_call;
use crate::hashes::make_hash_call;
use crate::names::make_name_call;
use crate::records::make_record_call;
use crate::refusals::make_refusal_call;
use crate::steps::make_step;
use crate::words::make_word_call;
use crate::write::Answer;
use library_rows_arguments::{Arguments, Form};

/// Makes a call that needs no zone of rows, and writes what it answers.
pub fn make_value_call(out: &mut Answer, call: Form, arguments: &mut Arguments<'_>) {
    let verb = call.verb;
    match call.subject {
        "names" => make_name_call(out, verb, arguments),
        "records" => make_record_call(out, verb, arguments),
        "hashes" => make_hash_call(out, verb, arguments),
        "answers" => make_answer_call(out, verb, arguments),
        "steps" => make_step(out, arguments),
        "refusals" => make_refusal_call(out, verb, arguments),
        "parked" => make_parked_call(out, verb, arguments),
        _ => make_word_call(out, verb, arguments),
    }
}
