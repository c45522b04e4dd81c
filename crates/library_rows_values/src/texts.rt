//! Writes sets and answers.

use crate::iterators::write_records;
use crate::write::Answer;
use line_text::RecordText;
use std::fmt::Display;
use zone_handler::{AuthLookup, LookupControlFlow, LookupError, LookupRecordsIter};
use zone_proto::RecordSet;

/// Writes the records of a set, each with a semicolon after it, its signatures, its TTL and its serial.
pub fn write_set(out: &mut Answer, set: &RecordSet) {
    if set.is_empty() {
        write_emptiness(out, set);
    }
    write_records(out, set.records_without_rrsigs());
    write_records(out, set.rrsigs().iter());
    out.say("ttl ");
    out.put(&set.ttl());
    out.say(", serial ");
    out.put(&set.serial());
}

/// Writes of which type there is no record.
fn write_emptiness(out: &mut Answer, set: &RecordSet) {
    out.say("no ");
    out.put(&set.record_type());
    out.say(" of ");
    out.put(set.name());
    out.say("; ");
}

/// Writes a set, or that there is nothing.
pub fn write_set_if_any(out: &mut Answer, set: Option<&RecordSet>) {
    match set {
        Some(set) => write_set(out, set),
        None => out.say("nothing"),
    }
}

/// Writes a set that a call handed out, or that there is none.
pub fn write_set_handed_out(out: &mut Answer, set: Option<RecordSet>) {
    write_set_if_any(out, set.as_ref());
    drop(set);
}

/// Writes a set that a call made, or its error.
pub fn write_made_set<E: Display + Drop>(out: &mut Answer, given: Result<RecordSet, E>) {
    match given {
        Ok(set) => write_set_handed_out(out, Some(set)),
        Err(error) => out.fail(error),
    }
}

/// Writes what a lookup answers: the records, or the error, and whether the chain of handlers is broken off.
pub fn write_flow(out: &mut Answer, flow: LookupControlFlow<AuthLookup>) {
    write_step(out, &flow);
    drop(flow);
}

fn write_step(out: &mut Answer, step: &LookupControlFlow<AuthLookup>) {
    match step {
        LookupControlFlow::Continue(answer) => write_answer(out, answer),
        LookupControlFlow::Break(answer) => {
            out.say(if answer.is_ok() { "break: " } else { "break, " });
            write_answer(out, answer);
        }
        LookupControlFlow::Skip => out.say("skip"),
    }
}

/// Writes the records of an answer, or the error.
fn write_answer(out: &mut Answer, answer: &Result<AuthLookup, LookupError>) {
    match answer {
        Ok(answer) => write_sections(out, answer),
        Err(error) => out.put_error(error),
    }
}

/// Writes the records of an answer, and those that may help beside them.
pub fn write_sections(out: &mut Answer, answer: &AuthLookup) {
    let count = write_records(out, answer.iter());
    out.put(&count);
    out.say(" records");
    if let Some(additionals) = answer.additionals() {
        out.say(", and additionals");
        write_section(out, additionals);
    }
}

/// Writes the records of a section, each after a semicolon.
pub fn write_section(out: &mut Answer, section: LookupRecordsIter<'_>) {
    for record in section {
        out.say("; ");
        out.put(&RecordText(record));
    }
}
