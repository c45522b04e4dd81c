//! Reads what a call is passed, by the form of the call. What can't be read is kept as a fault until all is read.

use crate::arguments::Arguments;
use crate::fault::Fault;
use crate::forms::{Form, find_form};
use crate::held::Held;
use crate::read_made::{copy_held, gather_rrsigs, make_soa, read_section};
use crate::read_octets::{read_labels, read_octets};
use crate::read_records::{read_record, read_typed_data};
use crate::read_zones::{read_digests, read_kind, read_manner, read_policy, read_zone_type};
use line_text::{TextError, Words, read_name, read_type};
use std::str;
use zone_proto::RecordType;

/// Reads a call: its form, and what it is passed.
pub fn read_call<'r>(
    held: &Held,
    arguments: &mut Arguments<'r>,
    row: &'r str,
) -> Result<Form, TextError> {
    match find_form(row) {
        Some((form, rest)) => {
            read_rest(held, arguments, form.kinds, rest);
            arguments.fault.answer(form)
        }
        None => Err(TextError::BadText),
    }
}

/// Reads what follows the verb.
fn read_rest<'r>(held: &Held, arguments: &mut Arguments<'r>, kinds: &str, rest: &'r str) {
    if kinds == " TEXT" {
        arguments.text = rest;
        return;
    }
    let mut words = Words::new(rest.as_bytes());
    for kind in kinds.split(' ') {
        read_part(arguments, &mut words, kind);
        copy_held(held, arguments, kind);
    }
    arguments.fault.put(&mut (), words.end());
}

/// Reads what is of a kind, which may have parts that are of kinds themselves.
fn read_part<'r>(arguments: &mut Arguments<'r>, words: &mut Words<'r>, kind: &str) {
    match kind {
        "RECORD" => read_record(arguments, words),
        "DATA" => read_typed_data(arguments, words),
        "QUERIES" => read_queries(arguments, words),
        "QUESTIONS" => read_questions(arguments, words),
        "DIGESTS" => read_digests(arguments, words),
        "WORD" => arguments.text = take_text(words),
        "ANSWER" | "AUTHORITY" | "ADDITIONAL" => read_section(arguments, words, kind),
        "RRSIGS" => gather_rrsigs(arguments),
        "SOA" => make_soa(arguments),
        kind => read_kind_alone(arguments, words, kind),
    }
}

/// Reads what is of kinds without parts.
pub fn read_kinds(arguments: &mut Arguments<'_>, words: &mut Words<'_>, kinds: &str) {
    for kind in kinds.split(' ') {
        read_kind_alone(arguments, words, kind);
    }
}

/// Reads what is of a kind without parts, into the list of its kind.
fn read_kind_alone(arguments: &mut Arguments<'_>, words: &mut Words<'_>, kind: &str) {
    let (alloc, fault) = (arguments.alloc, &mut arguments.fault);
    match kind {
        "NAME" => fault.push(&mut arguments.names, read_name(alloc, words)),
        "TYPE" => fault.push(&mut arguments.types, read_type(words)),
        "TYPES" => read_types(&mut arguments.types, fault, words),
        "NUMBER" => fault.push(&mut arguments.numbers, words.take_u64()),
        "OCTETS" => fault.push(&mut arguments.octets, read_octets(alloc, words)),
        "LABELS" => read_labels(alloc, &mut arguments.octets, fault, words),
        _ => read_choice(arguments, words, kind),
    }
}

/// Reads one of few words.
fn read_choice(arguments: &mut Arguments<'_>, words: &mut Words<'_>, kind: &str) {
    let fault = &mut arguments.fault;
    match kind {
        "TTL" => fault.put(&mut arguments.is_flagged, read_is_ttl(words)),
        "DNSSEC" => fault.put(&mut arguments.is_flagged, words.take_flag(b"dnssec")),
        "ZONETYPE" => fault.put(&mut arguments.zone_type, read_zone_type(words)),
        "POLICY" => fault.put(&mut arguments.policy, read_policy(words)),
        "KIND" => fault.put(&mut arguments.kind, read_kind(arguments.alloc, words)),
        "SIGNED" => fault.put(&mut arguments.is_flagged, words.take_flag(b"signed")),
        "serial" => fault.put(&mut false, words.take_flag(b"serial")),
        "=" => fault.put(&mut false, words.take_flag(b"=")),
        "MANNER" => fault.put(&mut arguments.manner, read_manner(words)),
        _ => {}
    }
}

/// Takes a word as text; it is empty at the end of the row.
pub fn take_text<'w>(words: &mut Words<'w>) -> &'w str {
    match words.take() {
        Some(word) => str::from_utf8(word).unwrap_or(""),
        None => "",
    }
}

/// Reads the types that are left of a row.
fn read_types(types: &mut Vec<RecordType>, fault: &mut Fault, words: &mut Words<'_>) {
    for _ in 0..u64::MAX {
        match words.take() {
            Some(word) => fault.push(types, read_type(&mut Words::new(word))),
            None => break,
        }
    }
}

/// Reads `ttl` or `serial`.
fn read_is_ttl(words: &mut Words<'_>) -> Result<bool, TextError> {
    match take_text(words) {
        "ttl" => Ok(true),
        "serial" => Ok(false),
        _ => Err(TextError::BadText),
    }
}

/// Reads how many questions there are, and the name and the type of each.
fn read_queries(arguments: &mut Arguments<'_>, words: &mut Words<'_>) {
    read_kinds(arguments, words, "NUMBER");
    for _ in 0..arguments.take_number() {
        read_kinds(arguments, words, "NAME TYPE");
        let query = arguments.take_query();
        arguments.fault.push(&mut arguments.queries, Ok(query));
    }
}

/// Reads how many questions there are, which are equal and for the root, and their type.
fn read_questions(arguments: &mut Arguments<'_>, words: &mut Words<'_>) {
    read_kinds(arguments, words, "NUMBER TYPE");
    let query_type = arguments.take_type();
    for _ in 0..arguments.take_number() {
        let mut query = arguments.take_query();
        query.query_type = query_type;
        arguments.fault.push(&mut arguments.queries, Ok(query));
    }
}
