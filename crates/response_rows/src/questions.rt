//! Questions by their words, and what a zone says to them.

use crate::response_text::ResponseText;
use crate::zones::{Zone, lent};
use alloc_failures::until_given;
use anyhow::bail;
use line_text::{Words, read_key};
use std::alloc::Global;
use zone_handler::{LookupError, LookupOptions};
use zone_proto::{DNSClass, RrKey};
use zone_response::{Question, Response, respond};

/// A question, whether it asks for DNSSEC, and the moment at which it is asked.
#[derive(Drop)]
struct Asked {
    key: RrKey,
    query_class: DNSClass,
    options: LookupOptions,
    moment: u64,
}

/// The response of the last zone to a question by its words.
pub fn say(alloc: Global, zones: &[Zone], words: &mut Words<'_>) -> anyhow::Result<String> {
    let zone = last_of(zones)?;
    let asked = read_question(alloc, words)?;
    let response = response_of(zone, &asked)?;
    Ok(format!(in alloc; "{}", ResponseText(&response))?)
}

/// The same, asked with no memory left, and then with a little more each time, until there is a response.
pub fn say_at_last(alloc: Global, zones: &[Zone], words: &mut Words<'_>) -> anyhow::Result<String> {
    let zone = last_of(zones)?;
    let asked = read_question(alloc, words)?;
    let Some((refused, response)) = until_given(alloc, || unless_refused(zone, &asked))? else {
        return Ok(format!(in alloc; ";; refused\n")?);
    };
    if refused == 0 {
        return Ok(format!(in alloc; ";; never refused\n")?);
    }
    Ok(format!(in alloc; "{}", ResponseText(&response?))?)
}

/// The zone that is asked.
fn last_of(zones: &[Zone]) -> anyhow::Result<&Zone> {
    let Some(zone) = zones.last() else {
        bail!("there is no zone to be asked");
    };
    Ok(zone)
}

/// A question by its words.
fn read_question(alloc: Global, words: &mut Words<'_>) -> anyhow::Result<Asked> {
    let key = read_key(alloc, words)?;
    let query_class = DNSClass(words.take_u16()?);
    let dnssec_ok = words.take_flag(b"dnssec")?;
    let is_later = words.take_flag(b"at")?;
    Ok(Asked {
        key,
        query_class,
        options: LookupOptions { dnssec_ok },
        moment: if is_later { words.take_u64()? } else { 0 },
    })
}

/// The response of a zone to a question.
fn response_of<'z>(zone: &'z Zone, asked: &Asked) -> Result<Response<'z>, LookupError> {
    let question = Question {
        name: &asked.key.name,
        query_type: asked.key.record_type,
        query_class: asked.query_class,
    };
    respond(lent(zone, asked.moment), question, asked.options)
}

/// The same; none if memory is refused.
fn unless_refused<'z>(zone: &'z Zone, asked: &Asked) -> Option<Result<Response<'z>, LookupError>> {
    match response_of(zone, asked) {
        Err(LookupError::Memory) => None,
        response => Some(response),
    }
}
