//! Whole messages read.
ghost use Rattle.std.specs.Prelude.{◌≡◌, IfOk, option_map};
ghost use Rattle.message_reading.specs.Messages.{message_of, question_of, first_authority_behind, first_authority_of, record_of, sections_of, several, parts_of, ReadsMessage};

use crate::data::data_of;
use crate::error::MessageError;
use crate::fields::fields_of;
use crate::header::Header;
use crate::header_reader::read_header;
use crate::message::Message;
use crate::names::name_of;
use crate::octets::{octets_of, offset_of};
use crate::question::{Question, question_of};
use std::alloc::Global;
use zone_proto::{ProtoError, Record};

/// Reads a message with all its data: header, questions, and the records of its sections (RFC 1035 section 4.1).
///
/// A pointer of a name leads to a prior one: before the octets that it is reached from, and not into the header. Names
/// in data may have pointers in the types of RFC 1035 and in SRV, RP, AFSDB and RT (RFC 3597 section 4). TTLs are as
/// they are; one of 2^31 seconds and more counts as 0 (RFC 2181 section 8).
///
/// # Errors
///
/// `Malformed` where the octets are no message: one of the entries that the header counts does not end within them, or they go on
/// behind the last entry; a name has more than 255 octets, or a pointer that leads elsewhere; the data of a type that `RData` has
/// a case for are not of its form. `Memory` where none is found.
pub fn read_message(alloc: Global, message: &[u8]) -> Result<Message, MessageError>
    ensures { ReadsMessage result (message_of message.now) }
{
    let Some((header, rest)) = read_header(message) else {
        return Err(MessageError::Malformed);
    };
    match sections_of(alloc, message, header, rest)? {
        None => Err(MessageError::Malformed),
        Some(read) => Ok(read),
    }
}

/// Reads the record that the authority section of a query begins with (RFC 1995 section 3), behind the one question of
/// the query; none if the header counts answers, another number of questions, or no record of that section, or where
/// question and record aren't of their form. What follows the record is not read, so the rest of the message may have
/// any length. Fails only for lack of memory.
pub fn read_first_authority(alloc: Global, message: &[u8]) -> Result<Option<Record>, ProtoError>
    ensures { IfOk result (λ first. first ≡ first_authority_of message.now) }
{
    match read_header(message) {
        None => Ok(None),
        Some((header, rest)) => first_authority_behind(alloc, message, header, rest),
    }
}

/// The first record of the authority section of a query with this header, and what follows it.
#[tactic(auto, unfolding(crate::specs::Messages::first_authority_behind))]
fn first_authority_behind(
    alloc: Global,
    message: &[u8],
    header: Header,
    octets: &[u8],
) -> Result<Option<Record>, ProtoError>
    ensures { IfOk result (λ first. first ≡ first_authority_behind message.now header octets.now) }
{
    if header.questions != 1 || header.answers != 0 || header.authorities == 0 {
        return Ok(None);
    }
    let Some((_, rest)) = question_of(alloc, message, octets)? else {
        return Ok(None);
    };
    match record_of(alloc, message, rest)? {
        None => Ok(None),
        Some((record, _)) => Ok(Some(record)),
    }
}

/// The message of a header, and of what follows it.
#[tactic(auto, unfolding(crate::specs::Messages::sections_of))]
fn sections_of(
    alloc: Global,
    message: &[u8],
    header: Header,
    octets: &[u8],
) -> Result<Option<Message>, ProtoError>
    ensures { IfOk result (λ read. option_map parts_of read
        ≡ sections_of message.now header octets.now) }
{
    let Some((questions, rest)) = questions_of(alloc, message, header.questions, octets)? else {
        return Ok(None);
    };
    let Some((answers, rest)) = records_of(alloc, message, header.answers, rest)? else {
        return Ok(None);
    };
    let Some((authorities, rest)) = records_of(alloc, message, header.authorities, rest)? else {
        return Ok(None);
    };
    let Some((additionals, [])) = records_of(alloc, message, header.additionals, rest)? else {
        return Ok(None);
    };
    Ok(Some(Message {
        header,
        questions,
        answers,
        authorities,
        additionals,
    }))
}

/// So many questions at the start of the last octets of a message, and what follows them.
fn questions_of<'o>(
    alloc: Global,
    message: &'o [u8],
    count: u16,
    octets: &'o [u8],
) -> Result<Option<(Vec<Question>, &'o [u8])>, ProtoError>
    ensures { IfOk result (λ found. option_map (λ x. (x.0.items, x.1.now)) found
        ≡ several (question_of message.now) count octets.now) }
{
    let mut questions = Vec::new(alloc);
    let mut rest = octets;
    for _ in 0..count {
        match question_of(alloc, message, rest)? {
            None => return Ok(None),
            Some((question, next)) => {
                questions.push(question)?;
                rest = next;
            }
        }
    }
    Ok(Some((questions, rest)))
}

/// So many records at the start of the last octets of a message, and what follows them.
fn records_of<'o>(
    alloc: Global,
    message: &'o [u8],
    count: u16,
    octets: &'o [u8],
) -> Result<Option<(Vec<Record>, &'o [u8])>, ProtoError>
    ensures { IfOk result (λ found. option_map (λ x. (x.0.items, x.1.now)) found
        ≡ several (record_of message.now) count octets.now) }
{
    let mut records = Vec::new(alloc);
    let mut rest = octets;
    for _ in 0..count {
        match record_of(alloc, message, rest)? {
            None => return Ok(None),
            Some((record, next)) => {
                records.push(record)?;
                rest = next;
            }
        }
    }
    Ok(Some((records, rest)))
}

/// The record at the start of the last octets of a message, and what follows it.
#[tactic(auto, unfolding(crate::specs::Messages::record_of))]
fn record_of<'o>(
    alloc: Global,
    message: &'o [u8],
    octets: &'o [u8],
) -> Result<Option<(Record, &'o [u8])>, ProtoError>
    ensures { IfOk result (λ found. option_map (λ x. (x.0, x.1.now)) found
        ≡ record_of message.now octets.now) }
{
    let Some((name, rest)) = name_of(alloc, message, offset_of(message, octets), octets)? else {
        return Ok(None);
    };
    let Some((fields, rest)) = fields_of(rest) else {
        return Ok(None);
    };
    let Some((text, after)) = octets_of(usize::from(fields.count), rest) else {
        return Ok(None);
    };
    let at = offset_of(message, rest);
    match data_of(alloc, fields.record_type, message, at, text)? {
        None => Ok(None),
        Some(rdata) => {
            let record = Record {
                name,
                dns_class: fields.dns_class,
                ttl: fields.ttl,
                rdata,
            };
            Ok(Some((record, after)))
        }
    }
}
