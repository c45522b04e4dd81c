//! What was read, as text.

use line_text::RecordText;
use message_reading::{
    Header, Message, MessageError, Query, Question, ReadError, read_message, read_query,
};
use std::alloc::{AllocError, Global};
use zone_proto::Record;

/// What octets are as a query, or why they are refused.
pub fn query_text(alloc: Global, octets: &[u8]) -> Result<String, AllocError> {
    match read_query(alloc, octets) {
        Ok(query) => asked_text(alloc, &query),
        Err(ReadError::NoHeader) => format!(in alloc; "no header"),
        Err(ReadError::NoQuery) => format!(in alloc; "a response"),
        Err(ReadError::NotImplemented(header)) => format!(in alloc; "NOTIMP {}", header.id),
        Err(ReadError::Malformed(header)) => format!(in alloc; "FORMERR {}", header.id),
        Err(ReadError::BadVersion(query)) => {
            format!(in alloc; "BADVERS {} {}", query.header.id, query.question.name)
        }
        Err(ReadError::Memory) => Err(AllocError),
    }
}

/// A query: header, question, and what it says by EDNS.
fn asked_text(alloc: Global, query: &Query) -> Result<String, AllocError> {
    let mut text = String::new(alloc);
    write_header(&mut text, query.header)?;
    write_question(&mut text, &query.question)?;
    if let Some(extension) = query.extension {
        write!(text, "; size {}", extension.size)?;
        if extension.dnssec_ok {
            write!(text, " do")?;
        }
    }
    let limit = query.limit(1232);
    write!(text, "; limit {limit}")?;
    Ok(text)
}

/// What octets are as a message, or that they are none.
pub fn message_text(alloc: Global, octets: &[u8]) -> Result<String, AllocError> {
    match read_message(alloc, octets) {
        Ok(message) => whole_text(alloc, &message),
        Err(MessageError::Malformed) => format!(in alloc; "malformed"),
        Err(MessageError::Memory) => Err(AllocError),
    }
}

/// A message: header, questions, and the records of its sections.
fn whole_text(alloc: Global, message: &Message) -> Result<String, AllocError> {
    let mut text = String::new(alloc);
    write_header(&mut text, message.header)?;
    for question in message.questions.as_slice() {
        write_question(&mut text, question)?;
    }
    write_records(&mut text, "answer", message.answers.as_slice())?;
    write_records(&mut text, "authority", message.authorities.as_slice())?;
    write_records(&mut text, "additional", message.additionals.as_slice())?;
    Ok(text)
}

/// Appends a header: identifier, opcode and response code, and a word for each flag that is set.
fn write_header(text: &mut String, header: Header) -> Result<(), AllocError> {
    write!(
        text,
        "{} {} {}",
        header.id, header.opcode, header.response_code
    )?;
    let flags = [
        ("qr", header.is_response),
        ("aa", header.authoritative),
        ("tc", header.truncated),
        ("rd", header.recursion_desired),
        ("ra", header.recursion_available),
        ("z", header.reserved),
        ("ad", header.authentic_data),
        ("cd", header.checking_disabled),
    ];
    for (word, is_set) in flags {
        if is_set {
            write!(text, " {word}")?;
        }
    }
    Ok(())
}

/// Appends a question.
fn write_question(text: &mut String, question: &Question) -> Result<(), AllocError> {
    let (class, query_type) = (question.query_class, question.query_type);
    write!(text, "; {} {class} {query_type}", question.name)
}

/// Appends the records of a section.
fn write_records(text: &mut String, section: &str, records: &[Record]) -> Result<(), AllocError> {
    for record in records {
        let record = RecordText(record);
        write!(text, "; {section} {record}")?;
    }
    Ok(())
}
