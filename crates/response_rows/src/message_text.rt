//! Messages in the words of `dig`.

use anyhow::bail;
use line_text::DataText;
use message_reading::{Header, Message, Question, read_message};
use std::alloc::{AllocError, Global};
use zone_proto::{Record, RecordType};

/// The text of a message.
pub fn message_text(alloc: Global, octets: &[u8]) -> anyhow::Result<String> {
    let Ok(message) = read_message(alloc, octets) else {
        bail!("a response can't be read");
    };
    let mut text = String::new(alloc);
    write_header(&mut text, &message)?;
    write_extension(&mut text, message.additionals.as_slice())?;
    write_questions(&mut text, message.questions.as_slice())?;
    write_section(&mut text, "ANSWER", message.answers.as_slice())?;
    write_section(&mut text, "AUTHORITY", message.authorities.as_slice())?;
    write_section(&mut text, "ADDITIONAL", message.additionals.as_slice())?;
    Ok(text)
}

/// The text of the messages of frames.
pub fn frames_text(alloc: Global, octets: &[u8]) -> anyhow::Result<String> {
    let mut text = String::new(alloc);
    let mut rest = octets;
    for _ in 0..octets.len() {
        let Some((high, behind)) = rest.split_first() else {
            break;
        };
        let Some((low, behind)) = behind.split_first() else {
            bail!("a frame has one octet of length");
        };
        let count = usize::from(u16::from_be_bytes([*high, *low]));
        let Some((message, behind)) = behind.split_at_checked(count) else {
            bail!("a frame isn't whole");
        };
        text.push_str(message_text(alloc, message)?.as_str())?;
        rest = behind;
    }
    if text.is_empty() {
        text.push_str(";; no response\n")?;
    }
    Ok(text)
}

/// The OPT record of an additional section.
fn extension_of(additionals: &[Record]) -> Option<&Record> {
    additionals
        .iter()
        .find(|record| record.record_type() == RecordType::OPT)
}

/// The whole response code, with the upper eight bits that an OPT record has of it (RFC 6891 section 6.1.3).
fn code_of(message: &Message) -> u32 {
    let low = u32::from(message.header.response_code % 16);
    match extension_of(message.additionals.as_slice()) {
        Some(record) => record.ttl / 16_777_216 % 256 * 16 + low,
        None => low,
    }
}

/// Appends the header.
fn write_header(text: &mut String, message: &Message) -> Result<(), AllocError> {
    let header = message.header;
    write!(text, ";; ->>HEADER<<- opcode: ")?;
    match header.opcode {
        0 => write!(text, "QUERY")?,
        2 => write!(text, "STATUS")?,
        4 => write!(text, "NOTIFY")?,
        5 => write!(text, "UPDATE")?,
        number => write!(text, "OPCODE{number}")?,
    }
    match code_of(message) {
        0 => write!(text, ", status: NOERROR")?,
        1 => write!(text, ", status: FORMERR")?,
        2 => write!(text, ", status: SERVFAIL")?,
        3 => write!(text, ", status: NXDOMAIN")?,
        4 => write!(text, ", status: NOTIMP")?,
        5 => write!(text, ", status: REFUSED")?,
        9 => write!(text, ", status: NOTAUTH")?,
        16 => write!(text, ", status: BADVERS")?,
        number => write!(text, ", status: RESERVED{number}")?,
    }
    write!(text, ", id: {}\n", header.id)?;
    write_flags(text, header)?;
    write!(
        text,
        "; QUERY: {}, ANSWER: {}, AUTHORITY: {}, ADDITIONAL: {}\n",
        header.questions, header.answers, header.authorities, header.additionals
    )
}

/// Appends a word for each flag that is set.
fn write_flags(text: &mut String, header: Header) -> Result<(), AllocError> {
    write!(text, ";; flags:")?;
    let flags = [
        ("qr", header.is_response),
        ("aa", header.authoritative),
        ("tc", header.truncated),
        ("rd", header.recursion_desired),
        ("ra", header.recursion_available),
        ("z", header.reserved),
        ("ad", header.authentic_data),
        ("cd", header.checking_disabled),
    ];
    for (word, is_set) in flags {
        if is_set {
            write!(text, " {word}")?;
        }
    }
    Ok(())
}

/// Appends what a message says by EDNS.
fn write_extension(text: &mut String, additionals: &[Record]) -> Result<(), AllocError> {
    let Some(record) = extension_of(additionals) else {
        return Ok(());
    };
    let flags = if record.ttl / 32_768 % 2 == 1 {
        " do"
    } else {
        ""
    };
    let version = record.ttl / 65_536 % 256;
    write!(text, ";; OPT PSEUDOSECTION:\n")?;
    write!(
        text,
        "; EDNS: version: {version}, flags:{flags}; udp: {}\n",
        record.dns_class.0
    )
}

/// Appends the questions.
fn write_questions(text: &mut String, questions: &[Question]) -> Result<(), AllocError> {
    if questions.is_empty() {
        return Ok(());
    }
    write!(text, ";; QUESTION SECTION:\n")?;
    for question in questions {
        let (class, query_type) = (question.query_class, question.query_type);
        write!(text, ";{} {class} {query_type}\n", question.name)?;
    }
    Ok(())
}

/// Appends the records of a section, but for an OPT record.
fn write_section(text: &mut String, section: &str, records: &[Record]) -> Result<(), AllocError> {
    let mut is_begun = false;
    for record in records {
        if record.record_type() == RecordType::OPT {
            continue;
        }
        if !is_begun {
            write!(text, ";; {section} SECTION:\n")?;
            is_begun = true;
        }
        let (class, record_type) = (record.dns_class, record.record_type());
        let data = DataText(&record.rdata);
        write!(text, "{} {} {class} ", record.name, record.ttl)?;
        write!(text, "{record_type} {data}\n")?;
    }
    Ok(())
}
