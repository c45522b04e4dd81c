//! Queries in words, and how they come.

use anyhow::bail;
use compared_rows::octets_of;
use line_text::read_u16;
use std::alloc::Global;
use zone_proto::{Name, RecordType};
use zone_server::Transport;

/// What a query has beside its name and its type.
#[derive(Clone, Copy)]
struct Wanted {
    id: u16,
    opcode: u16,
    class: u16,
    recursion_desired: bool,
    authentic_data: bool,
    checking_disabled: bool,
    size: Option<u16>,
    version: u16,
    dnssec_ok: bool,
}

/// How a message comes, by its word.
pub fn transport_of(word: &str) -> anyhow::Result<Transport> {
    if word == "tcp" {
        return Ok(Transport::Tcp);
    }
    let Some(limit) = number_behind(word, "udp=") else {
        bail!("a row has no transport");
    };
    Ok(Transport::Udp { limit })
}

/// The octets of a message by its words.
pub fn message_of(alloc: Global, words: &str) -> anyhow::Result<Vec<u8>> {
    let Some((first, rest)) = words.split_once(" ") else {
        bail!("a row has no message");
    };
    if first == "hex" {
        return Ok(octets_of(alloc, rest)?);
    }
    let (type_word, flags) = rest.split_once(" ").unwrap_or((rest, ""));
    let name = Name::parse(alloc, first)?;
    let Some(query_type) = RecordType::from_text(type_word) else {
        bail!("a row has no type");
    };
    query_octets(alloc, &name, query_type, wanted_of(flags)?)
}

/// What words say that a query has.
fn wanted_of(words: &str) -> anyhow::Result<Wanted> {
    let mut wanted = Wanted {
        id: 1,
        opcode: 0,
        class: 1,
        recursion_desired: false,
        authentic_data: false,
        checking_disabled: false,
        size: None,
        version: 0,
        dnssec_ok: false,
    };
    for word in words.split(" ") {
        take_word(&mut wanted, word)?;
    }
    Ok(wanted)
}

/// Notes what a word says.
fn take_word(wanted: &mut Wanted, word: &str) -> anyhow::Result<()> {
    match word {
        "" => {}
        "rd" => wanted.recursion_desired = true,
        "ad" => wanted.authentic_data = true,
        "cd" => wanted.checking_disabled = true,
        "do" => wanted.dnssec_ok = true,
        _ => take_number(wanted, word)?,
    }
    Ok(())
}

/// Notes the number that a word says.
fn take_number(wanted: &mut Wanted, word: &str) -> anyhow::Result<()> {
    if let Some(number) = number_behind(word, "id=") {
        wanted.id = number;
    } else if let Some(number) = number_behind(word, "opcode=") {
        wanted.opcode = number;
    } else if let Some(number) = number_behind(word, "class=") {
        wanted.class = number;
    } else if let Some(number) = number_behind(word, "edns=") {
        wanted.size = Some(number);
    } else if let Some(number) = number_behind(word, "version=") {
        wanted.version = number;
    } else {
        bail!("a row has an unknown word");
    }
    Ok(())
}

/// The number behind the front of a word.
fn number_behind(word: &str, front: &str) -> Option<u16> {
    read_u16(word.strip_prefix(front)?.as_bytes())
}

/// The octets of a query (RFC 1035 section 4.1, RFC 6891 section 6.1.2).
fn query_octets(
    alloc: Global,
    name: &Name,
    query_type: RecordType,
    wanted: Wanted,
) -> anyhow::Result<Vec<u8>> {
    let mut octets = Vec::new(alloc);
    let high = wanted.opcode % 16 * 8 + if wanted.recursion_desired { 1 } else { 0 };
    let authentic_data = if wanted.authentic_data { 32 } else { 0 };
    let checking_disabled = if wanted.checking_disabled { 16 } else { 0 };
    push_number(&mut octets, wanted.id)?;
    push_number(
        &mut octets,
        high * 256 + (authentic_data + checking_disabled),
    )?;
    let additionals = if wanted.size.is_some() { 1 } else { 0 };
    for count in [1, 0, 0, additionals] {
        push_number(&mut octets, count)?;
    }
    for label in name.labels() {
        octets.push((label.len() % 64) as u8)?;
        octets.extend_from_slice(label)?;
    }
    octets.push(0)?;
    push_number(&mut octets, query_type.0)?;
    push_number(&mut octets, wanted.class)?;
    if let Some(size) = wanted.size {
        octets.push(0)?;
        let dnssec_ok = if wanted.dnssec_ok { 32_768 } else { 0 };
        for number in [41, size, wanted.version % 256, dnssec_ok, 0] {
            push_number(&mut octets, number)?;
        }
    }
    Ok(octets)
}

/// Appends a number of two octets.
fn push_number(octets: &mut Vec<u8>, number: u16) -> anyhow::Result<()> {
    octets.extend_from_slice(&number.to_be_bytes())?;
    Ok(())
}
