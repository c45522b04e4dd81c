//! Updates read from a message.
ghost use Rattle.std.specs.Prelude.{◌≡◌, ◌≤◌, ◌==◌, ◌||◌, not, count_by, length, nat_le, Some, IfOk, option_map};
ghost use Rattle.std.specs.List.{list_any};
ghost use Rattle.message_reading.specs.Messages.{several};
ghost use Rattle.update_message.specs.Updates.{additional_of, are_additionals, body_of, content_of, entry_of, extension_of, has_no_data, if_internet, if_update, is_astray, is_extension, update_of, IsUpdateRead, parts_of};

use crate::message::{UpdateError, UpdateMessage};
use message_reading::{
    Fields, Header, RecordFrame, data_of, fields_of, name_of, octets_of, offset_of, question_of,
    read_header, record_frame_of,
};
use std::alloc::Global;
use zone_proto::{DNSClass, ProtoError, RecordType};
use zone_update::{Content, Entry, Update};

/// The opcode of an update (RFC 2136 section 1.3).
pub const OPCODE: u8 = 5;

/// Reads an update: its header, its zone, its prerequisites and its changes, to the last octet of the message (RFC 2136 section 2).
/// Of the additional records only their frames are read, whatever their data are: a TSIG is to be checked, and taken off, before.
///
/// # Errors
///
/// `NoUpdate` for fewer than 12 octets, a response and another opcode; `Malformed` where the octets aren't of the form of a message,
/// the zone section has another count of zones than one, or one of another type than SOA (section 3.1.1), or there are two OPT records or
/// one that isn't at the root (RFC 6891 section 6.1.1); `OtherClass` for a zone of another class than IN. `Memory` where none is found.
#[tactic(auto, unfolding(crate::specs::Updates::update_of))]
pub fn read_update(alloc: Global, message: &[u8]) -> Result<UpdateMessage, UpdateError>
    ensures { IsUpdateRead result (update_of message.now) }
{
    match read_header(message) {
        None => Err(UpdateError::NoUpdate),
        Some((header, rest)) => if_update(alloc, message, header, rest),
    }
}

/// The update of a header, if it is one of an update, and of what stands after it.
fn if_update(
    alloc: Global,
    message: &[u8],
    header: Header,
    octets: &[u8],
) -> Result<UpdateMessage, UpdateError>
    ensures { IsUpdateRead result (if_update message.now (Some (header, octets.now))) }
{
    if is_other(header) {
        return Err(UpdateError::NoUpdate);
    }
    match body_of(alloc, message, header, octets) {
        Ok(read) => if_internet(header, read),
        Err(_) => Err(UpdateError::Memory),
    }
}

/// Whether a header isn't one of an update.
fn is_other(header: Header) -> bool
    ensures { result ≡ (header.is_response || not (header.opcode == 5)) }
{
    header.is_response || header.opcode != OPCODE
}

/// The update of a zone of class IN.
fn if_internet(
    header: Header,
    read: Option<(UpdateMessage, DNSClass)>,
) -> Result<UpdateMessage, UpdateError>
    ensures { IsUpdateRead result
        (if_internet header (option_map (λ x. (parts_of x.0, x.1)) read)) }
{
    match read {
        None => Err(UpdateError::Malformed(header)),
        Some((asked, class)) => {
            if class == DNSClass::IN {
                Ok(asked)
            } else {
                Err(UpdateError::OtherClass(header))
            }
        }
    }
}

/// The update of a header, and of what stands after it, with the class of its zone.
#[tactic(auto, unfolding(crate::specs::Updates::body_of))]
fn body_of(
    alloc: Global,
    message: &[u8],
    header: Header,
    octets: &[u8],
) -> Result<Option<(UpdateMessage, DNSClass)>, ProtoError>
    ensures { IfOk result (λ read. option_map (λ x. (parts_of x.0, x.1)) read
        ≡ body_of message.now header octets.now) }
{
    if header.questions != 1 {
        return Ok(None);
    }
    let Some((zone, rest)) = question_of(alloc, message, octets)? else {
        return Ok(None);
    };
    if zone.query_type != RecordType::SOA {
        return Ok(None);
    }
    let Some((prerequisites, rest)) = entries_of(alloc, message, header.answers, true, rest)? else {
        return Ok(None);
    };
    let Some((changes, rest)) = entries_of(alloc, message, header.authorities, false, rest)? else {
        return Ok(None);
    };
    let Some(has_extension) = extension_of(alloc, header.additionals, rest)? else {
        return Ok(None);
    };
    let asked = UpdateMessage {
        header,
        zone: zone.name,
        update: Update {
            prerequisites,
            changes,
        },
        has_extension,
    };
    Ok(Some((asked, zone.query_class)))
}

/// Whether the additional section has an OPT record; none if it isn't of its form, or doesn't end where the octets do.
fn extension_of(alloc: Global, count: u16, octets: &[u8]) -> Result<Option<bool>, ProtoError>
    ensures { IfOk result (λ found. found ≡ extension_of count octets.now) }
{
    let Some((frames, [])) = additionals_of(alloc, count, octets)? else {
        return Ok(None);
    };
    if !are_additionals(frames.as_slice()) {
        return Ok(None);
    }
    Ok(Some(has_extension(frames.as_slice())))
}

/// So many additional records at the start of octets, and what stands after them.
fn additionals_of(
    alloc: Global,
    count: u16,
    octets: &[u8],
) -> Result<Option<(Vec<RecordFrame>, &[u8])>, ProtoError>
    ensures { IfOk result (λ found. option_map (λ x. (x.0.items, x.1.now)) found
        ≡ several additional_of count octets.now) }
{
    let mut frames = Vec::new(alloc);
    let mut rest = octets;
    for _ in 0..count {
        match additional_of(rest) {
            None => return Ok(None),
            Some((frame, next)) => {
                frames.push(frame)?;
                rest = next;
            }
        }
    }
    Ok(Some((frames, rest)))
}

/// The frame of the record at the start of octets, and what stands after it.
fn additional_of(octets: &[u8]) -> Option<(RecordFrame, &[u8])>
    ensures { option_map (λ x. (x.0, x.1.now)) result ≡ additional_of octets.now }
{
    let (frame, _, rest) = record_frame_of(octets)?;
    Some((frame, rest))
}

/// Whether additional records have one OPT record at most, and that at the root.
fn are_additionals(frames: &[RecordFrame]) -> bool
    ensures { result ≡ are_additionals frames.now }
{
    has_one_at_most(frames) && !has_one_astray(frames)
}

/// Whether there is one OPT record at most.
fn has_one_at_most(frames: &[RecordFrame]) -> bool
    ensures { result ≡ nat_le (count_by is_extension frames.now) 1 }
{
    count_of(frames) <= 1
}

/// How many OPT records there are.
fn count_of(frames: &[RecordFrame]) -> usize
    ensures { result ≡ count_by is_extension frames.now }
{
    frames.iter().filter(|frame| is_extension(**frame)).count()
}

/// Whether there is an OPT record elsewhere than at the root.
fn has_one_astray(frames: &[RecordFrame]) -> bool
    ensures { result ≡ list_any is_astray frames.now }
{
    frames.iter().any(|frame| is_astray(*frame))
}

/// Whether a record is an OPT record that isn't at the root.
fn is_astray(frame: RecordFrame) -> bool
    ensures { result ≡ is_astray frame }
{
    is_extension(frame) && !frame.is_at_root
}

/// Whether an OPT record is among additional records.
fn has_extension(frames: &[RecordFrame]) -> bool
    ensures { result ≡ list_any is_extension frames.now }
{
    frames.iter().any(|frame| is_extension(*frame))
}

/// Whether a record is an OPT record.
fn is_extension(frame: RecordFrame) -> bool
    ensures { result ≡ is_extension frame }
{
    frame.record_type == RecordType::OPT.0
}

/// So many records of a section at the start of the last octets of a message, and what stands after them.
fn entries_of<'o>(
    alloc: Global,
    message: &'o [u8],
    count: u16,
    are_prerequisites: bool,
    octets: &'o [u8],
) -> Result<Option<(Vec<Entry>, &'o [u8])>, ProtoError>
    ensures { IfOk result (λ found. option_map (λ x. (x.0.items, x.1.now)) found
        ≡ several (entry_of are_prerequisites message.now) count octets.now) }
{
    let mut entries = Vec::new(alloc);
    let mut rest = octets;
    for _ in 0..count {
        match entry_of(alloc, message, are_prerequisites, rest)? {
            None => return Ok(None),
            Some((entry, next)) => {
                entries.push(entry)?;
                rest = next;
            }
        }
    }
    Ok(Some((entries, rest)))
}

/// The record at the start of the last octets of a message, and what stands after it.
#[tactic(auto, unfolding(crate::specs::Updates::entry_of))]
fn entry_of<'o>(
    alloc: Global,
    message: &'o [u8],
    is_prerequisite: bool,
    octets: &'o [u8],
) -> Result<Option<(Entry, &'o [u8])>, ProtoError>
    ensures { IfOk result (λ found. option_map (λ x. (x.0, x.1.now)) found
        ≡ entry_of is_prerequisite message.now octets.now) }
{
    let Some((name, rest)) = name_of(alloc, message, offset_of(message, octets), octets)? else {
        return Ok(None);
    };
    let Some((fields, rest)) = fields_of(rest) else {
        return Ok(None);
    };
    let Some((text, after)) = octets_of(usize::from(fields.count), rest) else {
        return Ok(None);
    };
    let at = offset_of(message, rest);
    match content_of(alloc, message, is_prerequisite, fields, at, text)? {
        None => Ok(None),
        Some(content) => {
            let entry = Entry {
                name,
                record_type: fields.record_type,
                dns_class: fields.dns_class,
                ttl: fields.ttl,
                content,
            };
            Ok(Some((entry, after)))
        }
    }
}

/// What a record has as data; none where they aren't of the form of its type. A record of class ANY has none, nor has a prerequisite of
/// class NONE: there they aren't read.
fn content_of(
    alloc: Global,
    message: &[u8],
    is_prerequisite: bool,
    fields: Fields,
    at: usize,
    text: &[u8],
) -> Result<Option<Content>, ProtoError>
    requires { at ≤ length message.now }
    ensures { IfOk result (λ content. content
        ≡ content_of is_prerequisite fields message.now at text.now) }
{
    if has_no_data(is_prerequisite, fields.dns_class) {
        if text.is_empty() {
            return Ok(Some(Content::Empty));
        }
        return Ok(Some(Content::Unread));
    }
    match data_of(alloc, fields.record_type, message, at, text)? {
        None => Ok(None),
        Some(rdata) => Ok(Some(Content::Data(rdata))),
    }
}

/// Whether a record is to have no data (RFC 2136 sections 2.4 and 2.5).
fn has_no_data(is_prerequisite: bool, class: DNSClass) -> bool
    ensures { result ≡ has_no_data is_prerequisite class.0 }
{
    class == DNSClass::ANY || (is_prerequisite && class == DNSClass::NONE)
}
