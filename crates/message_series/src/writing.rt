//! Series of messages written.
ghost use Rattle.std.specs.Prelude.{◌≡◌, ◌+◌, ◌<◌, ◌≤◌, ◌^◌, ◌++◌, drop, length, Some, IfErr, IfOk, OnOk};
ghost use Rattle.message_writing.specs.DataText.{short_text};
ghost use Rattle.message_writing.specs.Responses.{all_records};
ghost use Rattle.message_series.specs.Faults.{query_about, IsSeriesFault};
ghost use Rattle.message_series.specs.Series.{records_of, HasFirst, IsPushed};
ghost use Rattle.message_series.specs.Singles.{AreSingle, IsPushFault};

use crate::fault::SeriesFault;
use crate::singles::singles_of;
use message_reading::{Header, Query, Question};
use message_writing::{Group, Response, WriteError, write_front};
use std::alloc::{AllocError, Global};
use zone_proto::{DNSClass, Name, ProtoError, RecordType};

/// How many octets a message may have.
const LIMIT: u16 = 65535;

/// How many messages a series may have: of so many there are fewer than 2^32 octets.
const GREATEST: u16 = 65534;

/// The octets of messages with the records of these groups as answers, in their order, as a response to the question for what changed of the zone
/// of this origin: the number of the messages in two octets, and then each behind its length in two octets, fewer than 2^32 octets in all. A
/// message may end behind any record.
///
/// # Errors
///
/// `Unwritable` where a record has data that no octets are, where no message has room for a record, or where the records take more than
/// 65,534 messages, so that there are more than 65,534 of them; `Memory` where none is found.
pub fn write_series(
    alloc: Global,
    origin: &Name,
    groups: &[Group<'_>],
) -> Result<Vec<u8>, SeriesFault>
    ensures reads { IfOk result
        (λ octets. records_of octets.items ≡ Some (all_records groups.now)) }
    ensures size { IfOk result (λ octets. length octets.items < 2 ^ 32) }
    ensures fault { IfErr result
        (IsSeriesFault (query_about origin.now) (all_records groups.now)) }
{
    let query = question_about(origin)?;
    let singles = singles_of(alloc, groups)?;
    write_singles(alloc, &query, singles.as_slice())
}

/// The series of records each by itself.
#[tactic(auto, using(crate::proofs::Pushed::none_written))]
fn write_singles(alloc: Global, query: &Query, groups: &[Group<'_>]) -> Result<Vec<u8>, SeriesFault>
    requires { AreSingle groups.now }
    ensures reads { IfOk result
        (λ octets. records_of octets.items ≡ Some (all_records groups.now)) }
    ensures size { IfOk result (λ octets. length octets.items < 2 ^ 32) }
    ensures fault { IfErr result (IsSeriesFault query.now (all_records groups.now)) }
{
    let mut body = Vec::new(alloc);
    let mut count = 0u16;
    let mut rest = groups;
    'messages: loop {
        if rest.is_empty() {
            let octets = behind_count(alloc, count, body.as_slice())?;
            return Ok(octets);
        }
        if count == GREATEST {
            return Err(SeriesFault::Unwritable);
        }
        match push_message(alloc, query, rest, &mut body) {
            Ok(taken) => {
                rest = without_first(rest, taken);
                count += 1;
            }
            Err(fault) => return Err(fault),
        }
    }
}

/// Groups without the first ones, so many.
fn without_first<'g, 'r>(groups: &'g [Group<'r>], count: usize) -> &'g [Group<'r>]
    requires { count ≤ length groups.now }
    ensures left { result.now ≡ drop count groups.now }
    ensures fewer { length result.now + count ≡ length groups.now }
{
    let (_, left) = groups.split_at(count);
    left
}

/// Octets behind a number in two octets.
fn behind_count(alloc: Global, count: u16, body: &[u8]) -> Result<Vec<u8>, AllocError>
    ensures { IfOk result (λ octets. octets.items ≡ short_text count ++ body.now) }
{
    let mut octets = Vec::new(alloc);
    octets.extend_from_slice(&[(count / 256) as u8, (count % 256) as u8])?;
    octets.extend_from_slice(body)?;
    Ok(octets)
}

/// Appends a message of as many of the first groups as it has room for, one at least, behind its length; and gives how many.
#[tactic(auto, using(crate::proofs::Pushed::pushed, crate::proofs::Faults::first_is_too_long))]
fn push_message(
    alloc: Global,
    query: &Query,
    groups: &[Group<'_>],
    body: &mut Vec<u8>,
) -> Result<usize, SeriesFault>
    requires { 0 < length groups.now }
    ensures put { IfOk result (IsPushed body.old.items body.new.items groups.now) }
    ensures fault { IfErr result (IsPushFault query.now groups.now) }
{
    let mut message = Vec::new(alloc);
    match write_first(alloc, query, groups, &mut message) {
        Ok(taken) => {
            if taken == 0 {
                return Err(SeriesFault::Unwritable);
            }
            push_text(body, message.as_slice())?;
            Ok(taken)
        }
        Err(fault) => Err(fault),
    }
}

/// Appends octets behind their length in two octets.
fn push_text(body: &mut Vec<u8>, text: &[u8]) -> Result<(), AllocError>
    requires { length text.now < 65536 }
    ensures { OnOk result
        (body.new.items ≡ body.old.items ++ (short_text (length text.now) ++ text.now)) }
{
    let length = text.len();
    body.extend_from_slice(&[(length / 256) as u8, (length % 256) as u8])?;
    body.extend_from_slice(text)
}

/// Writes a message of as many of the first groups as it has room for, in place of the octets of `out`, and gives how many.
fn write_first(
    alloc: Global,
    query: &Query,
    groups: &[Group<'_>],
    out: &mut Vec<u8>,
) -> Result<usize, SeriesFault>
    ensures first { IfOk result (HasFirst query.now out.new.items groups.now) }
    ensures fault { IfErr result (IsPushFault query.now groups.now) }
{
    let response = Response {
        query,
        authoritative: true,
        code: 0,
        size: 0,
        answers: groups,
        authorities: &[],
        glue: &[],
        additionals: &[],
    };
    match write_front(alloc, out, &response, LIMIT) {
        Ok(taken) => Ok(taken),
        Err(WriteError::Memory) => Err(SeriesFault::Memory),
        Err(WriteError::Unwritable) => Err(SeriesFault::Unwritable),
        // Its code has twelve bits, and header and question find room.
        Err(WriteError::BadCode) => unreachable!(),
        Err(WriteError::NoRoom) => unreachable!(),
    }
}

/// The question for what changed of a zone (RFC 1995 section 3), in the query that the messages would answer.
fn question_about(origin: &Name) -> Result<Query, ProtoError>
    ensures { IfOk result (λ query. query ≡ query_about origin.now) }
{
    Ok(Query {
        header: Header {
            id: 0,
            is_response: false,
            opcode: 0,
            authoritative: false,
            truncated: false,
            recursion_desired: false,
            recursion_available: false,
            reserved: false,
            authentic_data: false,
            checking_disabled: false,
            response_code: 0,
            questions: 1,
            answers: 0,
            authorities: 0,
            additionals: 0,
        },
        question: Question {
            name: origin.clone()?,
            query_type: RecordType::IXFR,
            query_class: DNSClass::IN,
        },
        extension: None,
    })
}
