//! From the octets of a query to those of its response.
ghost use Rattle.std.specs.Prelude.{◌≡◌, ◌<◌, ◌≤◌, length, IfOk, OnOk};
ghost use Rattle.zone_response.specs.Responses.{bare};
ghost use Rattle.zone_server.specs.Answers.{asked_of, bad_version, IsAnswer, IsAnswerFrom, IsAnswerFromTo, IsAnswerTo, IsResponseFrom, IsSent, SaysWhether};
ghost use Rattle.zone_server.specs.BareHeaders.{HasOpcode, IsBareHeader};
ghost use Rattle.zone_server.specs.Limits.{limit_for};

use crate::bare_header::{MALFORMED, write_bare_header};
use crate::sending::{send, send_code};
use crate::transport::{Transport, limit_for};
use crate::zones::{ServedZones, zone_for};
use lookup_types::LookupOptions;
use message_reading::{Header, Query, ReadError, read_query};
use std::alloc::{AllocError, Global};
use zone_proto::{LowerName, ResponseCode};
use zone_response::{Question, respond};

/// NOTIMP (RFC 1035 section 4.1.1).
const NOT_IMPLEMENTED: u8 = 4;

/// BADVERS (RFC 6891 section 9).
const BAD_VERSION: ResponseCode = ResponseCode::Other(16);

/// Whether a message is answered.
#[derive(Clone, Copy, PartialEq, Eq, Debug)]
pub enum Answered {
    /// It has fewer octets than a header, or is a response: it gets no answer.
    Nothing,
    /// The octets of the response are there.
    Response,
}

/// Answers a message from some zones, in place of the octets of `out`.
///
/// - Fewer than 12 octets and a response are answered by nothing. Another opcode than that of a standard query gets NOTIMP, and
///   what isn't of the form of a query FORMERR, by a header alone, without OPT (RFC 1035 section 4.1.1; RFC 9619 section 4 for more than one
///   question); a version of EDNS other than 0 gets BADVERS (RFC 6891 section 6.1.3).
/// - The zone of the longest origin at or above the name answers, as `respond` says; for DS the one of the longest origin above
///   the name, if there is one (RFC 4035 section 3.1.4.1). Where there is none the code is `Refused`.
/// - Identifier, RD and the question are copied as they came; a response with a question has an OPT record if and only if the query
///   has one (RFC 6891 section 6.1.1), with its DO bit and without options; AD, CD and RA are clear (RFC 4035 section 3.1.6).
/// - Over UDP the response has at most as many octets as client and way take, and 1,232, but 512 without an OPT record
///   and never fewer; over TCP at most 65,535. What is required and goes over is cut with TC (RFC 2181 section 9).
/// - Where a record has data that no octets are, the code is `ServFail`.
///
/// Fails only for lack of memory.
pub fn answer<Z: ServedZones>(
    alloc: Global,
    zones: &Z,
    message: &[u8],
    transport: Transport,
    out: &mut Vec<u8>,
) -> Result<Answered, AllocError>
    ensures answer { OnOk result
        (IsAnswer (Z.zones zones.now) transport message.now
        out.new.items) }
    ensures reported { IfOk result (λ reported. SaysWhether reported out.new.items) }
    ensures short { OnOk result (length out.new.items < 65536) }
{
    let read = read_query(alloc, message);
    answer_read(alloc, zones, read, transport, out)
}

/// Answers a message as [`answer`] does, and gives how many labels the origin of the zone has that answers, that of the root among them: so
/// many at the end of the question's name are the origin. It is 0 where no zone answers. Fails only for lack of memory.
#[tactic(auto, using(crate::proofs::AnswerFacts::answers_octets_from))]
pub fn answer_from<Z: ServedZones>(
    alloc: Global,
    zones: &Z,
    message: &[u8],
    transport: Transport,
    out: &mut Vec<u8>,
) -> Result<usize, AllocError>
    ensures answer { IfOk result (λ labels. IsAnswerFrom (Z.zones zones.now) transport
        message.now labels out.new.items) }
    ensures short { OnOk result (length out.new.items < 65536) }
{
    let read = read_query(alloc, message);
    answer_read_from(alloc, zones, read, transport, out)
}

/// Answers a message by what is read of it.
#[tactic(auto, using(crate::proofs::AnswerFacts::answered))]
pub(crate) fn answer_read<Z: ServedZones>(
    alloc: Global,
    zones: &Z,
    read: Result<Query, ReadError>,
    transport: Transport,
    out: &mut Vec<u8>,
) -> Result<Answered, AllocError>
    requires { HasOpcode read }
    ensures answer { OnOk result
        (IsAnswerTo (Z.zones zones.now) transport read
        out.new.items) }
    ensures reported { IfOk result (λ reported. SaysWhether reported out.new.items) }
    ensures short { OnOk result (length out.new.items < 65536) }
{
    answer_read_from(alloc, zones, read, transport, out)?;
    if out.is_empty() {
        Ok(Answered::Nothing)
    } else {
        Ok(Answered::Response)
    }
}

/// Answers a message by what is read of it as [`answer_from`] does by its octets: for a caller that has read it already. Fails only for lack
/// of memory.
pub fn answer_read_from<Z: ServedZones>(
    alloc: Global,
    zones: &Z,
    read: Result<Query, ReadError>,
    transport: Transport,
    out: &mut Vec<u8>,
) -> Result<usize, AllocError>
    requires { HasOpcode read }
    ensures answer { IfOk result (λ labels. IsAnswerFromTo (Z.zones zones.now) transport read
        labels out.new.items) }
    ensures short { OnOk result (length out.new.items < 65536) }
{
    match read {
        Ok(query) => answer_query(alloc, zones, &query, transport, out),
        Err(ReadError::NoHeader | ReadError::NoQuery) => {
            out.clear();
            Ok(0)
        }
        Err(ReadError::NotImplemented(header)) => answer_header(header, NOT_IMPLEMENTED, out),
        Err(ReadError::Malformed(header)) => answer_header(header, MALFORMED, out),
        Err(ReadError::BadVersion(query)) => answer_version(alloc, &query, transport, out),
        Err(ReadError::Memory) => Err(AllocError),
    }
}

/// Answers by a header alone.
fn answer_header(header: Header, code: u8, out: &mut Vec<u8>) -> Result<usize, AllocError>
    requires opcode { header.opcode < 16 }
    requires code { code < 16 }
    ensures answer { OnOk result (IsBareHeader header code out.new.items) }
    ensures none { IfOk result (λ labels. labels ≡ 0) }
    ensures short { OnOk result (length out.new.items < 65536) }
{
    write_bare_header(out, header, code)?;
    Ok(0)
}

/// Answers a query of another version of EDNS than 0.
fn answer_version(
    alloc: Global,
    query: &Query,
    transport: Transport,
    out: &mut Vec<u8>,
) -> Result<usize, AllocError>
    ensures answer { OnOk result (IsSent (limit_for transport query.now.extension) query.now
        (bare bad_version) out.new.items) }
    ensures none { IfOk result (λ labels. labels ≡ 0) }
    ensures short { OnOk result (length out.new.items < 65536) }
{
    let limit = limit_for(transport, query);
    send_code(alloc, out, query, BAD_VERSION, limit)?;
    Ok(0)
}

/// Answers a query that was read, and gives how many labels the origin of the zone has that answers.
#[tactic(auto, using(crate::proofs::AnswerFacts::response_short))]
fn answer_query<Z: ServedZones>(
    alloc: Global,
    zones: &Z,
    query: &Query,
    transport: Transport,
    out: &mut Vec<u8>,
) -> Result<usize, AllocError>
    ensures answer { IfOk result (λ labels. IsResponseFrom (Z.zones zones.now)
        (limit_for transport query.now.extension) query.now labels out.new.items) }
    ensures short { OnOk result (length out.new.items < 65536) }
{
    let limit = limit_for(transport, query);
    send_response(alloc, zones, query, limit, out)
}

/// Writes the response to a query from the zone that answers, in place of the octets of `out`, and gives how many labels its origin has.
#[tactic(auto, using(crate::proofs::AnswerFacts::refused_from, crate::proofs::AnswerFacts::said_from))]
fn send_response<Z: ServedZones>(
    alloc: Global,
    zones: &Z,
    query: &Query,
    limit: u16,
    out: &mut Vec<u8>,
) -> Result<usize, AllocError>
    requires { 512 ≤ limit }
    ensures { IfOk result (λ labels. IsResponseFrom (Z.zones zones.now) limit query.now labels
        out.new.items) }
{
    let Ok(name) = LowerName::new(&query.question.name) else {
        return Err(AllocError);
    };
    let question = Question {
        name: &name,
        query_type: query.question.query_type,
        query_class: query.question.query_class,
    };
    let Some(zone) = zone_for(zones, question)? else {
        send_code(alloc, out, query, ResponseCode::Refused, limit)?;
        return Ok(0);
    };
    let labels = zone.origin.num_labels() + 1;
    let options = LookupOptions {
        dnssec_ok: asks_for_dnssec(query),
    };
    match respond(zone, question, options) {
        Ok(response) => {
            send(alloc, out, query, &name, &response, limit)?;
            Ok(labels)
        }
        Err(_) => Err(AllocError),
    }
}

/// Whether a query asks for DNSSEC (RFC 3225 section 3).
pub fn asks_for_dnssec(query: &Query) -> bool
    ensures { result ≡ (asked_of query.now).signed }
{
    match query.extension {
        Some(extension) => extension.dnssec_ok,
        None => false,
    }
}
