//! Queries read from a message.
ghost use Rattle.std.specs.Prelude.{◌≡◌, IfOk};
ghost use Rattle.message_reading.specs.Queries.{body_of, behind_question, has_few, may_have_authorities, query_of, if_version, ReadsQuery};

use crate::error::ReadError;
use crate::extension::{additionals_of, behind_authorities};
use crate::header::Header;
use crate::header_reader::read_header;
use crate::query::Query;
use crate::question::{Question, question_of};
use std::alloc::Global;
use zone_proto::{ProtoError, RecordType};

/// The most records that a section of a query may have.
const MOST_RECORDS: u16 = 4;

/// Reads a query: its header, its one question, and what it says with EDNS. Allocates only for the name, and not if its wire
/// form has at most 31 octets.
///
/// Only a query for IXFR may have records in the authority section. Those and the additional ones are skipped, except an OPT
/// record; its options are skipped too. There may be few of either, so that a long query costs no more than those few do.
///
/// # Errors
///
/// The first cause of these: `NoHeader` if there are fewer than 12 octets; `NoQuery` for a response; `NotImplemented` for an
/// opcode other than QUERY; `Malformed` if it doesn't have the form of a query: it has a number of questions other than one, an
/// answer, more than four records in another section, an OPT record that is a second one, is in another section or not at the
/// root, or has data that aren't options or are more than 64 of them, an entry that doesn't end within the message, or octets
/// after the last one; `BadVersion` for an EDNS version other than 0. `Memory` if there isn't enough for the name.
pub fn read_query(alloc: Global, message: &[u8]) -> Result<Query, ReadError>
    ensures { ReadsQuery result (query_of message.now) }
{
    let Some((header, rest)) = read_header(message) else {
        return Err(ReadError::NoHeader);
    };
    if header.is_response {
        return Err(ReadError::NoQuery);
    }
    if header.opcode != 0 {
        return Err(ReadError::NotImplemented(header));
    }
    match body_of(alloc, message, header, rest)? {
        None => Err(ReadError::Malformed(header)),
        Some(query) => if_version(query),
    }
}

/// A query of a version of EDNS that is known.
fn if_version(query: Query) -> Result<Query, ReadError>
    ensures { result ≡ if_version query query.extension }
{
    match query.extension {
        Some(extension) if extension.version > 0 => Err(ReadError::BadVersion(query)),
        _ => Ok(query),
    }
}

/// The query of a header, and of what follows it.
#[tactic(auto, unfolding(crate::specs::Queries::body_of))]
fn body_of(
    alloc: Global,
    message: &[u8],
    header: Header,
    octets: &[u8],
) -> Result<Option<Query>, ProtoError>
    ensures { IfOk result (λ query. query ≡ body_of message.now header octets.now) }
{
    if !has_few(header) {
        return Ok(None);
    }
    match question_of(alloc, message, octets)? {
        None => Ok(None),
        Some((question, rest)) => Ok(behind_question(header, question, rest)),
    }
}

/// Whether a header counts one question, no answers, and few records after them.
fn has_few(header: Header) -> bool
    ensures { result ≡ has_few header }
{
    header.questions == 1
        && header.answers == 0
        && header.authorities <= MOST_RECORDS
        && header.additionals <= MOST_RECORDS
}

/// Whether records may be in the authority section.
fn may_have_authorities(header: Header, question: &Question) -> bool
    ensures { result ≡ may_have_authorities header question.now }
{
    header.authorities == 0 || question.query_type == RecordType::IXFR
}

/// The query of a header and a question, and of what follows them.
#[tactic(auto, unfolding(crate::specs::Queries::behind_question))]
fn behind_question(header: Header, question: Question, octets: &[u8]) -> Option<Query>
    ensures { result ≡ behind_question header question octets.now }
{
    if !may_have_authorities(header, &question) {
        return None;
    }
    let rest = behind_authorities(header.authorities, octets)?;
    let (extension, rest) = additionals_of(header.additionals, rest)?;
    if !rest.is_empty() {
        return None;
    }
    Some(Query {
        header,
        question,
        extension,
    })
}
