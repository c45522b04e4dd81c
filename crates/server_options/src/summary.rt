//! What an answer was.
ghost use Rattle.std.specs.Prelude.{◌≡◌, ◌+◌, ◌*◌, ◌/◌};
ghost use Rattle.message_options.specs.Options.{opt_of};
ghost use Rattle.server_options.specs.Summaries.{code_with, kind_by, summary_of};

use crate::asking::CookieState;
use message_options::opt_of;
use message_reading::{Header, RecordFrame, read_header};

/// The kind of a response, by which it is counted and limited.
#[derive(Clone, Copy, PartialEq, Eq, Debug, Drop)]
pub enum ResponseKind {
    /// It has an answer.
    Answer,
    /// It refers to the servers of a zone below (RFC 1034 section 4.3.2).
    Referral,
    /// The name has no data of the type (RFC 2308 section 2.2).
    NoData,
    /// There is no such name (RFC 2308 section 2.1).
    NameError,
    /// The server doesn't answer for the name: REFUSED.
    Refused,
    /// Another code than NOERROR, NXDOMAIN and REFUSED.
    Failed,
    /// Nothing is left of its answer, as TC says.
    Truncated,
    /// It isn't the response to a standard query.
    Other,
}

/// What an answer was.
#[derive(Clone, Copy, PartialEq, Eq, Debug, Drop)]
pub struct Summary {
    /// The response code, of twelve bits (RFC 6891 section 6.1.3).
    pub code: u16,
    /// The kind.
    pub kind: ResponseKind,
    /// How many octets it has.
    pub size: usize,
    /// TC.
    pub truncated: bool,
    /// What the query told by a cookie.
    pub cookie: CookieState,
    /// How many labels the origin of the zone has that answers, that of the root among them: so many at the end of the question's name are
    /// the origin. 0 where no zone answers.
    pub origin_labels: usize,
}

/// What a response was, from a zone whose origin has so many labels, to a query that told this by a cookie; none for fewer octets than a
/// header has. Doesn't allocate.
pub fn summary_of(cookie: CookieState, origin_labels: usize, octets: &[u8]) -> Option<Summary>
    ensures { result ≡ summary_of cookie origin_labels octets.now }
{
    let (header, _) = read_header(octets)?;
    let code = code_in(header, octets);
    Some(Summary {
        code,
        kind: kind_by(header, code),
        size: octets.len(),
        truncated: header.truncated,
        cookie,
        origin_labels,
    })
}

/// The code of a response of this header.
fn code_in(header: Header, octets: &[u8]) -> u16
    ensures { result ≡ code_with header (opt_of octets.now) }
{
    match opt_of(octets) {
        None => u16::from(header.response_code),
        Some((frame, _)) => extended(header, frame),
    }
}

/// The code of a header and an OPT record.
fn extended(header: Header, frame: RecordFrame) -> u16
    ensures { result ≡ header.response_code + 16 * (frame.ttl / 16777216) }
{
    let upper = (frame.ttl / 16_777_216) as u16;
    u16::from(header.response_code) + 16 * upper
}

/// The kind of a response.
fn kind_by(header: Header, code: u16) -> ResponseKind
    ensures { result ≡ kind_by header code }
{
    if header.opcode != 0 {
        ResponseKind::Other
    } else if code == 3 {
        ResponseKind::NameError
    } else if code == 5 {
        ResponseKind::Refused
    } else if code > 0 {
        ResponseKind::Failed
    } else if header.answers > 0 {
        ResponseKind::Answer
    } else if header.truncated {
        ResponseKind::Truncated
    } else if header.authorities > 0 && !header.authoritative {
        ResponseKind::Referral
    } else {
        ResponseKind::NoData
    }
}
