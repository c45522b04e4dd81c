//! Responses as a server means them.
ghost use Rattle.message_writing.specs.Writers.{HasNoGroups, IsHeadOf};

use message_reading::Query;
use zone_proto::Record;

/// Records that are sent together or not at all: those of a set, and the signatures that cover them (RFC 2181 section
/// 5, RFC 4035 section 3.1.1).
#[derive(Clone, Copy, Debug)]
pub struct Group<'r> {
    /// The records.
    pub records: &'r [Record],
    /// The signatures, which follow them.
    pub signatures: &'r [Record],
    /// The TTL of all of them, in seconds, whatever they have themselves (RFC 2181 section 5.2).
    pub ttl: u32,
}

/// A response to a query. Identifier, RD, question and DO are the query's; CD is clear. Its groups are lent, and they lend the
/// records.
#[derive(Clone, Copy, Debug)]
pub struct Response<'g, 'r> {
    /// The query that is answered.
    pub query: &'g Query,
    /// AA: the server is an authority for the name.
    pub authoritative: bool,
    /// The response code, of twelve bits; a response without an OPT record tells the lower four alone (RFC 6891 section 6.1.3).
    pub code: u16,
    /// How many octets the server takes in one datagram.
    pub size: u16,
    /// The answer section.
    pub answers: &'g [Group<'r>],
    /// The authority section.
    pub authorities: &'g [Group<'r>],
    /// What has to be in the additional section: addresses of a referral's servers that are in the child (RFC 9471).
    pub glue: &'g [Group<'r>],
    /// What goes into the additional section where there is room.
    pub additionals: &'g [Group<'r>],
}

/// A section of a response (RFC 1035 section 4.1), or a part of one.
#[derive(Clone, Copy, PartialEq, Eq, Debug)]
pub enum Section {
    /// The answer section.
    Answers,
    /// The authority section.
    Authorities,
    /// What has to be in the additional section (RFC 9471).
    Glue,
    /// What goes into the additional section where there is room.
    Additionals,
}

/// What a response says besides its groups of records, which are written one by one.
#[derive(Clone, Copy, Debug)]
pub struct ResponseHead<'q> {
    /// The query that is answered.
    pub query: &'q Query,
    /// AA: the server is an authority for the name.
    pub authoritative: bool,
    /// The response code, of twelve bits; a response without an OPT record tells the lower four alone (RFC 6891 section 6.1.3).
    pub code: u16,
    /// How many octets the server takes in one datagram.
    pub size: u16,
}

/// The response of a head, with no groups.
pub(crate) fn without_groups<'q>(head: ResponseHead<'q>) -> Response<'q, 'q>
    ensures head { IsHeadOf head.entry result }
    ensures none { HasNoGroups result }
{
    Response {
        query: head.query,
        authoritative: head.authoritative,
        code: head.code,
        size: head.size,
        answers: &[],
        authorities: &[],
        glue: &[],
        additionals: &[],
    }
}
