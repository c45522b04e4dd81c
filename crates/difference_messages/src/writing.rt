//! The messages of steps.
ghost use Rattle.std.specs.Prelude.{◌≡◌, ◌≤◌};
ghost use Rattle.difference_messages.specs.Messages.{answer_of, Goes, WritesMessage};

use message_reading::Query;
use message_writing::{Group, Response, WriteError, write_front};
use std::alloc::Global;

/// Steps that are sent as the answer to a query.
#[derive(Clone, Copy)]
pub struct DifferenceAnswer<'a> {
    /// The query.
    pub query: &'a Query,
    /// The records, as `difference_groups` gives them.
    pub groups: &'a [Group<'a>],
    /// How many octets the server takes in one datagram, for the OPT record (RFC 6891 section 6.2.3).
    pub size: u16,
    /// How many octets a message may have: 282 at least.
    pub limit: u16,
}

/// Why an answer can't go on.
#[derive(Clone, Copy, PartialEq, Eq, Debug)]
pub enum DifferenceFault {
    /// A record can't be sent: no octets are its data, or no message has room for it.
    Unsendable,
    /// No memory was found.
    Memory,
}

/// Writes the next message of an answer of which so many groups are sent, in place of the octets of `out`: as many of the others as it has
/// room for. Gives how many groups are sent with it; none where all are, and then there are no octets.
///
/// Each message has the question and AA, and an OPT record if and only if the query has one (RFC 5936 section 2.2, which RFC 1995
/// section 4 goes back to).
///
/// # Errors
///
/// `Unsendable` where one of the records that are left can't be sent, and `Memory`.
pub fn write_next(
    alloc: Global,
    answer: &DifferenceAnswer<'_>,
    sent: usize,
    out: &mut Vec<u8>,
) -> Result<Option<usize>, DifferenceFault>
    requires { 282 ≤ answer.now.limit }
    ensures { Goes (answer_of answer.now) sent out.new.items result }
{
    if sent >= answer.groups.len() {
        out.clear();
        return Ok(None);
    }
    let (_, left) = answer.groups.split_at(sent);
    match write_first(alloc, answer, left, out) {
        Ok(count) => {
            if count == 0 {
                return Err(DifferenceFault::Unsendable);
            }
            Ok(Some(sent + count))
        }
        Err(fault) => Err(fault),
    }
}

/// Writes a message of as many of the first of some groups as it has room for, in place of the octets of `out`, and gives how many.
fn write_first(
    alloc: Global,
    answer: &DifferenceAnswer<'_>,
    left: &[Group<'_>],
    out: &mut Vec<u8>,
) -> Result<usize, DifferenceFault>
    requires { 282 ≤ answer.now.limit }
    ensures { WritesMessage (answer_of answer.now) left.now out.new.items result }
{
    let response = Response {
        query: answer.query,
        authoritative: true,
        code: 0,
        size: answer.size,
        answers: left,
        authorities: &[],
        glue: &[],
        additionals: &[],
    };
    match write_front(alloc, out, &response, answer.limit) {
        Ok(count) => Ok(count),
        Err(WriteError::Memory) => Err(DifferenceFault::Memory),
        Err(WriteError::Unwritable) => Err(DifferenceFault::Unsendable),
        // Its code has twelve bits, and header, question and OPT record find room.
        Err(WriteError::BadCode) => unreachable!(),
        Err(WriteError::NoRoom) => unreachable!(),
    }
}
