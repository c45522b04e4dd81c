//! The messages of a transfer.
ghost use Rattle.std.specs.Prelude.{◌≡◌, ◌≤◌, []};
ghost use Rattle.transfer_messages.specs.Gathering.{Gathers};
ghost use Rattle.transfer_messages.specs.Messages.{left_of, transfer_of, Goes, WritesMessage};

use crate::advancing::advance;
use crate::coming::coming;
use crate::place::Place;
use message_reading::Query;
use message_writing::{Group, Response, WriteError, write_front};
use std::alloc::{AllocError, Global};
use zone_map::SetMap;
use zone_proto::RecordSet;

/// A zone that is sent whole, as the response to a query.
#[derive(Clone, Copy)]
pub struct Transfer<'z> {
    /// The query.
    pub query: &'z Query,
    /// The SOA set of the zone.
    pub soa: &'z RecordSet,
    /// All sets of the zone.
    pub sets: &'z SetMap,
    /// How many octets the server takes in one datagram, for the OPT record (RFC 6891 section 6.2.3).
    pub size: u16,
    /// How many octets a message may have: 282 at least.
    pub limit: u16,
}

/// Why a transfer can't go on.
#[derive(Clone, Copy, PartialEq, Eq, Debug)]
pub enum TransferFault {
    /// A record can't be sent: no octets are its data, or no message has room for it.
    Unsendable,
    /// No memory was found.
    Memory,
}

/// Want of memory is `Memory`.
impl From<AllocError> for TransferFault {
    ghost use Rattle.transfer_messages.specs.declared.transfer.TransferFault.TheVariants.{Memory};

    ghost from_gives = { λ _ e. e ≡ Memory };

    fn from(_: AllocError) -> TransferFault {
        TransferFault::Memory
    }
}

/// Writes the next message of a transfer, from a place on, in place of the octets of `out`, and gives the place behind its records: as many
/// of those that are left as it has room for, up to 4,096. None where no records are left; there are no octets then.
///
/// The records of a transfer are those of the SOA, of all sets in the order of their keys, each with its signatures, and of the SOA again
/// (RFC 5936 section 2.2). Each message has the question and AA; an OPT record if and only if the query has one.
///
/// # Errors
///
/// `Unsendable` where one of the records that are left can't be sent, and `Memory`.
pub fn write_message(
    alloc: Global,
    transfer: &Transfer<'_>,
    place: &Place,
    out: &mut Vec<u8>,
) -> Result<Option<Place>, TransferFault>
    requires { 282 ≤ transfer.now.limit }
    ensures { Goes (transfer_of transfer.now) place.now out.new.items result }
{
    let groups = coming(alloc, transfer, place)?;
    write_gathered(alloc, transfer, groups.as_slice(), place, out)
}

/// The same where the records that come next were gathered.
fn write_gathered(
    alloc: Global,
    transfer: &Transfer<'_>,
    groups: &[Group<'_>],
    place: &Place,
    out: &mut Vec<u8>,
) -> Result<Option<Place>, TransferFault>
    requires limit { 282 ≤ transfer.now.limit }
    requires gathered { Gathers [] groups.now (left_of (transfer_of transfer.now) place.now) [] }
    ensures { Goes (transfer_of transfer.now) place.now out.new.items result }
{
    if groups.is_empty() {
        out.clear();
        return Ok(None);
    }
    let count = write_first(alloc, transfer, groups, out)?;
    if count == 0 {
        return Err(TransferFault::Unsendable);
    }
    match advance(transfer, place, count) {
        Ok(next) => Ok(Some(next)),
        Err(_) => Err(TransferFault::Memory),
    }
}

/// Writes a message of as many of the first groups as it has room for, in place of the octets of `out`, and gives how many.
fn write_first(
    alloc: Global,
    transfer: &Transfer<'_>,
    groups: &[Group<'_>],
    out: &mut Vec<u8>,
) -> Result<usize, TransferFault>
    requires { 282 ≤ transfer.now.limit }
    ensures { WritesMessage (transfer_of transfer.now) groups.now out.new.items result }
{
    let response = Response {
        query: transfer.query,
        authoritative: true,
        code: 0,
        size: transfer.size,
        answers: groups,
        authorities: &[],
        glue: &[],
        additionals: &[],
    };
    match write_front(alloc, out, &response, transfer.limit) {
        Ok(count) => Ok(count),
        Err(WriteError::Memory) => Err(TransferFault::Memory),
        Err(WriteError::Unwritable) => Err(TransferFault::Unsendable),
        // Its code has twelve bits, and header, question and OPT record find room.
        Err(WriteError::BadCode) => unreachable!(),
        Err(WriteError::NoRoom) => unreachable!(),
    }
}
