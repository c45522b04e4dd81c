//! A zone that is being sent.
ghost use Rattle.transfer_messages.specs.Sending.{GoesOn, Plans};

use crate::place::Place;
use crate::sealing::{Sealing, seal_whole};
use crate::transfer::{Transfer, TransferFault, write_message};
use message_reading::Query;
use std::alloc::{AllocError, Global};
use zone_map::SetMap;
use zone_proto::{RecordSet, ResponseCode};
use zone_server::{DATAGRAM_SIZE, send_code};

/// How many octets a message has at most before it is signed: 65,535 without the 358 that a TSIG has at most.
pub const ROOM: u16 = 65_177;

/// A zone that is being sent as the response to a query, without the zone.
#[derive(Drop)]
pub struct OpenTransfer {
    /// The query.
    pub query: Query,
    /// Where the next message begins.
    pub place: Place,
    /// How the messages are signed, if the request was.
    pub sealing: Option<Sealing>,
    /// Whether a record couldn't be sent, so that no further message comes.
    pub is_broken_off: bool,
}

/// What comes next.
#[derive(Drop)]
pub(crate) enum Planned {
    /// Nothing.
    End,
    /// A message, behind which the next one begins at this place.
    Next(Place),
    /// A message of `ServFail`, with which the transfer is broken off.
    BreakOff,
}

impl OpenTransfer {
    /// Makes the next message in place of the octets of `out`, at a moment in seconds since 1970, and says whether there is one. The zone is
    /// the one with which the transfer began: its SOA set and all its sets.
    ///
    /// The messages together have the records of the SOA, of all sets in the order of their keys, each with its signatures, and of the SOA
    /// again (RFC 5936 section 2.2); each is signed, if the request was, the first with the MAC of the request, and each further one with
    /// that of the message before (RFC 8945 section 5.3.1). Where a record can't be sent, a message of `ServFail` is the last one.
    ///
    /// Fails only for lack of memory, and then the transfer is where it was.
    pub fn next(
        &mut self,
        alloc: Global,
        soa: &RecordSet,
        sets: &SetMap,
        now: u64,
        out: &mut Vec<u8>,
    ) -> Result<bool, AllocError>
        ensures { GoesOn soa.now sets.now now self.old self.new out.new.items result }
    {
        match self.plan(alloc, soa, sets, out)? {
            Planned::End => Ok(false),
            Planned::Next(next) => {
                seal_whole(alloc, &mut self.sealing, now, out)?;
                self.place = next;
                Ok(true)
            }
            Planned::BreakOff => {
                seal_whole(alloc, &mut self.sealing, now, out)?;
                self.is_broken_off = true;
                Ok(true)
            }
        }
    }

    /// Writes the next message as it is before it is signed, in place of the octets of `out`.
    fn plan(
        &self,
        alloc: Global,
        soa: &RecordSet,
        sets: &SetMap,
        out: &mut Vec<u8>,
    ) -> Result<Planned, AllocError>
        ensures { Plans soa.now sets.now self.now out.new.items result }
    {
        if self.is_broken_off {
            out.clear();
            return Ok(Planned::End);
        }
        let transfer = Transfer {
            query: &self.query,
            soa,
            sets,
            size: DATAGRAM_SIZE,
            limit: ROOM,
        };
        match write_message(alloc, &transfer, &self.place, out) {
            Ok(Some(next)) => Ok(Planned::Next(next)),
            Ok(None) => Ok(Planned::End),
            Err(TransferFault::Unsendable) => {
                send_code(alloc, out, &self.query, ResponseCode::ServFail, ROOM)?;
                Ok(Planned::BreakOff)
            }
            Err(TransferFault::Memory) => Err(AllocError),
        }
    }
}
