//! The place behind further records.
ghost use Rattle.std.specs.Prelude.{◌≡◌, ◌+◌, ◌++◌, drop, length, option_copied, IfOk};
ghost use Rattle.message_writing.specs.Responses.{records_of, records_together};
ghost use Rattle.transfer_messages.specs.Advancing.{Passes};
ghost use Rattle.transfer_messages.specs.Transfers.{ahead_of, left_at, sets_records};
ghost use Rattle.zone_server.specs.Transfers.{soa_alone};

use crate::ahead::sets_ahead;
use crate::place::Place;
use crate::transfer::Transfer;
use message_writing::Group;
use zone_proto::{ProtoError, RrKey};
use zone_server::transfer_records::{between, soa_alone};

/// Where the passing of records ends.
#[derive(Clone, Copy, PartialEq, Eq, Debug)]
pub(crate) enum Passing {
    /// In a group, behind so many of its records.
    Here(usize),
    /// Behind it, where so many and so many are to be passed still.
    Behind(usize, usize),
}

/// The place behind so many records from a place on. Fails only for lack of memory.
pub(crate) fn advance(
    transfer: &Transfer<'_>,
    place: &Place,
    count: usize,
) -> Result<Place, ProtoError>
    ensures { IfOk result (λ next.
        left_at transfer.now.soa.now transfer.now.sets.now next
        ≡ drop count (left_at transfer.now.soa.now transfer.now.sets.now place.now)) }
{
    match place {
        Place::Opening(sent) => match pass(*sent, count, &soa_alone(transfer.soa)) {
            Passing::Here(sent) => Ok(Place::Opening(sent)),
            Passing::Behind(sent, count) => advance_in(transfer, None, sent, count),
        },
        Place::Set(key, sent) => advance_in(transfer, Some(key), *sent, count),
        Place::Closing(sent) => Ok(advance_last(transfer, *sent, count)),
    }
}

/// The place behind so many and so many of the records of the sets from a key on, and of the SOA behind these.
fn advance_in(
    transfer: &Transfer<'_>,
    from: Option<&RrKey>,
    passed: usize,
    further: usize,
) -> Result<Place, ProtoError>
    ensures { IfOk result (λ next.
        left_at transfer.now.soa.now transfer.now.sets.now next
        ≡ drop further (drop passed
        (sets_records (ahead_of transfer.now.sets.now (option_copied from.entry))
        ++ records_together (soa_alone transfer.now.soa.now)))) }
{
    let (mut sent, mut count) = (passed, further);
    for (key, set) in sets_ahead(transfer.sets, from) {
        match pass(sent, count, &between(set)) {
            Passing::Here(here) => return Ok(Place::Set(key.clone()?, here)),
            Passing::Behind(sent_behind, count_behind) => {
                sent = sent_behind;
                count = count_behind;
            }
        }
    }
    Ok(advance_last(transfer, sent, count))
}

/// The place behind so many and so many of the records with which a transfer ends.
fn advance_last(transfer: &Transfer<'_>, sent: usize, count: usize) -> Place
    ensures { left_at transfer.now.soa.now transfer.now.sets.now result
        ≡ drop count (drop sent (records_together (soa_alone transfer.now.soa.now))) }
{
    let last = soa_alone(transfer.soa);
    match pass(sent, count, &last) {
        Passing::Here(here) => Place::Closing(here),
        Passing::Behind(..) => Place::Closing(size_of(&last)),
    }
}

/// Passes so many and so many records, from the beginning of a group on.
fn pass(sent: usize, count: usize, group: &Group<'_>) -> Passing
    ensures { Passes sent count (length (records_of group.now)) result }
{
    let size = size_of(group);
    let passed = sent.min(size);
    if count < size - passed {
        return Passing::Here(passed + count);
    }
    Passing::Behind(sent - passed, count - (size - passed))
}

/// How many records a group has.
fn size_of(group: &Group<'_>) -> usize
    ensures { result ≡ length (records_of group.now) }
{
    group.records.len() + group.signatures.len()
}
