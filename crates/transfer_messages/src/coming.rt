//! The records that come next.
ghost use Rattle.std.specs.Prelude.{◌≡◌, ◌+◌, ◌-◌, ◌++◌, [], drop, length, map, IfOk, OnOk};
ghost use Rattle.message_writing.specs.Responses.{records_of, records_together, with_ttl};
ghost use Rattle.transfer_messages.specs.Gathering.{Gathers};
ghost use Rattle.transfer_messages.specs.Transfers.{left_at, sets_records};
ghost use Rattle.zone_server.specs.Transfers.{soa_alone};

use crate::ahead::sets_ahead;
use crate::place::Place;
use crate::transfer::Transfer;
use message_writing::Group;
use std::alloc::{AllocError, Global};
use zone_map::SetRange;
use zone_proto::{Record, RecordSet};
use zone_server::transfer_records::{between, push_singles, soa_alone};

/// How many records are looked at for one message. In 65,535 octets there is mostly no room for as many.
const MOST: usize = 4_096;

/// The records that come next, each by itself: all that are left, or the first of them where they are many.
pub(crate) fn coming<'z>(
    alloc: Global,
    transfer: &Transfer<'z>,
    place: &Place,
) -> Result<Vec<Group<'z>>, AllocError>
    ensures { IfOk result (λ groups. Gathers [] groups.items
        (left_at transfer.now.soa.now transfer.now.sets.now place.now) []) }
{
    let (soa, sets) = (transfer.soa, transfer.sets);
    let mut groups = Vec::new(alloc);
    match place {
        Place::Opening(sent) => {
            let skip = push_group(&mut groups, *sent, soa_alone(soa))?;
            push_sets(&mut groups, skip, sets_ahead(sets, None), soa)?;
        }
        Place::Set(key, sent) => push_sets(&mut groups, *sent, sets_ahead(sets, Some(key)), soa)?,
        Place::Closing(sent) => {
            push_group(&mut groups, *sent, soa_alone(soa))?;
        }
    }
    Ok(groups)
}

/// Appends records of some sets and of the SOA behind these, each by itself, without the first ones.
fn push_sets<'z>(
    groups: &mut Vec<Group<'z>>,
    passed: usize,
    sets: SetRange<'z>,
    soa: &'z RecordSet,
) -> Result<(), AllocError>
    ensures { OnOk result (Gathers groups.old.items groups.new.items
        (drop passed (sets_records sets.entry ++ records_together (soa_alone soa.now))) []) }
{
    let mut skip = passed;
    for (_, set) in sets {
        if groups.len() >= MOST {
            return Ok(());
        }
        skip = push_group(groups, skip, between(set))?;
    }
    push_group(groups, skip, soa_alone(soa))?;
    Ok(())
}

/// Appends the records of a group, each by itself, without the first ones, and gives how many of these are behind it.
fn push_group<'z>(
    groups: &mut Vec<Group<'z>>,
    skip: usize,
    group: Group<'z>,
) -> Result<usize, AllocError>
    ensures taken { OnOk result (Gathers groups.old.items groups.new.items
        (drop skip (records_of group.entry)) []) }
    ensures behind { IfOk result (λ behind. behind ≡ skip - length (records_of group.entry)) }
{
    let behind = push_records(groups, skip, group.records, group.ttl)?;
    let behind = push_records(groups, behind, group.signatures, group.ttl)?;
    Ok(behind)
}

/// The same of records with a TTL.
fn push_records<'z>(
    groups: &mut Vec<Group<'z>>,
    skip: usize,
    records: &'z [Record],
    ttl: u32,
) -> Result<usize, AllocError>
    ensures taken { OnOk result (Gathers groups.old.items groups.new.items
        (drop skip (map (with_ttl ttl) records.now)) []) }
    ensures behind { IfOk result (λ behind. behind ≡ skip - length records.now) }
{
    let start = skip.min(records.len());
    let (_, rest) = records.split_at(start);
    let room = MOST.saturating_sub(groups.len());
    let (first, _) = rest.split_at(room.min(rest.len()));
    push_singles(groups, first, ttl)?;
    Ok(skip - start)
}
