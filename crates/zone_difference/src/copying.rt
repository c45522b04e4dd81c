//! A copy of the sets of a zone.
ghost use Rattle.std.specs.Prelude.{◌≡◌, IfOk, OnOk, IsOkUnless};
ghost use Rattle.zone_map.specs.Zones.{AreStored};

use std::alloc::Global;
use zone_map::{NewSets, RecordMap};
use zone_proto::{ProtoError, RecordSet, RrKey};

/// A copy of the sets of a zone, with their signatures. Refused by `Memory` alone.
pub fn copied(alloc: Global, zone: &RecordMap) -> Result<RecordMap, ProtoError>
    ensures copy { IfOk result (λ copy. copy ≡ zone.now) }
    ensures err { IsOkUnless result ProtoError.Memory }
{
    let _count = zone.len();
    let entries = entries_of(alloc, zone)?;
    RecordMap::from_sets(alloc, NewSets::from_entries(alloc, entries)?)
}

/// Copies of the sets by their keys, in order.
fn entries_of(alloc: Global, zone: &RecordMap) -> Result<Vec<(RrKey, RecordSet)>, ProtoError>
    ensures ok { IfOk result (λ entries. entries.items ≡ zone.now) }
    ensures stored { OnOk result (AreStored zone.now) }
    ensures err { IsOkUnless result ProtoError.Memory }
{
    let mut entries = Vec::with_capacity(alloc, zone.len())?;
    for (key, set) in zone.iter() {
        entries.push((key.clone()?, set.clone()?))?;
    }
    Ok(entries)
}
