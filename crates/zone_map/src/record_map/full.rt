//! Record maps whose nodes are full.
ghost use Rattle.std.specs.Prelude.{◌≡◌, IfOk, IsOkUnless};
ghost use Rattle.std.specs.List.Sorted.{IsStrictlySortedBy};
ghost use Rattle.std.specs.Map.{keys_of};
ghost use Rattle.zone_proto.specs.Keys.{key_cmp};
ghost use Rattle.zone_map.specs.Zones.{AreStored, IsZone};

use crate::new_sets::NewSets;
use crate::owner_index::OwnerIndex;
use crate::record_map::RecordMap;
use std::alloc::Global;
use zone_frozen::SetMap;
use zone_proto::{ProtoError, RecordSet, RrKey};

impl RecordMap {
    /// The map of these sets. Its nodes are full, where those of a map that is filled one set after the other, in the
    /// order of the keys, are half full. Fails only for lack of memory.
    pub fn from_sets(alloc: Global, sets: NewSets) -> Result<RecordMap, ProtoError>
        ensures ok { IfOk result (λ map. map ≡ sets) }
        ensures zone { IsZone sets }
        ensures err { IsOkUnless result ProtoError.Memory }
    {
        RecordMap::with_index(alloc, SetMap::of_map(sets.into_map()))
    }

    /// The map of the sets of a list in the order of their keys, which stay in that list until others are put in. Fails only
    /// for lack of memory.
    pub fn from_rows(alloc: Global, rows: Vec<(RrKey, RecordSet)>) -> Result<RecordMap, ProtoError>
        requires ordered { IsStrictlySortedBy key_cmp (keys_of rows.items) }
        requires stored { AreStored rows.items }
        ensures ok { IfOk result (λ map. map ≡ rows.items) }
        ensures zone { IsZone rows.items }
        ensures err { IsOkUnless result ProtoError.Memory }
    {
        RecordMap::with_index(alloc, SetMap::of_rows(alloc, rows)?)
    }

    /// The same map with full nodes, for one that was filled in the order of the keys. While it is made, a list of its
    /// sets is beside it. Fails only for lack of memory.
    pub fn compacted(self, alloc: Global) -> Result<RecordMap, ProtoError>
        ensures ok { IfOk result (λ map. map ≡ self) }
        ensures err { IsOkUnless result ProtoError.Memory }
    {
        let RecordMap { sets, index } = self;
        // What it takes is free for the nodes then.
        drop(index);
        RecordMap::with_index(alloc, sets.compacted(alloc)?)
    }

    /// The map of these sets and the index of their owners.
    fn with_index(alloc: Global, sets: SetMap) -> Result<RecordMap, ProtoError>
        requires { IsZone sets }
        ensures ok { IfOk result (λ map. map ≡ sets) }
        ensures err { IsOkUnless result ProtoError.Memory }
    {
        let index = OwnerIndex::of_map(alloc, &sets)?;
        Ok(RecordMap { sets, index })
    }
}
