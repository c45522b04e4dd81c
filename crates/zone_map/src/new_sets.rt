//! Record sets that are to be put into a record map.
ghost use Rattle.std.specs.Prelude.{◌≡◌, ◌↔◌, ℕ, [], IsTrue, IfOk, IsOkUnless};
ghost use Rattle.std.specs.BTreeMap.{IsFromIterResult};
ghost use Rattle.std.specs.Map.{keys_of};
ghost use Rattle.zone_proto.specs.Keys.{key_cmp};
ghost use Rattle.zone_proto.specs.Names.{Name};
ghost use Rattle.zone_map.specs.Zones.{set_at, last_at, AreStored, IsZone};

use crate::keys_ahead::KeysAhead;
use std::alloc::{AllocError, Global};
use std::collections::BTreeMap;
use std::marker::Model;
use zone_frozen::SetRange;
use zone_proto::{ProtoError, RecordSet, RrKey};

/// Record sets by their keys, to be put into a record map together. They have no index: that of the map tells of them once they
/// are there.
#[derive(Drop)]
pub struct NewSets {
    sets: BTreeMap<RrKey, RecordSet>,
}

impl Model for NewSets {
    ghost use Rattle.zone_map.specs.Zones.{Sets, IsZone};

    ghost Value = { Sets };

    ghost view = { λ n. n.sets.entries };

    ghost invariant = { λ n. IsZone n.sets.entries };
}

impl NewSets {
    /// No sets. Doesn't allocate.
    pub fn new(alloc: Global) -> NewSets
        ensures { result ≡ [] }
    {
        NewSets {
            sets: BTreeMap::new(alloc),
        }
    }

    /// These sets by their keys, of which the last stays where some have one key. Fails only for lack of memory.
    pub fn from_entries(
        alloc: Global,
        entries: Vec<(RrKey, RecordSet)>,
    ) -> Result<NewSets, ProtoError>
        requires { AreStored entries.items }
        ensures ok { IfOk result
            (λ map. (n : Name) (t : ℕ) → set_at map n t ≡ last_at entries.items n t) }
        ensures err { IsOkUnless result ProtoError.Memory }
    {
        let sets = collect_entries(alloc, entries)?;
        Ok(NewSets { sets })
    }

    /// The keys, for a pass beside other keys that ascend too, which tells which of those are among them. Doesn't
    /// allocate.
    pub fn keys_ahead(&self) -> KeysAhead<'_>
        ensures { result ≡ keys_of self.now }
    {
        KeysAhead::new(SetRange::of_map(&self.sets))
    }

    /// Whether there are no sets. Doesn't allocate.
    pub fn is_empty(&self) -> bool
        ensures { IsTrue result ↔ (self.now ≡ []) }
    {
        self.sets.is_empty()
    }

    /// The map of the sets.
    pub(crate) fn into_map(self) -> BTreeMap<RrKey, RecordSet>
        ensures entries { result.entries ≡ self }
        ensures zone { IsZone self }
    {
        let NewSets { sets } = self;
        sets
    }
}

/// The map of these sets by their keys.
pub(crate) fn collect_entries(
    alloc: Global,
    entries: Vec<(RrKey, RecordSet)>,
) -> Result<BTreeMap<RrKey, RecordSet>, AllocError>
    ensures { IfOk result (λ sets. IsFromIterResult key_cmp entries.items sets) }
{
    entries.into_iter().collect(alloc)
}
