//! The owners of the sets of denial in the record map.
ghost use Rattle.std.specs.Prelude.{◌≡◌, [], Some, IsTrue, IfSome};
ghost use Rattle.std.specs.List.{list_any};
ghost use Rattle.zone_proto.specs.Names.{is_at_or_above};
ghost use Rattle.zone_map.specs.DenialOwners.{denial_owners, denial_owners_upto, denial_owners_before, owners_upto, IsLastOf};
ghost use Rattle.zone_map.specs.Zones.{set_at, owners, IsZone};

use crate::denial_owners::{DenialOwners, LastOwners};
use crate::record_map::RecordMap;
use zone_proto::{LowerName, RecordSet, RecordType, RrKey};

impl RecordMap {
    /// Whether there is no set of a type, if that is NSEC or NSEC3; of other types it isn't told, and the answer is no.
    /// Doesn't allocate.
    pub fn is_without(&self, record_type: RecordType) -> bool
        ensures { IsTrue result → owners self.now record_type.0 ≡ [] }
    {
        match self.index.denials().owners(record_type) {
            Some(owners) => owners.is_empty(),
            None => false,
        }
    }

    /// The owners of the sets of a type, in canonical order, if that is NSEC or NSEC3; none for other types. Doesn't
    /// allocate.
    pub fn denial_owners(&self, record_type: RecordType) -> DenialOwners<'_>
        ensures { result ≡ denial_owners self.now record_type.0 }
    {
        match self.index.denials().owners(record_type) {
            Some(owners) => DenialOwners::new(Some(owners.iter())),
            None => DenialOwners::new(None),
        }
    }

    /// Those of these owners that are at or before a name, to be read from the last one back. Doesn't allocate.
    pub fn denial_owners_upto(&self, record_type: RecordType, name: &LowerName) -> LastOwners<'_>
        ensures value { result ≡ denial_owners_upto self.now record_type.0 name.now }
        ensures zone { IsZone self.now }
    {
        match self.index.denials().owners(record_type) {
            Some(owners) => LastOwners::new(Some(owners.range(..=name))),
            None => LastOwners::new(None),
        }
    }

    /// Those that come before a name, to be read from the last one back. Doesn't allocate.
    pub fn denial_owners_before(&self, record_type: RecordType, name: &LowerName) -> LastOwners<'_>
        ensures value { result ≡ denial_owners_before self.now record_type.0 name.now }
        ensures zone { IsZone self.now }
    {
        match self.index.denials().owners(record_type) {
            Some(owners) => LastOwners::new(Some(owners.range(..name))),
            None => LastOwners::new(None),
        }
    }

    /// All of them, to be read from the last one back. Doesn't allocate.
    pub fn last_denial_owners(&self, record_type: RecordType) -> LastOwners<'_>
        ensures value { result ≡ denial_owners self.now record_type.0 }
        ensures zone { IsZone self.now }
    {
        match self.index.denials().owners(record_type) {
            Some(owners) => LastOwners::new(Some(owners.range(..))),
            None => LastOwners::new(None),
        }
    }

    /// The owner and the set of the last key that isn't after this one, if it is of the same type: then no owner of the
    /// type stands between it and the key's name. None tells nothing of owners further back. Doesn't allocate.
    pub fn last_of_type_upto(&self, key: &RrKey) -> Option<(&LowerName, &RecordSet)>
        ensures last { IfSome result
            (λ last. IsLastOf last.0.now
            (owners_upto self.now key.now.record_type.0 key.now.name)) }
        ensures set { IfSome result
            (λ last. set_at self.now last.0.now key.now.record_type.0 ≡ Some last.1.now) }
        ensures zone { IsZone self.now }
    {
        let (last, set) = self.sets.last_upto(key)?;
        if last.record_type != key.record_type {
            return None;
        }
        Some((&last.name, set))
    }

    /// Whether a name, or a name below it, owns a set of a type, if that is NSEC or NSEC3; no for other types. One
    /// owner is looked at, the first of the type that isn't before the name: the names below a name stand together.
    /// Doesn't allocate.
    pub fn owns_denial_at_or_below(&self, record_type: RecordType, name: &LowerName) -> bool
        ensures { result
            ≡ list_any (is_at_or_above name.now) (denial_owners self.now record_type.0) }
    {
        let Some(owners) = self.index.denials().owners(record_type) else {
            return false;
        };
        match owners.range(name..).next() {
            Some(first) => name.zone_of(first),
            None => false,
        }
    }
}
