//! The index of the owners of sets of denial.
ghost use Rattle.std.specs.Prelude.{◌≡◌, [], IfOk, OnOk, OnErr, IsOkUnless, option_map};
ghost use Rattle.std.specs.BTreeMap.{insert_entry};
ghost use Rattle.std.specs.BTreeSet.{insert_key, IsFromIterResult};
ghost use Rattle.std.specs.List.Sorted.{IsStrictlySortedBy};
ghost use Rattle.std.specs.Map.{remove_entry, keys_of};
ghost use Rattle.zone_proto.specs.Keys.{key_cmp, key_eq};
ghost use Rattle.zone_proto.specs.Names.{name_cmp};
ghost use Rattle.zone_proto.specs.Sets.{RRset};
ghost use Rattle.zone_proto.specs.Types.{NSEC, NSEC3};
ghost use Rattle.zone_map.specs.DenialOwners.{owners_of, indexed_owners, none_deny};
ghost use Rattle.zone_map.specs.Zones.{Sets, owners, IsZone};

use std::alloc::{AllocError, Global};
use std::collections::BTreeSet;
use std::marker::Model;
use zone_frozen::SetMap;
use zone_proto::{LowerName, ProtoError, RecordType, RrKey};

/// The owners of the sets of either type of denial, in canonical order, kept beside the sets: the closest one to a name is found
/// without a pass over the sets between them.
#[derive(Drop)]
pub(crate) struct DenialIndex {
    nsec: BTreeSet<LowerName>,
    nsec3: BTreeSet<LowerName>,
}

impl Model for DenialIndex {
    ghost use Rattle.zone_map.specs.DenialOwners.{Owners};

    ghost Value = { Owners };

    ghost view = { λ index. record { nsec = index.nsec.keys; nsec3 = index.nsec3.keys } };
}

impl DenialIndex {
    /// No owners. Doesn't allocate.
    pub(crate) fn new(alloc: Global) -> DenialIndex
        ensures { result ≡ owners_of [] }
    {
        DenialIndex {
            nsec: BTreeSet::new(alloc),
            nsec3: BTreeSet::new(alloc),
        }
    }

    /// The owners in a map. Fails only for lack of memory.
    pub(crate) fn of_map(alloc: Global, sets: &SetMap) -> Result<DenialIndex, ProtoError>
        ensures ok { IfOk result (λ index. index ≡ owners_of sets.now) }
        ensures err { IsOkUnless result ProtoError.Memory }
    {
        let (nsec, nsec3) = listed_owners(alloc, sets)?;
        Ok(DenialIndex {
            nsec: collect_names(alloc, nsec)?,
            nsec3: collect_names(alloc, nsec3)?,
        })
    }

    /// Takes in the owner of a key that is put into the map. Fails only for lack of memory, which changes nothing.
    pub(crate) fn insert(&mut self, key: &RrKey) -> Result<(), ProtoError>
        ensures ok { OnOk result
            ((m : Sets) (set : RRset) → IsZone m → self.old ≡ owners_of m
            → self.new ≡ owners_of (insert_entry key_cmp m key.now set)) }
        ensures err { IsOkUnless result ProtoError.Memory }
        ensures same { OnErr result (self.new ≡ self.old) }
    {
        if key.record_type == RecordType::NSEC {
            insert_owner(&mut self.nsec, &key.name)
        } else if key.record_type == RecordType::NSEC3 {
            insert_owner(&mut self.nsec3, &key.name)
        } else {
            Ok(())
        }
    }

    /// Takes out the owner of a key that is taken out of the map. Doesn't allocate.
    pub(crate) fn remove(&mut self, key: &RrKey)
        ensures { (m : Sets) → self.old ≡ owners_of m
            → self.new ≡ owners_of (remove_entry (key_eq key.now) m) }
    {
        if key.record_type == RecordType::NSEC {
            self.nsec.remove(&key.name);
        } else if key.record_type == RecordType::NSEC3 {
            self.nsec3.remove(&key.name);
        }
    }

    /// Takes all owners out. Doesn't allocate.
    pub(crate) fn clear(&mut self)
        ensures { self.new ≡ owners_of [] }
    {
        self.nsec.clear();
        self.nsec3.clear();
    }

    /// Whether there are none. Doesn't allocate.
    pub(crate) fn is_empty(&self) -> bool
        ensures { result ≡ none_deny self.now }
    {
        self.nsec.is_empty() && self.nsec3.is_empty()
    }

    /// The owners of the sets of a type, if it is one of denial.
    pub(crate) fn owners(&self, record_type: RecordType) -> Option<&BTreeSet<LowerName>>
        ensures { (m : Sets) → self.now ≡ owners_of m
            → option_map (λ set. set.now.keys) result
            ≡ indexed_owners m record_type.0 }
    {
        match record_type {
            RecordType::NSEC => Some(&self.nsec),
            RecordType::NSEC3 => Some(&self.nsec3),
            _ => None,
        }
    }
}

/// The owners of the NSEC sets in a map and those of the NSEC3 sets, in one pass.
fn listed_owners(
    alloc: Global,
    sets: &SetMap,
) -> Result<(Vec<LowerName>, Vec<LowerName>), ProtoError>
    ensures nsec { IfOk result (λ listed. listed.0.items ≡ owners sets.now NSEC) }
    ensures nsec3 { IfOk result (λ listed. listed.1.items ≡ owners sets.now NSEC3) }
    ensures ordered { IsStrictlySortedBy key_cmp (keys_of sets.now) }
    ensures err { IsOkUnless result ProtoError.Memory }
{
    let mut nsec = Vec::new(alloc);
    let mut nsec3 = Vec::new(alloc);
    for (key, _) in sets.iter() {
        if key.record_type == RecordType::NSEC {
            nsec.push(key.name.clone()?)?;
        } else if key.record_type == RecordType::NSEC3 {
            nsec3.push(key.name.clone()?)?;
        }
    }
    Ok((nsec, nsec3))
}

/// These names, each once, in canonical order.
pub(crate) fn collect_names(
    alloc: Global,
    names: Vec<LowerName>,
) -> Result<BTreeSet<LowerName>, AllocError>
    ensures { IfOk result (λ made. IsFromIterResult name_cmp names.items made) }
{
    names.into_iter().collect(alloc)
}

/// Puts an owner among others.
pub(crate) fn insert_owner(
    owners: &mut BTreeSet<LowerName>,
    owner: &LowerName,
) -> Result<(), ProtoError>
    ensures ok { OnOk result (owners.new.keys ≡ insert_key name_cmp owners.old.keys owner.now) }
    ensures err { IsOkUnless result ProtoError.Memory }
    ensures same { OnErr result (owners.new.keys ≡ owners.old.keys) }
{
    match owners.insert(owner.clone()?) {
        Ok(_) => Ok(()),
        Err(_) => Err(ProtoError::Memory),
    }
}
