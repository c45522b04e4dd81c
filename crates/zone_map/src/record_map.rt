//! The record sets of a zone in canonical order, and the index of their owners.
ghost use Rattle.std.specs.Prelude.{◌≡◌, ℕ, ◌+◌, ◌<◌, ◌≤◌, [], true, false, IfOk, IfErr, OnOk, OnErr, IfSome, IsOkUnless, None, Some, unwrap_or, option_copied};
ghost use Rattle.zone_proto.specs.Keys.{key as key_at};
ghost use Rattle.zone_proto.specs.Names.{lower, IsName};
ghost use Rattle.zone_proto.specs.Data.{type_of};
ghost use Rattle.zone_proto.specs.Sets.{inserted, empty_set};
ghost use Rattle.zone_proto.specs.Results.{IsInsertion};
ghost use Rattle.zone_map.specs.AnyTypes.{is_preferred, any_type};
ghost use Rattle.zone_map.specs.Counts.{one_more_if};
ghost use Rattle.zone_map.specs.Zones.{set_at, has_key_from, owns, owns_at_or_below, put, without, IsStoredAt, IsZone};
ghost use Rattle.zone_map.specs.Wildcards.{exists};
ghost use Rattle.zone_map.specs.Upserts.{upserted, with_record, clash, clashes, is_denial_type, CnamesStandAlone};

mod denials;
mod entries;
mod full;
mod puts;
mod renewal;
mod replacing;
mod serials;

use crate::counter::Reads;
use crate::owner_index::OwnerIndex;
pub use puts::Replaced;
use std::alloc::Global;
use std::marker::Model;
use zone_frozen::SetMap;
use zone_proto::{DNSClass, LowerName, ProtoError, Record, RecordSet, RecordType, RrKey};

/// The record sets of a zone by their keys, and an index of the owners of its sets of denial and, if it has any, of the owners of its
/// other sets.
#[derive(Drop)]
pub struct RecordMap {
    sets: SetMap,
    index: OwnerIndex,
}

impl Model for RecordMap {
    ghost use Rattle.zone_map.specs.DenialOwners.{IsIndexed};
    ghost use Rattle.zone_map.specs.Zones.{Sets};

    ghost Value = { Sets };

    ghost view = { λ m. m.sets };

    ghost invariant = { λ m. IsIndexed m.sets m.index };
}

/// What a name's first keys say of a record that is to be inserted there.
#[derive(Clone, Copy, Drop)]
struct Standing {
    /// Whether the name owns a type that may not are beside the record's.
    clashes: bool,
    /// Whether the name may own the record's type: a key that wasn't read may have it.
    may_be_there: bool,
}

impl RecordMap {
    /// No record sets. What is put in later takes its memory from `alloc`; this takes none.
    pub fn new(alloc: Global) -> RecordMap
        ensures { result ≡ [] }
    {
        RecordMap {
            sets: SetMap::new(alloc),
            index: OwnerIndex::new(alloc),
        }
    }

    /// The sets by their keys, in the order of the keys: names in canonical order (RFC 4034 section 6.1), and of one name
    /// the types in order.
    pub fn as_map(&self) -> &SetMap
        ensures entries { result.now ≡ self.now }
        ensures zone { IsZone self.now }
    {
        &self.sets
    }

    /// The set under a key, if there is one.
    pub fn get(&self, key: &RrKey) -> Option<&RecordSet>
        ensures found { option_copied result ≡ set_at self.now key.now.name key.now.record_type.0 }
        ensures stored { IfSome result
            (λ set. IsStoredAt key.now.name key.now.record_type.0 set.now) }
    {
        self.sets.get(key)
    }
}

impl RecordMap {
    /// Stores a set under its own key, in lower case, and gives the one that was there. Fails only for lack of memory,
    /// which hands the set back and leaves the map as it was.
    pub fn put(&mut self, key: RrKey, set: RecordSet) -> Result<Option<RecordSet>, RecordSet>
        requires { IsStoredAt key.name key.record_type.0 set }
        ensures before { IfOk result
            (λ before. before ≡ set_at self.old key.name key.record_type.0) }
        ensures stored { OnOk result (self.new ≡ put self.old key.name key.record_type.0 set) }
        ensures refused { IfErr result (λ refused. refused ≡ set) }
        ensures same { OnErr result (self.new ≡ self.old) }
    {
        // Its place in the index comes first: to give that back doesn't allocate.
        let Ok(()) = self.index.insert(&key, &self.sets) else {
            return Err(set);
        };
        match self.sets.insert(key, set) {
            Ok(before) => Ok(before),
            Err((key, set)) => {
                self.index.remove(key, &self.sets);
                Err(set)
            }
        }
    }

    /// Takes the set out that is under a key, and gives it. This doesn't allocate.
    pub fn remove(&mut self, key: &RrKey) -> Option<RecordSet>
        ensures before { result ≡ set_at self.old key.now.name key.now.record_type.0 }
        ensures removed { self.new ≡ without self.old key.now.name key.now.record_type.0 }
    {
        let (key, set) = self.sets.remove(key)?;
        self.index.remove(key, &self.sets);
        Some(set)
    }

    /// Takes all sets out. This doesn't allocate.
    pub fn clear(&mut self)
        ensures { self.new ≡ [] }
    {
        self.index.clear();
        self.sets.clear();
    }
}

impl RecordMap {
    /// Whether a name, or a name below it, owns a set, so that it is there, though perhaps as an empty non-terminal
    /// (RFC 4592 section 2.2.2). It reads one key, the first from the name's first key on, if there is one, and counts
    /// it. Its only error is `Memory`.
    pub fn owns_at_or_below(&self, name: &LowerName, reads: &mut Reads) -> Result<bool, ProtoError>
        ensures answer { IfOk result (λ owned. owned ≡ owns_at_or_below self.now name.now) }
        ensures counted { OnOk result
            (reads.new ≡ one_more_if (has_key_from self.now name.now) reads.old) }
        ensures err { IsOkUnless result ProtoError.Memory }
        ensures uncounted { OnErr result (reads.new ≡ reads.old) }
    {
        let least = RrKey::first_of(name)?;
        Ok(self.owns_from(&least, reads))
    }

    /// Whether the name of its least key, or a name below it, owns a set: descendants stand together, and the first of
    /// them after the name's least key.
    fn owns_from(&self, least: &RrKey, reads: &mut Reads) -> bool
        requires { least.now.record_type.0 ≡ 0 }
        ensures owned { result ≡ owns_at_or_below self.now least.now.name }
        ensures counted { reads.new ≡ one_more_if (has_key_from self.now least.now.name) reads.old }
    {
        match self.sets.from(least).next() {
            Some((first, _)) => {
                reads.add_one();
                least.name.zone_of(&first.name)
            }
            None => false,
        }
    }

    /// Whether the name of its least key, that of type 0, or a name below it, owns a set of a type other than those of denial,
    /// so that it exists (RFC 4592 section 2.2.2).
    pub fn exists(&self, least: &RrKey) -> bool
        requires { least.now.record_type.0 ≡ 0 }
        ensures { result ≡ exists self.now least.now.name }
    {
        self.exists_counted(least, &mut Reads::new())
    }

    /// The answer of [`RecordMap::exists`]. At most one key or one owner of the index is read, however many names below this one own
    /// sets of denial alone: that adds at most one to `reads`.
    pub fn exists_counted(&self, least: &RrKey, reads: &mut Reads) -> bool
        requires { least.now.record_type.0 ≡ 0 }
        ensures answer { result ≡ exists self.now least.now.name }
        ensures counted { reads.new ≤ reads.old + 1 }
    {
        if self.index.is_without_denials() {
            // Each key is that of a set that counts.
            return self.owns_from(least, reads);
        }
        reads.add_one();
        self.index.owns_other_at_or_below(&least.name)
    }

    /// The type that is searched for a query of ANY (RFC 8482 section 4.1) at the name of its least key, that of type 0: the
    /// least of A, CNAME, MX and AAAA that the name owns, else the least type that it owns, else A.
    pub fn any_type(&self, least: &RrKey) -> RecordType
        requires { least.now.record_type.0 ≡ 0 }
        ensures { result.0 ≡ any_type self.now least.now.name }
    {
        let mut first = None;
        for (key, _) in self.sets.from(least) {
            if key.name != least.name {
                break;
            }
            if is_preferred(key.record_type) {
                return key.record_type;
            }
            if first.is_none() {
                first = Some(key.record_type);
            }
        }
        first.unwrap_or(RecordType::A)
    }

    /// Takes a record into the set of its owner name and type, or makes that set, which keeps `serial`.
    ///
    /// The answer is whether the record was taken. It isn't taken if it is of another class than `dns_class`; if its
    /// owner owns a type that may not are beside the record's, one of the two being CNAME and neither NSEC or NSEC3
    /// (RFC 1034 section 3.6.2); or if the set refuses it, as [`RecordSet::insert`] says. A record that isn't taken
    /// changes nothing, and so does a refusal, by `Memory` alone.
    pub fn upsert(
        &mut self,
        record: Record,
        serial: u32,
        dns_class: DNSClass,
    ) -> Result<bool, ProtoError>
        ensures insertion { IsInsertion self.old (upserted self.old dns_class.0 «record» serial)
            result self.new }
        ensures zone { IsZone self.old → IsZone self.new }
        ensures cnames { CnamesStandAlone self.old → CnamesStandAlone self.new }
    {
        if record.dns_class != dns_class {
            return Ok(false);
        }
        let record_type = record.record_type();
        let mut key = RrKey::new(LowerName::new(&record.name)?, RecordType(0));
        let standing = self.standing_at(&key, record_type);
        if standing.clashes {
            return Ok(false);
        }
        key.record_type = record_type;
        if standing.may_be_there {
            self.insert_into(key, record, serial)
        } else {
            self.insert_new(key, record, serial)
        }
    }

    /// What is at the name of its least key, that of type 0, for a record of a type. However many types the name owns,
    /// it reads six keys at most: of types up to CNAME there are as many, and beside a CNAME three may stand.
    fn standing_at(&self, least: &RrKey, record_type: RecordType) -> Standing
        requires { least.now.record_type.0 ≡ 0 }
        ensures clashes { result.clashes ≡ clashes self.now least.now.name record_type.0 }
        ensures absent { result.may_be_there ≡ false
            → owns self.now least.now.name record_type.0 ≡ false }
    {
        let mut is_there = false;
        for (key, _) in self.sets.from(least) {
            if key.name != least.name {
                break;
            }
            is_there |= record_type == key.record_type;
            let clashes = clash(record_type, key.record_type);
            if clashes || none_clashes_after(record_type, key.record_type) {
                return Standing {
                    clashes,
                    may_be_there: true,
                };
            }
        }
        Standing {
            clashes: false,
            may_be_there: is_there,
        }
    }

    /// Takes a record into the set under its key, or makes that set if there is none.
    fn insert_into(&mut self, key: RrKey, record: Record, serial: u32) -> Result<bool, ProtoError>
        requires own_key { key ≡ key_at (lower «record».name) (type_of «record».rdata) }
        requires named { IsName (lower «record».name) }
        ensures { IsInsertion self.old (with_record self.old «record» serial) result self.new }
    {
        match self.sets.get(&key) {
            Some(_) => self.sets.insert_record(&key, record, serial),
            None => self.insert_new(key, record, serial),
        }
    }

    /// Makes the set of a record under its key, if there is none.
    fn insert_new(&mut self, key: RrKey, record: Record, serial: u32) -> Result<bool, ProtoError>
        requires own_key { key ≡ key_at (lower «record».name) (type_of «record».rdata) }
        requires named { IsName (lower «record».name) }
        requires absent { set_at self.old (lower «record».name) (type_of «record».rdata) ≡ None }
        ensures { IsInsertion self.old (with_record self.old «record» serial) result self.new }
    {
        let mut set = RecordSet::new(record.name.clone()?, key.record_type, serial);
        if !set.insert(record, serial)? {
            return Ok(false);
        }
        match self.put(key, set) {
            Ok(_) => Ok(true),
            Err(_) => Err(ProtoError::Memory),
        }
    }
}

/// Whether a type is preferred to others in an answer to ANY.
fn is_preferred(record_type: RecordType) -> bool
    ensures { result ≡ is_preferred record_type.0 }
{
    matches!(
        record_type,
        RecordType::A | RecordType::CNAME | RecordType::MX | RecordType::AAAA
    )
}

/// Whether one name may not own both types: one of them is CNAME, the other isn't, and neither is a type of denial.
fn clash(one: RecordType, other: RecordType) -> bool
    ensures { result ≡ clash one.0 other.0 }
{
    (one == RecordType::CNAME) != (other == RecordType::CNAME)
        && !is_denial_type(one)
        && !is_denial_type(other)
}

/// Whether no type greater than `seen` may clash with another: of two types that clash one is CNAME.
fn none_clashes_after(record_type: RecordType, seen: RecordType) -> bool
    ensures { result ≡ true → (u : ℕ) → seen.0 < u → clash record_type.0 u ≡ false }
{
    record_type != RecordType::CNAME && seen >= RecordType::CNAME
}

/// Whether a type is NSEC or NSEC3, which may stand beside a CNAME (RFC 4035 section 2.5).
pub fn is_denial_type(record_type: RecordType) -> bool
    ensures { result ≡ is_denial_type record_type.0 }
{
    record_type == RecordType::NSEC || record_type == RecordType::NSEC3
}
