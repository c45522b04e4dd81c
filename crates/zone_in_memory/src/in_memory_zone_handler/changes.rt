//! What changes the record sets of a zone.
ghost use Rattle.std.specs.Prelude.{◌≡◌, [], Err, IfErr, IfOk, OnOk, OnErr};
ghost use Rattle.zone_proto.specs.Names.{lower};
ghost use Rattle.zone_in_memory.specs.Insertions.{IsUpsert};
ghost use Rattle.zone_in_memory.specs.Refusals.{Refuses};
ghost use Rattle.zone_map.specs.Upserts.{CnamesStandAlone};
ghost use Rattle.zone_map.specs.Zones.{set_at, put, without};

use crate::in_memory_zone_handler::InMemoryZoneHandler;
use crate::put_refused::PutRefused;
use zone_lookup::ZoneError;
use zone_proto::{LowerName, Nsec3Hash, Record, RecordSet, RrKey, Signer};

impl<S: Signer, H: Nsec3Hash> InMemoryZoneHandler<S, H> {
    /// Takes a record into the set of its owner name and type, or makes that set.
    ///
    /// `serial` is the serial that the set keeps when it takes the record. The answer is whether the record was taken.
    /// It isn't taken if it is of another class than the zone; if its owner owns a type that may not are beside the
    /// record's, one of the two being CNAME and neither NSEC or NSEC3 (RFC 1034 section 3.6.2); or if the set refuses
    /// it, as [`RecordSet::insert`] says: an SOA whose serial isn't greater than the stored one's, or data that the set
    /// has. A record that isn't taken changes nothing, and so does a refusal, by `Memory` alone.
    pub fn upsert(&mut self, record: Record, serial: u32) -> Result<bool, ZoneError>
        ensures { IsUpsert self.old «record» serial result self.new }
    {
        self.inner.upsert(record, serial, self.class)
    }

    /// The same as [`InMemoryZoneHandler::upsert`].
    pub fn upsert_mut(&mut self, record: Record, serial: u32) -> Result<bool, ZoneError>
        ensures { IsUpsert self.old «record» serial result self.new }
    {
        self.upsert(record, serial)
    }

    /// Stores a set whole, with its signatures, under its own owner name, in lower case, and type, and gives the set
    /// that was there.
    ///
    /// Nothing is asked of its class, nor of a CNAME beside it. Refused by `Empty` for a set without records, and by
    /// `Memory`; both hand the set back and leave the zone as it was.
    pub fn put_set(&mut self, set: RecordSet) -> Result<Option<RecordSet>, PutRefused>
        ensures before { IfOk result
            (λ before. before ≡ set_at self.old.inner.records (lower set.owner) set.record_type) }
        ensures stored { OnOk result
            (self.new ≡ record self.old {
              inner = record self.old.inner {
                records = put self.old.inner.records (lower set.owner) set.record_type set;
              };
            }) }
        ensures empty { set.records ≡ [] → result ≡ Err (PutRefused.Empty set) }
        ensures refused { IfErr result (λ refusal. Refuses refusal set) }
        ensures same { OnErr result (self.new ≡ self.old) }
    {
        if set.records_without_rrsigs().next().is_none() {
            return Err(PutRefused::Empty(set));
        }
        let Ok(name) = LowerName::new(set.name()) else {
            return Err(PutRefused::Memory(set));
        };
        let key = RrKey::new(name, set.record_type());
        match self.inner.put(key, set) {
            Ok(before) => Ok(before),
            Err(set) => Err(PutRefused::Memory(set)),
        }
    }

    /// Takes the set out that is under a key, and gives it. This doesn't allocate.
    pub fn remove_set(&mut self, key: &RrKey) -> Option<RecordSet>
        ensures before { result ≡ set_at self.old.inner.records key.now.name key.now.record_type.0 }
        ensures removed { self.new ≡ record self.old {
          inner = record self.old.inner {
            records = without self.old.inner.records key.now.name key.now.record_type.0;
          };
        } }
    {
        self.inner.remove(key)
    }

    /// Takes all record sets out; the signers stay. This doesn't allocate.
    pub fn clear(&mut self)
        ensures cleared { self.new
            ≡ record self.old { inner = record self.old.inner { records = [] } } }
        ensures cnames { CnamesStandAlone self.new.inner.records }
    {
        self.inner.clear();
    }
}
