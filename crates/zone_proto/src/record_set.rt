//! Record sets (RFC 2181 section 5), with their signatures.
ghost use Rattle.std.specs.Prelude.{◌≡◌, ◌<◌, ◌≤◌, ◌+◌, [], ◌++◌, ◌∷◌, true, false, ◌==◌, length, take, drop};
ghost use Rattle.zone_proto.specs.Names.{same_name};
ghost use Rattle.zone_proto.specs.Types.{IN, RRSIG};
ghost use Rattle.zone_proto.specs.Data.{type_of};
ghost use Rattle.zone_proto.specs.Sets.{IsSet, AreSignatures, appended, inserted, is_single, lent, record_of, set_under, stores};
ghost use Rattle.zone_proto.specs.Results.{IsChange, IsCopy, IsInsertion};
ghost use Rattle.zone_proto.specs.Stepping.{stepped};

use crate::dns_class::DNSClass;
use crate::error::ProtoError;
use crate::insertion::{is_refused, put_last, put_record};
use crate::name::Name;
use crate::rdata::RData;
use crate::record::{Record, clone_records, clone_records_under};
use crate::record_type::RecordType;
use crate::rrset_records::RrsetRecords;
use crate::rrsigs::Rrsigs;
use crate::stepping::step;
use std::marker::Model;

/// The records of one owner and type, with the set's TTL, serial and signatures (RFC 2181 section 5).
///
/// Of every set: its records have the set's owner, the case of letters aside, and its type; no two have equal data; a set
/// of type SOA, CNAME or ANAME has at most one; and its signatures are of type RRSIG.
#[derive(Debug)]
pub struct RecordSet {
    name: Name,
    record_type: RecordType,
    dns_class: DNSClass,
    ttl: u32,
    serial: u32,
    records: Vec<Record>,
    rrsigs: Vec<Record>,
}

impl Model for RecordSet {
    ghost use Rattle.zone_proto.specs.Sets.{RRset};

    ghost Value = { RRset };

    ghost use Rattle.zone_proto.specs.SetInside.{set_of, IsSetInside};

    ghost view = { set_of };

    ghost invariant = { IsSetInside };
}

/// A call of its own, so that the proofs of all that drop a set don't go into its parts.
impl Drop for RecordSet {
    fn drop(self) {
        let RecordSet {
            name: _,
            record_type: _,
            dns_class: _,
            ttl: _,
            serial: _,
            records: _,
            rrsigs: _,
        } = self;
    }
}

/// Sets are equal by owner, type, class, TTL, serial, records and signatures.
impl PartialEq for RecordSet {
    ghost use Rattle.std.specs.Cmp.{partial_equiv_from_equiv};
    ghost use Rattle.zone_proto.specs.Sets.{same_set};
    ghost use Rattle.zone_proto.specs.SetEquality.{same_set_equiv};

    ghost eq = { same_set };

    ghost laws = { partial_equiv_from_equiv same_set_equiv };

    fn eq(&self, other: &RecordSet) -> bool {
        self.name == other.name
            && self.record_type == other.record_type
            && self.dns_class == other.dns_class
            && self.ttl == other.ttl
            && self.serial == other.serial
            && self.records == other.records
            && self.rrsigs == other.rrsigs
    }
}

impl Eq for RecordSet {
    ghost use Rattle.zone_proto.specs.SetEquality.{same_set_equiv};

    ghost laws = { same_set_equiv };
}

impl RecordSet {
    /// A set without records, of class IN and TTL 0. `serial` is the zone's serial at this moment; each record that the
    /// set takes later brings a serial of its own. Doesn't allocate.
    pub fn new(name: Name, record_type: RecordType, serial: u32) -> RecordSet
        ensures { result ≡ record {
          owner = name;
          record_type = record_type.0;
          class = IN;
          ttl = 0;
          serial = serial;
          records = [];
          signatures = [];
        } }
    {
        let alloc = name.alloc();
        RecordSet {
            name,
            record_type,
            dns_class: DNSClass::IN,
            ttl: 0,
            serial,
            records: Vec::new(alloc),
            rrsigs: Vec::new(alloc),
        }
    }

    /// A set without records, of class IN, serial 0 and this TTL in seconds. Doesn't allocate.
    pub fn with_ttl(name: Name, record_type: RecordType, ttl: u32) -> RecordSet
        ensures { result ≡ record {
          owner = name;
          record_type = record_type.0;
          class = IN;
          ttl = ttl;
          serial = 0;
          records = [];
          signatures = [];
        } }
    {
        let mut set = RecordSet::new(name, record_type, 0);
        set.ttl = ttl;
        set
    }

    /// A copy of the set: identical in all parts, the case of letters in names, TTLs and serials too. `Memory` where
    /// none is found.
    pub fn clone(&self) -> Result<RecordSet, ProtoError>
        ensures { IsCopy result self.now }
    {
        let mut copy = self.clone_without_rrsigs()?;
        copy.rrsigs = clone_records(*self.rrsigs.allocator(), self.rrsigs.as_slice())?;
        Ok(copy)
    }

    /// A copy of the set without its signatures, as it is before it is signed anew. `Memory` where none is found.
    pub fn clone_without_rrsigs(&self) -> Result<RecordSet, ProtoError>
        ensures { IsCopy result (record self.now { signatures = [] }) }
    {
        let alloc = *self.records.allocator();
        Ok(RecordSet {
            name: self.name.clone()?,
            record_type: self.record_type,
            dns_class: self.dns_class,
            ttl: self.ttl,
            serial: self.serial,
            records: clone_records(alloc, self.records.as_slice())?,
            rrsigs: Vec::new(alloc),
        })
    }

    /// The set's records under another owner: of class IN, with this TTL in seconds, and with copies of the data, in order; the
    /// new set has the same type, serial 0 and no signatures. `Memory` where none is found.
    ///
    /// The data of a set differ, so that they aren't compared again, as [`RecordSet::add_rdata`] would with all that came before.
    pub fn clone_under(&self, owner: Name, ttl: u32) -> Result<RecordSet, ProtoError>
        ensures { IsCopy result (set_under owner ttl self.now) }
    {
        let alloc = *self.records.allocator();
        let records = clone_records_under(alloc, self.records.as_slice(), &owner, ttl)?;
        Ok(RecordSet {
            name: owner,
            record_type: self.record_type,
            dns_class: DNSClass::IN,
            ttl,
            serial: 0,
            records,
            rrsigs: Vec::new(alloc),
        })
    }

    /// The owner name.
    pub fn name(&self) -> &Name
        ensures { result.now ≡ self.now.owner }
    {
        &self.name
    }

    /// The type of the records.
    pub fn record_type(&self) -> RecordType
        ensures { result.0 ≡ self.now.record_type }
    {
        self.record_type
    }

    /// The class.
    pub fn dns_class(&self) -> DNSClass
        ensures { result.0 ≡ self.now.class }
    {
        self.dns_class
    }

    /// The set's TTL, in seconds: that of the record taken last.
    pub fn ttl(&self) -> u32
        ensures { result ≡ self.now.ttl }
    {
        self.ttl
    }

    /// The set's serial: that of the last insertion.
    pub fn serial(&self) -> u32
        ensures { result ≡ self.now.serial }
    {
        self.serial
    }

    /// The signatures in order, records of type RRSIG.
    pub fn rrsigs(&self) -> &[Record]
        ensures value { result.now ≡ self.now.signatures }
        ensures kind { AreSignatures self.now.signatures }
    {
        self.rrsigs.as_slice()
    }

    /// Whether the set has no records.
    pub fn is_empty(&self) -> bool
        ensures { result ≡ (length self.now.records == 0) }
    {
        self.records.is_empty()
    }

    /// The records in order, and with `and_rrsigs` the signatures after them; nothing at all for a set without records.
    /// Doesn't allocate.
    pub fn records(&self, and_rrsigs: bool) -> RrsetRecords<'_>
        ensures lent { result ≡ lent self.now and_rrsigs }
        ensures rule { IsSet self.now.owner self.now.record_type self.now.records }
    {
        let records = self.records.as_slice();
        if and_rrsigs && !records.is_empty() {
            RrsetRecords::new(records, self.rrsigs.as_slice())
        } else {
            RrsetRecords::new(records, &[])
        }
    }

    /// The records in order, as a slice. Doesn't allocate.
    pub fn as_slice(&self) -> &[Record]
        ensures value { result.now ≡ self.now.records }
        ensures rule { IsSet self.now.owner self.now.record_type self.now.records }
    {
        self.records.as_slice()
    }

    /// The records in order. Doesn't allocate.
    pub fn records_without_rrsigs(&self) -> RrsetRecords<'_>
        ensures lent { result ≡ self.now.records }
        ensures rule { IsSet self.now.owner self.now.record_type self.now.records }
    {
        RrsetRecords::new(self.records.as_slice(), &[])
    }

    /// Inserts a record of the set's owner and type, and says whether it was taken.
    ///
    /// - An SOA where one is stored is taken if its serial is the greater number, and replaces it.
    /// - A CNAME or an ANAME is taken, and replaces what is stored.
    /// - Any other record is taken unless one of equal data is stored, and comes last.
    ///
    /// With a taken record the set's TTL becomes the record's, its serial becomes `serial`, and its signatures are dropped.
    /// A record that isn't taken, and the refusal `Memory`, leave the set as it was.
    pub fn insert(&mut self, new: Record, serial: u32) -> Result<bool, ProtoError>
        requires owner { same_name new.name self.old.owner ≡ true }
        requires kind { type_of new.rdata ≡ self.old.record_type }
        ensures { IsInsertion self.old (inserted self.old new serial) result self.new }
    {
        if is_refused(self.records.as_slice(), &new.rdata) {
            return Ok(false);
        }
        let ttl = new.ttl;
        put_record(&mut self.records, new)?;
        self.has_taken(ttl, serial);
        Ok(true)
    }

    /// Appends a record of the set's owner and type to the others, as `insert` does with one whose data aren't stored,
    /// but without looking through them: of many records the caller finds out in less time which data are there
    /// already. Not for the types of which a set has one record at most. `Memory` leaves the set as it was.
    pub fn append(&mut self, new: Record, serial: u32) -> Result<(), ProtoError>
        requires owner { same_name new.name self.old.owner ≡ true }
        requires kind { type_of new.rdata ≡ self.old.record_type }
        requires several { is_single self.old.record_type ≡ false }
        requires absent { stores self.old.records new.rdata ≡ false }
        ensures { IsChange self.old (appended self.old new serial) result self.new }
    {
        let ttl = new.ttl;
        put_last(&mut self.records, new)?;
        self.has_taken(ttl, serial);
        Ok(())
    }

    /// What follows from a record that was taken: the set has its TTL and this serial, and no signatures.
    fn has_taken(&mut self, ttl: u32, serial: u32)
        ensures { self.new
            ≡ record self.old {
              ttl = ttl;
              serial = serial;
              signatures = [];
            } }
    {
        self.ttl = ttl;
        self.serial = serial;
        self.clear_rrsigs();
    }

    /// Inserts, by the rule of `insert` and with serial 0, a record of these data with the set's owner and TTL and class IN.
    pub fn add_rdata(&mut self, rdata: RData) -> Result<bool, ProtoError>
        requires { type_of rdata ≡ self.old.record_type }
        ensures { IsInsertion self.old (inserted self.old (record_of self.old rdata) 0) result
            self.new }
    {
        let new = Record::from_rdata(self.name.clone()?, self.ttl, rdata);
        self.insert(new, 0)
    }

    /// Puts a signature behind those that the set has. The caller hands in a record of type RRSIG (RFC 4034 section 3).
    /// `Memory` leaves the set as it was.
    pub fn insert_rrsig(&mut self, rrsig: Record) -> Result<(), ProtoError>
        requires kind { type_of rrsig.rdata ≡ RRSIG }
        ensures { IsChange self.old
            (record self.old { signatures = self.old.signatures ++ rrsig ∷ [] }) result self.new }
    {
        put_last(&mut self.rrsigs, rrsig)
    }

    /// Puts these signatures in place of those that the set has. Doesn't allocate.
    pub fn replace_rrsigs(&mut self, rrsigs: Rrsigs)
        ensures { self.new ≡ record self.old { signatures = rrsigs } }
    {
        self.rrsigs = rrsigs.into_records();
    }

    /// Exchanges the signatures that the set has, in order, with those of a list from `start` on (an index, from 0),
    /// and answers where the next ones of that list stand. Where the list has fewer there, nothing is exchanged, and
    /// the answer is `start`. Doesn't allocate.
    pub fn exchange_rrsigs(&mut self, others: &mut Rrsigs, start: usize) -> usize
        ensures set { length self.old.signatures ≤ length (drop start others.old)
            → self.new
            ≡ record self.old {
              signatures = take (length self.old.signatures)
                  (drop start others.old);
            } }
        ensures others { length self.old.signatures ≤ length (drop start others.old)
            → others.new
            ≡ take start others.old ++ self.old.signatures
            ++ drop (start + length self.old.signatures) others.old }
        ensures next { length self.old.signatures ≤ length (drop start others.old)
            → result ≡ start + length self.old.signatures }
        ensures short { length (drop start others.old) < length self.old.signatures
            → (self.new ≡ self.old) × (others.new ≡ others.old) × (result ≡ start) }
    {
        others.exchange(start, self.rrsigs.as_mut_slice())
    }

    /// Steps the serial of the set's SOA by one modulo 2^32 (RFC 1982 section 3.1), which becomes the set's serial too;
    /// a set that doesn't begin with an SOA stays as it is. The signatures stay. Doesn't allocate.
    pub fn step_serial(&mut self)
        ensures { self.new ≡ stepped self.old }
    {
        if let Some(first) = self.records.first_mut() {
            if let Some(next) = step(&mut first.rdata) {
                self.serial = next;
            }
        }
    }

    /// Puts another serial in place of the set's; its records and signatures stay. Doesn't allocate.
    pub fn set_serial(&mut self, other: u32)
        ensures { self.new ≡ record self.old { serial = other } }
    {
        self.serial = other;
    }

    /// Drops the signatures. Doesn't allocate.
    pub fn clear_rrsigs(&mut self)
        ensures { self.new ≡ record self.old { signatures = [] } }
    {
        self.rrsigs.clear();
    }
}
