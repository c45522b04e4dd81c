//! The record sets of a zone with its signers, and what is found among them.
ghost use Rattle.std.specs.Prelude.{◌≡◌, ◌⊎◌, [], ◌∷◌, ◌++◌, ◌≤◌, length, map, None, Some, Ok, Err, IfOk, IfErr, OnOk, OnErr, IsOkUnless, is_some, unwrap_or, option_map, option_and_then, option_copied};
ghost use Rattle.zone_map.specs.AnyTypes.{any_type};
ghost use Rattle.zone_map.specs.DenialOwners.{denial_owners, denial_owners_upto};
ghost use Rattle.zone_proto.specs.Types.{NSEC};
ghost use Rattle.zone_denial.specs.DenialSets.{denial_sets, own_set};
ghost use Rattle.zone_denial.specs.NsecDenial.{closest_nsec, nsec_denial};
ghost use Rattle.zone_denial.specs.Nsec3Lent.{query_denial};
ghost use Rattle.zone_denial.specs.NsecCircle.{IsNsecCircle};
ghost use Rattle.zone_denial.specs.OwnersRead.{owners_read, GrewByAtMost};
ghost use Rattle.zone_proto.specs.Names.{Name, wildcard_of};
ghost use Rattle.zone_proto.specs.declared.error.ProtoError.{ProtoError};
ghost use Rattle.lookup_types.specs.Errors.{error_of_proto};
ghost use Rattle.zone_lookup.specs.FoundSets.{found_set, lent_set, IsOutcome};
ghost use Rattle.zone_map.specs.Direct.{direct};
ghost use Rattle.zone_map.specs.Wildcards.{asked_wildcard, exists, found};
ghost use Rattle.zone_map.specs.Counts.{one_more, counted_more, one_more_if};
ghost use Rattle.zone_map.specs.Upserts.{upserted, CnamesStandAlone};
ghost use Rattle.zone_map.specs.Zones.{set_at, has_key_from, owns_at_or_below, put, without, IsStoredAt, IsZone};

mod securing;

use crate::found::{Found, Outcome};
use crate::zone_error::ZoneError;
use lookup_types::{LookupError, LookupOptions, Nsec3QueryInfo};
use std::alloc::Global;
use std::marker::Model;
use zone_denial::denial::{self, NsecDenial};
use zone_denial::{closest, nsec3_denial};
use zone_map::direct::{self, Direct};
use zone_map::{DenialOwners, Reads, RecordMap, Searches, SetMap, wildcard};
use zone_proto::{
    DNSClass, LowerName, Nsec3Hash, ProtoError, Record, RecordSet, RecordType, RrKey, Signer,
};

/// The record sets of a zone, by owner name and type, and the signers that sign them.
pub struct InnerInMemory<S: Signer> {
    records: RecordMap,
    signers: Vec<S>,
}

/// A call of its own, so that the proofs of all that drop the sets of a zone don't go into its parts.
impl<S: Signer> Drop for InnerInMemory<S> {
    fn drop(self) {
        let InnerInMemory {
            records: _,
            signers: _,
        } = self;
    }
}

impl<S: Signer> Model for InnerInMemory<S> {
    ghost use Rattle.zone_lookup.specs.Inner.{Inner};
    ghost use Rattle.zone_map.specs.Zones.{IsZone};

    ghost Value = { Inner S };

    ghost view = { λ zone. record { records = zone.records; signers = zone.signers.items } };

    ghost invariant = { λ zone. IsZone zone.records };
}

impl<S: Signer> InnerInMemory<S> {
    /// No record sets and no signers. What is put in later takes its memory from `alloc`; this takes none.
    pub fn new(alloc: Global) -> Self
        ensures { result ≡ record { records = []; signers = [] } }
    {
        InnerInMemory {
            records: RecordMap::new(alloc),
            signers: Vec::new(alloc),
        }
    }

    /// Takes a record into the set of its owner name and type, or makes that set.
    ///
    /// `serial` is the zone's serial, which the set keeps when it takes the record, and `dns_class` the zone's class.
    /// The answer is whether the record was taken. It isn't taken if it is of another class; if its owner owns a type
    /// that may not are beside the record's, one of the two being CNAME and neither NSEC or NSEC3 (RFC 1034 section
    /// 3.6.2); or if the set refuses it, as [`RecordSet::insert`] says. A record that isn't taken changes nothing, and
    /// so does a refusal, by `Memory` alone.
    pub fn upsert(
        &mut self,
        record: Record,
        serial: u32,
        dns_class: DNSClass,
    ) -> Result<bool, ZoneError>
        ensures answer { IfOk result
            (λ taken. taken ≡ is_some (upserted self.old.records dns_class.0 «record» serial)) }
        ensures after { OnOk result
            (self.new
            ≡ record self.old {
              records = unwrap_or
                  (upserted self.old.records dns_class.0 «record» serial) self.old.records;
            }) }
        ensures zone { IsZone self.new.records }
        ensures cnames { CnamesStandAlone self.old.records → CnamesStandAlone self.new.records }
        ensures err { IsOkUnless result ZoneError.Memory }
        ensures same { OnErr result (self.new ≡ self.old) }
    {
        match self.records.upsert(record, serial, dns_class) {
            Ok(taken) => Ok(taken),
            Err(_) => Err(ZoneError::Memory),
        }
    }

    /// The set that answers for `name` and `record_type`, if there is one.
    ///
    /// - The name's direct set: the referral at the nearest zone cut at or above the name (RFC 1034 section 4.2.1), else
    ///   the set of the least type that the name owns of the type that is asked for, CNAME and, for addresses, ANAME. A
    ///   query for DS at a cut asks the parent's side, so the cut itself gives no referral for it (RFC 4035 section
    ///   3.1.4.1). Where the nearest name that owns NS owns SOA too, it is an apex, and there is no referral.
    /// - Else, for a name that is neither the root nor begins with `*` nor exists, the direct set of the wildcard at
    ///   the closest encloser, the longest of its proper ancestors that exists, under the queried name (RFC 4592
    ///   section 3.3.1): of class IN and serial 0, with each record's TTL that of the set, and with signatures only
    ///   where `lookup_options` ask for DNSSEC; of these the queried name owns those that the wildcard owned. No other
    ///   wildcard is asked. A name exists where it, or a name below it, owns a set of a type other than NSEC and NSEC3
    ///   (RFC 4592 section 2.2.2); where none does, no wildcard is asked.
    ///
    /// A direct set is lent out of the zone with its signatures, whatever the options say. The call adds one to
    /// `searches`, whether it asks a wildcard or not.
    ///
    /// # Errors
    ///
    /// Its only error is `Memory`.
    pub fn inner_lookup(
        &self,
        name: &LowerName,
        record_type: RecordType,
        lookup_options: LookupOptions,
        searches: &mut Searches,
    ) -> Result<Option<Found<'_>>, LookupError>
        ensures found { IfOk result
            (λ set. option_map found_set set
            ≡ found self.now.records lookup_options.dnssec_ok name.now record_type.0) }
        ensures lent { IfOk result
            (λ set. option_and_then lent_set set ≡ direct self.now.records name.now record_type.0) }
        ensures counted { searches.new ≡ one_more searches.old }
        ensures zone { IsZone self.now.records }
        ensures err { IsOkUnless result LookupError.Memory }
    {
        let outcome = self.find(name, record_type, lookup_options, searches)?;
        Ok(outcome.into_found())
    }

    /// The type that is searched for a query of ANY (RFC 8482 section 4.1): the least of A, CNAME, MX and AAAA that the
    /// name owns, else the least type that it owns, else A. Its only error is `Memory`.
    pub fn replace_any(&self, name: &LowerName) -> Result<RecordType, LookupError>
        ensures chosen { IfOk result (λ chosen. chosen.0 ≡ any_type self.now.records name.now) }
        ensures err { IsOkUnless result LookupError.Memory }
    {
        let least = RrKey::first_of(name)?;
        Ok(self.records.any_type(&least))
    }

    /// The NSEC set whose owner is the greatest, in canonical order (RFC 4034 section 6.1), of those that aren't after
    /// `name` and whose next name, as the first record says it, comes after `name`, or isn't after the owner; if there
    /// is one. Its only error is `Memory`.
    ///
    /// In a zone that was secured by NSEC it covers each name of the zone that has no such set of its own.
    pub fn closest_nsec(&self, name: &LowerName) -> Result<Option<&RecordSet>, LookupError>
        ensures found { IfOk result
            (λ set. option_copied set ≡ closest_nsec self.now.records name.now) }
        ensures err { IsOkUnless result LookupError.Memory }
    {
        self.closest_nsec_counted(name, &mut Reads::new())
    }

    /// The answer of [`InnerInMemory::closest_nsec`], and how many owners of NSEC sets are read for it: each adds one to
    /// `reads`. They are read out of an index from `name` back, down to the owner of the closest set, or all of them where no
    /// set reaches the name. So never more are read than owners that aren't after the name; and where the NSEC sets are a
    /// circle, as in a zone that was secured by NSEC, at most one.
    pub fn closest_nsec_counted(
        &self,
        name: &LowerName,
        reads: &mut Reads,
    ) -> Result<Option<&RecordSet>, LookupError>
        ensures found { IfOk result
            (λ set. option_copied set ≡ closest_nsec self.now.records name.now) }
        ensures counted { OnOk result
            (reads.new ≡ counted_more (length (owners_read self.now.records name.now)) reads.old) }
        ensures most { length (owners_read self.now.records name.now)
            ≤ length (denial_owners_upto self.now.records NSEC name.now) }
        ensures circle { (origin : Name) → IsNsecCircle origin self.now.records
            → length (owners_read self.now.records name.now) ≤ 1 }
        ensures err { IsOkUnless result LookupError.Memory }
        ensures refused { OnErr result
            (GrewByAtMost (length (owners_read self.now.records name.now)) reads.old reads.new) }
    {
        Ok(closest::closest_nsec_counted(&self.records, name, reads)?)
    }

    /// The NSEC3 sets that deny the query that `info` tells of in the zone of origin `zone`, or that prove that a wildcard
    /// answered it, by the parameters of `info` and by `hash`, in the order of their owners, each once (RFC 5155 section 7.2).
    /// So it is in any zone, whether its NSEC3 sets are a circle or not.
    ///
    /// - The set that matches a name is at its hashed owner. The one that covers it is that of the greatest owner
    ///   before this one, or else of the greatest of all.
    /// - Where a set matches the queried name, it is the answer alone, unless `info` tells of a wildcard.
    /// - Else the closest encloser is the nearest proper ancestor of the queried name that a set matches, the root aside.
    ///   Without one there is no set. The next closer name is the one a label longer towards the queried name.
    /// - Where a wildcard answered, the set that covers the next closer name is the answer. Else it is the set that
    ///   matches the closest encloser, the one that covers the next closer name, and the one that matches the wildcard
    ///   at the closest encloser or, where none does, covers it. The type of the query isn't read.
    ///
    /// # Errors
    ///
    /// Names are hashed in this order, each once and only where the answer needs it: the queried name, its ancestors
    /// from the nearest on until one has a match, the closest encloser, and the wildcard. The first that is refused
    /// refuses the call, as [`Nsec3QueryInfo::hashed_owner_name`] says; so does lack of memory.
    pub fn proof<H: Nsec3Hash>(
        &self,
        info: Nsec3QueryInfo<'_>,
        zone: &LowerName,
        hash: &H,
    ) -> Result<Vec<&RecordSet>, LookupError>
        ensures sets { IfOk result
            (λ sets. query_denial (H.digest_of hash.now) zone.now self.now.records info.entry
            ≡ Ok (map (λ s. s.now) sets.items)) }
        ensures err { IfErr result
            (λ e. (e ≡ LookupError.Memory)
            ⊎ ((refusal : ProtoError)
            × (query_denial (H.digest_of hash.now) zone.now self.now.records info.entry
            ≡ Err refusal)
            × (e ≡ error_of_proto refusal))) }
    {
        match nsec3_denial::nsec3_denial(&self.records, zone, &info, hash) {
            Ok(sets) => Ok(sets),
            Err(refusal) => Err(LookupError::from(refusal)),
        }
    }

    /// The owners of the sets of a type of denial, NSEC or NSEC3, in canonical order (RFC 4034 section 6.1), each once;
    /// none for other types. They are lent out of an index that the zone keeps. Doesn't allocate.
    pub fn denial_owners(&self, record_type: RecordType) -> DenialOwners<'_>
        ensures { result ≡ denial_owners self.now.records record_type.0 }
    {
        self.records.denial_owners(record_type)
    }

    /// Whether `name`, or a name below it, owns a set, so that it is there, though perhaps as an empty non-terminal
    /// (RFC 4592 section 2.2.2). One key is read at most, the first at or after [`RrKey::first_of`] of the name, and
    /// adds one to `reads`: the names below a name stand together. Its only error is `Memory`, which reads none.
    pub fn owns_at_or_below(&self, name: &LowerName, reads: &mut Reads) -> Result<bool, LookupError>
        ensures answer { IfOk result (λ owns. owns ≡ owns_at_or_below self.now.records name.now) }
        ensures counted { OnOk result
            (reads.new ≡ one_more_if (has_key_from self.now.records name.now) reads.old) }
        ensures err { IsOkUnless result LookupError.Memory }
        ensures uncounted { OnErr result (reads.new ≡ reads.old) }
    {
        Ok(self.records.owns_at_or_below(name, reads)?)
    }

    /// The signers, in the order in which they were added.
    pub fn signers(&self) -> &[S]
        ensures { result.now ≡ self.now.signers }
    {
        self.signers.as_slice()
    }

    /// The record sets by their keys, in the order of the keys.
    pub fn as_map(&self) -> &SetMap
        ensures entries { result.now ≡ self.now.records }
        ensures zone { IsZone self.now.records }
    {
        self.records.as_map()
    }

    /// The record sets with the index of the owners of NSEC and NSEC3 sets that the zone keeps of them.
    pub fn record_map(&self) -> &RecordMap
        ensures sets { result.now ≡ self.now.records }
        ensures zone { IsZone self.now.records }
    {
        &self.records
    }

    /// The set that is under `key`; None if none does.
    pub fn get(&self, key: &RrKey) -> Option<&RecordSet>
        ensures { option_copied result
            ≡ set_at self.now.records key.now.name key.now.record_type.0 }
    {
        self.records.get(key)
    }
}

/// What `zone_in_memory` makes a zone of, and `zone_response` a response: no user of a zone needs it.
#[doc(hidden)]
impl<S: Signer> InnerInMemory<S> {
    /// These record sets, each of which has records and is under its own name, in lower case, and type; and no signers.
    /// What is put in later takes its memory from `alloc`; this takes none.
    pub fn with_records(alloc: Global, records: RecordMap) -> Self
        requires { IsZone records }
        ensures { result ≡ record { records = records; signers = [] } }
    {
        InnerInMemory {
            records,
            signers: Vec::new(alloc),
        }
    }

    /// Its record sets, taken out of it. Doesn't allocate.
    pub fn into_record_map(self) -> RecordMap
        ensures { result ≡ self.records }
    {
        let InnerInMemory {
            records,
            signers: _,
        } = self;
        records
    }

    /// What [`InnerInMemory::inner_lookup`] finds; and of a name for which there is no set, whether it exists, or the
    /// wildcard at its closest encloser does. The walk up the name that looks for a zone cut sees this on its way. The
    /// call adds one to `searches`. Its only error is `Memory`.
    pub fn find(
        &self,
        name: &LowerName,
        record_type: RecordType,
        lookup_options: LookupOptions,
        searches: &mut Searches,
    ) -> Result<Outcome<'_>, LookupError>
        ensures outcome { IfOk result
            (λ outcome. IsOutcome self.now.records lookup_options.dnssec_ok name.now record_type.0
            outcome) }
        ensures counted { searches.new ≡ one_more searches.old }
        ensures zone { IsZone self.now.records }
        ensures err { IsOkUnless result LookupError.Memory }
    {
        searches.add_one();
        let records = &self.records;
        let key = RrKey::new(name.clone()?, record_type);
        match direct::find(records, key)? {
            Direct::Found(set) => Ok(Outcome::Found(Found::Stored(set))),
            Direct::Missing(missing) => match missing.next_closer {
                Some(next_closer) => {
                    self.synthesized(name, record_type, lookup_options, next_closer)
                }
                None if missing.exists => Ok(Outcome::NoData),
                None => Ok(Outcome::NoName),
            },
        }
    }

    /// What the wildcard gives that is asked for a name without a direct set, which has `*` in place of the first label
    /// of `next_closer`. Its only error is `Memory`.
    fn synthesized(
        &self,
        name: &LowerName,
        record_type: RecordType,
        lookup_options: LookupOptions,
        next_closer: LowerName,
    ) -> Result<Outcome<'_>, LookupError>
        requires none { direct self.now.records name.now record_type.0 ≡ None }
        requires asked { asked_wildcard self.now.records name.now ≡ Some (wildcard_of next_closer) }
        ensures outcome { IfOk result
            (λ outcome. IsOutcome self.now.records lookup_options.dnssec_ok name.now record_type.0
            outcome) }
        ensures err { IsOkUnless result LookupError.Memory }
    {
        let signed = lookup_options.dnssec_ok;
        let made = wildcard::wildcard(&self.records, name, record_type, signed, next_closer)?;
        match made.set {
            Some(set) => Ok(Outcome::Found(Found::Made(set))),
            None if made.wildcard_exists => Ok(Outcome::NoData),
            None => Ok(Outcome::NoName),
        }
    }

    /// Whether the name of `least`, its least key, that of type 0, exists: whether it, or a name below it, owns a set
    /// of a type other than NSEC and NSEC3 (RFC 4592 section 2.2.2). Doesn't allocate.
    pub fn exists(&self, least: &RrKey) -> bool
        requires { least.now.record_type.0 ≡ 0 }
        ensures { result ≡ exists self.now.records least.now.name }
    {
        self.records.exists(least)
    }

    /// The NSEC sets that deny `name` in the zone of `origin`, lent out of the zone; see [`denial::nsec_denial`]. Its
    /// only error is `Memory`.
    pub fn nsec_denial(
        &self,
        origin: &LowerName,
        name: &LowerName,
    ) -> Result<NsecDenial<'_>, LookupError>
        ensures sets { IfOk result
            (λ denial. denial_sets denial ≡ nsec_denial origin.now self.now.records name.now) }
        ensures own { IfOk result
            (λ denial. own_set denial ≡ set_at self.now.records name.now NSEC) }
        ensures err { IsOkUnless result LookupError.Memory }
    {
        Ok(denial::nsec_denial(&self.records, origin, name)?)
    }

    /// Stores `set` under `key`, which is its own name, in lower case, and type, and gives the set that was there. The
    /// set has records.
    ///
    /// Fails only for lack of memory, which hands the set back and leaves the zone as it was.
    pub fn put(&mut self, key: RrKey, set: RecordSet) -> Result<Option<RecordSet>, RecordSet>
        requires { IsStoredAt key.name key.record_type.0 set }
        ensures before { IfOk result
            (λ before. before ≡ set_at self.old.records key.name key.record_type.0) }
        ensures stored { OnOk result
            (self.new ≡ record self.old {
              records = put self.old.records key.name key.record_type.0 set;
            }) }
        ensures refused { IfErr result (λ refused. refused ≡ set) }
        ensures same { OnErr result (self.new ≡ self.old) }
    {
        self.records.put(key, set)
    }

    /// Takes the set out that is under `key`, and gives it; None if none does. This doesn't allocate.
    pub fn remove(&mut self, key: &RrKey) -> Option<RecordSet>
        ensures before { result ≡ set_at self.old.records key.now.name key.now.record_type.0 }
        ensures removed { self.new ≡ record self.old {
          records = without self.old.records key.now.name key.now.record_type.0;
        } }
    {
        self.records.remove(key)
    }

    /// Takes all sets out; the signers stay. This doesn't allocate.
    pub fn clear(&mut self)
        ensures { self.new ≡ record self.old { records = [] } }
    {
        self.records.clear();
    }

    /// Inserts `key`, the record of the key of `signer`, and puts the signer behind the others.
    ///
    /// The record is inserted as [`InnerInMemory::upsert`] says, with the zone's `serial` and class `dns_class`. Where
    /// it isn't taken the signer is added all the same. Its only error is `Memory`, which leaves the zone as it was.
    pub fn add_signer(
        &mut self,
        signer: S,
        key: Record,
        serial: u32,
        dns_class: DNSClass,
    ) -> Result<(), ProtoError>
        ensures ok { OnOk result
            (self.new
            ≡ record {
              records = unwrap_or (upserted self.old.records dns_class.0 key serial)
                  self.old.records;
              signers = self.old.signers ++ signer ∷ [];
            }) }
        ensures zone { IsZone self.new.records }
        ensures cnames { CnamesStandAlone self.old.records → CnamesStandAlone self.new.records }
        ensures err { IsOkUnless result ProtoError.Memory }
        ensures same { OnErr result (self.new ≡ self.old) }
    {
        self.signers.push(signer)?;
        match self.records.upsert(key, serial, dns_class) {
            Ok(_) => Ok(()),
            Err(error) => {
                let _ = self.signers.pop();
                Err(error)
            }
        }
    }
}
