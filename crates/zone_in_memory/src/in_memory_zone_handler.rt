//! A zone in memory: how it is made, and how it answers.
ghost use Rattle.std.specs.Prelude.{◌≡◌, ◌⊎◌, Option, false, [], Ok, Err, IfErr, IfOk, IsOkUnless, option_copied};
ghost use Rattle.zone_proto.specs.Names.{Name, lower};
ghost use Rattle.zone_proto.specs.Types.{IN, SOA, AXFR, NSEC3};
ghost use Rattle.zone_lookup.specs.StartOfAuthority.{soa, serial, minimum};
ghost use Rattle.zone_lookup.specs.Replies.{negative_answer, IsReplyFor};
ghost use Rattle.zone_in_memory.specs.Lookup.{error_of, SaysOrMemory};
ghost use Rattle.zone_map.specs.AnyTypes.{searched_type};
ghost use Rattle.zone_in_memory.specs.Construction.{made};
ghost use Rattle.zone_signing.specs.Signatures.{answer_signatures};
ghost use Rattle.zone_map.specs.Upserts.{CnamesStandAlone};
ghost use Rattle.zone_map.specs.Wildcards.{asked_wildcard_exists};
ghost use Rattle.zone_map.specs.Zones.{IsZone};

mod changes;
mod denial;
mod handler;
mod signing;

use crate::answering::answer;
use crate::construction;
use std::collections::BTreeMap;
use std::marker::Model;
use zone_handler::{
    AuthLookup, AxfrPolicy, LookupControlFlow, LookupError, LookupOptions, NetError,
    Nsec3QueryInfo, Request, RequestInfo, TSigResponseContext, ZoneHandler, ZoneTransfer, ZoneType,
};
use zone_lookup::start_of_authority::first_soa;
use zone_lookup::{InnerInMemory, Outcome, Searches, ZoneError};
use zone_map::{Reads, SetMap};
use zone_proto::{
    DNSClass, LowerName, Name, Nsec3Hash, NxProofKind, RecordSet, RecordType, ResponseCode, RrKey,
    SOA, Signer,
};

// The class of every zone that is made here.
const CLASS: DNSClass = DNSClass::IN;

/// An authoritative zone in memory.
///
/// `S` is what signs its record sets, and `H` hashes the names of NSEC3 denials.
pub struct InMemoryZoneHandler<S: Signer, H: Nsec3Hash> {
    // The key of the zone's SOA, whose name is the origin: a lookup of the serial then needs no key of its own.
    apex: RrKey,
    class: DNSClass,
    zone_type: ZoneType,
    axfr_policy: AxfrPolicy,
    nx_proof_kind: Option<NxProofKind>,
    inner: InnerInMemory<S>,
    hash: H,
}

/// A call of its own, so that the proofs of all that drop a zone don't go into its parts.
impl<S: Signer, H: Nsec3Hash> Drop for InMemoryZoneHandler<S, H> {
    fn drop(self) {
        let InMemoryZoneHandler {
            apex: _,
            class: _,
            zone_type: _,
            axfr_policy: _,
            nx_proof_kind: _,
            inner: _,
            hash: _,
        } = self;
    }
}

impl<S: Signer, H: Nsec3Hash> Model for InMemoryZoneHandler<S, H> {
    ghost use Rattle.zone_in_memory.specs.Handlers.{Zone, IsHandler};

    ghost Value = { Zone S H };

    ghost view = { λ zone.
        record {
          origin = zone.apex.name;
          class = zone.class.0;
          zone_type = zone.zone_type;
          axfr_policy = zone.axfr_policy;
          kind = zone.nx_proof_kind;
          inner = zone.inner;
          hash = zone.hash;
        } };

    ghost invariant = { λ zone. IsHandler zone.apex zone.class.0 zone.inner.records };
}

impl<S: Signer, H: Nsec3Hash> InMemoryZoneHandler<S, H> {
    /// A zone without records and signers, of class IN. This doesn't allocate.
    ///
    /// `origin` is the name at its top, `zone_type` what the server is to it, `axfr_policy` who may transfer it,
    /// `nx_proof_kind` how it denies once it is signed, and `hash` what its NSEC3 denials are hashed by.
    pub fn empty(
        origin: Name,
        zone_type: ZoneType,
        axfr_policy: AxfrPolicy,
        nx_proof_kind: Option<NxProofKind>,
        hash: H,
    ) -> Self
        ensures made { result
            ≡ record {
              origin = lower origin;
              class = IN;
              zone_type = zone_type;
              axfr_policy = axfr_policy;
              kind = nx_proof_kind;
              inner = record { records = []; signers = [] };
              hash = hash;
            } }
        ensures cnames { CnamesStandAlone result.inner.records }
    {
        let alloc = origin.alloc();
        InMemoryZoneHandler {
            apex: RrKey::new(LowerName::from(origin), RecordType::SOA),
            class: CLASS,
            zone_type,
            axfr_policy,
            nx_proof_kind,
            inner: InnerInMemory::new(alloc),
            hash,
        }
    }

    /// A zone made of record sets by their keys, without signers, of class IN.
    ///
    /// The records of the sets are inserted in the order of the keys and without their signatures, each with the serial
    /// of the SOA that is passed in; a set without records adds nothing. Refused, in this order: `MissingSoa` where no
    /// set is under the origin and SOA whose first record is SOA data; `KeyMismatch` where a key isn't its set's own
    /// owner name, in lower case, and type; `Refused`, with the set's owner and type, for the first set of which a
    /// record isn't taken, as [`InMemoryZoneHandler::upsert`] says. `Memory` may come instead of any of these.
    pub fn new(
        origin: Name,
        records: BTreeMap<RrKey, RecordSet>,
        zone_type: ZoneType,
        axfr_policy: AxfrPolicy,
        nx_proof_kind: Option<NxProofKind>,
        hash: H,
    ) -> Result<Self, ZoneError>
        ensures ok { IfOk result (λ zone. made origin records.entries ≡ Ok zone.inner.records) }
        ensures parts { IfOk result (λ zone. zone
            ≡ record {
              origin = lower origin;
              class = IN;
              zone_type = zone_type;
              axfr_policy = axfr_policy;
              kind = nx_proof_kind;
              inner = record { records = zone.inner.records; signers = [] };
              hash = hash;
            }) }
        ensures cnames { IfOk result (λ zone. CnamesStandAlone zone.inner.records) }
        ensures err { IfErr result
            (λ error. (error ≡ ZoneError.Memory) ⊎ (made origin records.entries ≡ Err error)) }
    {
        let alloc = origin.alloc();
        let Ok(name) = LowerName::new(&origin) else {
            return Err(ZoneError::Memory);
        };
        let apex = RrKey::new(name, RecordType::SOA);
        let map = construction::make(&origin, &apex, &records)?;
        // The map has copies. What the sets took is free before its nodes, half full as it was filled in order, are made anew.
        drop(records);
        let Ok(map) = map.compacted(alloc) else {
            return Err(ZoneError::Memory);
        };
        Ok(InMemoryZoneHandler {
            apex,
            class: CLASS,
            zone_type,
            axfr_policy,
            nx_proof_kind,
            inner: InnerInMemory::with_records(alloc, map),
            hash,
        })
    }

    /// The zone's class, which is IN of every zone (RFC 1035 section 3.2.4).
    pub fn class(&self) -> DNSClass
        ensures zone { result.0 ≡ self.now.class }
        ensures internet { result.0 ≡ IN }
    {
        self.class
    }

    /// The record sets by their keys, in the order of the keys.
    pub fn records(&self) -> &SetMap
        ensures entries { result.now ≡ self.now.inner.records }
        ensures zone { IsZone self.now.inner.records }
        ensures origin { lower self.now.origin ≡ self.now.origin }
    {
        self.inner.as_map()
    }

    /// The record sets and signers.
    pub fn inner(&self) -> &InnerInMemory<S>
        ensures inner { result.now ≡ self.now.inner }
        ensures zone { IsZone self.now.inner.records }
    {
        &self.inner
    }

    /// The zone's serial: that of the SOA data at the origin (RFC 1035 section 3.3.13), 0 without an SOA.
    pub fn serial(&self) -> u32
        ensures { result ≡ serial self.now.inner.records self.now.origin }
    {
        match self.soa() {
            Some(soa) => soa.serial,
            None => 0,
        }
    }

    /// The zone's minimum, in seconds: that of the SOA data at the origin, which is the TTL of its negative answers
    /// (RFC 2308 section 4); 0 without an SOA.
    pub fn minimum_ttl(&self) -> u32
        ensures { result ≡ minimum self.now.inner.records self.now.origin }
    {
        match self.soa() {
            Some(soa) => soa.minimum,
            None => 0,
        }
    }

    /// The SOA data at the origin.
    fn soa(&self) -> Option<&SOA>
        ensures { option_copied result ≡ soa self.now.inner.records self.now.origin }
    {
        first_soa(self.inner.get(&self.apex)?)
    }

    /// The answer to a query of a type other than AXFR.
    pub(crate) fn answer(
        &self,
        name: &LowerName,
        record_type: RecordType,
        lookup_options: LookupOptions,
        now: u64,
    ) -> Result<AuthLookup, LookupError>
        ensures { SaysOrMemory lookup_options
            (IsReplyFor
            (answer_signatures S.signature_of now lookup_options.dnssec_ok
            self.now.inner.signers)
            self.now.origin self.now.inner.records lookup_options.dnssec_ok name.now
            (searched_type self.now.inner.records name.now record_type.0))
            (LookupControlFlow.Continue result) }
    {
        let record_type = self.searched_type(name, record_type)?;
        let mut searches = Searches::new();
        let inner = &self.inner;
        match inner.find(name, record_type, lookup_options, &mut searches)? {
            Outcome::Found(found) => Ok(answer(
                inner,
                name,
                record_type,
                found,
                lookup_options,
                now,
                &mut searches,
            )?),
            Outcome::NoData => Err(LookupError::for_name_exists()),
            Outcome::NoName => Err(self.negative_answer(name)?),
        }
    }

    /// The type that is searched for a query of a type: for one of ANY it is chosen.
    fn searched_type(
        &self,
        name: &LowerName,
        record_type: RecordType,
    ) -> Result<RecordType, LookupError>
        ensures searched { IfOk result
            (λ searched. searched.0 ≡ searched_type self.now.inner.records name.now record_type.0) }
        ensures err { IsOkUnless result LookupError.Memory }
    {
        if record_type == RecordType::ANY {
            return self.inner.replace_any(name);
        }
        Ok(record_type)
    }

    /// The negative answer for a name that has no wildcard which exists. Its only error is `Memory`.
    fn negative_answer(&self, name: &LowerName) -> Result<LookupError, LookupError>
        requires no_wildcard { asked_wildcard_exists self.now.inner.records name.now ≡ false }
        ensures answer { IfOk result
            (λ error. error
            ≡ error_of (negative_answer self.now.origin self.now.inner.records name.now)) }
        ensures err { IsOkUnless result LookupError.Memory }
    {
        let is_present = self.inner.owns_at_or_below(name, &mut Reads::new())?;
        Ok(if is_present {
            LookupError::for_name_exists()
        } else if self.apex.name.zone_of(name) {
            LookupError::from(ResponseCode::NXDomain)
        } else {
            LookupError::from(ResponseCode::Refused)
        })
    }
}
