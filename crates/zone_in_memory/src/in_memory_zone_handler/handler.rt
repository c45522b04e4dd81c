//! What a zone answers: the calls of the trait `ZoneHandler`.
ghost use Rattle.std.specs.Prelude.{◌≡◌, ◌≢◌, ℕ, List, Option, true, false, Ok, Err, IsTrue, IsFalse};
ghost use Rattle.zone_proto.specs.declared.rdata.denial.NSEC3PARAM.{NSEC3PARAM as Nsec3Parameters};
ghost use Rattle.zone_proto.specs.Names.{Name, is_at_or_above, is_wildcard};
ghost use Rattle.zone_proto.specs.Types.{SOA, AXFR, NSEC, NSEC3};
ghost use Rattle.zone_denial.specs.NsecLaws.{IsNsecZone};
ghost use Rattle.zone_denial.specs.Nsec3Zones.{IsNsec3Zone, IsCircleName, IsHashed, HasDistinctDigests};
ghost use Rattle.zone_denial.specs.WildcardLaws.{OwnsNone, DeniesWildcard, Nsec3DeniesWildcard};
ghost use Rattle.lookup_types.specs.Hashing.{digest_for};
ghost use Rattle.zone_handler.specs.Transfers.{IsNoLookup};
ghost use Rattle.zone_lookup.specs.Replies.{negative_answer};
ghost use Rattle.zone_in_memory.specs.Lookup.{IsLookup, IsAnswered, IsNameError};
ghost use Rattle.denial_laws.specs.Scope.{IsInScope};
ghost use Rattle.denial_laws.specs.Nsec3Scope.{IsInNsec3Scope};
ghost use Rattle.denial_laws.specs.Soundness.{IsTopmostCut};
ghost use Rattle.zone_in_memory.specs.NsecAnswers.{IsNsecAnswer, HasNsecProof, HasWildcardProof, HasAcceptedRecords, AgreesWithCircle};
ghost use Rattle.zone_in_memory.specs.Nsec3Steps.{IsNsec3Answer};
ghost use Rattle.zone_in_memory.specs.Nsec3Answers.{AgreesWithNsec3Circle, HasNsec3Proof, HasNsec3WildcardProof, HasAcceptedNsec3Records, HasAskedWildcardProof, HasNextCloser};
ghost use Rattle.zone_in_memory.specs.ValidatorAnswers.{HasNoProof, HasNoProofBelowCut, HasFoundParameters, HasOptOutProof, AgreesWithProofs, AgreesWithNsec3Proofs};
ghost use Rattle.zone_in_memory.specs.Requests.{IsSearch};
ghost use Rattle.zone_in_memory.specs.Transfers.{IsZoneTransfer};
ghost use Rattle.zone_in_memory.specs.Construction.{made};
ghost use Rattle.zone_map.specs.Wildcards.{asked_wildcard_exists};
ghost use Rattle.zone_map.specs.Zones.{owns};

use crate::in_memory_zone_handler::InMemoryZoneHandler;
use zone_handler::{
    AuthLookup, AxfrPolicy, LookupControlFlow, LookupError, LookupOptions, NetError,
    Nsec3QueryInfo, Request, RequestInfo, TSigResponseContext, ZoneHandler, ZoneTransfer, ZoneType,
};
use zone_proto::{LowerName, Nsec3Hash, NxProofKind, RecordType, Signer};

impl<S: Signer, H: Nsec3Hash> ZoneHandler for InMemoryZoneHandler<S, H> {
    ghost zone_type_of = { λ zone. zone.zone_type };

    ghost axfr_policy_of = { λ zone. zone.axfr_policy };

    ghost origin_of = { λ zone. zone.origin };

    ghost kind_of = { λ zone. zone.kind };

    ghost lookup_gives = { IsLookup S.signature_of };

    ghost denial_gives = { IsNsecAnswer };

    ghost hashed_denial_gives = { IsNsec3Answer H.digest_of };

    ghost transfer_gives = { λ zone request options now answer.
        IsZoneTransfer S.signature_of zone request.queries.items options now answer };

    ghost search_gives = { λ zone request options now answer.
        IsSearch (λ name type step. IsLookup S.signature_of zone name type options now step)
        request.queries.items answer };

    fn zone_type(&self) -> ZoneType {
        self.zone_type
    }

    fn axfr_policy(&self) -> AxfrPolicy {
        self.axfr_policy
    }

    fn origin(&self) -> &LowerName {
        &self.apex.name
    }

    fn nx_proof_kind(&self) -> Option<&NxProofKind> {
        self.nx_proof_kind.as_ref()
    }

    /// What the zone answers for `name` and `record_type`.
    ///
    /// A query of type AXFR is broken off with an error, whatever the zone holds: a transfer isn't a lookup. For a query
    /// of ANY the type is [`InnerInMemory::replace_any`]'s. Any other is answered by the set that
    /// [`InnerInMemory::inner_lookup`] finds, or, if that is a CNAME and the query isn't for CNAME, by the chain that
    /// [`InnerInMemory::chase_cnames`] gives from it (RFC 1034 section 3.6.2). Sets come with their signatures where
    /// `lookup_options` ask for DNSSEC.
    ///
    /// # Additional records
    ///
    /// The additional section has what [`InnerInMemory::additional_search`] gives from where the last of these sets
    /// leads: an ANAME set for A, AAAA and ANAME, and a set of NS, MX or SRV for its own type. Where nothing is found
    /// there is no such section. If addresses are asked for and that last set is an ANAME set, it comes first among the
    /// additional sets. An ANAME set that is answered alone is then flattened: in its place stands a set of its owner
    /// and the type that is asked for, with the data of the last additional set where this is of that type, and with
    /// the lesser TTL of both. Where DNSSEC is asked for it is signed by each signer of the zone that signs it, unless
    /// the moment `now`, in seconds since 1970, is past the year 9999.
    ///
    /// # Errors
    ///
    /// Where nothing is found the answer is `NameExists` if the name or a name below it owns a set (RFC 2308 section
    /// 2.2), or if the wildcard that [`InnerInMemory::inner_lookup`] asks for it exists (RFC 4592 section 2.2.1), else
    /// `NXDomain` for a name at or below the origin (RFC 2308 section 2.1), and else `Refused` (RFC 1035 section
    /// 4.1.1). `Memory` may come in place of these, but not of the answer to AXFR. `request_info` isn't used.
    ///
    /// # DNSSEC
    ///
    /// In a zone whose NSEC or NSEC3 sets are a circle the answer agrees with them: `NXDomain` comes only for a name
    /// that isn't on the circle, and `NameExists` for a name on it only for a type that its set doesn't list, RRSIG
    /// aside. `NXDomain` for a name that doesn't begin with `*` also comes only where the wildcard at the name's
    /// closest encloser isn't on the circle, and then a set of the name's denial covers this wildcard (RFC 4035 section
    /// 3.1.3.2, RFC 5155 section 7.2.2): so it is where the zone has no sets of the other of the two types and, with
    /// NSEC3, no opt-out, and the hash gives the names on the circle and those that the denial asks of digests of one
    /// length that differ.
    ///
    /// Nor does it contradict what a validator concludes from any NSEC records of the zone, of names that
    /// [`ZoneHandler::nsec_records`] says this of: where they prove a name error the answer is `NXDomain`, and where they prove
    /// that there is no data, or none at all at an empty non-terminal, `NameExists`; of A and AAAA where no ANAME answers for
    /// them, and by a wildcard of a name that doesn't begin with `*`. So it is of NSEC3 records, on the conditions of
    /// [`ZoneHandler::nsec3_records`].
    fn lookup(
        &self,
        name: &LowerName,
        record_type: RecordType,
        _request_info: Option<&RequestInfo<'_>>,
        lookup_options: LookupOptions,
        now: u64,
    ) -> LookupControlFlow<AuthLookup>
        ensures answer { IsLookup S.signature_of self.now name.now record_type.0 lookup_options now
            result }
        ensures transfer { record_type.0 ≡ AXFR → IsNoLookup result }
        ensures owned_is_answered { IsTrue (owns self.now.inner.records name.now record_type.0)
            → record_type.0 ≢ AXFR → IsAnswered result }
        ensures existing_wildcard { IsTrue (asked_wildcard_exists self.now.inner.records name.now)
            → ¬ IsNameError result }
        ensures circle { IsNsecZone self.now.origin self.now.inner.records
            → AgreesWithCircle self.now.origin self.now.inner.records name.now record_type.0
            result }
        ensures nsec3_circle { (hash : Name → Option (List ℕ)) (parameters : Nsec3Parameters)
            → IsNsec3Zone self.now.origin self.now.inner.records hash parameters
            → AgreesWithNsec3Circle self.now.origin self.now.inner.records hash parameters.opt_out
            name.now record_type.0 result }
        ensures absent_wildcard { IsNsecZone self.now.origin self.now.inner.records
            → OwnsNone self.now.inner.records NSEC3 → IsFalse (is_wildcard name.now)
            → IsNameError result → DeniesWildcard self.now.origin self.now.inner.records name.now }
        ensures nsec3_absent_wildcard { (hash : Name → Option (List ℕ)) (parameters :
            Nsec3Parameters)
            → IsNsec3Zone self.now.origin self.now.inner.records hash parameters
            → IsFalse parameters.opt_out → OwnsNone self.now.inner.records NSEC
            → HasDistinctDigests
            (IsHashed self.now.origin self.now.inner.records parameters.opt_out name.now) hash
            → IsFalse (is_wildcard name.now) → IsNameError result
            → Nsec3DeniesWildcard self.now.origin self.now.inner.records hash parameters.opt_out
            name.now }
        ensures proofs { record_type.0 ≢ AXFR
            → IsInScope self.now.origin self.now.inner.records name.now
            → AgreesWithProofs self.now.origin self.now.inner.records name.now record_type.0
            result }
        ensures nsec3_proofs { record_type.0 ≢ AXFR → (hash : Name → Option (List ℕ))
            (parameters : Nsec3Parameters)
            → IsInNsec3Scope self.now.origin self.now.inner.records hash parameters name.now
            → AgreesWithNsec3Proofs self.now.origin self.now.inner.records hash
            parameters.opt_out name.now record_type.0 result }
    {
        if record_type == RecordType::AXFR {
            let error = NetError::from("AXFR must be handled with ZoneHandler::zone_transfer()");
            return LookupControlFlow::Break(Err(LookupError::from(error)));
        }
        LookupControlFlow::Continue(self.answer(name, record_type, lookup_options, now))
    }

    /// What the zone answers for the only question of `request`: what [`ZoneHandler::lookup`] answers for its name and type,
    /// with these `lookup_options`, at the moment `now`, in seconds since 1970. A request with no question or with several
    /// is broken off by `BadQueryCount` with their number, for which no memory is taken (RFC 9619 section 4). No response is
    /// signed, so that the second part is None.
    fn search(
        &self,
        request: &Request,
        lookup_options: LookupOptions,
        now: u64,
    ) -> (LookupControlFlow<AuthLookup>, Option<TSigResponseContext>) {
        let info = match request.request_info() {
            Ok(info) => info,
            Err(error) => return (LookupControlFlow::Break(Err(error)), None),
        };
        let query = info.query;
        let step = self.lookup(
            query.name(),
            query.query_type(),
            Some(&info),
            lookup_options,
            now,
        );
        (step, None)
    }

    /// The NSEC records that deny what `name` doesn't own, or that there is such a name, with their signatures where
    /// `lookup_options` ask for DNSSEC.
    ///
    /// A name that owns an NSEC set is denied by that one, whose list tells what the name owns (RFC 4035 section
    /// 3.1.3.1). Any other is denied by the closest NSEC sets, as [`InnerInMemory::closest_nsec`] says, of the wildcard
    /// at its closest encloser and of the name itself, in this order, or by one where they are the same (section
    /// 3.1.3.2). The closest encloser is the longest proper ancestor, not above the origin, that owns NSEC or has such
    /// a name below it, or else the origin. Of a name outside the zone the origin stands in place of the wildcard, and
    /// of the origin nothing does. A set that isn't found is left out. So it is in any zone, and whatever its kind; the
    /// answer has no additional section. `Memory` may come in place of it.
    ///
    /// # In a secured zone
    ///
    /// In a zone whose NSEC sets are a circle, as they are once [`InMemoryZoneHandler::secure_zone_mut`] made them,
    /// these deny each name of the zone: the name's own set is found, or the last set covers the name; and in this case
    /// they also have the set of the wildcard at the closest encloser, or one that covers the wildcard. Of names
    /// outside the zone nothing is said.
    ///
    /// A validator makes of their records what [`InMemoryZoneHandler::lookup`] answers, as `denial_validation`, which
    /// knows no zone, says: they prove a name error exactly where `NXDomain` is answered, if `name` doesn't begin with
    /// `*`, and absent data, the wildcard that answers or a delegation without DS (RFC 4035 section 5.4). So it is of a
    /// name of the zone that no zone cut and no DNAME is above, where no name owns NSEC3; but not of RRSIG, ANY and the
    /// DS of an apex. What `nsec::proof` tells by them is the case that the zone has. Of a name below a zone cut they
    /// prove nothing (RFC 6840 section 4.1), nor, in any zone, of a name outside it.
    fn nsec_records(
        &self,
        name: &LowerName,
        lookup_options: LookupOptions,
    ) -> LookupControlFlow<AuthLookup>
        ensures answer { IsNsecAnswer self.now name.now lookup_options result }
        ensures proof { IsNsecZone self.now.origin self.now.inner.records
            → IsTrue (is_at_or_above self.now.origin name.now)
            → HasNsecProof self.now.origin self.now.inner.records name.now result }
        ensures enclosed_wildcard { IsNsecZone self.now.origin self.now.inner.records
            → IsTrue (is_at_or_above self.now.origin name.now)
            → IsFalse (owns self.now.inner.records name.now NSEC)
            → HasWildcardProof self.now.origin self.now.inner.records name.now result }
        ensures accepted { IsInScope self.now.origin self.now.inner.records name.now
            → HasAcceptedRecords self.now.origin self.now.inner.records name.now result }
        ensures below_cut { (cut : Name) → IsNsecZone self.now.origin self.now.inner.records
            → IsTopmostCut self.now.origin self.now.inner.records name.now cut
            → HasNoProof self.now.origin name.now result }
        ensures outside { IsFalse (is_at_or_above self.now.origin name.now)
            → HasNoProof self.now.origin name.now result }
    {
        LookupControlFlow::Continue(self.nsec_answer(name, lookup_options))
    }

    /// The NSEC3 records that deny the query which `info` tells of, or that a wildcard answered it, with their signatures where
    /// `lookup_options` ask for DNSSEC: what [`InnerInMemory::proof`] gives with the zone's origin and hash, in any zone and
    /// whatever its kind. The answer has no additional section. Refused as `proof` is.
    ///
    /// # In a secured zone
    ///
    /// In a zone whose NSEC3 sets are a circle by the parameters of `info` and by the zone's hash, and below the root,
    /// these deny each name of the zone to which no wildcard answered: the name's own set is found, where the name is
    /// on the circle, and else the set of its closest encloser and one that covers the next closer name (RFC 5155
    /// section 7.2.1), and the set of the wildcard at that encloser or one that covers the wildcard (section 7.2.2).
    /// That is so where the hash gives the names on the circle and those that it is asked of digests of one length that
    /// differ. Then a query for a name below the origin is also answered where a wildcard answered it, and refused by
    /// `Memory` alone: unless the name is on the circle, its sets have one that covers the next closer name (section
    /// 7.2.6).
    ///
    /// Without opt-out a validator makes of their records what is answered, as with
    /// [`InMemoryZoneHandler::nsec_records`] (RFC 5155 section 8): of such a name that owns no NSEC3, where no name
    /// owns NSEC and the origin is no delegation. With opt-out too, of a name below a zone cut that it doesn't leave
    /// out they prove nothing, where no wildcard answered, and they prove that a name isn't there only where what is
    /// there is an unsigned delegation that it leaves out, or is below a zone cut. `nsec3::proof` finds the zone's
    /// parameters in them, if these are those of `info`.
    fn nsec3_records(
        &self,
        info: Nsec3QueryInfo<'_>,
        lookup_options: LookupOptions,
    ) -> LookupControlFlow<AuthLookup>
        ensures answer { IsNsec3Answer H.digest_of self.now info.entry lookup_options result }
        ensures proof { (parameters : Nsec3Parameters)
            → IsNsec3Zone self.now.origin self.now.inner.records
            (digest_for (H.digest_of self.now.hash) info.entry) parameters
            → info.entry.has_wildcard_match ≡ false
            → IsTrue (is_at_or_above self.now.origin info.entry.qname.now)
            → HasDistinctDigests
            (IsHashed self.now.origin self.now.inner.records parameters.opt_out
            info.entry.qname.now)
            (digest_for (H.digest_of self.now.hash) info.entry)
            → HasNsec3Proof self.now.origin self.now.inner.records
            (digest_for (H.digest_of self.now.hash) info.entry) parameters.opt_out
            info.entry.qname.now result }
        ensures enclosed_wildcard { (parameters : Nsec3Parameters)
            → IsNsec3Zone self.now.origin self.now.inner.records
            (digest_for (H.digest_of self.now.hash) info.entry) parameters
            → info.entry.has_wildcard_match ≡ false
            → IsTrue (is_at_or_above self.now.origin info.entry.qname.now)
            → HasDistinctDigests
            (IsHashed self.now.origin self.now.inner.records parameters.opt_out
            info.entry.qname.now)
            (digest_for (H.digest_of self.now.hash) info.entry)
            → (IsCircleName self.now.origin self.now.inner.records parameters.opt_out
            info.entry.qname.now
            → ⊥)
            → HasNsec3WildcardProof self.now.origin self.now.inner.records
            (digest_for (H.digest_of self.now.hash) info.entry) parameters.opt_out
            info.entry.qname.now result }
        ensures closer { HasNextCloser H.digest_of self.now info.entry result }
        ensures accepted { info.entry.has_wildcard_match ≡ false
            → HasAcceptedNsec3Records H.digest_of self.now info.entry result }
        ensures wildcard { info.entry.has_wildcard_match ≡ true
            → HasAskedWildcardProof H.digest_of self.now info.entry result }
        ensures below_cut { info.entry.has_wildcard_match ≡ false
            → HasNoProofBelowCut H.digest_of self.now info.entry result }
        ensures parameters { HasFoundParameters H.digest_of self.now info.entry result }
        ensures opt_out { HasOptOutProof H.digest_of self.now info.entry result }
    {
        LookupControlFlow::Continue(self.nsec3_answer(info, lookup_options))
    }

    /// The whole zone: what [`ZoneHandler::lookup`] answers for its SOA, with these `lookup_options`, at the moment `now`, in
    /// seconds since 1970; the records of all sets in the order of their keys, with their signatures where the options ask
    /// for DNSSEC, but none of type SOA; and the same answer for the SOA again, without signatures (RFC 5936 section 2.2).
    /// The answer sections alone are listed; such a part is empty where the lookup has no answer.
    ///
    /// Refused by `BadQueryCount`, with the number of questions, for none and for several; and, if the only question is of
    /// type AXFR, by `Refused` unless the policy is `AllowAll`: no signature of a request is tested, so `AllowSigned` lets
    /// nobody have the zone. Of a question of another type the policy isn't asked. These refusals take no memory. `Memory`
    /// may come in place of a transfer. The answer is never None, and no response is signed, so that the second part is
    /// None.
    fn zone_transfer(
        &self,
        request: &Request,
        lookup_options: LookupOptions,
        now: u64,
    ) -> Option<
        (
            Result<ZoneTransfer, LookupError>,
            Option<TSigResponseContext>,
        ),
    >
        ensures { IsZoneTransfer S.signature_of self.now request.now.queries.items lookup_options
            now result }
    {
        Some((self.transfer(request, lookup_options, now), None))
    }
}
