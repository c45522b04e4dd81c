// What NSEC3 records prove of a name.
ghost use Rattle.std.specs.Prelude.{◌≡◌, ◌==◌, ◌&&◌, Some, false, true, IfOk, IsOkUnless};
ghost use Rattle.std.specs.Option.{option_or};
ghost use Rattle.zone_proto.specs.Names.{base_name, wildcard_under};
ghost use Rattle.zone_proto.specs.Types.{DS};
ghost use Rattle.denial_validation.specs.Encloser.{next_closer};
ghost use Rattle.denial_validation.specs.Nsec3Proofs.{proves_name_error, proves_no_data, proves_wildcard_no_data, shows_unsigned_delegation, proves_unsigned_delegation};
ghost use Rattle.denial_validation.specs.Nsec3Responses.{hash_of, owner_in, is_matched_in, is_encloser_in, is_covered_in, is_handed_on_here, shown_here, proved_here, opted_out_here, answer_in, proof_here};

use crate::nsec3_encloser::{EncloserWalk, ProvedEncloser, ShownEncloser};
use crate::nsec3_response::Nsec3Response;
use crate::proof::Proof;
use zone_proto::{Nsec3Hash, ProtoError, RecordType};

impl<'q, 'r, H: Nsec3Hash> Nsec3Response<'q, 'r, H> {
    /// Whether they prove a name error. Fails only for lack of memory.
    pub(crate) fn proves_name_error(&self) -> Result<bool, ProtoError>
        ensures ok { IfOk result (λ proved. proved
            ≡ proves_name_error self.now.apex (hash_of H.digest_of self.now) self.now.records
            self.now.name) }
        ensures err { IsOkUnless result ProtoError.Memory }
    {
        match self.proved_encloser()? {
            Some(encloser) => {
                let wildcard = self.owner_of(&encloser.wildcard)?;
                self.is_covered(wildcard.as_ref())
            }
            None => Ok(false),
        }
    }

    /// Whether they prove that the name, one of the zone, owns no set of the type, by its own record.
    pub(crate) fn proves_no_data(&self, record_type: RecordType) -> bool
        ensures { result
            ≡ proves_no_data self.now.apex (hash_of H.digest_of self.now) self.now.records
            self.now.name record_type.0 }
    {
        self.is_in_zone() && self.denies_type(self.name(), Some(self.own()), record_type)
    }

    /// Whether they prove that the wildcard that answers in the name's place owns no set of the type. Fails only for
    /// lack of memory.
    pub(crate) fn proves_wildcard_no_data(
        &self,
        record_type: RecordType,
    ) -> Result<bool, ProtoError>
        ensures ok { IfOk result (λ proved. proved
            ≡ proves_wildcard_no_data self.now.apex (hash_of H.digest_of self.now) self.now.records
            self.now.name record_type.0) }
        ensures err { IsOkUnless result ProtoError.Memory }
    {
        match self.proved_encloser()? {
            Some(encloser) => {
                let wildcard = self.owner_of(&encloser.wildcard)?;
                Ok(self.denies_type(&encloser.wildcard, wildcard.as_ref(), record_type))
            }
            None => Ok(false),
        }
    }

    /// Whether they prove a zone cut without DS. Fails only for lack of memory.
    pub(crate) fn proves_unsigned_delegation(&self) -> Result<bool, ProtoError>
        ensures ok { IfOk result (λ proved. proved
            ≡ proves_unsigned_delegation self.now.apex (hash_of H.digest_of self.now)
            self.now.records self.now.name) }
        ensures err { IsOkUnless result ProtoError.Memory }
    {
        if self.shows_own_delegation() {
            return Ok(true);
        }
        match self.proved_encloser()? {
            Some(encloser) => Ok(encloser.opted_out),
            None => Ok(false),
        }
    }

    /// Whether the name's own record shows a zone cut without DS, below the apex.
    fn shows_own_delegation(&self) -> bool
        ensures { result
            ≡ shows_unsigned_delegation self.now.apex (hash_of H.digest_of self.now)
            self.now.records self.now.name }
    {
        self.is_below_apex(self.name()) && self.is_unsigned(Some(self.own()))
    }

    /// What they prove. Fails only for lack of memory.
    pub(crate) fn proof(&self, record_type: RecordType) -> Result<Option<Proof>, ProtoError>
        ensures ok { IfOk result (λ proof. proof ≡ proof_here H.digest_of self.now record_type.0) }
        ensures err { IsOkUnless result ProtoError.Memory }
    {
        if self.is_handed_on()? {
            return Ok(None);
        }
        if self.is_matched(Some(self.own())) {
            return self.proof_by_own(record_type);
        }
        let EncloserWalk { shown, answer } = self.encloser_walk()?;
        match shown {
            Some(encloser) => self.proof_by_encloser(encloser, answer, record_type),
            None => Ok(answer),
        }
    }

    /// What they prove where one matches the name. Fails only for lack of memory.
    fn proof_by_own(&self, record_type: RecordType) -> Result<Option<Proof>, ProtoError>
        requires here { is_handed_on_here H.digest_of self.now ≡ false }
        requires matched { is_matched_in H.digest_of self.now self.now.name ≡ true }
        ensures ok { IfOk result (λ proof. proof ≡ proof_here H.digest_of self.now record_type.0) }
        ensures err { IsOkUnless result ProtoError.Memory }
    {
        if self.shows_own_delegation() {
            return Ok(Some(Proof::UnsignedDelegation));
        }
        if self.proves_no_data(record_type) {
            return Ok(Some(Proof::NoData));
        }
        self.wildcard_answer()
    }

    /// What they prove where none matches the name and they show an encloser. Fails only for lack of memory.
    fn proof_by_encloser(
        &self,
        encloser: ShownEncloser<'_>,
        answer: Option<Proof>,
        record_type: RecordType,
    ) -> Result<Option<Proof>, ProtoError>
        requires here { is_handed_on_here H.digest_of self.now ≡ false }
        requires unmatched { is_matched_in H.digest_of self.now self.now.name ≡ false }
        requires shown { shown_here H.digest_of self.now ≡ Some (base_name encloser.next_closer) }
        requires closer { next_closer self.now.name (base_name encloser.next_closer)
            ≡ Some encloser.next_closer }
        requires hashed { encloser.hashed ≡ owner_in H.digest_of self.now encloser.next_closer }
        requires covered { encloser.covered
            ≡ is_covered_in H.digest_of self.now encloser.next_closer }
        requires in_zone { encloser.in_zone
            ≡ is_encloser_in H.digest_of self.now (base_name encloser.next_closer) }
        requires answer { option_or
            (answer_in H.digest_of self.now (base_name (base_name encloser.next_closer))) answer
            ≡ answer_in H.digest_of self.now self.now.name }
        ensures ok { IfOk result (λ proof. proof ≡ proof_here H.digest_of self.now record_type.0) }
        ensures err { IsOkUnless result ProtoError.Memory }
    {
        if encloser.stands() {
            let proved = self.standing(encloser)?;
            return self.proof_by_wildcard(proved, answer, record_type);
        }
        let mut above = encloser.next_closer;
        above.shorten();
        above.shorten();
        self.wildcard_answer_above(above, answer)
    }

    /// What they prove where they prove the closest encloser. Fails only for lack of memory.
    fn proof_by_wildcard(
        &self,
        encloser: ProvedEncloser,
        answer: Option<Proof>,
        record_type: RecordType,
    ) -> Result<Option<Proof>, ProtoError>
        requires here { is_handed_on_here H.digest_of self.now ≡ false }
        requires proved { Some (base_name encloser.wildcard) ≡ proved_here H.digest_of self.now }
        requires wildcard { encloser.wildcard ≡ wildcard_under (base_name encloser.wildcard) }
        requires opted_out { encloser.opted_out ≡ opted_out_here H.digest_of self.now }
        requires answer { option_or
            (answer_in H.digest_of self.now (base_name (base_name encloser.wildcard))) answer
            ≡ answer_in H.digest_of self.now self.now.name }
        ensures ok { IfOk result (λ proof. proof ≡ proof_here H.digest_of self.now record_type.0) }
        ensures err { IsOkUnless result ProtoError.Memory }
    {
        if is_left_out(record_type, encloser.opted_out) {
            return Ok(Some(Proof::UnsignedDelegation));
        }
        let wildcard = self.owner_of(&encloser.wildcard)?;
        if self.is_covered(wildcard.as_ref())? {
            return Ok(Some(Proof::NameError {
                opted_out: encloser.opted_out,
            }));
        }
        if self.denies_type(&encloser.wildcard, wildcard.as_ref(), record_type) {
            return Ok(Some(Proof::WildcardNoData {
                opted_out: encloser.opted_out,
            }));
        }
        if encloser.opted_out {
            return Ok(Some(Proof::UnsignedDelegation));
        }
        let mut above = encloser.wildcard;
        above.shorten();
        above.shorten();
        self.wildcard_answer_above(above, answer)
    }
}

/// Whether DS is asked of a name that opt-out may leave out.
fn is_left_out(record_type: RecordType, opted_out: bool) -> bool
    ensures { result ≡ (record_type.0 == DS && opted_out) }
{
    record_type == RecordType::DS && opted_out
}
