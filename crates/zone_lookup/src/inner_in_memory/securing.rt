//! The record sets of a zone once it is secured.
ghost use Rattle.std.specs.Prelude.{◌≡◌, ◌⊎◌, ℕ, None, Some, IfOk, IfErr, OnOk, OnErr, IsOkUnless, option_copied};
ghost use Rattle.zone_proto.specs.Names.{Name};
ghost use Rattle.zone_proto.specs.Types.{SOA, CNAME, NSEC};
ghost use Rattle.zone_map.specs.Zones.{owns, IsZone};
ghost use Rattle.zone_signing.specs.Secured.{IsSecured};
ghost use Rattle.zone_lookup.specs.StartOfAuthority.{minimum, serial};
ghost use Rattle.zone_lookup.specs.Denials.{denied_at, AreKeptByType};
ghost use Rattle.zone_lookup.specs.Securing.{denied_by, with_nsec3_sets, denial_fault, to_be_signed, nsec3_kind, with_nsec_sets};

use crate::inner_in_memory::InnerInMemory;
use crate::start_of_authority::first_soa;
use lookup_types::SecureError;
use zone_denial::{nsec_sets, nsec3_sets};
use zone_map::{NewSets, RecordMap};
use zone_proto::{NSEC3PARAM, Nsec3Hash, NxProofKind, ProtoError, RecordType, RrKey, Signer};
use zone_signing::{keeping, securing};

/// The denials of a zone that is secured.
#[derive(Drop)]
enum Denials {
    /// Those that the zone has, if any.
    AsTheyAre,
    /// These sets, in place of those of the type.
    New(RecordType, NewSets),
    /// Those of the type that are in the zone, with this serial.
    Kept(RecordType, u32),
}

/// What `zone_in_memory` makes a zone of: no user of a zone needs it.
#[doc(hidden)]
impl<S: Signer> InnerInMemory<S> {
    /// Secures the record sets of the zone whose SOA is under `apex`, and which is denied as `kind` says: makes its
    /// denials where it is to have some, steps its serial, and signs its sets at the moment `now`, in seconds since
    /// 1970.
    ///
    /// Denials are made anew where there is a signer: NSEC sets or, by `hash`, NSEC3 sets and the NSEC3PARAM record,
    /// with the minimum and the serial that the SOA has before; without an SOA both are 0. They come in place of those
    /// that are in the zone, which stay where none are made. Each set is then signed by each signer in order, and loses
    /// the signatures that it has. Refused, where NSEC3 sets are to be made, by `CnameAtOrigin`, `Hash` and
    /// `OwnerTooLong`, in this order; and by `Memory`, of a signer or the hash too. A refusal leaves the zone as it
    /// was.
    pub fn secure<H: Nsec3Hash>(
        &mut self,
        apex: &RrKey,
        kind: Option<&NxProofKind>,
        hash: &H,
        now: u64,
    ) -> Result<(), SecureError>
        requires { apex.now.record_type.0 ≡ SOA }
        ensures zone { IsZone self.new.records }
        ensures ok { OnOk result
            (IsSecured S.signature_of now apex.now.name self.old.signers
            (to_be_signed (H.digest_of hash.now) apex.now.name self.old.records
            (option_copied kind.entry) self.old.signers)
            self.new.records) }
        ensures fits { OnOk result
            (denial_fault (H.digest_of hash.now) apex.now.name self.old.records
            (denied_by (option_copied kind.entry) self.old.signers)
            ≡ None) }
        ensures signers { self.new.signers ≡ self.old.signers }
        ensures err { IfErr result
            (λ e. (e ≡ SecureError.Memory)
            ⊎ (denial_fault (H.digest_of hash.now) apex.now.name self.old.records
            (denied_by (option_copied kind.entry) self.old.signers)
            ≡ Some e)) }
        ensures same { OnErr result (self.new ≡ self.old) }
    {
        let denials = self.denials(apex, kind, hash)?;
        let signers = self.signers.as_slice();
        match secure_denied(&mut self.records, denials, apex, signers, now) {
            Ok(()) => Ok(()),
            Err(_) => Err(SecureError::Memory),
        }
    }

    /// The denials that the zone gets, or those that are in it where it gets no other.
    fn denials<H: Nsec3Hash>(
        &self,
        apex: &RrKey,
        kind: Option<&NxProofKind>,
        hash: &H,
    ) -> Result<Denials, SecureError>
        requires { apex.now.record_type.0 ≡ SOA }
        ensures ok { IfOk result
            (λ denials. (n : Name) (t : ℕ)
            → denied_at denials self.now.records n t
            ≡ to_be_signed (H.digest_of hash.now) apex.now.name self.now.records
            (option_copied kind.entry) self.now.signers n t) }
        ensures kept { IfOk result AreKeptByType }
        ensures fits { OnOk result
            (denial_fault (H.digest_of hash.now) apex.now.name self.now.records
            (denied_by (option_copied kind.entry) self.now.signers)
            ≡ None) }
        ensures err { IfErr result
            (λ e. (e ≡ SecureError.Memory)
            ⊎ (denial_fault (H.digest_of hash.now) apex.now.name self.now.records
            (denied_by (option_copied kind.entry) self.now.signers)
            ≡ Some e)) }
    {
        match self.denied_by(kind) {
            None => Ok(Denials::AsTheyAre),
            Some(NxProofKind::Nsec) => match self.nsec_denials(apex) {
                Ok(denials) => Ok(denials),
                Err(_) => Err(SecureError::Memory),
            },
            Some(
                NxProofKind::Nsec3 {
                    algorithm,
                    salt,
                    iterations,
                    opt_out,
                },
            ) => {
                let Ok(salt) = salt.clone() else {
                    return Err(SecureError::Memory);
                };
                let parameters = NSEC3PARAM {
                    algorithm: *algorithm,
                    opt_out: *opt_out,
                    iterations: *iterations,
                    salt,
                };
                self.nsec3_denials(apex, &parameters, hash)
            }
        }
    }

    /// The kind of the denials that the zone gets: none without a signer.
    fn denied_by<'k>(&self, kind: Option<&'k NxProofKind>) -> Option<&'k NxProofKind>
        ensures { option_copied result ≡ denied_by (option_copied kind.entry) self.now.signers }
    {
        if self.signers.is_empty() { None } else { kind }
    }

    /// The NSEC sets of the zone whose SOA is under `apex`, or those that are in it where they are the same.
    fn nsec_denials(&self, apex: &RrKey) -> Result<Denials, ProtoError>
        requires { apex.now.record_type.0 ≡ SOA }
        ensures ok { IfOk result
            (λ denials. (n : Name) (t : ℕ)
            → denied_at denials self.now.records n t
            ≡ with_nsec_sets apex.now.name self.now.records n t) }
        ensures kept { IfOk result AreKeptByType }
        ensures err { IsOkUnless result ProtoError.Memory }
    {
        let (minimum, serial) = self.minimum_and_serial(apex);
        match nsec_sets::nsec_sets(&self.records, &apex.name, minimum, serial)? {
            Some(sets) => Ok(Denials::New(RecordType::NSEC, sets)),
            None => Ok(Denials::Kept(RecordType::NSEC, serial)),
        }
    }

    /// The NSEC3 sets of the zone whose SOA is under `apex`, and its NSEC3PARAM set, beside which no CNAME may stand;
    /// or those that are in it where they are the same.
    fn nsec3_denials<H: Nsec3Hash>(
        &self,
        apex: &RrKey,
        parameters: &NSEC3PARAM,
        hash: &H,
    ) -> Result<Denials, SecureError>
        requires { apex.now.record_type.0 ≡ SOA }
        ensures ok { IfOk result
            (λ denials. (n : Name) (t : ℕ)
            → denied_at denials self.now.records n t
            ≡ with_nsec3_sets (H.digest_of hash.now) apex.now.name self.now.records
            parameters.now n t) }
        ensures kept { IfOk result AreKeptByType }
        ensures fits { OnOk result
            (denial_fault (H.digest_of hash.now) apex.now.name self.now.records
            (Some (nsec3_kind parameters.now))
            ≡ None) }
        ensures err { IfErr result
            (λ e. (e ≡ SecureError.Memory)
            ⊎ (denial_fault (H.digest_of hash.now) apex.now.name self.now.records
            (Some (nsec3_kind parameters.now))
            ≡ Some e)) }
    {
        match self.owns_cname(apex) {
            Ok(false) => {}
            Ok(true) => return Err(SecureError::CnameAtOrigin),
            Err(_) => return Err(SecureError::Memory),
        }
        let (minimum, serial) = self.minimum_and_serial(apex);
        match nsec3_sets::nsec3_sets(
            &self.records,
            &apex.name,
            hash,
            parameters,
            minimum,
            serial,
        )? {
            Some(sets) => Ok(Denials::New(RecordType::NSEC3, sets)),
            None => Ok(Denials::Kept(RecordType::NSEC3, serial)),
        }
    }

    /// Whether a CNAME is at the name of `apex`.
    fn owns_cname(&self, apex: &RrKey) -> Result<bool, ProtoError>
        ensures owned { IfOk result (λ owned. owned ≡ owns self.now.records apex.now.name CNAME) }
        ensures err { IsOkUnless result ProtoError.Memory }
    {
        let key = RrKey::new(apex.name.clone()?, RecordType::CNAME);
        Ok(self.get(&key).is_some())
    }

    /// The minimum and the serial of the zone whose SOA is under `apex`, which are 0 without an SOA.
    fn minimum_and_serial(&self, apex: &RrKey) -> (u32, u32)
        requires { apex.now.record_type.0 ≡ SOA }
        ensures { result
            ≡ (minimum self.now.records apex.now.name, serial self.now.records apex.now.name) }
    {
        match self.get(apex).and_then(first_soa) {
            Some(soa) => (soa.minimum, soa.serial),
            None => (0, 0),
        }
    }
}

/// Secures the record sets of a zone whose SOA is under `apex`, with these denials, at the moment `now`. Its only error
/// is `Memory`, which leaves the zone as it was.
fn secure_denied<S: Signer>(
    records: &mut RecordMap,
    denials: Denials,
    apex: &RrKey,
    signers: &[S],
    now: u64,
) -> Result<(), ProtoError>
    requires apex { apex.now.record_type.0 ≡ SOA }
    requires kept { AreKeptByType denials }
    ensures ok { OnOk result
        (IsSecured S.signature_of now apex.now.name signers.now (denied_at denials records.old)
        records.new) }
    ensures zone { OnOk result (IsZone records.new) }
    ensures err { IsOkUnless result ProtoError.Memory }
    ensures same { OnErr result (records.new ≡ records.old) }
{
    match denials {
        Denials::AsTheyAre => {
            let none = NewSets::new(apex.name.alloc());
            securing::secure(records, None, none, apex, signers, now)
        }
        Denials::New(record_type, sets) => {
            securing::secure(records, Some(record_type), sets, apex, signers, now)
        }
        Denials::Kept(record_type, serial) => {
            keeping::secure_kept(records, record_type, serial, apex, signers, now)
        }
    }
}
