//! The signers of a zone, and the signatures of its sets.
ghost use Rattle.std.specs.Prelude.{◌≡◌, OnOk, OnErr, IsOkUnless};
ghost use Rattle.zone_map.specs.Upserts.{CnamesStandAlone};
ghost use Rattle.zone_in_memory.specs.Signing.{with_key, IsKeyAdded, IsSecuring};

use crate::in_memory_zone_handler::InMemoryZoneHandler;
use zone_handler::{DnssecZoneHandler, KeyError, SecureError};
use zone_proto::{DNSKEY, Name, Nsec3Hash, ProtoError, RData, Record, Signer};
use zone_signing::signatures::LAST_MOMENT;

impl<S: Signer, H: Nsec3Hash> InMemoryZoneHandler<S, H> {
    /// The signers of the zone, in the order in which they were added.
    pub fn secure_keys(&self) -> &[S]
        ensures { result.now ≡ self.now.inner.signers }
    {
        self.inner.signers()
    }

    /// Adds a signer, which signs from the next [`InMemoryZoneHandler::secure_zone_mut`] on, after those that are there.
    ///
    /// The signer's key is inserted as [`InMemoryZoneHandler::upsert`] says, as a DNSKEY record (RFC 4034 section 2) at
    /// the origin, with the zone's minimum as its TTL, in seconds, and with the zone's serial. Where the record isn't
    /// taken, because it is there or a CNAME is at the origin, the signer is added all the same. Refused by `NoKey` for
    /// a signer that has no key, and by `Memory`; both leave the zone as it was.
    pub fn add_zone_signing_key_mut(&mut self, signer: S) -> Result<(), KeyError>
        ensures { IsKeyAdded S.key_of self.old «signer» result self.new }
    {
        let key = match signer.dnskey() {
            Ok(Some(key)) => key,
            Ok(None) => return Err(KeyError::NoKey),
            Err(_) => return Err(KeyError::Memory),
        };
        match self.add_signer(signer, key) {
            Ok(()) => Ok(()),
            Err(_) => Err(KeyError::Memory),
        }
    }

    /// Steps the zone's serial by one, modulo 2^32, and signs each set anew at the moment `now`, in seconds since 1970.
    ///
    /// Each set loses the signatures that it has, and gets those of the signers that sign it, in the order of the signers
    /// (RFC 4034 section 3): of its owner and TTL, and class IN. Without an SOA no serial is stepped, and without a signer
    /// denials stay as they are. All else stays as it was.
    ///
    /// # NSEC
    ///
    /// Of a zone that NSEC denies, and that has a signer, the NSEC sets are first made anew, wherever old ones stand:
    /// one for each name that the zone is authoritative for (RFC 4035 section 2.3), that is each one at or below the
    /// origin that owns a set, NSEC sets aside, and that no zone cut is above. It has one record, with the next of
    /// these names, or the origin after the last, and with the types that the name owns, NSEC and RRSIG among them (RFC
    /// 4034 section 4). Its TTL is the zone's minimum, and its serial that of before. So where the origin owns a set
    /// besides, the NSEC sets are one closed circle through exactly these names.
    ///
    /// # NSEC3
    ///
    /// Of a zone that NSEC3 denies, and that has a signer, the NSEC3 sets are made anew in the same way (RFC 5155
    /// section 7.1): one for each of the names that the zone is authoritative for, of the empty non-terminals above
    /// them, and of the origin; with opt-out none for a name that owns NS alone. It is at the hashed owner of the name,
    /// and its record has the zone's parameters, the digest of the next name in the order of digests, or of the first
    /// after the last, and the types that the name owns, with RRSIG if there is one. Where names have one digest, their
    /// records are inserted into one set in the order of the names. Then an NSEC3PARAM record with the parameters is
    /// inserted at the origin, unless it is there. So where the hash tells these names apart, by digests of one length,
    /// and the origin isn't the root, the NSEC3 sets are one closed circle through exactly these names.
    ///
    /// # Errors
    ///
    /// Refused, in this order, by `TimeOutOfRange` for a moment past the year 9999 (253402300799), which doesn't
    /// allocate; and, where NSEC3 sets are to be made, by `CnameAtOrigin` where a CNAME is at the origin, by `Hash`
    /// where the hash has no digest of one of the names, and by `OwnerTooLong` where the text of a digest is empty or
    /// longer than a label may be, or the hashed owner longer than a name. `Memory` may come in place of the latter, of
    /// a signer or the hash too. A refusal leaves the zone as it was.
    pub fn secure_zone_mut(&mut self, now: u64) -> Result<(), SecureError>
        ensures { IsSecuring S.signature_of H.digest_of self.old now result self.new }
    {
        if now > LAST_MOMENT {
            return Err(SecureError::TimeOutOfRange);
        }
        self.inner
            .secure(&self.apex, self.nx_proof_kind.as_ref(), &self.hash, now)
    }
}

impl<S: Signer, H: Nsec3Hash> InMemoryZoneHandler<S, H> {
    /// Inserts the key of a signer, and puts the signer behind the others. A refusal leaves the zone as it was.
    fn add_signer(&mut self, signer: S, key: DNSKEY) -> Result<(), ProtoError>
        ensures ok { OnOk result (self.new ≡ with_key self.old signer key) }
        ensures cnames { CnamesStandAlone self.old.inner.records
            → CnamesStandAlone self.new.inner.records }
        ensures err { IsOkUnless result ProtoError.Memory }
        ensures same { OnErr result (self.new ≡ self.old) }
    {
        let owner = Name::from(self.apex.name.clone()?);
        let key = Record::from_rdata(owner, self.minimum_ttl(), RData::DNSKEY(key));
        let serial = self.serial();
        self.inner.add_signer(signer, key, serial, self.class)
    }
}

impl<S: Signer, H: Nsec3Hash> DnssecZoneHandler<S> for InMemoryZoneHandler<S, H> {
    ghost adds_key = { λ old signer result new. IsKeyAdded S.key_of old signer result new };

    ghost secures = { λ old now result new.
        IsSecuring S.signature_of H.digest_of old now result new };

    /// The same as [`InMemoryZoneHandler::add_zone_signing_key_mut`].
    fn add_zone_signing_key(&mut self, signer: S) -> Result<(), KeyError> {
        self.add_zone_signing_key_mut(signer)
    }

    /// The same as [`InMemoryZoneHandler::secure_zone_mut`].
    fn secure_zone(&mut self, now: u64) -> Result<(), SecureError> {
        self.secure_zone_mut(now)
    }
}
