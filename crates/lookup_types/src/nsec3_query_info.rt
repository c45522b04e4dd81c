//! What an NSEC3 denial is asked for (RFC 5155 section 7.2).
ghost use Rattle.std.specs.Prelude.{◌≡◌, ◌⊎◌, Some, None, Ok, Err, IfOk, IfErr};
ghost use Rattle.zone_proto.specs.HashedOwners.{owner_or_refusal};
ghost use Rattle.lookup_types.specs.Hashing.{digest_for, wildcard_owner_or_refusal};

use zone_proto::{LowerName, Nsec3Hash, ProtoError, RecordType, base32_dnssec};

/// A query that NSEC3 records are to deny, with the parameters by which the zone's names are hashed (RFC 5155 section 4.1).
#[derive(Clone, Copy)]
pub struct Nsec3QueryInfo<'q> {
    /// The name that is asked for.
    pub qname: &'q LowerName,
    /// The type that is asked for.
    pub qtype: RecordType,
    /// Whether the query was answered by a wildcard (RFC 5155 section 7.2.6).
    pub has_wildcard_match: bool,
    /// The number of the hash algorithm; 1 is SHA-1 (RFC 5155 section 11).
    pub algorithm: u8,
    /// The octets that are put behind what is hashed, each time (RFC 5155 section 3.1.5).
    pub salt: &'q [u8],
    /// How many times more the digest is hashed (RFC 5155 section 3.1.3).
    pub iterations: u16,
}

impl Nsec3QueryInfo<'_> {
    /// The digest of `name` by `hash`, with the algorithm, the salt and the iterations of this query (RFC 5155 section 5).
    ///
    /// Refused as `hash` refuses: by `Hash` only where it has no digest, and by `Memory`.
    pub fn hash_name<H: Nsec3Hash>(&self, hash: &H, name: &LowerName) -> Result<Vec<u8>, ProtoError>
        ensures ok { IfOk result
            (λ d. digest_for (H.digest_of hash.now) self.now name.now ≡ Some d.items) }
        ensures err { IfErr result
            (λ e. (e ≡ ProtoError.Memory)
            ⊎ ((e ≡ ProtoError.Hash)
            × (digest_for (H.digest_of hash.now) self.now name.now ≡ None))) }
    {
        hash.hash(self.algorithm, self.salt, name, self.iterations)
    }

    /// The owner of the NSEC3 set of `name` in the zone of origin `zone`: the digest of the name in base32hex, as one label
    /// before the origin (RFC 5155 section 3).
    ///
    /// Refused by `Hash` where `hash` has no digest of the name; by `EmptyLabel` and `LabelTooLong` where the digest has no
    /// octet, and where it has more than 39, so that its text is no label; by `NameTooLong` where the owner has more than 255
    /// octets in wire form; and by `Memory`.
    pub fn hashed_owner_name<H: Nsec3Hash>(
        &self,
        hash: &H,
        name: &LowerName,
        zone: &LowerName,
    ) -> Result<LowerName, ProtoError>
        ensures ok { IfOk result
            (λ owner. owner_or_refusal zone.now
            (digest_for (H.digest_of hash.now) self.now name.now)
            ≡ Ok owner) }
        ensures err { IfErr result
            (λ e. (e ≡ ProtoError.Memory)
            ⊎ (owner_or_refusal zone.now (digest_for (H.digest_of hash.now) self.now name.now)
            ≡ Err e)) }
    {
        let digest = self.hash_name(hash, name)?;
        let label = base32_dnssec(zone.alloc(), &digest)?;
        zone.prepend_label(label.as_bytes())
    }

    /// The owner of the NSEC3 set of the wildcard at `encloser`, the name with `*` before its labels (RFC 4592 section
    /// 2.1.1), in the zone of origin `zone`: of the wildcard that a name error denies (RFC 5155 section 7.2.2).
    ///
    /// Refused by `NameTooLong` where the wildcard has more than 255 octets in wire form, and by `Memory`; then as
    /// [`Nsec3QueryInfo::hashed_owner_name`] refuses.
    pub fn hashed_star_name<H: Nsec3Hash>(
        &self,
        hash: &H,
        encloser: &LowerName,
        zone: &LowerName,
    ) -> Result<LowerName, ProtoError>
        ensures ok { IfOk result
            (λ owner. wildcard_owner_or_refusal (H.digest_of hash.now) self.now encloser.now
            zone.now
            ≡ Ok owner) }
        ensures err { IfErr result
            (λ e. (e ≡ ProtoError.Memory)
            ⊎ (wildcard_owner_or_refusal (H.digest_of hash.now) self.now encloser.now zone.now
            ≡ Err e)) }
    {
        let wildcard = encloser.prepend_label(b"*")?;
        self.hashed_owner_name(hash, &wildcard, zone)
    }
}
