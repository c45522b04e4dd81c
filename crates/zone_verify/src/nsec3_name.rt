//! A name that a chain of NSEC3 sets goes through.
ghost use Rattle.std.specs.Prelude.{◌≡◌, Some, IfOk, IfSome, OnOk, length};
ghost use Rattle.std.specs.Option.{IfNone};
ghost use Rattle.zone_proto.specs.HashedOwners.{hashed_owner};
ghost use Rattle.zone_denial.specs.Nsec3Circle.{first_nsec3};
ghost use Rattle.zone_denial.specs.Nsec3Zones.{hash_with};
ghost use Rattle.zone_verify.specs.ChainSets.{sets_of};
ghost use Rattle.zone_verify.specs.Nsec3Names.{HasNsec3, HasNone};
ghost use Rattle.std.specs.Cmp.{partial_order_from_total, partial_equiv_from_equiv};
ghost use Rattle.std.specs.Ordering.{as_partial_cmp, eq_by_cmp};
ghost use Rattle.std.proofs.Common.{refl};
ghost use Rattle.zone_verify.specs.Order.{digest_cmp, digest_cmp_total, digest_eq_equiv};

use crate::chain_sets::ChainSets;
use crate::fault::{ChainFault, told};
use std::cmp::Ordering;
use zone_denial::chain_sets::first_nsec3;
use zone_denial::nsec3_sets::hashed_owner;
use zone_proto::{LowerName, NSEC3, NSEC3PARAM, Nsec3Hash, ProtoError, RecordSet, RecordType, Seq};

/// A zone, and by what its names are hashed.
#[derive(Drop)]
pub(crate) struct HashedZone<'z, H: Nsec3Hash> {
    pub(crate) sets: ChainSets<'z>,
    pub(crate) origin: &'z LowerName,
    pub(crate) hash: &'z H,
    pub(crate) parameters: &'z NSEC3PARAM,
}

/// A name that has an NSEC3 set.
#[derive(Drop)]
pub(crate) struct ChainName<'z> {
    pub(crate) name: LowerName,
    pub(crate) digest: Seq<u8>,
    /// The owner of the set (RFC 5155 section 3).
    pub(crate) owner: LowerName,
    /// What the set says.
    pub(crate) data: &'z NSEC3,
}

impl PartialEq for ChainName<'_> {
    ghost eq = { eq_by_cmp digest_cmp };

    ghost laws = { partial_equiv_from_equiv digest_eq_equiv };

    fn eq(&self, other: &Self) -> bool {
        self.cmp(other).is_eq()
    }
}

impl Eq for ChainName<'_> {
    ghost laws = { digest_eq_equiv };
}

impl PartialOrd for ChainName<'_> {
    ghost partial_cmp = { as_partial_cmp digest_cmp };

    ghost laws = { partial_order_from_total digest_cmp_total };

    fn partial_cmp(&self, other: &Self) -> Option<Ordering> {
        Some(self.cmp(other))
    }
}

impl Ord for ChainName<'_> {
    ghost cmp = { digest_cmp };

    ghost total = { digest_cmp_total };

    ghost matches_partial_cmp = { λ x y. refl };

    ghost matches_eq = { λ x y. refl };

    fn cmp(&self, other: &Self) -> Ordering {
        self.digest.as_slice().cmp(other.digest.as_slice())
    }
}

impl<'z, H: Nsec3Hash> HashedZone<'z, H> {
    /// A name with its NSEC3 set, if it has one.
    ///
    /// # Errors
    ///
    /// Refused by `Hash` where there is no digest of the name, by `OwnerTooLong`, by `Several` where the set has several records, by
    /// `OptOut` where that flag isn't that of the chain, and by `Memory`.
    pub(crate) fn find(&self, name: &LowerName) -> Result<Option<ChainName<'z>>, ChainFault>
        ensures name { IfOk result (λ found. IfSome found (λ c. c.name ≡ name.now)) }
        ensures has { IfOk result
            (λ found. IfSome found
            (HasNsec3 self.now.origin.now (sets_of self.now.sets)
            (hash_with (H.digest_of self.now.hash.now) self.now.parameters.now)
            self.now.parameters.now.opt_out)) }
        ensures none { IfOk result
            (λ found. IfNone found
            (HasNone self.now.origin.now (sets_of self.now.sets)
            (hash_with (H.digest_of self.now.hash.now) self.now.parameters.now)
            self.now.parameters.now.opt_out name.now)) }
    {
        let digest = self.digest(name)?;
        let owner = self.owner(name, &digest)?;
        let Some(set) = self.sets.get(&owner, RecordType::NSEC3)? else {
            return Ok(None);
        };
        let data = only_nsec3(name, set)?;
        if data.opt_out != self.parameters.opt_out {
            return Err(ChainFault::OptOut(told(name)?));
        }
        Ok(Some(ChainName {
            name: name.clone()?,
            digest: Seq::from_vec(digest),
            owner,
            data,
        }))
    }

    /// The digest of a name. Refused by `Hash` if there is none, and by `Memory`.
    fn digest(&self, name: &LowerName) -> Result<Vec<u8>, ChainFault>
        ensures { IfOk result
            (λ d. hash_with (H.digest_of self.now.hash.now) self.now.parameters.now name.now
            ≡ Some d.items) }
    {
        let digest = self.hash.hash(
            self.parameters.algorithm,
            self.parameters.salt.as_slice(),
            name,
            self.parameters.iterations,
        );
        match digest {
            Ok(digest) => Ok(digest),
            Err(ProtoError::Memory) => Err(ChainFault::Memory),
            Err(_) => Err(ChainFault::Hash(self.parameters.algorithm)),
        }
    }

    /// The owner of the NSEC3 set of a name with this digest. Refused by `OwnerTooLong` where that is no name, and by `Memory`.
    fn owner(&self, name: &LowerName, digest: &[u8]) -> Result<LowerName, ChainFault>
        ensures { IfOk result (λ n. n ≡ hashed_owner self.now.origin.now digest.now) }
    {
        match hashed_owner(digest, self.origin) {
            Ok(owner) => Ok(owner),
            Err(ProtoError::Memory) => Err(ChainFault::Memory),
            Err(_) => Err(ChainFault::OwnerTooLong(told(name)?)),
        }
    }
}

/// The data of an NSEC3 set's only record.
fn only_nsec3<'z>(name: &LowerName, set: &'z RecordSet) -> Result<&'z NSEC3, ChainFault>
    ensures single { OnOk result (length set.now.records ≡ 1) }
    ensures data { IfOk result (λ found. first_nsec3 set.now.records ≡ Some found.now) }
{
    match first_nsec3(set) {
        Some(data) if set.as_slice().len() == 1 => Ok(data),
        _ => Err(ChainFault::Several(told(name)?, RecordType::NSEC3)),
    }
}
