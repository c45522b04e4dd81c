//! The names that get NSEC3 sets, with their digests and in the order of these.
ghost use Rattle.std.specs.Prelude.{◌≡◌, ◌⊎◌, Some, None, false, true, map, IfOk, IfErr, OnOk, IsPermutation};
ghost use Rattle.std.specs.List.Sorted.{IsStrictlySortedBy};
ghost use Rattle.std.specs.Cmp.{partial_order_from_total, partial_equiv_from_equiv};
ghost use Rattle.std.specs.Ordering.{as_partial_cmp, eq_by_cmp};
ghost use Rattle.std.proofs.Common.{refl};
ghost use Rattle.zone_proto.specs.Names.{name_cmp};
ghost use Rattle.zone_denial.specs.HashedNames.{hashed, with_digests, all_hashed};
ghost use Rattle.zone_denial.specs.Nsec3Nodes.{name_of, types_of};
ghost use Rattle.zone_denial.specs.HashedOrder.{held_cmp, held_cmp_total, held_eq_equiv};
ghost use Rattle.zone_denial.specs.Nsec3Sets.{hashed_cmp};
ghost use Rattle.zone_denial.specs.Nsec3Zones.{hash_with};
ghost use Rattle.zone_denial.specs.TypeLists.{in_order};

use crate::nsec3_names::Nsec3Name;
use std::alloc::Global;
use std::cmp::Ordering;
use zone_proto::{NSEC3PARAM, Nsec3Hash, ProtoError, Seq};

/// A name that gets an NSEC3 set, with its digest. These are ordered by digest, and those of one digest by name.
#[derive(Drop)]
pub(crate) struct HashedName<'n, 'z> {
    pub(crate) digest: Seq<u8>,
    pub(crate) name: &'n Nsec3Name<'z>,
}

impl PartialEq for HashedName<'_, '_> {
    ghost eq = { eq_by_cmp held_cmp };

    ghost laws = { partial_equiv_from_equiv held_eq_equiv };

    fn eq(&self, other: &Self) -> bool {
        self.cmp(other).is_eq()
    }
}

impl Eq for HashedName<'_, '_> {
    ghost laws = { held_eq_equiv };
}

impl PartialOrd for HashedName<'_, '_> {
    ghost partial_cmp = { as_partial_cmp held_cmp };

    ghost laws = { partial_order_from_total held_cmp_total };

    fn partial_cmp(&self, other: &Self) -> Option<Ordering> {
        Some(self.cmp(other))
    }
}

impl Ord for HashedName<'_, '_> {
    ghost cmp = { held_cmp };

    ghost total = { held_cmp_total };

    ghost matches_partial_cmp = { λ x y. refl };

    ghost matches_eq = { λ x y. refl };

    fn cmp(&self, other: &Self) -> Ordering {
        match self.digest.as_slice().cmp(other.digest.as_slice()) {
            Ordering::Equal => self.name.name().cmp(other.name.name()),
            order => order,
        }
    }
}

/// The names with their digests by `hash` with the zone's parameters, by digest and then by name; they come ascending, each
/// once. Refused by `Hash` where there is no digest of a name, and by `Memory`.
pub(crate) fn hashed_names<'n, 'z, H: Nsec3Hash>(
    alloc: Global,
    names: &'n [Nsec3Name<'z>],
    hash: &H,
    parameters: &NSEC3PARAM,
) -> Result<Vec<HashedName<'n, 'z>>, ProtoError>
    requires { IsStrictlySortedBy name_cmp (map name_of names.now) }
    ensures ok { IfOk result
        (λ held. map hashed held.items
        ≡ in_order hashed_cmp
        (with_digests (hash_with (H.digest_of hash.now) parameters.now)
        (map name_of names.now))) }
    ensures names { IfOk result
        (λ held. IsPermutation names.now (map (λ h. h.name.now) held.items)) }
    ensures all { OnOk result
        (all_hashed (hash_with (H.digest_of hash.now) parameters.now) (map name_of names.now)
        ≡ true) }
    ensures err { IfErr result
        (λ e. (e ≡ ProtoError.Memory)
        ⊎ ((e ≡ ProtoError.Hash)
        × (all_hashed (hash_with (H.digest_of hash.now) parameters.now)
        (map name_of names.now)
        ≡ false))) }
{
    let mut held = Vec::with_capacity(alloc, names.len())?;
    for name in names {
        held.push(hash_name(name, hash, parameters)?)?;
    }
    held.sort_unstable();
    Ok(held)
}

/// A name with its digest. Refused by `Hash` if there is none, and by `Memory`.
fn hash_name<'n, 'z, H: Nsec3Hash>(
    name: &'n Nsec3Name<'z>,
    hash: &H,
    parameters: &NSEC3PARAM,
) -> Result<HashedName<'n, 'z>, ProtoError>
    ensures digest { IfOk result
        (λ h. hash_with (H.digest_of hash.now) parameters.now (name_of name.now) ≡ Some h.digest) }
    ensures name { IfOk result (λ h. h.name.now ≡ name.now) }
    ensures err { IfErr result
        (λ e. (e ≡ ProtoError.Memory)
        ⊎ ((e ≡ ProtoError.Hash)
        × (hash_with (H.digest_of hash.now) parameters.now (name_of name.now) ≡ None))) }
{
    let digest = hash.hash(
        parameters.algorithm,
        parameters.salt.as_slice(),
        name.name(),
        parameters.iterations,
    )?;
    Ok(HashedName {
        digest: Seq::from_vec(digest),
        name,
    })
}
