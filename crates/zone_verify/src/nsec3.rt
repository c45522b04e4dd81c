//! Whether the NSEC3 sets of a zone are a chain.

ghost use Rattle.std.specs.Prelude.{◌≡◌, ℕ, IsTrue, List, Some, OnOk};
ghost use Rattle.zone_proto.specs.declared.nx_proof_kind.NxProofKind.TheVariants as kind;
ghost use Rattle.zone_proto.specs.HashedOwners.{hashed_owner};
ghost use Rattle.zone_proto.specs.Names.{Name as NameLabels};
ghost use Rattle.zone_proto.specs.Types.{NSEC3 as nsec3_type};
ghost use Rattle.zone_map.specs.Zones.{owns};
ghost use Rattle.zone_denial.specs.Chains.{chain_sets, IsNsec3Chain};
ghost use Rattle.zone_denial.specs.Nsec3Zones.{hash_with};

use crate::authoritative_keys::authoritative_keys;
use crate::chain_sets::ChainSets;
use crate::fault::ChainFault;
use crate::nsec3_links::{check_links, check_owners};
use crate::nsec3_name::HashedZone;
use zone_map::RecordMap;
use zone_proto::{LowerName, NSEC3PARAM, Nsec3Hash, RecordType};

/// Says that the NSEC3 sets with these parameters are a chain (RFC 5155 section 7.1).
///
/// `records` are the sets of the zone, `origin` is its name, and `hash` gives the digests, one for each name. NSEC sets, and NSEC3
/// sets of another algorithm, of other iterations or of another salt, count for nothing; but where a name owns NSEC, its list may
/// name it or not. With the flag Opt-Out delegations without DS may be left out (section 6), and without it too names below a DNAME
/// (RFC 6672 section 2.4); of these one may be on the chain where each name above it is. At a delegation the lists may name RRSIG
/// and the types of glue or not, and RRSIG wherever nothing is signed. Signatures, TTLs and serials aren't looked at.
///
/// # Errors
///
/// Refused by `NoParameters`; then for the first name, in canonical order (RFC 4034 section 6.1), by `Missing` where it
/// has to have a set, by `Hash` and `OwnerTooLong` where it has no hashed owner, by `Several`, `OptOut`, and `Lists` or `Lacks`
/// where its list is wrong; then for the first digest by `SameHash` and `Next`; then by `Surplus` for the first hashed owner that
/// is that of none of these names. `Memory` may come in place of any of these.
pub fn verify_nsec3<H: Nsec3Hash>(
    records: &RecordMap,
    origin: &LowerName,
    hash: &H,
    parameters: &NSEC3PARAM,
) -> Result<(), ChainFault>
    ensures chain { OnOk result
        ((names : List NameLabels)
        × IsNsec3Chain origin.now records.now
        (chain_sets
        (Some (kind.Nsec3 parameters.now.algorithm parameters.now.salt
        parameters.now.iterations parameters.now.opt_out)) records.now)
        (hash_with (H.digest_of hash.now) parameters.now) parameters.now names) }
    // By it a server finds this chain.
    ensures origin { OnOk result
        ((d : List ℕ)
        × (hash_with (H.digest_of hash.now) parameters.now origin.now ≡ Some d)
        × IsTrue (owns (chain_sets
        (Some (kind.Nsec3 parameters.now.algorithm parameters.now.salt
        parameters.now.iterations parameters.now.opt_out)) records.now)
        (hashed_owner origin.now d) nsec3_type)) }
{
    let sets = ChainSets {
        records,
        parameters: Some(parameters),
    };
    if !sets.owns(origin, RecordType::NSEC3PARAM)? {
        return Err(ChainFault::NoParameters);
    }
    let keys = authoritative_keys(&sets, origin)?;
    let zone = HashedZone {
        sets,
        origin,
        hash,
        parameters,
    };
    let mut names = zone.names(keys.as_slice())?;
    names.sort_unstable();
    let sorted = names.as_slice();
    check_links(sorted)?;
    check_owners(&sets, sorted)?;
    Ok(())
}
