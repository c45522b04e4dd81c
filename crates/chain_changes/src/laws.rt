//! Laws of the definitions of this crate. Each is an empty function whose contract is the law, so a program has no need to call one.
ghost use Rattle.chain_changes.specs.Locality.{AuthorityIsLocal, DenialsAreLocal, NextIsLocal, TypesAreLocal};
ghost use Rattle.chain_changes.specs.RenewalLaws.{OthersStay, RenewedIsCircle};
ghost use Rattle.chain_changes.specs.SignedChains.{RenewedStaysChain, TrimmedIsSigned};
ghost use Rattle.chain_changes.specs.TrimmedRenewals.{RenewedIsNsecChain};

/// Whether a zone is authoritative for a name, and the types that the name's NSEC set lists, depend on what the name owns and on the zone cuts above
/// it alone (RFC 4035 section 2.3), and which name comes next on the names that come or go right behind it (RFC 4034 section 4.1.1). So the set is
/// the same after a change of the zone, unless the name owns other types than before, is below a zone cut that came or went, or is the nearest before
/// a name that came or went.
#[tactic(auto, using(crate::proofs::Local::authority_is_local, crate::proofs::Local::types_are_local, crate::proofs::Local::next_is_local, crate::proofs::Local::denials_are_local))]
pub fn denials_are_local()
    ensures authority { AuthorityIsLocal }
    ensures types { TypesAreLocal }
    ensures next { NextIsLocal }
    ensures denials { DenialsAreLocal }
{}

/// Where sets come or go in a zone and its NSEC sets stand as they were, that of each name is still as it is to be, unless the name is one of those
/// that are renewed.
#[tactic(auto, using(crate::proofs::OthersStay::others_stay))]
pub fn others_stay()
    ensures { OthersStay }
{}

/// Once the NSEC sets that a change of a zone makes others are made anew, all of them are a circle (RFC 4035 section 2.3); and where they have trimmed
/// lists, as `zone_trimming` makes them, a chain, so that everything that is proved about chains holds for the zone.
pub fn renewed_sets_are_chain()
    ensures circle { RenewedIsCircle }
    ensures chain { RenewedIsNsecChain }
{}

/// The chain of NSEC sets of a signed zone, as BIND, ldns, Knot and this library write it, of whichever TTLs, stays one once those that a change of the
/// zone makes others are made anew (RFC 4035 section 2.3). It has to go through all names that the zone is authoritative for, those below a DNAME too,
/// and each of its lists to have RRSIG; so it does again, update after update. A zone that gets its NSEC sets as `zone_trimming` makes them begins so.
pub fn renewed_chains_stay()
    ensures made { TrimmedIsSigned }
    ensures renewed { RenewedStaysChain }
{}
