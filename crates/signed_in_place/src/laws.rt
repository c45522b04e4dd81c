//! Laws of signed zones that are changed in place. Each is an empty function whose contract is the law, so a program has no need to call one.
ghost use Rattle.signed_in_place.specs.ChainLaws.{DerivedSetsStay, OwnChainStays};
ghost use Rattle.signed_in_place.specs.SignedChains.{BegunChainStays, FinishedChainStays, OwnChainIsSigned};

/// Where the NSEC sets of a zone are those that it is to have, they are so again in the version that an update makes of it in place, as long as the update
/// leaves them and the TTL of denials as they are; and they are a chain (RFC 4035 section 2.3), so that everything that is proved about chains holds for
/// each version in turn.
pub fn own_chain_stays()
    ensures { OwnChainStays }
{}

/// The chain of NSEC sets of a signed zone, as BIND, ldns, Knot and this library write it, stays one in the version that `begin_change` makes of the zone,
/// as long as the update leaves the NSEC sets as they are, and once `finish_change` has put the signatures in (RFC 4035 section 2.3): so update after
/// update everything that is proved about chains holds. It has to go through all names that the zone is authoritative for, and each of its lists to have
/// RRSIG, as where the NSEC sets of a zone are those that it is to have.
pub fn signed_chains_stay()
    ensures own { OwnChainIsSigned }
    ensures begun { BegunChainStays }
    ensures finished { FinishedChainStays }
{}

/// An update changes no set of the types that are made where a zone is signed (RFC 2136 section 3.3), as long as each of its records has data of its
/// type: so it leaves the NSEC sets as they are, until they are renewed.
pub fn derived_sets_stay()
    ensures { DerivedSetsStay }
{}
