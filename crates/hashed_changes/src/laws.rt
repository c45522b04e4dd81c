//! Laws of the definitions of this crate. Each is an empty function whose contract is the law, so a program has no need to call one.
ghost use Rattle.hashed_changes.specs.RenewalLaws.{NamesAreLocal, OthersStay, RenewedAreMade, RenewedIsNsec3Chain, RenewedIsNsec3Zone, TypesAreLocal};
ghost use Rattle.hashed_changes.specs.Standing.{StandingIsChange};

/// Whether a name gets an NSEC3 set depends on the names at or below it alone: on what they own, and on the zone cuts above them (RFC 5155 section
/// 7.1). So it gets one after a change of the zone exactly if it got one before, unless it is the owner of a set that came or went, is above one, or
/// is below a zone cut that came or went. And its set lists the same types, unless it owns others than before.
pub fn names_are_local()
    ensures names { NamesAreLocal }
    ensures types { TypesAreLocal }
{}

/// Where sets come or go in a zone and its NSEC3 sets stand as they were, that of each owner is still as it is to be, unless the owner is one of those
/// that are renewed: those of the names that are affected, and the nearest before each in the order of their digests that is none of these. The hash has
/// to give the names that get NSEC3 sets, before the change or after it, digests of one length that differ.
pub fn others_stay()
    ensures { OthersStay }
{}

/// Once the NSEC3 sets that a change of a zone makes others are made anew, all of them are as they are made for the zone after it, also where each is
/// changed in one way, as where lists are trimmed. So they are a circle, and a chain through the names that get NSEC3 sets (RFC 5155 section 7.1):
/// everything that is proved about chains holds for the zone. What `renewed_hashes` asks of a zone is such a change.
pub fn renewed_sets_are_chain()
    ensures made { RenewedAreMade }
    ensures circle { RenewedIsNsec3Zone }
    ensures chain { RenewedIsNsec3Chain }
    ensures change { StandingIsChange }
{}
