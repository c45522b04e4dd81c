//! Laws of the zones that are served after updates. Each is an empty function whose contract is the law, so a program has no need to call
//! one.
ghost use Rattle.zone_response.specs.Responses.{IsResponse};
ghost use Rattle.update_laws.specs.UpdatedZones.{UpdatedDeniesByNsec, UpdatedDeniesByNsec3, UpdatedIsUnreferred};
ghost use Rattle.update_laws.specs.UpdatedZones.{UpdatedProvesByHashes, UpdatedProvesWhatItSays};

/// A zone that an update was prepared and committed for (`IsUpdated`) has nothing at its origin or above it that refers elsewhere,
/// whatever the zone before it had: its origin owns an SOA, and no set stands outside of it, since `prepare` plans no other zone.
pub fn updated_zones_are_unreferred()
    ensures { UpdatedIsUnreferred }
{}

/// If it was asked to deny by NSEC, it does (`DeniesByNsec`), and each of its responses to a query with DNSSEC proves what it says
/// (RFC 4035 section 3.1), as `responses_prove_what_they_say` of `response_laws` has it; whatever zone was updated, and with
/// whatever octets in the places of the blank signatures. The signatures themselves are the word of who made them.
pub fn updated_zones_prove_what_they_say()
    ensures denies { UpdatedDeniesByNsec }
    ensures proves { UpdatedProvesWhatItSays IsResponse }
{}

/// The same with NSEC3, with opt-out or without (RFC 5155 section 7.2), for a zone whose names are hashed by SHA-1, as
/// `hashed_responses_prove_what_they_say` has it. It has one premise: that the hash gives the names of the chain digests that differ. No
/// check before the update can show it of the names that will come, and of SHA-1 it isn't proved.
pub fn updated_zones_prove_by_hashes()
    ensures denies { UpdatedDeniesByNsec3 }
    ensures proves { UpdatedProvesByHashes IsResponse }
{}
