//! Laws of the definitions of this crate. Each is an empty function whose contract is the law, so a program has no need to call one.
ghost use Rattle.signed_changes.specs.Laws.{ChangedIsNsecChain};

/// Where a signed zone is changed and its NSEC sets are renewed so, they are a chain again (RFC 4035 section 2.3), so that everything that is proved about
/// chains holds for the zone. Its other sets may get other signatures.
pub fn changed_zones_are_nsec_chains()
    ensures { ChangedIsNsecChain }
{}
