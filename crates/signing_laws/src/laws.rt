//! Laws of signed zones. Each is an empty function whose contract is the law, so a program has no need to call one.
ghost use Rattle.signing_laws.specs.SignedHashedChains.{SignedIsNsec3Chain, SignedNsec3SetsStay};
ghost use Rattle.signing_laws.specs.TrimmedHashedChains.{TrimmedIsNsec3Chain};

/// A zone that gets its NSEC3 sets with trimmed lists, replacing those that it had, has a chain of them (RFC 5155 section 7.1), with
/// opt-out or without. Its other sets may change, in data, serials and signatures, as long as each name owns the same types. This holds
/// if the hash gives the names on the chain digests of one length that differ.
pub fn trimmed_sets_are_nsec3_chain()
    ensures { TrimmedIsNsec3Chain }
{}

/// A zone that is planned with NSEC3, and signed by whoever answers the plan, has a chain of NSEC3 sets (RFC 5155 section 7.1), with
/// opt-out or without, under the same condition; and if no name owned NSEC before, all its sets are of that chain. So everything that
/// is proved about chains holds for it.
pub fn signed_zones_are_nsec3_chains()
    ensures chain { SignedIsNsec3Chain }
    ensures all { SignedNsec3SetsStay }
{}
