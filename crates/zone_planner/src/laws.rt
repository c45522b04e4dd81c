//! Laws of the definitions of this crate. Each is an empty function whose contract is the law, so a program has no need to call one.
ghost use Rattle.zone_planner.specs.SignedChains.{SignedIsNsecChain};

/// A zone that is planned with NSEC, and signed by whoever answers the plan, has a chain of NSEC sets (RFC 4035 section 2.3). So
/// everything that is proved about chains holds for it.
#[tactic(auto, using(crate::proofs::SignedChain::signed_is_nsec_chain))]
pub fn signed_zones_are_nsec_chains()
    ensures { SignedIsNsecChain }
{}
