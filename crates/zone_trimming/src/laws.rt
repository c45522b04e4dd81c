//! Laws of the definitions of this crate. Each is an empty function whose contract is the law, so a program has no need to call one.
ghost use Rattle.zone_trimming.specs.TrimmedChains.{TrimmedIsNsecChain};

/// A zone that gets its NSEC sets with trimmed lists, replacing those that it had, has a chain of them (RFC 4035 section 2.3),
/// so that everything that is proved about chains holds for it. Its other sets may change, in data, serials and signatures, as
/// long as each name owns the same types.
#[tactic(auto, using(crate::proofs::TrimmedChain::trimmed_is_nsec_chain))]
pub fn trimmed_sets_are_nsec_chain()
    ensures { TrimmedIsNsecChain }
{}
