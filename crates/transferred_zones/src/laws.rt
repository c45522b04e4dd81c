//! Laws of the definitions of this crate. Each is an empty function whose contract is the law, so a program has no need to call one.
ghost use Rattle.transferred_zones.specs.Exact.{ZonesHaveExactly};

/// The zone that records make which a transfer gave has each of these records, and no others, TTLs aside (RFC 5936 section 6).
#[tactic(auto, using(crate::proofs::Exactly::zones_have_exactly))]
pub fn zones_have_exactly()
    ensures { ZonesHaveExactly }
{}
