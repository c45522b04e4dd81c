//! Laws of the definitions that the calls of this crate are proved to meet. Each is an empty function whose contract is the law, for
//! every value, so a program has no need to call one.
ghost use Rattle.zone_secondary.specs.StateLaws.{KeepsVersion, IsServedUntilExpiry, WaitsASecond};

/// Neither a question nor an answer with a serial, a NOTIFY or a failure changes which version is held: only a transfer does, and expiry (RFC
/// 1034 section 4.3.5).
#[tactic(auto, using(crate::proofs::Versions::keeps_version))]
pub fn versions_change_by_transfers_alone()
    ensures { KeepsVersion }
{}

/// A version that was the primary's at a moment is served until its expire interval is over, and not from then on, unless another question has
/// an answer.
#[tactic(auto, using(crate::proofs::Versions::served_until_expiry))]
pub fn versions_are_served_until_they_expire()
    ensures { IsServedUntilExpiry }
{}

/// A question that went out is due again a second later at the earliest, whatever the intervals of the zone are.
#[tactic(auto, using(crate::proofs::Versions::waits_a_second))]
pub fn questions_wait_a_second()
    ensures { WaitsASecond }
{}
