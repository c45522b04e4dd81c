//! Laws of the definitions of this crate. Each is an empty function whose contract is the law, so a program has no need to call one.
ghost use Rattle.zone_difference.specs.Laws.{ChainsLead, DifferencesLead};

/// The difference from one zone to another makes of each zone that has the first one's sets a zone that has the other's, names ignoring
/// case; and so do differences from zone to zone, one after the other, from the first to the last.
#[tactic(auto, using(crate::proofs::Leading::differences_lead, crate::proofs::Leading::chains_lead))]
pub fn differences_lead()
    ensures one { DifferencesLead }
    ensures chain { ChainsLead }
{}
