//! Laws of the definitions of this crate. Each is an empty function whose contract is the law, so a program has no need to call one.
ghost use Rattle.zone_history.specs.HistoryLaws.{CondensedLeads, UndoneLeadsBack};

/// The differences from zone to zone, undone, lead from the last zone back to the first, names ignoring case; and the one difference that
/// is made of them leads from each zone that has the first one's sets to the last.
#[tactic(auto, using(crate::proofs::Backwards::undone_leads_back, crate::proofs::Backwards::condensed_leads))]
pub fn histories_lead()
    ensures back { UndoneLeadsBack }
    ensures condensed { CondensedLeads }
{}
