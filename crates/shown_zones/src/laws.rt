//! Laws of the definitions of this crate. Each is an empty function whose contract is the law, so a program has no need to call one.
ghost use Rattle.shown_zones.specs.StepLaws.{DifferencesAreSteps, StepsLead};
ghost use Rattle.shown_zones.specs.Starting.{ShownZonesAreZones};

/// The steps of a zone from version to version, as answers show them, lead from each zone that has what answers show of the first version
/// to what they show of the last, names ignoring case.
#[tactic(auto, using(crate::proofs::Leading::steps_lead))]
pub fn steps_lead()
    ensures { StepsLead }
{}

/// The differences of steps, applied to a zone one after the other, make of it what the steps make of it.
#[tactic(auto, using(crate::proofs::Agreed::differences_are_steps))]
pub fn differences_are_steps()
    ensures { DifferencesAreSteps }
{}

/// What answers show of a zone is a zone that has what they show of it: steps lead from it, and a journal that was begun over the zone may be
/// replayed over it.
pub fn shown_zones_are_zones()
    ensures { ShownZonesAreZones }
{}
