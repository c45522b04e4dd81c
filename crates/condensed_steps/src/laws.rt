//! Laws of the definitions of this crate. Each is an empty function whose contract is the law, so a program has no need to call one.
ghost use Rattle.condensed_steps.specs.CondenseLaws.{CondensedStepsLead};

/// If steps lead from version to version, the one that condenses them leads from a zone that is like the first version to one that is like the last: answers
/// show the two as the versions, names ignoring case, with the same SOAs, and each of their sets is a set of one of the versions.
pub fn condensed_steps_lead()
    ensures { CondensedStepsLead }
{}
