//! Laws of the definitions of this crate. Each is an empty function whose contract is the law, so a program has no need to call one.
ghost use Rattle.kept_steps.specs.KeptLaws.{GivenStepsLead, KeptStepsLeadOn, NoStepsLeadOn};

/// The steps that are kept of a zone lead from version to version, to the newest, if each was pushed with its version. What `steps_from` gives leads from
/// the version of the serial that a secondary holds to the newest one, which is newer; and no other version on the way has the serial of that.
#[tactic(auto, using(crate::proofs::Leading::kept_steps_lead_on))]
pub fn kept_steps_lead()
    ensures begun { NoStepsLeadOn }
    ensures kept { KeptStepsLeadOn }
    ensures given { GivenStepsLead }
{}
