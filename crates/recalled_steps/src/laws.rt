//! Laws of the definitions of this crate. Each is an empty function whose contract is the law, so a program has no need to call one.
ghost use Rattle.recalled_steps.specs.RecallLaws.{RecalledStepsLead};

use step_answers::laws::noted_steps_lead;

/// What is recalled of the journal of a zone leads to the last of its versions, as answers show them, if each can be sent to a secondary. By `journals_lead`
/// of `zone_journal` the journal leads to the same version; by `steps_arrive` of `step_answers` a secondary that takes the steps has it.
pub fn recalled_steps_lead()
    ensures { RecalledStepsLead }
{
    noted_steps_lead();
}
