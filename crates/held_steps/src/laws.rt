//! Laws of the definitions of this crate. Each is an empty function whose contract is the law, so a program has no need to call one.
ghost use Rattle.held_steps.specs.HistoryLaws.{HistoriesLead};
ghost use Rattle.held_steps.specs.GrantLaws.{StepsAreGranted};

use held_transfers::laws::transfers_are_granted;
use step_answers::laws::noted_steps_lead;

/// The steps that are kept of a zone lead to the version that was noted last, whatever versions were noted, if each can be sent to a secondary.
/// By `condensed_steps_arrive` of `condensed_answers` a secondary that takes them has that version.
pub fn histories_lead()
    ensures { HistoriesLead }
{
    noted_steps_lead();
}

/// Steps go out in place of a zone only for those who may have the zone: a grant lets anybody have it, or those who have a key; and then the request
/// was found signed under this key (RFC 8945 section 5.2).
pub fn steps_are_granted()
    ensures { StepsAreGranted }
{
    transfers_are_granted();
}
