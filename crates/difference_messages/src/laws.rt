//! Laws of the definitions of this crate. Each is an empty function whose contract is the law, so a program has no need to call one.
ghost use Rattle.difference_messages.specs.AnswerLaws.{MessagesAreTaken};
ghost use Rattle.difference_messages.specs.Versions.{RepliesLead};

use transfer_reading::laws;

/// A secondary takes the messages that are written for its query, up to the last, if it takes their records one after the other, and has these
/// records then. `incremental_laws` says that it takes those of steps, and what it makes of them.
pub fn messages_are_taken()
    ensures { MessagesAreTaken }
{
    laws::messages_are_taken();
}

/// The steps that `reply_to` lets answer a secondary lead from a version of the serial that it holds to the newest, if all steps lead from version
/// to version.
pub fn replies_lead()
    ensures { RepliesLead }
{}
