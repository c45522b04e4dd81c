//! Laws of what the commands of the program do: empty functions whose contracts are the laws. What holds of whole
//! sessions is in the laws of `zonectl_commands`, of the program's session as of any other.
ghost use Rattle.zonectl_session.specs.SessionLaws.{RefusedChangesNothing, RefusedLineChangesNothing};

/// A command whose reply is `no`, `refused`, `error` or `break error` leaves the zone, and the time of the last `secure`, as
/// they were, and so does a line whose answer is the text of such a reply: the lines after it are answered as if it weren't
/// there, except for their numbers.
#[tactic(auto, using(crate::proofs::Refusals::refused_changes_nothing, crate::proofs::Refusals::refused_line_changes_nothing))]
pub fn refused_commands_change_nothing()
    ensures command { RefusedChangesNothing }
    ensures line { RefusedLineChangesNothing }
{}
