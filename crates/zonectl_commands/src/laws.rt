//! Laws of transcripts: what a session answers to lines, one after the other (`IsTranscript`). Each is an empty function whose
//! contract is the law, so a program has no need to call one.
//!
//! A transcript is of lines, and not of the reads that brought them: the contract of `serve` names the octets that all reads
//! gave together, so two inputs that differ only in how the reads cut them have one transcript.
ghost use Rattle.zonectl_commands.specs.TranscriptLaws.{LinesJoin, NoCommandChangesNothing, NumbersChangeNoSession, TranscriptsJoin};

use crate::serving::Session;

/// The transcript of lines followed by others is the transcript of the former, and then that of the others from the session
/// that the former lead to; and two such transcripts are one.
pub fn transcripts_join<S: Session>()
    ensures { TranscriptsJoin S S.carries }
{}

/// A line that is bad, blank or a comment leaves the session as it is: the lines after it are answered as if it weren't there,
/// except for their numbers.
pub fn no_command_changes_nothing<S: Session>()
    ensures { NoCommandChangesNothing S S.carries }
{}

/// The number of its first line changes a transcript only in what it says about bad lines: the session that it leads to is the
/// same, and so are the answers if no line is bad.
pub fn numbers_change_no_session<S: Session>()
    ensures { NumbersChangeNoSession S S.carries }
{}

/// Octets up to a line feed, followed by others, have the lines of the former, and then those of the latter.
#[tactic(auto, using(crate::proofs::TranscriptFacts::lines_join))]
pub fn lines_join()
    ensures { LinesJoin }
{}
