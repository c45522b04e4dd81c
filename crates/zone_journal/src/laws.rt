//! Laws of the definitions of this crate. Each is an empty function whose contract is the law, so a program has no need to call one.
ghost use Rattle.zone_journal.specs.JournalLaws.{CutJournalsLead, JournalsBegin, JournalsGrow, JournalsLead, TornJournalsLead};
ghost use Rattle.zone_journal.specs.Shortening.{JournalsShorten};
ghost use Rattle.zone_journal.specs.WritableSteps.{StepsAreWritable};

/// The journal of the steps of a zone from version to version, each put behind it, leads from what answers show of the first version to what
/// they show of the last, names ignoring case. Cut off behind any octet, as by a crash while it was written, it leads to what they show of one of
/// the versions; and a frame behind it whose message was written in part or wrongly counts for nothing, unless both messages have one
/// checksum. What `journal_from` gives of it, by the SOA of a version that no later one has, is the journal from that version on, and leads from
/// there to the last.
#[tactic(auto, using(crate::proofs::Growing::journals_begin))]
pub fn journals_lead()
    ensures begun { JournalsBegin }
    ensures grown { JournalsGrow }
    ensures whole { JournalsLead }
    ensures cut { CutJournalsLead }
    ensures torn { TornJournalsLead }
    ensures shorter { JournalsShorten }
{}

/// Between versions of which the origin alone owns an SOA, and no name a set of type RRSIG, each step has sets that can be read back one behind the
/// other: `write_entry` and `push_step` never refuse it as `Unreadable`.
pub fn steps_are_writable()
    ensures { StepsAreWritable }
{}
