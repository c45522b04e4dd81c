//! Laws of updates of signed zones of a database. Each is an empty function whose contract is the law, for every value, so a program has
//! no need to call one.
ghost use Rattle.signed_updates.specs.Laws.{FinishedGrowJournals, PreparedArePermitted};

/// A signed zone is prepared to change only by a message that was found signed under a key: its MAC is right and whole, and the moment is
/// within its fudge (RFC 8945 section 5.2). The zone was there, hasn't expired and is signed. What is prepared is what `prepare` of
/// `update_denials` makes of its sets by the update; and once that is signed, with whatever octets, each set has the records that it had that
/// the zone's rules don't permit the owner of this key to change, but for the SOA, whose serial goes on, and what signing makes (RFC
/// 2136 sections 3.3 and 3.6).
pub fn signed_updates_are_permitted()
    ensures { PreparedArePermitted }
{}

/// What the journal of a zone gets of an update that is finished makes it the journal of one version more, that after the update, with its
/// signatures and denials.
pub fn signed_updates_are_journaled()
    ensures { FinishedGrowJournals }
{}
