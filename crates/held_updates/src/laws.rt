//! Laws of the definitions that the calls of this crate are proved to meet. Each is an empty function whose contract is the law, for
//! every value, so a program has no need to call one.
ghost use Rattle.held_updates.specs.Laws.{CommitsReplaceOne, JournalsGrowByUpdates, PlansArePermitted, RefusalsChangeNothing, UpdatesArePermitted};
ghost use Rattle.held_updates.specs.Replaying.{JournalsAreReplayed};

/// A zone changes only by a message that was found signed under a key: its MAC is right and whole, and the moment is within its fudge (RFC
/// 8945 section 5.2). Each of its sets that the zone's rules don't permit the owner of this key to change stands as it did, but for the SOA,
/// whose serial goes on by itself (RFC 2136 sections 3.3 and 3.6); each other zone is as it was; and no zone changes that is signed or has
/// expired. What is refused, changes nothing or is no update leaves all zones.
pub fn updates_are_permitted()
    ensures planned { PlansArePermitted }
    ensures permitted { UpdatesArePermitted }
    ensures refused { RefusalsChangeNothing }
    ensures committed { CommitsReplaceOne }
{}

/// What the journal of a zone gets of an update makes it the journal of one version more, that after the update. Replayed over one of the versions a
/// journal leads to the last; and cut off behind any octet, as by a crash, to one of them (`zone_journal::laws`).
pub fn updates_are_journaled()
    ensures grown { JournalsGrowByUpdates }
    ensures replayed { JournalsAreReplayed }
{}
