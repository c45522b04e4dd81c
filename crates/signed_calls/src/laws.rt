//! Laws of the definitions that the calls of this crate are proved to meet. Each is an empty function whose contract is the law, for
//! every value, so a program has no need to call one.
ghost use Rattle.signed_calls.specs.Laws.{FinishedGrowJournals, PreparedAreHeld, WaitingGrowJournals};

/// Where a plan is held after an update was prepared, it is of the signed zone as it is after an update that its rules permit the owner of the key
/// by which the message was signed (`signed_updates_are_permitted` of `signed_updates`); or of what such an update changes of it, in the version that is
/// to take its place.
pub fn prepared_are_held()
    ensures { PreparedAreHeld }
{}

/// What the journal of a zone gets of a plan whose whole zone waits to be committed makes it the journal of one version more: that of the plan, with the
/// signatures that were given.
pub fn waiting_grow_journals()
    ensures { WaitingGrowJournals }
{}

/// What the journal of a zone gets of a version of it that was finished makes it the journal of one version more: that one, with the signatures that
/// were given. It has to lead to the zone that the version was made of.
pub fn finished_grow_journals()
    ensures { FinishedGrowJournals }
{}
