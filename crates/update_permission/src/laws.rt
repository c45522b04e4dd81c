//! Laws of updates that are carried out where they are permitted. Each is an empty function whose contract is the law, so a program has no
//! need to call one.
ghost use Rattle.update_permission.specs.PermittedChanges.{NothingChangesWithoutKey, PermittedSetsAloneChange, SerialsGoOn, WhatIsGivenIsTheUpdate};

/// After an update that a table of rules permits the owner of a key (RFC 2136 section 3.3) each set of the zone that this key may not change
/// stands as it did, but for the SOA, whose serial goes on by itself (section 3.6). So it is whatever the update asks for and in which
/// order; and without a key nothing changes.
pub fn permitted_sets_alone_change()
    ensures permitted { PermittedSetsAloneChange }
    ensures no_key { NothingChangesWithoutKey }
{}

/// What an update that is permitted gives is the zone that `updated` of `zone_update` makes of its changes, or none where that is the zone as it was.
/// A zone that it gives has another serial than the one before (RFC 2136 section 3.6), so no two versions in a row have the same.
pub fn versions_have_serials()
    ensures given { WhatIsGivenIsTheUpdate }
    ensures serial { SerialsGoOn }
{}
