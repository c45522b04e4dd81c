//! Laws of updates of signed zones that are prepared where they are permitted. Each is an empty function whose contract is the law, so a
//! program has no need to call one.
ghost use Rattle.update_signing.specs.Laws.{PermittedIsPrepared, PermittedRecordsAloneChange, PermittedSetsAloneAreChanged, RefusedAlike};

/// A zone that is prepared where an update is permitted is the one that `prepare` of `update_denials` prepares after the same update; so
/// once it is signed its chain is closed (`updated_zones_are_nsec_chains`, `updated_zones_are_nsec3_chains`), and its responses prove what
/// they say (`update_laws`). An update of a zone that isn't signed, with the same sets, takes the same course: `updated_if_permitted` of
/// `update_permission` refuses it for the same cause, or it changes nothing there either.
pub fn permitted_updates_are_prepared()
    ensures prepared { PermittedIsPrepared }
    ensures refused { RefusedAlike }
{}

/// Before it is signed, each set of the zone after an update that the owner of a key asks for stands as it did, or the rules permit this key to
/// change it (RFC 2136 section 3.3). Once it is signed, with whatever octets, each set has the records that it had that these rules don't
/// permit this key to change, but for the SOA, whose serial goes on by itself (section 3.6), and for what signing makes: RRSIG, NSEC, NSEC3,
/// NSEC3PARAM, DNSKEY, CDS and CDNSKEY. So it is whatever the update asks for and in which order.
pub fn permitted_sets_alone_are_changed()
    ensures before { PermittedSetsAloneAreChanged }
    ensures signed { PermittedRecordsAloneChange }
{}
