//! Laws of the zones that are made here: empty functions whose contracts are the laws, so a program has no need to call them.
ghost use Rattle.zone_database.specs.Zones.{ZonesHaveOwnDenials, ZonesLendTheirChain};

/// The sets among which the denials of a zone are looked up are in the zone, and are themselves those of a zone: all of its
/// sets, or, if it has NSEC or NSEC3 sets of several chains, those without the sets of the other chains (RFC 5155 section 7.3).
/// So the laws about what a response says, and about what its sections contain, apply to each zone that is made of sets.
pub fn zones_have_own_denials()
    ensures { ZonesHaveOwnDenials }
{}

/// These sets are those of the zone's chain (`chain_sets` of `zone_denial`): all except the denials of other chains, or of the
/// other kind. So the laws about what a response proves apply to each zone that is made of sets, if its chain is right
/// (`DeniesByNsec`, `DeniesByNsec3` of `response_laws`).
pub fn zones_lend_their_chain()
    ensures { ZonesLendTheirChain }
{}
