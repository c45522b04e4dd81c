//! Laws of the definitions of this crate. Each is an empty function whose contract is the law, so a program has no need to call one.
ghost use Rattle.update_in_place.specs.Locality.{PermissionsAreLocal, StepsAreLocal, UpdatesAreLocal};

/// An update without prerequisites (RFC 2136 section 3.4) makes of the sets of the names that it is about, the origin among them, what it makes of
/// them alone, and leaves each other set.
#[tactic(auto, using(crate::proofs::Alone::updates_are_local))]
pub fn updates_are_local()
    ensures { UpdatesAreLocal }
{}

/// Whether a table of rules permits the owner of a key each change of an update (RFC 2136 section 3.3) is told by the sets of the names that it is
/// about: of all others none is looked at.
#[tactic(auto, using(crate::proofs::PermittedPart::permissions_are_local))]
pub fn permissions_are_local()
    ensures { PermissionsAreLocal }
{}

/// Where a zone and the next one differ in the sets of some names alone, the origin among them, the step between these sets is the step between the
/// zones (RFC 1995 section 4).
#[tactic(auto, using(crate::proofs::Steps::steps_are_local))]
pub fn steps_are_local()
    ensures { StepsAreLocal }
{}
