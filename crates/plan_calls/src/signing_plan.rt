//! Plans as handles hold them, of a whole zone or of what an update changes of one.

use held_plans::HeldPlan;
use held_updates::UpdatedZone;
use signed_versions::WaitingVersion;

/// The zone that a plan signs.
#[derive(Drop)]
pub enum PlannedZone {
    /// The zone that the sets of the plan are, all of them.
    Whole,
    /// A version of a zone, which an update made: the sets of the plan are those of it that get other signatures.
    Version(WaitingVersion),
    /// The zone that such a version is with the signatures that were given. It waits for room for what its journal gets.
    Finished(Box<UpdatedZone>),
}

/// A plan, and the zone that it signs.
#[derive(Drop)]
pub struct SigningPlan {
    /// What is to be signed, and the signatures that were given.
    pub plan: HeldPlan,
    /// The zone that it signs.
    pub zone: PlannedZone,
}
