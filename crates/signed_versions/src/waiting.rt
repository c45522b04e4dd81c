//! The version of a signed zone that is to take its place once its signatures are made.
ghost use Rattle.std.specs.Prelude.{◌≡◌};

use signed_in_place::PreparedChange;
use std::marker::Model;
use std::sync::Arc;
use zone_database::Zone;
use zone_map::RecordMap;
use zone_planning::Plan;
use zone_proto::LowerName;

/// The version of a signed zone that an update made, beside the zone that is served, whose signatures are to be made. It is dropped where the update is
/// given up: the zone stays as it is.
#[derive(Drop)]
pub struct WaitingVersion {
    pub(crate) origin: LowerName,
    pub(crate) before: Arc<Zone>,
    pub(crate) next: RecordMap,
    pub(crate) change: PreparedChange,
}

impl Model for WaitingVersion {
    ghost use Rattle.std.specs.Arc.{arc_value};
    ghost use Rattle.signed_versions.specs.Versions.{VersionState, IsOfItsNames};

    ghost Value = { VersionState };

    ghost view = { λ v. record {
      origin = v.origin;
      before = arc_value v.before;
      next = v.next;
      change = v.change;
    } };

    ghost invariant = { λ v. IsOfItsNames (record {
      origin = v.origin;
      before = arc_value v.before;
      next = v.next;
      change = v.change;
    }) };
}

impl WaitingVersion {
    /// The origin of the zone.
    pub fn origin(&self) -> &LowerName
        ensures { result.now ≡ self.now.origin }
    {
        &self.origin
    }

    /// The zone that is served, of which the update was made.
    pub fn before(&self) -> &Zone
        ensures { result.now ≡ self.now.before }
    {
        &self.before
    }

    /// The sets whose signatures are to be made, with blank ones in their places, and the keys by their numbers.
    pub fn plan(&self) -> &Plan
        ensures { result.now ≡ self.now.change.plan }
    {
        &self.change.plan
    }
}
