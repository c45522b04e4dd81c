//! An update of a signed zone of a database made in the version that is to take its place.
ghost use Rattle.std.specs.Prelude.{◌≡◌, true, List, Some, IfOk, IfErr, option_copied};
ghost use Rattle.std.specs.Arc.{arc_value};
ghost use Rattle.std.specs.List.{find};
ghost use Rattle.zone_proto.specs.Names.{Name};
ghost use Rattle.zone_map.specs.Zones.{Sets};
ghost use Rattle.update_permission.specs.Permissions.{updated_if_permitted};
ghost use Rattle.update_in_place.specs.Parts.{names_about, AreChanged};
ghost use Rattle.signed_in_place.specs.Updates.{IsUnbegun, IsUnsigned};
ghost use Rattle.zone_database.specs.Databases.{begins_at, zones_in};
ghost use Rattle.signed_versions.specs.Begun.{IsBegunChange, IsBegunIn, IsBegunOf, IsUnbegunIn};

use crate::waiting::WaitingVersion;
use signed_in_place::{Begun, UpdateFault, are_of_their_types, begin_change};
use std::alloc::Global;
use std::sync::Arc;
use update_in_place::{Changed, planned_if_permitted};
use update_policy::Rule;
use zone_database::{Zone, ZoneDatabase};
use zone_map::RecordMap;
use zone_planner::{PlannedKey, Request};
use zone_planning::PlanFault;
use zone_proto::LowerName;
use zone_update::Update;

/// What comes of an update of a signed zone.
#[derive(Drop)]
pub enum BegunVersion {
    /// It is made in the version that is to take the place of the zone once its signatures are made.
    Waiting(WaitingVersion),
    /// It changes nothing.
    Unchanged,
    /// It changes more than its names, as [`Begun::NotLocal`] says: the whole zone is to be prepared, as `update_denials` does that.
    NotLocal,
    /// There is no zone of this origin.
    NoZone,
}

/// Makes an update of the signed zone of an origin that the owner of a key asks for, where a table of rules permits each of its changes, in the version that
/// is to take the place of the zone: `planned_if_permitted` of `update_in_place` plans it, and `begin_change` of `signed_in_place` carries it out, with
/// these keys and as this asks. The zones stay as they are. Whether the zone is signed, and hasn't expired, is to be looked at before.
///
/// It costs what the sets cost that change and those of the names beside them in the chain, whatever else the zone has, once the version before the zone is
/// kept, as [`sets_of`](ZoneDatabase::sets_of) says; else it copies the zone.
///
/// # Errors
///
/// `Refused` where the update is refused (RFC 2136 section 3), by the causes of `planned_if_permitted` in their order; then `Unsigned` by those of
/// `begin_change`. `Memory` may come in place of any.
pub fn begin_version(
    alloc: Global,
    zones: &mut ZoneDatabase,
    rules: &[Rule],
    key: Option<&LowerName>,
    origin: &LowerName,
    update: Update,
    keys: &[PlannedKey],
    request: &Request,
) -> Result<BegunVersion, UpdateFault>
    ensures begun { IfOk result (IsBegunIn origin.now keys.now request.now
        (names_about origin.now update.changes.items) update.changes.items
        (λ m. updated_if_permitted rules.now (option_copied key.entry) origin.now m
        update.prerequisites.items update.changes.items)
        (find (begins_at origin.now) (zones_in zones.old))) }
    ensures fault { IfErr result (IsUnbegunIn keys.now request.now
        (λ m. updated_if_permitted rules.now (option_copied key.entry) origin.now m
        update.prerequisites.items update.changes.items)
        (find (begins_at origin.now) (zones_in zones.old))) }
    ensures same { zones_in zones.new ≡ zones_in zones.old }
{
    match zones.share(origin) {
        Ok(Some(before)) => begin_beside(
            alloc, zones, rules, key, origin, before, update, keys, request,
        ),
        Ok(None) => Ok(BegunVersion::NoZone),
        Err(_) => Err(UpdateFault::Unsigned(PlanFault::Memory)),
    }
}

/// The same where this is the zone of the origin.
fn begin_beside(
    alloc: Global,
    zones: &mut ZoneDatabase,
    rules: &[Rule],
    key: Option<&LowerName>,
    origin: &LowerName,
    before: Arc<Zone>,
    update: Update,
    keys: &[PlannedKey],
    request: &Request,
) -> Result<BegunVersion, UpdateFault>
    requires { find (begins_at origin.now) (zones_in zones.old) ≡ Some (arc_value before) }
    ensures begun { IfOk result (IsBegunOf origin.now keys.now request.now
        (names_about origin.now update.changes.items) update.changes.items
        (updated_if_permitted rules.now (option_copied key.entry) origin.now
        (arc_value before).inner.records update.prerequisites.items update.changes.items)
        (arc_value before)) }
    ensures fault { IfErr result (IsUnbegun keys.now request.now
        (arc_value before).inner.records (arc_value before).inner.records
        (updated_if_permitted rules.now (option_copied key.entry) origin.now
        (arc_value before).inner.records update.prerequisites.items update.changes.items)) }
    ensures same { zones_in zones.new ≡ zones_in zones.old }
{
    let are_typed = are_of_their_types(update.changes.as_slice());
    let sets = before.inner.record_map();
    match planned_if_permitted(alloc, rules, key, origin, sets, update) {
        Ok(Some(changed)) => begin_planned(
            alloc, zones, origin, before, changed, keys, request, are_typed,
        ),
        Ok(None) => Ok(BegunVersion::Unchanged),
        Err(refusal) => Err(UpdateFault::Refused(refusal)),
    }
}

/// Makes a change of the zone of an origin in the version that is to take its place, where the records that ask for it are of their types.
fn begin_planned(
    alloc: Global,
    zones: &mut ZoneDatabase,
    origin: &LowerName,
    before: Arc<Zone>,
    changed: Changed,
    keys: &[PlannedKey],
    request: &Request,
    are_typed: bool,
) -> Result<BegunVersion, UpdateFault>
    requires found { find (begins_at origin.now) (zones_in zones.old) ≡ Some (arc_value before) }
    requires change { (names : List Name) × (next : Sets)
        × AreChanged names (arc_value before).inner.records next changed.before changed.after }
    ensures begun { IfOk result (IsBegunChange origin.now keys.now request.now are_typed
        changed (arc_value before)) }
    ensures fault { IfErr result (IsUnsigned keys.now request.now) }
    ensures same { zones_in zones.new ≡ zones_in zones.old }
{
    if !are_typed {
        return Ok(BegunVersion::NotLocal);
    }
    match zones.sets_of(alloc, origin) {
        Ok(Some(next)) => begin_in(alloc, origin, before, next, &changed, keys, request),
        Ok(None) => Ok(BegunVersion::NoZone),
        Err(_) => Err(UpdateFault::Unsigned(PlanFault::Memory)),
    }
}

/// The same in these sets, which are those of the zone.
fn begin_in(
    alloc: Global,
    origin: &LowerName,
    before: Arc<Zone>,
    mut next: RecordMap,
    changed: &Changed,
    keys: &[PlannedKey],
    request: &Request,
) -> Result<BegunVersion, UpdateFault>
    requires sets { next ≡ (arc_value before).inner.records }
    requires change { (names : List Name) × (after : Sets)
        × AreChanged names (arc_value before).inner.records after
        changed.now.before changed.now.after }
    ensures begun { IfOk result
        (IsBegunChange origin.now keys.now request.now true changed.now (arc_value before)) }
    ensures fault { IfErr result (IsUnsigned keys.now request.now) }
{
    let Ok(origin) = origin.clone() else {
        return Err(UpdateFault::Unsigned(PlanFault::Memory));
    };
    match begin_change(alloc, &origin, &mut next, changed, keys, request) {
        Ok(Begun::Changed(change)) => Ok(BegunVersion::Waiting(WaitingVersion {
            origin,
            before,
            next,
            change,
        })),
        Ok(Begun::NotLocal) => Ok(BegunVersion::NotLocal),
        Err(fault) => Err(UpdateFault::Unsigned(fault)),
    }
}
