//! An update of a signed zone that who has a key asks for, carried out in the version that takes the zone's place.
ghost use Rattle.std.specs.Prelude.{◌≡◌, List, option_copied, IfOk, IfErr};
ghost use Rattle.std.specs.List.{list_all};
ghost use Rattle.update_permission.specs.Permissions.{type_about, updated_if_permitted};
ghost use Rattle.update_in_place.specs.Parts.{names_about, AreChanged};
ghost use Rattle.zone_proto.specs.Names.{Name};
ghost use Rattle.zone_map.specs.Zones.{Sets};
ghost use Rattle.signed_in_place.specs.Updates.{is_of_its_type, IsBegunIf, IsBegunUpdate, IsUnbegun, IsUnsigned};

use crate::beginning::{Begun, begin_change};
use std::alloc::Global;
use update_in_place::{Changed, planned_if_permitted};
use update_policy::Rule;
use zone_map::RecordMap;
use zone_planner::{PlannedKey, Request};
use zone_planning::PlanFault;
use zone_proto::{LowerName, RecordType};
use zone_update::{Content, Entry, Refusal, Update};

/// Why an update of a signed zone isn't begun.
#[derive(Drop)]
pub enum UpdateFault {
    /// The update is refused (RFC 2136 section 3): nothing is changed.
    Refused(Refusal),
    /// The zone can't be signed so, or no memory was found: the version may be changed in part, and is to be dropped.
    Unsigned(PlanFault),
}

/// Begins an update of the signed zone of an origin that the owner of a key asks for, where a table of rules permits each of its changes, in a version of the
/// zone: as `planned_if_permitted` of `update_in_place` plans it and [`begin_change`] carries it out. None where it changes nothing.
/// `NotLocal`, too, where a record of the update has data of another type than its own, which no message has.
///
/// It costs what [`begin_change`] costs, and what the sets cost that the update names.
///
/// # Errors
///
/// `Refused` where the update is refused, by the causes of `planned_if_permitted` in their order; then `Unsigned` by those of [`begin_change`].
pub fn begin_update(
    alloc: Global,
    rules: &[Rule],
    key: Option<&LowerName>,
    origin: &LowerName,
    zone: &mut RecordMap,
    update: Update,
    keys: &[PlannedKey],
    request: &Request,
) -> Result<Option<Begun>, UpdateFault>
    ensures begun { IfOk result (λ begun. IsBegunUpdate origin.now keys.now request.now
        (names_about origin.now update.changes.items) update.changes.items zone.old zone.new
        (updated_if_permitted rules.now (option_copied key.entry) origin.now zone.old
        update.prerequisites.items update.changes.items) begun) }
    ensures fault { IfErr result (λ fault. IsUnbegun keys.now request.now zone.old zone.new
        (updated_if_permitted rules.now (option_copied key.entry) origin.now zone.old
        update.prerequisites.items update.changes.items) fault) }
{
    let are_typed = are_of_their_types(update.changes.as_slice());
    match planned_if_permitted(alloc, rules, key, origin, zone, update) {
        Ok(None) => Ok(None),
        Ok(Some(changed)) => {
            let begun = begin_typed(alloc, origin, zone, changed, keys, request, are_typed)?;
            Ok(Some(begun))
        }
        Err(refusal) => Err(UpdateFault::Refused(refusal)),
    }
}

/// Whether each record of an update has data of its type, if it has any, as each that is read of a message has.
pub fn are_of_their_types(changes: &[Entry]) -> bool
    ensures { result ≡ list_all is_of_its_type changes.now }
{
    changes.iter().all(|change| is_of_its_type(change))
}

/// Whether a record has data of its type, if it has any.
fn is_of_its_type(change: &Entry) -> bool
    ensures { result ≡ is_of_its_type change.now }
{
    type_about(change) == change.record_type
}

/// The type of the set that a record is about: that of its data, where it has some.
fn type_about(change: &Entry) -> RecordType
    ensures { result.0 ≡ type_about change.now }
{
    match &change.content {
        Content::Data(data) => data.record_type(),
        Content::Empty | Content::Unread => change.record_type,
    }
}

/// Begins an update that is planned, where its records are of their types.
fn begin_typed(
    alloc: Global,
    origin: &LowerName,
    zone: &mut RecordMap,
    changed: Changed,
    keys: &[PlannedKey],
    request: &Request,
    are_typed: bool,
) -> Result<Begun, UpdateFault>
    requires { (names : List Name) × (next : Sets)
        × AreChanged names zone.old next changed.before changed.after }
    ensures begun { IfOk result (λ begun. IsBegunIf are_typed origin.now keys.now request.now
        changed.before changed.after zone.old zone.new begun) }
    ensures fault { IfErr result (IsUnsigned keys.now request.now) }
{
    if !are_typed {
        return Ok(Begun::NotLocal);
    }
    match begin_change(alloc, origin, zone, &changed, keys, request) {
        Ok(begun) => Ok(begun),
        Err(fault) => Err(UpdateFault::Unsigned(fault)),
    }
}
