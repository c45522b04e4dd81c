//! Updates planned where they are permitted (RFC 2136 section 3.3), from the sets of their names alone.
ghost use Rattle.std.specs.Prelude.{[], Some, option_copied};
ghost use Rattle.zone_update.specs.Entries.{Gives};
ghost use Rattle.update_permission.specs.Permissions.{updated_if_permitted};
ghost use Rattle.update_in_place.specs.Parts.{names_about};
ghost use Rattle.update_in_place.specs.Plans.{GivesPlan};

use crate::in_place::Changed;
use crate::parts::{names_about, sets_of};
use std::alloc::Global;
use update_permission::updated_if_permitted;
use update_policy::Rule;
use zone_map::RecordMap;
use zone_proto::LowerName;
use zone_update::{Entry, Refusal, Update, check_prerequisites};

/// What an update changes in the zone of an origin that the owner of a key asks for, where a table of rules permits each of its changes; none where it
/// changes nothing. The zone is only read, until [`carry_out`](crate::carry_out) changes it: it is then the one that
/// `updated_if_permitted` of `update_permission` makes beside it.
///
/// It costs what the sets of the names cost that the update is about, and what its prerequisites name, whatever else the zone has.
///
/// # Errors
///
/// Those of `updated_if_permitted`, in its order: `Refused` without a key, then those of a prerequisite, `Refused` where a change isn't permitted, and
/// those of a change. `Memory` may come in place of any of these.
pub fn planned_if_permitted(
    alloc: Global,
    rules: &[Rule],
    key: Option<&LowerName>,
    origin: &LowerName,
    zone: &RecordMap,
    update: Update,
) -> Result<Option<Changed>, Refusal>
    ensures { GivesPlan (names_about origin.now update.changes.items) zone.now
        (updated_if_permitted rules.now (option_copied key.entry) origin.now zone.now
        update.prerequisites.items update.changes.items) result }
{
    match key {
        None => Err(Refusal::Refused),
        Some(key) => planned_by(alloc, rules, key, origin, zone, update),
    }
}

/// The same for the owner of a key.
fn planned_by(
    alloc: Global,
    rules: &[Rule],
    key: &LowerName,
    origin: &LowerName,
    zone: &RecordMap,
    update: Update,
) -> Result<Option<Changed>, Refusal>
    ensures { GivesPlan (names_about origin.now update.changes.items) zone.now
        (updated_if_permitted rules.now (Some key.now) origin.now zone.now
        update.prerequisites.items update.changes.items) result }
{
    let Update {
        prerequisites,
        changes,
    } = update;
    match check_prerequisites(alloc, origin, zone, prerequisites) {
        Ok(()) => planned_alone(alloc, rules, key, origin, zone, changes),
        Err(refusal) => Err(refusal),
    }
}

/// The same for an update without prerequisites.
fn planned_alone(
    alloc: Global,
    rules: &[Rule],
    key: &LowerName,
    origin: &LowerName,
    zone: &RecordMap,
    changes: Vec<Entry>,
) -> Result<Option<Changed>, Refusal>
    ensures { GivesPlan (names_about origin.now changes.items) zone.now
        (updated_if_permitted rules.now (Some key.now) origin.now zone.now [] changes.items)
        result }
{
    let names = names_about(alloc, origin, changes.as_slice())?;
    let before = sets_of(alloc, zone, names.as_slice())?;
    let _had = zone.len();
    match permitted_alone(alloc, rules, key, origin, &before, changes) {
        Ok(Some(after)) => Ok(Some(Changed { before, after })),
        Ok(None) => Ok(None),
        Err(refusal) => Err(refusal),
    }
}

/// The sets of a zone after an update without prerequisites, where it is permitted; none where it changes nothing.
fn permitted_alone(
    alloc: Global,
    rules: &[Rule],
    key: &LowerName,
    origin: &LowerName,
    zone: &RecordMap,
    changes: Vec<Entry>,
) -> Result<Option<RecordMap>, Refusal>
    ensures { Gives result
        (updated_if_permitted rules.now (Some key.now) origin.now zone.now [] changes.items) }
{
    let prerequisites = Vec::new(alloc);
    updated_if_permitted(
        alloc,
        rules,
        Some(key),
        origin,
        zone,
        Update {
            prerequisites,
            changes,
        },
    )
}
