//! Updates made in the zone itself (RFC 2136 section 3), at once or in two steps: what is to be changed is planned, and then it is carried out.
ghost use Rattle.std.specs.Prelude.{◌≡◌, ℕ, List, [], Ok, IfOk, IfErr, OnOk, OnErr, IsOkUnless};
ghost use Rattle.zone_map.specs.Zones.{Sets};
ghost use Rattle.zone_proto.specs.Names.{Name};
ghost use Rattle.zone_update.specs.Entries.{Gives, IsRefusal};
ghost use Rattle.zone_update.specs.Updates.{updated};
ghost use Rattle.update_in_place.specs.Parts.{names_about, sets_of, AreChanged};

use crate::exchange::exchange;
use crate::parts::{names_about, sets_of};
use std::alloc::Global;
use zone_map::RecordMap;
use zone_proto::{LowerName, ProtoError};
use zone_update::{Entry, Refusal, Update, check_prerequisites, updated};

/// The sets of the names that an update is about, before it and after it: those of its origin and of the names of its records. No other set
/// changes.
#[derive(Drop)]
pub struct Changed {
    /// The sets before.
    pub before: RecordMap,
    /// The sets after.
    pub after: RecordMap,
}

/// Makes an update in the zone of an origin (RFC 2136 section 3): the zone is then the one that [`updated`] makes beside it. Where it is refused, the
/// zone is as it was.
///
/// It copies the sets of the names that the update is about, and no others; [`carry_out`] says what it costs to exchange them.
///
/// # Errors
///
/// Those of [`updated`], in its order; `Memory` where none is found, in place of any of these.
pub fn update_in_place(
    alloc: Global,
    origin: &LowerName,
    zone: &mut RecordMap,
    update: Update,
) -> Result<Changed, Refusal>
    ensures changed { OnOk result (updated origin.now zone.old update.prerequisites.items
        update.changes.items ≡ Ok zone.new) }
    ensures before { IfOk result (λ changed. changed.before
        ≡ sets_of (names_about origin.now update.changes.items) zone.old) }
    ensures after { IfOk result (λ changed. changed.after
        ≡ sets_of (names_about origin.now update.changes.items) zone.new) }
    ensures refused { IfErr result (λ refusal. IsRefusal refusal
        (updated origin.now zone.old update.prerequisites.items update.changes.items)) }
    ensures same { OnErr result (zone.new ≡ zone.old) }
{
    let changed = match planned_update(alloc, origin, zone, update) {
        Ok(changed) => changed,
        Err(refusal) => return Err(refusal),
    };
    carry_out(alloc, zone, &changed)?;
    Ok(changed)
}

/// What an update changes in the zone of an origin, which is only read, until [`carry_out`] changes it so. Between the two what it changes can be
/// written into a journal.
///
/// # Errors
///
/// Those of [`updated`], in its order; `Memory` where none is found, in place of any of these.
pub fn planned_update(
    alloc: Global,
    origin: &LowerName,
    zone: &RecordMap,
    update: Update,
) -> Result<Changed, Refusal>
    ensures planned { IfOk result (λ changed. (next : Sets)
        × (updated origin.now zone.now update.prerequisites.items update.changes.items ≡ Ok next)
        × AreChanged (names_about origin.now update.changes.items) zone.now next
        changed.before changed.after) }
    ensures refused { IfErr result (λ refusal. IsRefusal refusal
        (updated origin.now zone.now update.prerequisites.items update.changes.items)) }
{
    let Update {
        prerequisites,
        changes,
    } = update;
    match check_prerequisites(alloc, origin, zone, prerequisites) {
        Ok(()) => planned_changes(alloc, origin, zone, changes),
        Err(refusal) => Err(refusal),
    }
}

/// Exchanges the sets of a zone that an update is about for those after it. Where it is refused, by `Memory` alone, the zone is as it was.
///
/// Each set that comes or goes is found by its key, so that it costs what these sets cost, whatever else the zone has.
pub fn carry_out(alloc: Global, zone: &mut RecordMap, changed: &Changed) -> Result<(), ProtoError>
    requires { (names : List Name) × (next : Sets)
        × AreChanged names zone.old next changed.now.before changed.now.after }
    ensures done { OnOk result ((names : List Name) (next : Sets)
        → AreChanged names zone.old next changed.now.before changed.now.after
        → zone.new ≡ next) }
    ensures err { IsOkUnless result ProtoError.Memory }
    ensures same { OnErr result (zone.new ≡ zone.old) }
{
    exchange(alloc, zone, &changed.before, &changed.after)?;
    let _has = zone.len();
    Ok(())
}

/// What an update without prerequisites changes.
fn planned_changes(
    alloc: Global,
    origin: &LowerName,
    zone: &RecordMap,
    changes: Vec<Entry>,
) -> Result<Changed, Refusal>
    ensures planned { IfOk result (λ changed. (next : Sets)
        × (updated origin.now zone.now [] changes.items ≡ Ok next)
        × AreChanged (names_about origin.now changes.items) zone.now next
        changed.before changed.after) }
    ensures refused { IfErr result (λ refusal. IsRefusal refusal
        (updated origin.now zone.now [] changes.items)) }
{
    let names = names_about(alloc, origin, changes.as_slice())?;
    let before = sets_of(alloc, zone, names.as_slice())?;
    let _had = zone.len();
    let after = match updated_alone(alloc, origin, &before, changes) {
        Ok(after) => after,
        Err(refusal) => return Err(refusal),
    };
    Ok(Changed { before, after })
}

/// The sets of a zone after an update without prerequisites.
fn updated_alone(
    alloc: Global,
    origin: &LowerName,
    zone: &RecordMap,
    changes: Vec<Entry>,
) -> Result<RecordMap, Refusal>
    ensures { Gives result (updated origin.now zone.now [] changes.items) }
{
    let prerequisites = Vec::new(alloc);
    updated(
        alloc,
        origin,
        zone,
        Update {
            prerequisites,
            changes,
        },
    )
}
