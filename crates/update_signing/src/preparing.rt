//! An update of a signed zone that is prepared where it is permitted.
ghost use Rattle.std.specs.Prelude.{[], Some, option_copied};
ghost use Rattle.zone_update.specs.Entries.{Gives};
ghost use Rattle.zone_update.specs.Updates.{course_of};
ghost use Rattle.update_signing.specs.Outcomes.{course_if_permitted, permission, IsOutcome};

use std::alloc::Global;
use update_denials::{PrepareFault, Prepared, Signing, prepare};
use update_permission::is_permitted;
use update_policy::Rule;
use zone_map::RecordMap;
use zone_proto::LowerName;
use zone_update::{Entry, Refusal, Update, check_prerequisites};

/// Prepares the zone of an origin after an update that the owner of a key asks for, where a table of rules permits each of its changes
/// (`is_permitted` of `update_permission`); none where it changes nothing. The zone is only read, so a refusal leaves nothing to undo.
///
/// It is done in the order of RFC 2136 section 3: the prerequisites are looked at, then whether each change is permitted, and then the
/// changes are made; where they change anything the zone is prepared to be signed, as `prepare` of `update_denials` says. But who has no key
/// is refused before all that, as who has a wrong one is (RFC 8945 section 5.2).
///
/// # Errors
///
/// `Refused` with `Refused` without a key; with the cause for a prerequisite; with `Refused` where a change isn't permitted; and with the cause
/// for a change. Then `Unsigned` where the zone after it can't be planned, or has data that no octets are. `Memory`, also as the cause of these,
/// where none is found.
pub fn prepare_if_permitted(
    alloc: Global,
    rules: &[Rule],
    key: Option<&LowerName>,
    origin: LowerName,
    zone: &RecordMap,
    update: Update,
    signing: Signing,
) -> Result<Option<Prepared>, PrepareFault>
    ensures { IsOutcome origin zone.now signing
        (course_if_permitted rules.now (option_copied key.entry) origin zone.now
        update.prerequisites.items update.changes.items) result }
{
    match key {
        None => Err(PrepareFault::Refused(Refusal::Refused)),
        Some(key) => prepare_by(alloc, rules, key, origin, zone, update, signing),
    }
}

/// The same for the owner of a key.
#[tactic(auto, using(crate::proofs::Outcomes::permitted_outcome, crate::proofs::Outcomes::refused_outcome))]
fn prepare_by(
    alloc: Global,
    rules: &[Rule],
    key: &LowerName,
    origin: LowerName,
    zone: &RecordMap,
    update: Update,
    signing: Signing,
) -> Result<Option<Prepared>, PrepareFault>
    ensures { IsOutcome origin zone.now signing
        (course_if_permitted rules.now (Some key.now) origin zone.now
        update.prerequisites.items update.changes.items) result }
{
    let Update {
        prerequisites,
        changes,
    } = update;
    let may = permission(
        alloc,
        rules,
        key,
        &origin,
        zone,
        prerequisites,
        changes.as_slice(),
    );
    match may {
        Ok(()) => prepare_changes(alloc, origin, zone, changes, signing),
        Err(refusal) => Err(PrepareFault::Refused(refusal)),
    }
}

/// Whether the prerequisites of an update are met, and the owner of a key may make each of its changes; if not, the refusal.
fn permission(
    alloc: Global,
    rules: &[Rule],
    key: &LowerName,
    origin: &LowerName,
    zone: &RecordMap,
    prerequisites: Vec<Entry>,
    changes: &[Entry],
) -> Result<(), Refusal>
    ensures { Gives result
        (permission rules.now (Some key.now) origin.now zone.now
        prerequisites.items changes.now) }
{
    if let Err(refusal) = check_prerequisites(alloc, origin, zone, prerequisites) {
        return Err(refusal);
    }
    match is_permitted(alloc, rules, Some(key), origin, zone, changes) {
        Ok(true) => Ok(()),
        Ok(false) => Err(Refusal::Refused),
        Err(_) => Err(Refusal::Memory),
    }
}

/// Prepares the zone of an origin after changes without prerequisites.
#[tactic(auto, using(crate::proofs::Outcomes::prepared_outcome))]
fn prepare_changes(
    alloc: Global,
    origin: LowerName,
    zone: &RecordMap,
    changes: Vec<Entry>,
    signing: Signing,
) -> Result<Option<Prepared>, PrepareFault>
    ensures { IsOutcome origin zone.now signing
        (course_of origin zone.now [] changes.items) result }
{
    let update = Update {
        prerequisites: Vec::new(alloc),
        changes,
    };
    prepare(alloc, origin, zone, update, signing)
}
