//! An update that is carried out where it is permitted.
ghost use Rattle.std.specs.Prelude.{Some, option_copied};
ghost use Rattle.zone_update.specs.Entries.{Gives};
ghost use Rattle.update_permission.specs.Permissions.{changed_alone, updated_if_permitted};

use crate::permission::is_permitted;
use std::alloc::Global;
use update_policy::Rule;
use zone_map::RecordMap;
use zone_proto::LowerName;
use zone_update::{Entry, Refusal, Update, changed_sets, check_prerequisites, finished};

/// The sets of the zone of an origin after an update that the owner of a key asks for, where a table of rules permits each of its changes
/// ([`is_permitted`]); none where it changes nothing. Those that it has are only read, so a refusal leaves nothing to undo.
///
/// It is done in the order of RFC 2136 section 3: the prerequisites are looked at, then whether each change is permitted, and then the
/// changes are made; where they change anything, the serial goes on (section 3.6). But who has no key is refused before all that, as who has a wrong one is (RFC 8945 section 5.2): prerequisites may
/// be many, and are compared with whole sets.
///
/// # Errors
///
/// `Refused` without a key; otherwise those of `updated` of `zone_update` for a prerequisite, then `Refused` where a change isn't permitted,
/// and then those of `updated` for a change. `Memory` may come in place of any of these.
pub fn updated_if_permitted(
    alloc: Global,
    rules: &[Rule],
    key: Option<&LowerName>,
    origin: &LowerName,
    zone: &RecordMap,
    update: Update,
) -> Result<Option<RecordMap>, Refusal>
    ensures { Gives result
        (updated_if_permitted rules.now (option_copied key.entry) origin.now zone.now
        update.prerequisites.items update.changes.items) }
{
    match key {
        None => Err(Refusal::Refused),
        Some(key) => updated_by(alloc, rules, key, origin, zone, update),
    }
}

/// The same for the owner of a key.
fn updated_by(
    alloc: Global,
    rules: &[Rule],
    key: &LowerName,
    origin: &LowerName,
    zone: &RecordMap,
    update: Update,
) -> Result<Option<RecordMap>, Refusal>
    ensures { Gives result
        (updated_if_permitted rules.now (Some key.now) origin.now zone.now
        update.prerequisites.items update.changes.items) }
{
    let Update {
        prerequisites,
        changes,
    } = update;
    if let Err(refusal) = check_prerequisites(alloc, origin, zone, prerequisites) {
        return Err(refusal);
    }
    match is_permitted(alloc, rules, Some(key), origin, zone, changes.as_slice()) {
        Ok(true) => changed_alone(alloc, origin, zone, changes),
        Ok(false) => Err(Refusal::Refused),
        Err(_) => Err(Refusal::Memory),
    }
}

/// The sets of a zone after changes without prerequisites, or none where these change nothing.
#[tactic(auto, using(crate::proofs::Endings::ends_changed, crate::proofs::Endings::ends_same, crate::proofs::Endings::ends_refused))]
fn changed_alone(
    alloc: Global,
    origin: &LowerName,
    zone: &RecordMap,
    changes: Vec<Entry>,
) -> Result<Option<RecordMap>, Refusal>
    ensures { Gives result (changed_alone origin.now zone.now changes.items) }
{
    let update = Update {
        prerequisites: Vec::new(alloc),
        changes,
    };
    match changed_sets(alloc, origin, zone, update) {
        Ok(Some(after)) => match finished(origin, zone, after) {
            Ok(after) => Ok(Some(after)),
            Err(_) => Err(Refusal::Memory),
        },
        Ok(None) => Ok(None),
        Err(refusal) => Err(refusal),
    }
}
