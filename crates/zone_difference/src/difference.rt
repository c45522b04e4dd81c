//! The difference of two zones.
ghost use Rattle.std.specs.Prelude.{◌≡◌, IfOk, IsOkUnless, option_copied, Some};
ghost use Rattle.zone_difference.specs.Differences.{same_at, sets_lacking};

use std::alloc::Global;
use zone_map::RecordMap;
use zone_proto::{ProtoError, RecordSet};

/// What a zone loses and gets, set by set: a set of which a record, the TTL or a signature changes is among both.
#[derive(Drop)]
pub struct Difference {
    /// The sets that are taken out, whole.
    pub taken: Vec<RecordSet>,
    /// The sets that are given, whole.
    pub given: Vec<RecordSet>,
}

/// The difference from one zone to another: the sets of the first that the other hasn't are taken out, and those of the other that the
/// first hasn't are given, in the order of their keys. Sets are equal by all their parts, names ignoring case. Refused by `Memory`
/// alone.
pub fn difference_between(
    alloc: Global,
    before: &RecordMap,
    after: &RecordMap,
) -> Result<Difference, ProtoError>
    ensures taken { IfOk result (λ d. d.taken.items ≡ sets_lacking before.now after.now) }
    ensures given { IfOk result (λ d. d.given.items ≡ sets_lacking after.now before.now) }
    ensures err { IsOkUnless result ProtoError.Memory }
{
    let taken = sets_lacking(alloc, before, after)?;
    let given = sets_lacking(alloc, after, before)?;
    Ok(Difference { taken, given })
}

/// Copies of the sets of a zone that another hasn't, in the order of their keys.
fn sets_lacking(
    alloc: Global,
    zone: &RecordMap,
    other: &RecordMap,
) -> Result<Vec<RecordSet>, ProtoError>
    ensures ok { IfOk result (λ sets. sets.items ≡ sets_lacking zone.now other.now) }
    ensures err { IsOkUnless result ProtoError.Memory }
{
    let mut lacking = Vec::new(alloc);
    for (key, set) in zone.iter() {
        if !is_same(other.get(key), set) {
            lacking.push(set.clone()?)?;
        }
    }
    Ok(lacking)
}

/// Whether a set is there, and equal to another.
pub(crate) fn is_same(standing: Option<&RecordSet>, set: &RecordSet) -> bool
    ensures { result ≡ same_at (option_copied standing.entry) (Some set.now) }
{
    match standing {
        None => false,
        Some(standing) => *standing == *set,
    }
}
