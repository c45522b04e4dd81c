//! Versions of a zone undone.
ghost use Rattle.std.specs.Prelude.{◌≡◌, IfOk, IsOkUnless};
ghost use Rattle.zone_difference.specs.Differences.{applied, Gives};
ghost use Rattle.zone_history.specs.Histories.{undone, GivesDifference};

use crate::history::Version;
use std::alloc::Global;
use zone_difference::{Difference, DifferenceError, applied, copied, difference_between};
use zone_map::RecordMap;
use zone_proto::{ProtoError, RecordSet};

/// The zone as it was before these versions of it, the oldest one first, were made into the one that is given: each difference is undone,
/// the last one first. The zone is only read.
///
/// # Errors
///
/// Those of `applied` of `zone_difference` for the first difference that doesn't lead to the zone: it isn't one of these versions.
#[tactic(auto, unfolding(crate::specs::Histories::undone))]
pub fn zone_before(
    alloc: Global,
    zone: &RecordMap,
    versions: &[Version],
) -> Result<RecordMap, DifferenceError>
    ensures { Gives result (undone zone.now versions.now) }
{
    let mut records = copied(alloc, zone)?;
    let mut rest = versions;
    while let Some((version, front)) = rest.split_last() {
        match step_back(alloc, &records, version) {
            Ok(before) => records = before,
            Err(error) => return Err(error),
        }
        rest = front;
    }
    Ok(records)
}

/// The zone before one version was made into it.
fn step_back(
    alloc: Global,
    zone: &RecordMap,
    version: &Version,
) -> Result<RecordMap, DifferenceError>
    ensures { Gives result
        (applied zone.now version.now.difference.given.items version.now.difference.taken.items) }
{
    let taken = copies(alloc, version.difference.given.as_slice())?;
    let given = copies(alloc, version.difference.taken.as_slice())?;
    applied(alloc, zone, Difference { taken, given })
}

/// Copies of sets.
fn copies(alloc: Global, sets: &[RecordSet]) -> Result<Vec<RecordSet>, ProtoError>
    ensures ok { IfOk result (λ copies. copies.items ≡ sets.now) }
    ensures err { IsOkUnless result ProtoError.Memory }
{
    let mut copies = Vec::with_capacity(alloc, sets.len())?;
    for set in sets {
        copies.push(set.clone()?)?;
    }
    Ok(copies)
}

/// The one difference that leads from the zone before these versions to the one that is given: what they changed and changed back isn't in it
/// (RFC 1995 section 5).
///
/// # Errors
///
/// Those of [`zone_before`].
pub fn difference_since(
    alloc: Global,
    zone: &RecordMap,
    versions: &[Version],
) -> Result<Difference, DifferenceError>
    ensures { GivesDifference result zone.now (undone zone.now versions.now) }
{
    match zone_before(alloc, zone, versions) {
        Ok(before) => Ok(difference_between(alloc, &before, zone)?),
        Err(error) => Err(error),
    }
}
