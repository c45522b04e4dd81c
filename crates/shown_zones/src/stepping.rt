//! Steps as differences, which can be applied to a zone.
ghost use Rattle.std.specs.Prelude.{◌≡◌, ◌∷◌, map, IfOk};
ghost use Rattle.std.specs.List.{AllZip};
ghost use Rattle.zone_difference.specs.Differences.{Gives};
ghost use Rattle.shown_zones.specs.Agreeing.{IsOfStep};
ghost use Rattle.shown_zones.specs.Steps.{all_stepped, step_of};

use crate::step::ZoneStep;
use std::alloc::{AllocError, Global};
use zone_difference::{Difference, DifferenceError, replayed};
use zone_map::RecordMap;
use zone_proto::RecordSet;

/// The difference of a step, for `applied` and `replayed` of `zone_difference`: the older SOA and the sets that are deleted are taken out, and
/// those that are added and the newer SOA are given, in this order. Fails only for lack of memory.
pub fn difference_of(alloc: Global, step: ZoneStep) -> Result<Difference, AllocError>
    ensures { IfOk result (IsOfStep step) }
{
    let ZoneStep {
        old_soa,
        deleted,
        new_soa,
        added,
    } = step;
    let taken = behind(alloc, old_soa, deleted)?;
    let mut given = added;
    given.push(new_soa)?;
    Ok(Difference { taken, given })
}

/// Sets behind another one.
fn behind(
    alloc: Global,
    first: RecordSet,
    sets: Vec<RecordSet>,
) -> Result<Vec<RecordSet>, AllocError>
    ensures { IfOk result (λ all. all.items ≡ first ∷ sets.items) }
{
    let mut all = Vec::new(alloc);
    all.push(first)?;
    let mut others = sets;
    all.append(&mut others)?;
    Ok(all)
}

/// The zone that steps make of another, one after the other: of each the SOA and the sets that are deleted are taken out, and then those that
/// are added, and the newer SOA, are given. The zone is only read.
///
/// # Errors
///
/// Those of `applied` of `zone_difference`, for the first step that doesn't fit.
pub fn all_stepped(
    alloc: Global,
    zone: &RecordMap,
    steps: Vec<ZoneStep>,
) -> Result<RecordMap, DifferenceError>
    ensures { Gives result (all_stepped zone.now (map step_of steps.items)) }
{
    let differences = differences_of(alloc, steps)?;
    replayed(alloc, zone, differences)
}

/// The differences of steps.
fn differences_of(alloc: Global, steps: Vec<ZoneStep>) -> Result<Vec<Difference>, AllocError>
    ensures { IfOk result (λ ds. AllZip IsOfStep steps.items ds.items) }
{
    let mut differences = Vec::with_capacity(alloc, steps.len())?;
    for step in steps {
        differences.push(difference_of(alloc, step)?)?;
    }
    Ok(differences)
}
