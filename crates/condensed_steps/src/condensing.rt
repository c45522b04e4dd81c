//! Steps condensed into one.
ghost use Rattle.std.specs.Prelude.{◌≡◌, [], map, IfOk, IsOkUnless};
ghost use Rattle.shown_zones.specs.Steps.{step_of};
ghost use Rattle.condensed_steps.specs.Condensing.{before_all, behind_all, IsCondensedIfAny};

use crate::passing::pass;
use shown_zones::{ZoneStep, step_between};
use std::alloc::Global;
use zone_map::RecordMap;
use zone_proto::{LowerName, ProtoError};

/// The one step that leads from the version before some steps of a zone to the version behind them (RFC 1995 section 5), as answers show them,
/// names ignoring case: both SOAs, of the sets that steps delete those that the first version had, and of those that they add those that the last
/// one has; in the order of their keys, and without those that answers show alike of both versions. `origin` is the zone's.
///
/// None where steps begin or end without an SOA of the origin, as where there are none. Refused by `Memory` alone.
pub fn condensed(
    alloc: Global,
    origin: &LowerName,
    steps: &[ZoneStep],
) -> Result<Option<ZoneStep>, ProtoError>
    ensures condensed { IfOk result (IsCondensedIfAny origin.now (map step_of steps.now)) }
    ensures err { IsOkUnless result ProtoError.Memory }
{
    let first = known_before(alloc, steps)?;
    let last = known_behind(alloc, steps)?;
    step_between(alloc, origin, &first, &last)
}

/// What steps tell of the version behind the last of them.
fn known_behind(alloc: Global, steps: &[ZoneStep]) -> Result<RecordMap, ProtoError>
    ensures ok { IfOk result (λ sets. sets ≡ behind_all [] (map step_of steps.now)) }
    ensures err { IsOkUnless result ProtoError.Memory }
{
    let mut sets = RecordMap::new(alloc);
    for step in steps {
        pass(
            &mut sets,
            &step.old_soa,
            step.deleted.as_slice(),
            step.added.as_slice(),
            &step.new_soa,
        )?;
    }
    Ok(sets)
}

/// What they tell of the version before the first of them: each is undone, the last one first.
fn known_before(alloc: Global, steps: &[ZoneStep]) -> Result<RecordMap, ProtoError>
    ensures ok { IfOk result (λ sets. sets ≡ before_all [] (map step_of steps.now)) }
    ensures err { IsOkUnless result ProtoError.Memory }
{
    let mut sets = RecordMap::new(alloc);
    let mut rest = steps;
    while let Some((step, front)) = rest.split_last() {
        pass(
            &mut sets,
            &step.new_soa,
            step.added.as_slice(),
            step.deleted.as_slice(),
            &step.old_soa,
        )?;
        rest = front;
    }
    Ok(sets)
}
