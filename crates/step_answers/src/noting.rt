//! New versions of a zone.
ghost use Rattle.std.specs.Prelude.{◌≡◌, OnErr, OnOk};
ghost use Rattle.step_answers.specs.Noting.{is_to_newer, kept_behind, IsNoted};

use difference_messages::serial_of;
use kept_steps::KeptSteps;
use shown_zones::{ZoneStep, step_between};
use std::alloc::{AllocError, Global};
use zone_map::RecordMap;
use zone_proto::{LowerName, is_newer};

/// Puts the step from one version of a zone to the next one behind the steps that are kept, which lead to the first. Where the second isn't
/// newer by the serial of its SOA (RFC 1982), or one of the two has no SOA, all are forgotten: no step leads to it. The step takes one pass
/// over either version, and a copy of what changed. Fails only for lack of memory, and then the steps are as they were.
#[tactic(auto, using(crate::proofs::NotedLead::noted_so))]
pub fn note_version(
    alloc: Global,
    origin: &LowerName,
    before: &RecordMap,
    after: &RecordMap,
    kept: &mut KeptSteps,
) -> Result<(), AllocError>
    ensures noted { OnOk result (IsNoted origin.now before.now after.now kept.old kept.new) }
    ensures same { OnErr result (kept.new ≡ kept.old) }
{
    match step_between(alloc, origin, before, after) {
        Ok(step) => note_step(kept, step),
        Err(_) => Err(AllocError),
    }
}

/// Puts a step behind those that are kept, which lead to the version that it is from. Where it isn't to a newer version by the serials of its two SOAs
/// (RFC 1982), or there is none, all are forgotten: no step leads to that version. Fails only for lack of memory, and then the steps are as they were.
pub fn note_step(kept: &mut KeptSteps, step: Option<ZoneStep>) -> Result<(), AllocError>
    ensures put { OnOk result (kept.new ≡ kept_behind step kept.old) }
    ensures same { OnErr result (kept.new ≡ kept.old) }
{
    let Some(step) = step else {
        kept.forget();
        return Ok(());
    };
    if is_to_newer(&step) {
        kept.push(step)
    } else {
        kept.forget();
        Ok(())
    }
}

/// Whether a step leads to a newer version, by the serials of the two SOAs.
fn is_to_newer(step: &ZoneStep) -> bool
    ensures { result ≡ is_to_newer step.now }
{
    match (serial_of(&step.new_soa), serial_of(&step.old_soa)) {
        (Some(new), Some(old)) => is_newer(new, old),
        _ => false,
    }
}
