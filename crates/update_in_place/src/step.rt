//! The step of a zone that an update makes (RFC 1995 section 4), of the sets that change alone.
ghost use Rattle.std.specs.Prelude.{◌≡◌, true, List, IfOk, IsOkUnless};
ghost use Rattle.shown_zones.specs.Steps.{IsStepIfAny};
ghost use Rattle.zone_map.specs.Zones.{Sets, IsZone};
ghost use Rattle.zone_proto.specs.Names.{Name};
ghost use Rattle.update_in_place.specs.Parts.{is_among, AreChanged};

use crate::in_place::Changed;
use shown_zones::{ZoneStep, step_between};
use std::alloc::Global;
use zone_proto::{LowerName, ProtoError};

/// The step from a zone to the one that an update makes of it, as an incremental transfer and a journal have it (RFC 1995 section 4): that of the sets
/// that change. None where one of the zones has no SOA. Refused by `Memory` alone.
pub fn step_of(
    alloc: Global,
    origin: &LowerName,
    changed: &Changed,
) -> Result<Option<ZoneStep>, ProtoError>
    ensures step { IfOk result (λ step. (names : List Name) (zone next : Sets) → IsZone zone
        → is_among names origin.now ≡ true
        → AreChanged names zone next changed.now.before changed.now.after
        → IsStepIfAny origin.now zone next step) }
    ensures err { IsOkUnless result ProtoError.Memory }
{
    step_between(alloc, origin, &changed.before, &changed.after)
}
