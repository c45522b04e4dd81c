//! Signatures put into a version of a zone that is changed, and all that changed.
ghost use Rattle.std.specs.Prelude.{◌≡◌, ◌⊎◌, ℕ, false, None, Some, IfOk, IfErr, OnOk};
ghost use Rattle.std.specs.Option.{option_or};
ghost use Rattle.zone_proto.specs.Names.{Name};
ghost use Rattle.zone_map.specs.Renewals.{with_signatures};
ghost use Rattle.zone_map.specs.Zones.{set_at};
ghost use Rattle.zone_planning.specs.Filling.{filled, finish_fault};
ghost use Rattle.update_in_place.specs.Parts.{is_among, AreChanged};

use crate::beginning::PreparedChange;
use signed_changes::put_signed;
use std::alloc::Global;
use update_in_place::{Changed, sets_of};
use zone_map::RecordMap;
use zone_planning::{FinishFault, finish};
use zone_proto::Seq;

/// Puts signatures in the places of the blank ones of a change that is prepared, in order, and the sets so into the version of the zone that is changed.
/// Gives the sets of all names of the change as they are in the zone that is served, and as they are in this version: it differs in no others.
///
/// It costs what these sets cost, each of which is found by its key, whatever else the zone has.
///
/// # Errors
///
/// Those of `finish` of `zone_planning`: `TooFew`, `TooMany`, `UnknownKey` and `WrongLength`; `Memory` in place of any. The version is to be dropped then.
pub fn finish_change(
    alloc: Global,
    zone: &RecordMap,
    next: &mut RecordMap,
    prepared: PreparedChange,
    signatures: &[Seq<u8>],
) -> Result<Changed, FinishFault>
    requires others { (n : Name) (t : ℕ) → is_among prepared.names.items n ≡ false
        → set_at next.old n t ≡ set_at zone.now n t }
    requires planned { (n : Name) (t : ℕ) → is_among prepared.names.items n ≡ false
        → set_at prepared.plan.records n t ≡ None }
    ensures changed { IfOk result (λ changed.
        AreChanged prepared.names.items zone.now next.new changed.before changed.after) }
    ensures signed { OnOk result ((n : Name) (t : ℕ) → set_at next.new n t
        ≡ option_or (set_at (with_signatures prepared.plan.records
        (filled prepared.plan.records signatures.now)) n t) (set_at next.old n t)) }
    ensures faultless { OnOk result
        (finish_fault prepared.plan.keys.items prepared.plan.records signatures.now ≡ None) }
    ensures fault { IfErr result (λ e. (e ≡ FinishFault.Memory)
        ⊎ (finish_fault prepared.plan.keys.items prepared.plan.records signatures.now
        ≡ Some e)) }
{
    let PreparedChange { plan, names } = prepared;
    let signed = match finish(alloc, plan, signatures) {
        Ok(signed) => signed,
        Err(unfinished) => return Err(unfinished.fault),
    };
    put_signed(alloc, next, &signed)?;
    let before = sets_of(alloc, zone, names.as_slice())?;
    let after = sets_of(alloc, next, names.as_slice())?;
    let _has = next.len();
    Ok(Changed { before, after })
}
