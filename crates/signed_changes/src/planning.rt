//! A change of a signed zone planned to be signed, and its signatures put in.
ghost use Rattle.std.specs.Prelude.{◌≡◌, ◌⊎◌, ℕ, None, Some, map, IfOk, IfErr, OnOk, OnErr, IsOkUnless};
ghost use Rattle.std.specs.Option.{option_or};
ghost use Rattle.zone_proto.specs.Names.{Name};
ghost use Rattle.zone_map.specs.Zones.{set_at, IsZone};
ghost use Rattle.zone_planner.specs.declared.keys.PlannedKey.{PlannedKey as Planned};
ghost use Rattle.zone_planner.specs.Faults.{request_fault};
ghost use Rattle.signed_changes.specs.Signing.{IsDue};

use crate::signing::due_sets;
use std::alloc::Global;
use update_in_place::put_sets;
use zone_map::RecordMap;
use zone_planner::{PlannedKey, Request, plan_signers};
use zone_planning::{Plan, PlanFault};
use zone_proto::{DNSKEY, LowerName, ProtoError};

/// Plans the signatures of the sets of these names in the zone of an origin, of which the denials are those that it is to have: the sets that get other
/// signatures than they have, with blank ones of each key that signs them in the places of those that are to be made, as [`due_sets`] says, and the keys.
/// For each blank one `push_frames` of `zone_planning` gives the octets that it is to be made of, and `finish` puts signatures in.
///
/// # Errors
///
/// `ManyKeys`, `BadKey`, `NoKey` and `UnsignedAlgorithm` for the keys, and `Moments`, as `plan_signers` of `zone_planner` says; `Memory` in place of any.
pub fn plan_change(
    alloc: Global,
    origin: &LowerName,
    zone: &RecordMap,
    names: &[LowerName],
    keys: &[PlannedKey],
    request: &Request,
) -> Result<Plan, PlanFault>
    ensures due { IfOk result (λ plan.
        IsDue origin.now keys.now request.now names.now zone.now plan.records) }
    ensures keys { IfOk result
        (λ plan. plan.keys.items ≡ map (λ (k : Planned). k.key) keys.now) }
    ensures faultless { OnOk result (request_fault keys.now request.now ≡ None) }
    ensures fault { IfErr result
        (λ e. (e ≡ PlanFault.Memory) ⊎ (request_fault keys.now request.now ≡ Some e)) }
{
    let signers = plan_signers(alloc, origin, keys, request)?;
    let records = due_sets(
        alloc,
        origin,
        zone,
        names,
        signers.as_slice(),
        request.inception,
    )?;
    let keys = keys_of(alloc, keys)?;
    Ok(Plan { records, keys })
}

/// Puts sets that were signed into a zone, in the places of those that stand under their keys, all or nothing.
///
/// It costs what these sets cost, each of which is found by its key, whatever else the zone has.
///
/// # Errors
///
/// `Memory`. The zone is then as it was.
pub fn put_signed(alloc: Global, zone: &mut RecordMap, signed: &RecordMap) -> Result<(), ProtoError>
    ensures put { OnOk result ((n : Name) (t : ℕ) → set_at zone.new n t
        ≡ option_or (set_at signed.now n t) (set_at zone.old n t)) }
    ensures zone { OnOk result (IsZone zone.new) }
    ensures err { IsOkUnless result ProtoError.Memory }
    ensures same { OnErr result (zone.new ≡ zone.old) }
{
    put_sets(alloc, zone, &[], signed)
}

/// The keys by themselves.
fn keys_of(alloc: Global, planned: &[PlannedKey]) -> Result<Vec<DNSKEY>, ProtoError>
    ensures ok { IfOk result
        (λ keys. keys.items ≡ map (λ (k : Planned). k.key) planned.now) }
    ensures err { IsOkUnless result ProtoError.Memory }
{
    let mut keys = Vec::with_capacity(alloc, planned.len())?;
    for one in planned {
        keys.push(one.key.clone()?)?;
    }
    Ok(keys)
}
