//! The signers of a plan.
ghost use Rattle.std.specs.Prelude.{◌≡◌, ◌⊎◌, [], None, Some, OnOk, IfOk, IfErr, IsOkUnless};
ghost use Rattle.std.specs.List.{list_any};
ghost use Rattle.zone_proto.specs.declared.rr_key.RrKey.{RrKey as Key};
ghost use Rattle.zone_proto.specs.Keys.{key_eq};
ghost use Rattle.zone_planner.specs.Faults.{request_fault};
ghost use Rattle.zone_planner.specs.Plans.{AreSignersOf, IsSignerOf};
ghost use Rattle.zone_planner.specs.Requests.{AreFit, IsShort};

use crate::keys::PlannedKey;
use crate::request::{Request, check_keys, check_moments};
use std::alloc::Global;
use std::collections::BTreeSet;
use zone_keys::key_tag;
use zone_planning::{PlanFault, PlanSigner};
use zone_proto::{LowerName, ProtoError, RrKey};

/// The planning signers of keys for single sets of the zone of an origin, in their order. They sign any set that is handed to them: the
/// caller hands in none that isn't signed, as those below zone cuts (RFC 4035 section 2.2).
///
/// # Errors
///
/// Refused as a plan is, in this order: by `ManyKeys`, `BadKey`, `NoKey` and `UnsignedAlgorithm` for the keys, and by `Moments`; and
/// by `Memory`.
pub fn plan_signers(
    alloc: Global,
    origin: &LowerName,
    keys: &[PlannedKey],
    request: &Request,
) -> Result<Vec<PlanSigner>, PlanFault>
    ensures ok { IfOk result
        (λ signers. AreSignersOf origin.now keys.now request.now [] signers.items) }
    ensures faultless { OnOk result (request_fault keys.now request.now ≡ None) }
    ensures fault { IfErr result
        (λ e. (e ≡ PlanFault.Memory) ⊎ (request_fault keys.now request.now ≡ Some e)) }
{
    check_keys(keys)?;
    check_moments(request)?;
    Ok(signers_of(alloc, origin, keys, &[], request)?)
}

/// The planning signers of keys, in their order; none of them signs a set under one of the keys `unsigned`. Refused by `Memory` alone.
pub(crate) fn signers_of(
    alloc: Global,
    origin: &LowerName,
    keys: &[PlannedKey],
    unsigned: &[RrKey],
    request: &Request,
) -> Result<Vec<PlanSigner>, ProtoError>
    requires { AreFit keys.now }
    ensures ok { IfOk result
        (λ signers. AreSignersOf origin.now keys.now request.now unsigned.now signers.items) }
    ensures err { IsOkUnless result ProtoError.Memory }
{
    let mut signers = Vec::with_capacity(alloc, keys.len())?;
    for key in keys {
        let number = signers.len() as u8;
        signers.push(signer_of(alloc, origin, number, key, unsigned, request)?)?;
    }
    Ok(signers)
}

/// The planning signer of the key of this number. Refused by `Memory` alone.
fn signer_of(
    alloc: Global,
    origin: &LowerName,
    number: u8,
    planned: &PlannedKey,
    unsigned: &[RrKey],
    request: &Request,
) -> Result<PlanSigner, ProtoError>
    requires { IsShort planned.now }
    ensures ok { IfOk result
        (IsSignerOf origin.now request.now unsigned.now number planned.now) }
    ensures err { IsOkUnless result ProtoError.Memory }
{
    let key = &planned.key;
    Ok(PlanSigner {
        number,
        key: key.clone()?,
        key_tag: key_tag(key),
        signs_keys: planned.signs_keys,
        signs_others: planned.signs_others,
        origin: origin.clone()?,
        expiration: request.expiration,
        jitter: request.jitter,
        left_out: set_of(alloc, unsigned)?,
    })
}

/// The set of these keys. Refused by `Memory` alone.
fn set_of(alloc: Global, keys: &[RrKey]) -> Result<BTreeSet<RrKey>, ProtoError>
    ensures ok { IfOk result (λ set. (k : Key)
        → list_any (key_eq k) set.keys ≡ list_any (key_eq k) keys.now) }
    ensures err { IsOkUnless result ProtoError.Memory }
{
    let mut set = BTreeSet::new(alloc);
    for key in keys {
        set.insert(key.clone()?)?;
    }
    Ok(set)
}
