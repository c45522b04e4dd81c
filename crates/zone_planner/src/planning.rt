//! A zone as it is planned to be signed.
ghost use Rattle.std.specs.Prelude.{◌≡◌, ◌⊎◌, ◌≤◌, map, length, None, Some, IfOk, IfErr, OnOk, IsOkUnless};
ghost use Rattle.zone_proto.specs.declared.rdata.signing.DNSKEY.{DNSKEY as Key};
ghost use Rattle.zone_proto.specs.Types.{SOA as soa_type};
ghost use Rattle.zone_map.specs.Zones.{IsZone};
ghost use Rattle.zone_lookup.specs.StartOfAuthority.{serial};
ghost use Rattle.zone_planner.specs.declared.keys.PlannedKey.{PlannedKey as Planned};
ghost use Rattle.zone_planner.specs.Faults.{plan_fault};
ghost use Rattle.zone_planner.specs.Keys.{keyed};
ghost use Rattle.zone_planner.specs.Plans.{AreSignersOf, IsPlanned};
ghost use Rattle.zone_planner.specs.Requests.{AreFit};
ghost use Rattle.zone_planner.specs.Zones.{left_out, zone_fault};

use crate::denials::secure_by;
use crate::keys::{PlannedKey, put_keys};
use crate::request::{Request, check_keys, check_moments};
use crate::signers::signers_of;
use crate::unsigned::left_out;
use crate::zone::check_zone;
use std::alloc::{AllocError, Global};
use zone_lookup::start_of_authority::first_soa;
use zone_map::RecordMap;
use zone_planning::{Plan, PlanFault, PlanSigner};
use zone_proto::{DNSKEY, LowerName, ProtoError, RecordType, RrKey};

/// Plans the zone of an origin that has these sets and is to be signed by these keys.
///
/// Its keys come in with the TTL that is asked for: the DNSKEY records of those that are published, and CDS and CDNSKEY records of those
/// that are for the parent; the DNSKEY records that it has stay. It gets the denials that are asked for, with the lesser of the SOA's
/// minimum and TTL as their TTL (RFC 9077 section 3), its SOA the next serial, and each set a blank signature of each key that signs
/// it, but those below zone cuts, and at them all but DS and NSEC (RFC 4035 section 2.2).
///
/// The lists of types of its denials are those of the standards at delegations (RFC 4035 section 2.3, RFC 5155 section 7.1), and
/// NSEC3PARAM has no flags (RFC 5155 section 4.1.2).
///
/// # Errors
///
/// Refused, in this order: by `ManyKeys`, `BadKey`, `NoKey` and `UnsignedAlgorithm` for the keys; by `Moments`; by `NoSoa` and
/// `CnameAtOrigin` for what stands at the origin; for the first set, by owner in canonical order and type, by `Outside`, `Made` and
/// `BelowDname`; and with NSEC3 by `Hash` and `OwnerTooLong` for names that can't be hashed. `Memory` may come in place of any of these.
pub fn make_plan(
    alloc: Global,
    origin: LowerName,
    records: RecordMap,
    keys: Vec<PlannedKey>,
    request: &Request,
) -> Result<Plan, PlanFault>
    ensures planned { IfOk result
        (λ plan. IsPlanned origin keys.items request.now records plan.records) }
    ensures zone { IfOk result (λ plan. IsZone plan.records) }
    ensures keys { IfOk result
        (λ plan. plan.keys.items ≡ map (λ (k : Planned). k.key) keys.items) }
    ensures faultless { OnOk result (plan_fault origin records keys.items request.now ≡ None) }
    ensures fault { IfErr result
        (λ e. (e ≡ PlanFault.Memory)
        ⊎ (plan_fault origin records keys.items request.now ≡ Some e)) }
{
    check_keys(keys.as_slice())?;
    check_moments(request)?;
    let apex = RrKey::new(origin, RecordType::SOA);
    check_zone(&records, &apex)?;
    let mut records = records;
    let signers = signers(alloc, &apex, &records, keys.as_slice(), request)?;
    let serial = serial_of(&records, &apex);
    put_keys(
        &mut records,
        &apex.name,
        keys.as_slice(),
        request.key_ttl,
        serial,
    )?;
    secure_by(
        alloc,
        &mut records,
        &apex,
        signers.as_slice(),
        &request.nx_proof_kind,
        request.inception,
    )?;
    let keys = keys_of(alloc, keys)?;
    Ok(Plan { records, keys })
}

/// The planning signers of keys for the zone whose SOA stands under `apex`. Refused by `Memory` alone.
fn signers(
    alloc: Global,
    apex: &RrKey,
    records: &RecordMap,
    keys: &[PlannedKey],
    request: &Request,
) -> Result<Vec<PlanSigner>, ProtoError>
    requires { AreFit keys.now }
    ensures ok { IfOk result
        (λ signers. AreSignersOf apex.now.name keys.now request.now
        (left_out apex.now.name records.now) signers.items) }
    ensures err { IsOkUnless result ProtoError.Memory }
{
    let unsigned = left_out(alloc, &apex.name, records)?;
    signers_of(alloc, &apex.name, keys, unsigned.as_slice(), request)
}

/// The serial of the zone whose SOA stands under `apex`, 0 without an SOA.
fn serial_of(records: &RecordMap, apex: &RrKey) -> u32
    requires { apex.now.record_type.0 ≡ soa_type }
    ensures { result ≡ serial records.now apex.now.name }
{
    match records.get(apex).and_then(first_soa) {
        Some(soa) => soa.serial,
        None => 0,
    }
}

/// The keys by themselves.
fn keys_of(alloc: Global, planned: Vec<PlannedKey>) -> Result<Vec<DNSKEY>, AllocError>
    ensures { IfOk result
        (λ keys. keys.items ≡ map (λ (k : Planned). k.key) planned.items) }
{
    planned
        .into_iter()
        .map(|planned| planned.key)
        .collect(alloc)
}
