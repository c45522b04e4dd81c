//! The ZONEMD record of a zone (RFC 8976): placed before the zone is signed, and with the digest of the signed zone afterwards.

use crate::keys::read_keys;
use crate::reading::read_whole_zone;
use crate::signing::{Planned, apex_of, request_of};
use crate::wanted::Wanted;
use host_texts::refuse;
use std::alloc::Global;
use std::io::Write;
use zone_builder::Loaded;
use zone_digest::{DigestAlgorithm, ZONEMD, put_digest};
use zone_map::RecordMap;
use zone_planner::{plan_signers, planned_by_flags};
use zone_planning::{Plan, PlanFault, PlanSigner};
use zone_proto::{DNSKEY, LowerName, ProtoError, RecordType, RrKey};

/// Puts the ZONEMD record of a zone into it, before it is signed, so that its denials list the type (RFC 8976 section 3.1). None if that
/// fails, which is reported.
pub fn place_digest<E: Write>(
    wanted: &Wanted<'_>,
    loaded: &mut Loaded,
    fault: &mut E,
) -> Option<()> {
    let none: [PlanSigner; 0] = [];
    match put_digest(
        &mut loaded.records,
        &loaded.origin,
        DigestAlgorithm::Sha384,
        &none,
        wanted.inception,
    ) {
        Ok(()) => Some(()),
        Err(why) => refuse(fault, wanted.file, &why),
    }
}

/// The zone in the file with its digest, and its ZONEMD record planned to be signed; all else stays as it is (RFC 8976 section 3.4). A
/// zone without keys needs none for this. None if it is refused, which is reported.
pub(crate) fn plan_digest<E: Write>(
    rt: &HostRuntime,
    wanted: &Wanted<'_>,
    fault: &mut E,
) -> Option<Planned> {
    let alloc = rt.alloc();
    let Loaded {
        origin,
        mut records,
        ..
    } = read_whole_zone(rt, wanted, fault)?;
    let keys = read_keys(rt, wanted, &origin, fault)?;
    check_signed(wanted, &origin, &records, keys.as_slice(), fault)?;
    let signers = match signers_of(alloc, wanted, &origin, keys.as_slice()) {
        Ok(signers) => signers,
        Err(why) => return refuse(fault, wanted.file, &why),
    };
    let signers = signers.as_slice();
    let algorithm = DigestAlgorithm::Sha384;
    match put_digest(&mut records, &origin, algorithm, signers, wanted.inception) {
        Ok(()) => {}
        Err(why) => return refuse(fault, wanted.file, &why),
    }
    let Ok(apex) = apex_of(&origin) else {
        return refuse(fault, wanted.file, &"out of memory");
    };
    let plan = Plan { records, keys };
    Some(Planned { plan, apex })
}

/// Whether a zone that has keys has a ZONEMD record too, which its denials list, and keys are given to sign it. None if not, which is
/// reported.
fn check_signed<E: Write>(
    wanted: &Wanted<'_>,
    origin: &LowerName,
    records: &RecordMap,
    keys: &[DNSKEY],
    fault: &mut E,
) -> Option<()> {
    let Ok(is_signed) = owns(origin, RecordType::DNSKEY, records) else {
        return refuse(fault, wanted.file, &"out of memory");
    };
    let Ok(has_digest) = owns(origin, ZONEMD, records) else {
        return refuse(fault, wanted.file, &"out of memory");
    };
    if is_signed && keys.is_empty() {
        return refuse(
            fault,
            wanted.file,
            &"the zone is signed, and no key is given",
        );
    }
    if !is_signed && !keys.is_empty() {
        return refuse(
            fault,
            wanted.file,
            &"keys are given, and the zone isn't signed",
        );
    }
    if is_signed && !has_digest {
        return refuse(
            fault,
            wanted.file,
            &"no ZONEMD record stands at the origin of the signed zone",
        );
    }
    Some(())
}

/// Whether the origin owns a type.
fn owns(
    origin: &LowerName,
    record_type: RecordType,
    records: &RecordMap,
) -> Result<bool, ProtoError> {
    let key = RrKey::new(origin.clone()?, record_type);
    Ok(records.get(&key).is_some())
}

/// The planning signers of keys; none without keys.
fn signers_of(
    alloc: Global,
    wanted: &Wanted<'_>,
    origin: &LowerName,
    keys: &[DNSKEY],
) -> Result<Vec<PlanSigner>, PlanFault> {
    if keys.is_empty() {
        return Ok(Vec::new(alloc));
    }
    let planned = planned_by_flags(alloc, keys, wanted.asks_parent)?;
    plan_signers(alloc, origin, planned.as_slice(), &request_of(wanted)?)
}
