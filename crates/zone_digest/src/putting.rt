//! The ZONEMD set of a zone, put into it.
ghost use Rattle.std.specs.Prelude.{◌≡◌, ◌≢◌, ◌⊎◌, [], true, false, Some, OnOk, OnErr, IfOk, IfErr, IsOkUnless};
ghost use Rattle.zone_proto.specs.Sets.{RRset};
ghost use Rattle.zone_proto.specs.Types.{SOA as soa_type};
ghost use Rattle.zone_map.specs.Zones.{owns, put, set_at};
ghost use Rattle.zone_planning.specs.Faults.{IsUnwritableUnless};
ghost use Rattle.zone_digest.specs.Faults.{IsDigestibleZone};
ghost use Rattle.zone_digest.specs.DigestSets.{digest_set, serial_of, signed_by, zonemd_set};
ghost use Rattle.zone_digest.specs.ZoneText.{zonemd_type};

use crate::digests::{DigestAlgorithm, zone_digest, zonemd_data};
use crate::zone_text::ZONEMD;
use std::alloc::Global;
use zone_lookup::start_of_authority::first_soa;
use zone_map::RecordMap;
use zone_planning::{PlanFault, other_data};
use zone_proto::{LowerName, Name, ProtoError, Record, RecordSet, RecordType, RrKey, Signer};
use zone_signing::signatures::sign_set;

/// Puts the ZONEMD set of the zone of an origin into it, in place of one that stands there: one record, with the zone's digest by an
/// algorithm, and with the serial and the TTL of its SOA (RFC 8976 section 3.1). Each signer that signs it does so at the moment `now`,
/// in seconds since 1970.
///
/// # Errors
///
/// Refused by `NoSoa` if no SOA stands at the origin, by `Unwritable` for data that no octets are, and by `Memory`. Each leaves the
/// zone as it was.
pub fn put_digest<S: Signer>(
    records: &mut RecordMap,
    origin: &LowerName,
    algorithm: DigestAlgorithm,
    signers: &[S],
    now: u64,
) -> Result<(), PlanFault>
    ensures ok { OnOk result ((start : RRset)
        → set_at records.old origin.now soa_type ≡ Some start
        → records.new ≡ put records.old origin.now zonemd_type
        (signed_by S.signature_of now signers.now
        (digest_set algorithm origin.now records.old start))) }
    ensures started { OnOk result (owns records.old origin.now soa_type ≡ true) }
    ensures err { IfErr result (λ e.
        ((e ≡ PlanFault.NoSoa) × (owns records.old origin.now soa_type ≡ false))
        ⊎ IsUnwritableUnless e (IsDigestibleZone origin.now records.old)) }
    ensures same { OnErr result (records.new ≡ records.old) }
{
    let apex = RrKey::new(origin.clone()?, RecordType::SOA);
    let Some(start) = records.get(&apex) else {
        return Err(PlanFault::NoSoa);
    };
    let mut set = digest_set(algorithm, origin, records, start)?;
    sign_set(&mut set, signers, now)?;
    Ok(put_set(records, origin, set)?)
}

/// The ZONEMD set of a zone whose SOA is that of a set, without signatures. Refused by `Unwritable` for data that no octets are, and by
/// `Memory`.
fn digest_set(
    algorithm: DigestAlgorithm,
    origin: &LowerName,
    records: &RecordMap,
    start: &RecordSet,
) -> Result<RecordSet, PlanFault>
    ensures ok { IfOk result
        (λ set. set ≡ digest_set algorithm origin.now records.now start.now) }
    ensures err { IfErr result
        (λ e. IsUnwritableUnless e (IsDigestibleZone origin.now records.now)) }
{
    let alloc = origin.alloc();
    let serial = serial_of(start);
    let digest = zone_digest(alloc, algorithm, origin, records)?;
    let data = zonemd_data(alloc, serial, algorithm, digest.as_slice())?;
    Ok(zonemd_set(origin, start.ttl(), serial, data)?)
}

/// The serial of the SOA of a set, 0 without one.
fn serial_of(start: &RecordSet) -> u32
    ensures { result ≡ serial_of start.now }
{
    match first_soa(start) {
        Some(soa) => soa.serial,
        None => 0,
    }
}

/// A ZONEMD set of one record with these data. Its only error is `Memory`.
fn zonemd_set(
    origin: &LowerName,
    ttl: u32,
    serial: u32,
    data: Vec<u8>,
) -> Result<RecordSet, ProtoError>
    ensures ok { IfOk result (λ set. set ≡ zonemd_set origin.now ttl serial «data».items) }
    ensures err { IsOkUnless result ProtoError.Memory }
{
    let mut set = RecordSet::new(Name::from(origin.clone()?), ZONEMD, serial);
    let owner = Name::from(origin.clone()?);
    set.insert(
        Record::from_rdata(owner, ttl, other_data(ZONEMD, data)),
        serial,
    )?;
    Ok(set)
}

/// Puts a ZONEMD set of the origin into a zone. Its only error is `Memory`, which leaves the zone as it was.
fn put_set(records: &mut RecordMap, origin: &LowerName, set: RecordSet) -> Result<(), ProtoError>
    requires owner { set.owner ≡ origin.now }
    requires kind { set.record_type ≡ zonemd_type }
    requires filled { set.records ≢ [] }
    ensures ok { OnOk result (records.new ≡ put records.old origin.now zonemd_type set) }
    ensures err { IsOkUnless result ProtoError.Memory }
    ensures same { OnErr result (records.new ≡ records.old) }
{
    let key = RrKey::new(origin.clone()?, ZONEMD);
    let _records = set.as_slice();
    match records.put(key, set) {
        Ok(_) => Ok(()),
        Err(_) => Err(ProtoError::Memory),
    }
}
