//! A zone made of records.
ghost use Rattle.std.specs.Prelude.{◌≡◌, ◌⊎◌, ℕ, None, Some, IfOk, IfErr, OnOk};
ghost use Rattle.zone_proto.specs.Keys.{key as key_at};
ghost use Rattle.zone_proto.specs.Names.{Name as NameLabels, lower};
ghost use Rattle.zone_proto.specs.Sets.{first_serial};
ghost use Rattle.zone_proto.specs.Types.{SOA as soa_type};
ghost use Rattle.zone_map.specs.Upserts.{CnamesStandAlone};
ghost use Rattle.zone_map.specs.Zones.{set_at, IsZone};
ghost use Rattle.zone_builder.specs.Faults.{IsFault, IsFaultless};
ghost use Rattle.zone_builder.specs.Groups.{records_in, AreOrdered};
ghost use Rattle.zone_builder.specs.Records.{records_of};
ghost use Rattle.zone_builder.specs.Sets.{loaded_set};
ghost use Rattle.zone_builder.specs.Warnings.{AreWarnings};

use crate::apex::{check_apex, has_denials};
use crate::checks::{check_classes, check_groups};
use crate::fault::LoadFault;
use crate::given::GivenRecord;
use crate::grouping::grouped;
use crate::groups::{Group, group_under};
use crate::sets::sets_of;
use crate::warning::LoadWarning;
use std::alloc::Global;
use zone_map::RecordMap;
use zone_proto::{LowerName, Name, ProtoError, RData, RecordType, RrKey};

/// A zone made of records.
#[derive(Drop)]
pub struct Loaded {
    /// The name at the top of the zone.
    pub origin: LowerName,
    /// The sets of the zone.
    pub records: RecordMap,
    /// What isn't taken as it is given.
    pub warnings: Vec<LoadWarning>,
}

/// Makes the zone of an origin from records, in the order of a file (RFC 1035 section 5.2).
///
/// For each owner at or below the origin and each type there is a set of its records in order, equal data once (RFC 2181
/// section 5); with the signatures that cover it, in order, equal ones once. All get the least TTL of its records (RFC 2181
/// section 5.2, RFC 4034 section 3). The serial of each set is that of the SOA. Records outside the zone are left out, and so
/// are signatures that cover no set. The warnings are first about records outside the zone, in their order, and then about each
/// set, by owner in canonical order and by type.
///
/// n records take time in the order of n log n, however many of them are in one set.
///
/// # Errors
///
/// In this order: `OtherClass` for the first record of a class other than IN, wherever it is; `NoSoa` if the origin owns no
/// SOA, and `NoNs` if it owns no NS; `NoDenials` for the first DNSKEY there, or else NSEC3PARAM, if the zone has neither NSEC
/// nor NSEC3; `SoaBelow`, `Second`, `TooManyIterations` or `BesideCname` for the first set, by owner in canonical order (RFC
/// 4034 section 6.1) and type, that a zone can't have. `Memory` may come in place of any of these.
pub fn load(alloc: Global, origin: Name, records: Vec<GivenRecord>) -> Result<Loaded, LoadFault>
    ensures sets { IfOk result
        (λ loaded. (n : NameLabels) (t : ℕ)
        → set_at loaded.records n t ≡ loaded_set (lower origin) records.items n t) }
    ensures origin { IfOk result (λ loaded. loaded.origin ≡ lower origin) }
    ensures zone { IfOk result (λ loaded. IsZone loaded.records) }
    ensures cnames { IfOk result (λ loaded. CnamesStandAlone loaded.records) }
    ensures warnings { IfOk result
        (λ loaded. AreWarnings (lower origin) records.items loaded.warnings.items) }
    ensures faultless { OnOk result (IsFaultless (lower origin) records.items) }
    ensures fault { IfErr result (IsFault (lower origin) records.items) }
{
    check_classes(records.as_slice())?;
    let mut warnings = Vec::new(alloc);
    let origin = LowerName::from(origin);
    let is_denied = has_denials(&origin, records.as_slice())?;
    let groups = grouped(alloc, &origin, records, &mut warnings)?;
    let serial = serial_of(&origin, groups.as_slice())?;
    check_apex(&origin, groups.as_slice(), is_denied)?;
    check_groups(&origin, groups.as_slice())?;
    let records = sets_of(alloc, groups, serial, &mut warnings)?;
    Ok(Loaded {
        origin,
        records,
        warnings,
    })
}

/// The serial of the first SOA at the origin.
fn serial_of(origin: &LowerName, groups: &[(RrKey, Group)]) -> Result<u32, LoadFault>
    requires { AreOrdered groups.now }
    ensures ok { IfOk result
        (λ serial. first_serial (records_of (records_in groups.now (key_at origin.now soa_type)))
        ≡ Some serial) }
    ensures err { IfErr result
        (λ e. (e ≡ LoadFault.Memory)
        ⊎ ((first_serial (records_of (records_in groups.now (key_at origin.now soa_type)))
        ≡ None) × (e ≡ LoadFault.NoSoa origin.now))) }
{
    let apex = RrKey::new(origin.clone()?, RecordType::SOA);
    match serial_under(groups, &apex) {
        Some(serial) => Ok(serial),
        None => Err(LoadFault::NoSoa(Name::from(apex.name))),
    }
}

/// The serial of the SOA that the group under a key begins with.
fn serial_under(groups: &[(RrKey, Group)], key: &RrKey) -> Option<u32>
    requires { AreOrdered groups.now }
    ensures { result ≡ first_serial (records_of (records_in groups.now key.now)) }
{
    first_serial(group_under(groups, key)?)
}

/// The serial of the SOA that a group begins with.
fn first_serial(group: &Group) -> Option<u32>
    ensures { result ≡ first_serial (records_of group.now.records.items) }
{
    match &group.records.first()?.record.rdata {
        RData::SOA(soa) => Some(soa.serial),
        _ => None,
    }
}
