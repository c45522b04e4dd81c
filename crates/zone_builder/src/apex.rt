//! Whether what is at the origin is what a zone needs.
ghost use Rattle.std.specs.Prelude.{◌≡◌, IfOk, IsOkUnless, option_copied};
ghost use Rattle.zone_proto.specs.Keys.{key as key_at};
ghost use Rattle.zone_proto.specs.Names.{Name as NameLabels};
ghost use Rattle.zone_map.specs.Upserts.{is_denial_type};
ghost use Rattle.zone_proto.specs.Data.{type_of};
ghost use Rattle.zone_builder.specs.Faults.{ReportsFault, first_of, has_denials, is_denial, ns_fault, undenied_fault};
ghost use Rattle.zone_builder.specs.GroupFaults.{group_apex_fault};
ghost use Rattle.zone_builder.specs.Groups.{records_in, AreOrdered};

use crate::fault::LoadFault;
use crate::given::{GivenRecord, RecordAt};
use crate::grouping::is_within;
use crate::groups::{Group, group_under};
use zone_proto::{LowerName, Name, ProtoError, RData, RecordType, RrKey};

/// Whether a record at or below an origin denies a name. Its only error is `Memory`.
pub(crate) fn has_denials(origin: &LowerName, records: &[GivenRecord]) -> Result<bool, ProtoError>
    ensures ok { IfOk result (λ has. has ≡ has_denials origin.now records.now) }
    ensures err { IsOkUnless result ProtoError.Memory }
{
    for given in records {
        if is_denial(origin, given)? {
            return Ok(true);
        }
    }
    Ok(false)
}

/// Whether a record is at or below an origin and denies a name. Its only error is `Memory`.
fn is_denial(origin: &LowerName, given: &GivenRecord) -> Result<bool, ProtoError>
    ensures ok { IfOk result (λ is. is ≡ is_denial origin.now given.now) }
    ensures err { IsOkUnless result ProtoError.Memory }
{
    if !is_denial_type(&given.record.rdata) {
        return Ok(false);
    }
    let owner = LowerName::new(&given.record.name)?;
    Ok(is_within(origin, &owner))
}

/// Whether data are of NSEC or NSEC3.
fn is_denial_type(rdata: &RData) -> bool
    ensures { result ≡ is_denial_type (type_of rdata.now) }
{
    matches!(rdata.record_type(), RecordType::NSEC | RecordType::NSEC3)
}

/// Looks for an NS at the origin, and for records there that say that the zone is signed, where nothing denies a name.
pub(crate) fn check_apex(
    origin: &LowerName,
    groups: &[(RrKey, Group)],
    is_denied: bool,
) -> Result<(), LoadFault>
    requires { AreOrdered groups.now }
    ensures { ReportsFault result (group_apex_fault origin.now groups.now is_denied) }
{
    check_ns(origin, first_at(origin, groups, RecordType::NS)?)?;
    check_denied(is_denied, first_at(origin, groups, RecordType::DNSKEY)?)?;
    check_denied(is_denied, first_at(origin, groups, RecordType::NSEC3PARAM)?)
}

/// Refuses a zone whose origin owns no NS, of which this is the first.
fn check_ns(origin: &LowerName, first: Option<&GivenRecord>) -> Result<(), LoadFault>
    ensures { ReportsFault result (ns_fault origin.now (option_copied first.entry)) }
{
    match first {
        Some(_) => Ok(()),
        None => Err(LoadFault::NoNs(Name::from(origin.clone()?))),
    }
}

/// Refuses a zone in which nothing denies a name, where a record says that it is signed.
fn check_denied(is_denied: bool, signed: Option<&GivenRecord>) -> Result<(), LoadFault>
    ensures { ReportsFault result (undenied_fault is_denied (option_copied signed.entry)) }
{
    match signed {
        Some(given) if !is_denied => Err(LoadFault::NoDenials(RecordAt::of(given)?)),
        _ => Ok(()),
    }
}

/// The first record of a type that the origin owns. Its only error is `Memory`.
fn first_at<'g>(
    origin: &LowerName,
    groups: &'g [(RrKey, Group)],
    record_type: RecordType,
) -> Result<Option<&'g GivenRecord>, ProtoError>
    requires { AreOrdered groups.now }
    ensures ok { IfOk result (λ first. option_copied first
        ≡ first_of (records_in groups.now (key_at origin.now record_type.0))) }
    ensures err { IsOkUnless result ProtoError.Memory }
{
    let key = RrKey::new(origin.clone()?, record_type);
    Ok(first_under(groups, &key))
}

/// The first record of the group under a key.
fn first_under<'g>(groups: &'g [(RrKey, Group)], key: &RrKey) -> Option<&'g GivenRecord>
    requires { AreOrdered groups.now }
    ensures { option_copied result ≡ first_of (records_in groups.now key.now) }
{
    match group_under(groups, key) {
        Some(group) => first_of(group.records.as_slice()),
        None => None,
    }
}

/// The first of records.
fn first_of(records: &[GivenRecord]) -> Option<&GivenRecord>
    ensures { option_copied result ≡ first_of records.now }
{
    match records {
        [] => None,
        [first, ..] => Some(first),
    }
}
