//! Whether a zone can be made of records.
ghost use Rattle.std.specs.Prelude.{◌≡◌, ◌==◌, false, not, length, map, IfOk, IsOkUnless, option_copied};
ghost use Rattle.std.specs.List.{find};
ghost use Rattle.zone_proto.specs.Names.{Name as NameLabels, name_eq};
ghost use Rattle.zone_builder.specs.Faults.{ReportsFault, beside_fault, class_fault, count_fault, has_other_data, is_iterated_too_often, is_other_class, iterations_fault, iterations_of, place_fault, stands_beside_cname, stands_once};
ghost use Rattle.zone_builder.specs.GroupFaults.{first_fault, group_fault, has_cname};
ghost use Rattle.zone_builder.specs.Groups.{AreOrdered};

use crate::fault::{LoadFault, MOST_ITERATIONS};
use crate::given::{GivenRecord, RecordAt};
use crate::groups::{Group, group_under};
use zone_proto::{DNSClass, LowerName, ProtoError, RData, RecordType, RrKey};

/// Looks for a record of another class than IN.
pub(crate) fn check_classes(records: &[GivenRecord]) -> Result<(), LoadFault>
    ensures { ReportsFault result (class_fault records.now) }
{
    match other_class(records) {
        Some(given) => Err(LoadFault::OtherClass(RecordAt::of(given)?, given.record.dns_class)),
        None => Ok(()),
    }
}

/// The first record of another class than IN.
fn other_class(records: &[GivenRecord]) -> Option<&GivenRecord>
    ensures { option_copied result ≡ find is_other_class records.now }
{
    records
        .iter()
        .find(|given| given.record.dns_class != DNSClass::IN)
}

/// Looks for a set that can't be in the zone, or not beside the others, in the order of owners and types.
pub(crate) fn check_groups(origin: &LowerName, groups: &[(RrKey, Group)]) -> Result<(), LoadFault>
    requires { AreOrdered groups.now }
    ensures { ReportsFault result (first_fault origin.now groups.now groups.now) }
{
    let are_cnames = are_cnames(groups);
    for (key, group) in groups {
        check_group(origin, groups, are_cnames, key, group)?;
    }
    Ok(())
}

/// Whether there are CNAME. Where there are none, no name has to be looked for among them.
fn are_cnames(groups: &[(RrKey, Group)]) -> bool
    ensures { result ≡ false → (n : NameLabels) → has_cname groups.now n ≡ false }
{
    for (key, _) in groups {
        if key.record_type == RecordType::CNAME {
            return true;
        }
    }
    false
}

/// Looks for what is wrong with the set of a group under a key.
fn check_group(
    origin: &LowerName,
    groups: &[(RrKey, Group)],
    are_cnames: bool,
    key: &RrKey,
    group: &Group,
) -> Result<(), LoadFault>
    requires ordered { AreOrdered groups.now }
    requires cnames { are_cnames ≡ false → (n : NameLabels) → has_cname groups.now n ≡ false }
    ensures { ReportsFault result (group_fault origin.now groups.now key.now group.now) }
{
    let Some((first, others)) = group.records.as_slice().split_first() else {
        return Ok(());
    };
    check_place(origin, key, first)?;
    check_count(key, first, others)?;
    check_iterations(group.records.as_slice())?;
    check_beside(groups, are_cnames, key, first)
}

/// Looks for an SOA below the origin.
fn check_place(origin: &LowerName, key: &RrKey, first: &GivenRecord) -> Result<(), LoadFault>
    ensures { ReportsFault result
        (place_fault origin.now key.now.name key.now.record_type.0 first.now) }
{
    if key.record_type == RecordType::SOA && !is_same(&key.name, origin) {
        return Err(LoadFault::SoaBelow(RecordAt::of(first)?));
    }
    Ok(())
}

/// Whether names are the same.
fn is_same(name: &LowerName, other: &LowerName) -> bool
    ensures { result ≡ name_eq name.now other.now }
{
    name == other
}

/// Looks for a record of other data than the first, where the set may have one alone.
fn check_count(key: &RrKey, first: &GivenRecord, others: &[GivenRecord]) -> Result<(), LoadFault>
    ensures { ReportsFault result (count_fault key.now.record_type.0 first.now others.now) }
{
    if !stands_once(key.record_type) {
        return Ok(());
    }
    match other_data(first, others) {
        Some(other) => Err(LoadFault::Second(RecordAt::of(other)?)),
        None => Ok(()),
    }
}

/// The first record of other data than these.
fn other_data<'o>(first: &GivenRecord, others: &'o [GivenRecord]) -> Option<&'o GivenRecord>
    ensures { option_copied result ≡ find (has_other_data first.now) others.now }
{
    others
        .iter()
        .find(|other| other.record.rdata != first.record.rdata)
}

/// Looks for a record of more iterations than a zone may have.
fn check_iterations(records: &[GivenRecord]) -> Result<(), LoadFault>
    ensures { ReportsFault result (iterations_fault records.now) }
{
    match iterated_too_often(records) {
        Some(given) => Err(LoadFault::TooManyIterations(
            RecordAt::of(given)?,
            iterations_of(&given.record.rdata),
        )),
        None => Ok(()),
    }
}

/// The first record of more iterations than a zone may have.
fn iterated_too_often(records: &[GivenRecord]) -> Option<&GivenRecord>
    ensures { option_copied result ≡ find is_iterated_too_often records.now }
{
    records.iter().find(|given| iterations_of(&given.record.rdata) > MOST_ITERATIONS)
}

/// How many times more a digest is hashed, by the data of NSEC3 and of NSEC3PARAM.
fn iterations_of(rdata: &RData) -> u16
    ensures { result ≡ iterations_of rdata.now }
{
    match rdata {
        RData::NSEC3(denial) => denial.iterations,
        RData::NSEC3PARAM(parameters) => parameters.iterations,
        _ => 0,
    }
}

/// Looks for a CNAME at the name of a set that may not are beside one.
fn check_beside(
    groups: &[(RrKey, Group)],
    are_cnames: bool,
    key: &RrKey,
    first: &GivenRecord,
) -> Result<(), LoadFault>
    requires ordered { AreOrdered groups.now }
    requires cnames { are_cnames ≡ false → (n : NameLabels) → has_cname groups.now n ≡ false }
    ensures { ReportsFault result
        (beside_fault key.now.record_type.0 (has_cname groups.now key.now.name) first.now) }
{
    if !are_cnames || stands_beside_cname(key.record_type) {
        return Ok(());
    }
    if has_cname(groups, &key.name)? {
        return Err(LoadFault::BesideCname(RecordAt::of(first)?));
    }
    Ok(())
}

/// Whether a name owns a CNAME. Its only error is `Memory`.
fn has_cname(groups: &[(RrKey, Group)], name: &LowerName) -> Result<bool, ProtoError>
    requires { AreOrdered groups.now }
    ensures ok { IfOk result (λ has. has ≡ has_cname groups.now name.now) }
    ensures err { IsOkUnless result ProtoError.Memory }
{
    let key = RrKey::new(name.clone()?, RecordType::CNAME);
    Ok(match group_under(groups, &key) {
        Some(group) => !group.records.is_empty(),
        None => false,
    })
}

/// Whether a set of the type is a CNAME itself, or may be beside one.
fn stands_beside_cname(record_type: RecordType) -> bool
    ensures { result ≡ stands_beside_cname record_type.0 }
{
    matches!(
        record_type,
        RecordType::CNAME | RecordType::NSEC | RecordType::NSEC3
    )
}

/// Whether a name may own one record of the type alone.
fn stands_once(record_type: RecordType) -> bool
    ensures { result ≡ stands_once record_type.0 }
{
    matches!(
        record_type,
        RecordType::SOA | RecordType::CNAME | RecordType::ANAME | RecordType::DNAME
    )
}
