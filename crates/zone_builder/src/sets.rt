//! The sets of a zone, made of their records and signatures.
ghost use Rattle.std.specs.Prelude.{◌≡◌, ◌++◌, map, IfOk, OnOk, IsOkUnless, option_and_then};
ghost use Rattle.std.specs.List.{flat_map};
ghost use Rattle.std.specs.Map.{lookup};
ghost use Rattle.zone_proto.specs.declared.rr_key.RrKey.{RrKey as Key};
ghost use Rattle.zone_proto.specs.Keys.{key_eq};
ghost use Rattle.zone_map.specs.Zones.{set_at, AreStored, IsZone};
ghost use Rattle.zone_builder.specs.Groups.{group_warnings, AreAlone, AreGroups, AreOrdered, IsAlone, IsGroupOf};
ghost use Rattle.zone_builder.specs.Sets.{least_ttl, set_in, with_set};
ghost use Rattle.zone_builder.specs.Warnings.{have_ttl, nothing_warning, set_warnings, ttl_warnings};

use crate::filling::{fill, sign};
use crate::given::{GivenRecord, RecordAt};
use crate::groups::Group;
use crate::warning::LoadWarning;
use std::alloc::Global;
use zone_map::RecordMap;
use zone_proto::{ProtoError, RecordSet, RrKey};

/// The sets of these records, each with the signatures that cover it. Signatures of no set are left out, with a
/// warning. Its only error is `Memory`.
pub(crate) fn sets_of(
    alloc: Global,
    groups: Vec<(RrKey, Group)>,
    serial: u32,
    warnings: &mut Vec<LoadWarning>,
) -> Result<RecordMap, ProtoError>
    requires ordered { AreOrdered groups.items }
    requires groups { AreGroups groups.items }
    requires alone { AreAlone groups.items }
    ensures ok { IfOk result
        (λ sets. (k : Key)
        → set_at sets k.name k.record_type.0
        ≡ option_and_then (set_in serial) (lookup (key_eq k) groups.items)) }
    ensures zone { IfOk result (λ sets. IsZone sets) }
    ensures warned { OnOk result
        (warnings.new.items ≡ warnings.old.items ++ flat_map group_warnings groups.items) }
    ensures err { IsOkUnless result ProtoError.Memory }
{
    let mut sets = Vec::with_capacity(alloc, groups.len())?;
    for (key, group) in groups {
        put_set(alloc, &mut sets, key, group, serial, warnings)?;
    }
    // They stay in this list, as a zone that is loaded mostly stays as it is.
    RecordMap::from_rows(alloc, sets)
}

/// Appends the set of a group to others, if the group has records.
fn put_set(
    alloc: Global,
    sets: &mut Vec<(RrKey, RecordSet)>,
    key: RrKey,
    group: Group,
    serial: u32,
    warnings: &mut Vec<LoadWarning>,
) -> Result<(), ProtoError>
    requires group { IsGroupOf key group }
    requires alone { IsAlone key group }
    ensures ok { OnOk result (sets.new.items ≡ with_set sets.old.items key (set_in serial group)) }
    ensures stored { OnOk result (AreStored sets.old.items → AreStored sets.new.items) }
    ensures warned { OnOk result
        (warnings.new.items
        ≡ warnings.old.items ++ set_warnings group.records.items group.signatures.items) }
    ensures err { IsOkUnless result ProtoError.Memory }
{
    if let Some(set) = set_of(alloc, &key, group, serial, warnings)? {
        sets.push((key, set))?;
    }
    Ok(())
}

/// The set of a group, with its signatures; none if the group has no records.
fn set_of(
    alloc: Global,
    key: &RrKey,
    group: Group,
    serial: u32,
    warnings: &mut Vec<LoadWarning>,
) -> Result<Option<RecordSet>, ProtoError>
    requires group { IsGroupOf key.now group }
    requires alone { IsAlone key.now group }
    ensures ok { IfOk result (λ set. set ≡ set_in serial group) }
    ensures warned { OnOk result
        (warnings.new.items
        ≡ warnings.old.items ++ set_warnings group.records.items group.signatures.items) }
    ensures err { IsOkUnless result ProtoError.Memory }
{
    let Group {
        records,
        signatures,
    } = group;
    let Some(first) = records.first() else {
        warn_of_signatures(signatures.as_slice(), warnings)?;
        return Ok(None);
    };
    let ttl = least_ttl(records.as_slice());
    warn_of_ttls(
        first,
        ttl,
        records.as_slice(),
        signatures.as_slice(),
        warnings,
    )?;
    let mut set = RecordSet::new(
        first.record.name.clone()?,
        first.record.record_type(),
        serial,
    );
    fill(alloc, &mut set, key, records, ttl, serial, warnings)?;
    sign(alloc, &mut set, signatures, ttl, warnings)?;
    Ok(Some(set))
}

/// Warns of each of these signatures, which sign nothing.
fn warn_of_signatures(
    signatures: &[GivenRecord],
    warnings: &mut Vec<LoadWarning>,
) -> Result<(), ProtoError>
    ensures warned { OnOk result
        (warnings.new.items ≡ warnings.old.items ++ map nothing_warning signatures.now) }
    ensures err { IsOkUnless result ProtoError.Memory }
{
    for given in signatures {
        warnings.push(LoadWarning::SignsNothing(RecordAt::of(given)?))?;
    }
    Ok(())
}

/// Warns if a record of a set, whose first this is, or a signature has another TTL than the one that they all get.
fn warn_of_ttls(
    first: &GivenRecord,
    ttl: u32,
    records: &[GivenRecord],
    signatures: &[GivenRecord],
    warnings: &mut Vec<LoadWarning>,
) -> Result<(), ProtoError>
    ensures warned { OnOk result (warnings.new.items
        ≡ warnings.old.items ++ ttl_warnings first.now ttl records.now signatures.now) }
    ensures err { IsOkUnless result ProtoError.Memory }
{
    if have_ttl(records, ttl) && have_ttl(signatures, ttl) {
        return Ok(());
    }
    warnings.push(LoadWarning::TtlsDiffer(RecordAt::of(first)?, ttl))?;
    Ok(())
}

/// The least TTL of records, in seconds.
fn least_ttl(records: &[GivenRecord]) -> u32
    ensures { result ≡ least_ttl records.now }
{
    records
        .iter()
        .fold(u32::MAX, |least, given| least.min(given.record.ttl))
}

/// Whether all records have a TTL.
fn have_ttl(records: &[GivenRecord], ttl: u32) -> bool
    ensures { result ≡ have_ttl ttl records.now }
{
    records.iter().all(|given| given.record.ttl == ttl)
}
