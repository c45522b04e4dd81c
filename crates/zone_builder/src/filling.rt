//! The records and signatures that are put into a set.
ghost use Rattle.std.specs.Prelude.{◌≡◌, ◌++◌, [], true, false, map, fold, OnOk, IsOkUnless};
ghost use Rattle.std.specs.List.{AllByRecursion};
ghost use Rattle.zone_proto.specs.Data.{type_of};
ghost use Rattle.zone_proto.specs.Names.{lower};
ghost use Rattle.zone_proto.specs.Sets.{is_single};
ghost use Rattle.zone_denial.specs.Nsec3Sets.{with_taken};
ghost use Rattle.zone_builder.specs.Records.{is_signature, records_of};
ghost use Rattle.zone_builder.specs.Repeats.{appending, AreNew, HaveOneData};
ghost use Rattle.zone_builder.specs.Sets.{signed_by, with_ttl};
ghost use Rattle.zone_builder.specs.Warnings.{repeat_warnings};

use crate::given::GivenRecord;
use crate::repeats::{first_ones, warn_of_repeated};
use crate::warning::LoadWarning;
use std::alloc::Global;
use zone_proto::{ProtoError, Record, RecordSet, RrKey, is_single};

/// Inserts records, in order and with this TTL, into the set of their owner and type, which has none, and warns of each that has the
/// data of one before it. n records take time in the order of n log n. Its only error is `Memory`.
pub(crate) fn fill(
    alloc: Global,
    set: &mut RecordSet,
    key: &RrKey,
    records: Vec<GivenRecord>,
    ttl: u32,
    serial: u32,
    warnings: &mut Vec<LoadWarning>,
) -> Result<(), ProtoError>
    requires empty { set.old.records ≡ [] }
    requires owner { lower set.old.owner ≡ key.now.name }
    requires kind { set.old.record_type ≡ key.now.record_type.0 }
    requires owners { AllByRecursion (λ g. lower g.record.name ≡ key.now.name) records.items }
    requires types { AllByRecursion (λ g. type_of g.record.rdata ≡ key.now.record_type.0)
        records.items }
    requires alone { is_single key.now.record_type.0 ≡ true → HaveOneData records.items }
    ensures ok { OnOk result
        (set.new
        ≡ fold (with_taken serial) set.old (map (with_ttl ttl) (records_of records.items))) }
    ensures warned { OnOk result
        (warnings.new.items ≡ warnings.old.items ++ repeat_warnings records.items) }
    ensures err { IsOkUnless result ProtoError.Memory }
{
    if is_single(key.record_type) {
        warn_of_others(records.as_slice(), warnings)?;
        return insert_all(set, key, records, ttl, serial);
    }
    let first = first_ones(alloc, records, warnings)?;
    append_all(set, key, first, ttl, serial)
}

/// Warns of all records but the first, whose data they have.
fn warn_of_others(
    records: &[GivenRecord],
    warnings: &mut Vec<LoadWarning>,
) -> Result<(), ProtoError>
    requires { HaveOneData records.now }
    ensures warned { OnOk result
        (warnings.new.items ≡ warnings.old.items ++ repeat_warnings records.now) }
    ensures err { IsOkUnless result ProtoError.Memory }
{
    match records.split_first() {
        Some((_, others)) => warn_of_repeated(others, warnings),
        None => Ok(()),
    }
}

/// Inserts records into the set of their owner and type, in order and with this TTL.
fn insert_all(
    set: &mut RecordSet,
    key: &RrKey,
    records: Vec<GivenRecord>,
    ttl: u32,
    serial: u32,
) -> Result<(), ProtoError>
    requires owner { lower set.old.owner ≡ key.now.name }
    requires kind { set.old.record_type ≡ key.now.record_type.0 }
    requires owners { AllByRecursion (λ g. lower g.record.name ≡ key.now.name) records.items }
    requires types { AllByRecursion (λ g. type_of g.record.rdata ≡ key.now.record_type.0)
        records.items }
    ensures ok { OnOk result
        (set.new
        ≡ fold (with_taken serial) set.old (map (with_ttl ttl) (records_of records.items))) }
    ensures err { IsOkUnless result ProtoError.Memory }
{
    for given in records {
        insert(set, key, with_ttl(given.record, ttl), serial)?;
    }
    Ok(())
}

/// Inserts a record into the set of its owner and type.
fn insert(set: &mut RecordSet, key: &RrKey, new: Record, serial: u32) -> Result<(), ProtoError>
    requires owner { lower set.old.owner ≡ key.now.name }
    requires kind { set.old.record_type ≡ key.now.record_type.0 }
    requires own { lower new.name ≡ key.now.name }
    requires own_kind { type_of new.rdata ≡ key.now.record_type.0 }
    ensures ok { OnOk result (set.new ≡ with_taken serial set.old new) }
    ensures owner { OnOk result (lower set.new.owner ≡ key.now.name) }
    ensures kind { OnOk result (set.new.record_type ≡ key.now.record_type.0) }
    ensures err { IsOkUnless result ProtoError.Memory }
{
    set.insert(new, serial)?;
    Ok(())
}

/// Appends records to the set of their owner and type, with this TTL. Neither the set nor a record before them has their data.
fn append_all(
    set: &mut RecordSet,
    key: &RrKey,
    records: Vec<GivenRecord>,
    ttl: u32,
    serial: u32,
) -> Result<(), ProtoError>
    requires owner { lower set.old.owner ≡ key.now.name }
    requires kind { set.old.record_type ≡ key.now.record_type.0 }
    requires owners { AllByRecursion (λ g. lower g.record.name ≡ key.now.name) records.items }
    requires types { AllByRecursion (λ g. type_of g.record.rdata ≡ key.now.record_type.0)
        records.items }
    requires several { is_single key.now.record_type.0 ≡ false }
    requires new { AreNew ttl set.old.records records.items }
    ensures ok { OnOk result
        (set.new
        ≡ fold (appending serial) set.old (map (with_ttl ttl) (records_of records.items))) }
    ensures err { IsOkUnless result ProtoError.Memory }
{
    for given in records {
        set.append(with_ttl(given.record, ttl), serial)?;
    }
    Ok(())
}

/// Puts signatures, in order and with this TTL, into a set that has none: of equal ones the first. Warns of the others. n signatures
/// take time in the order of n log n. Its only error is `Memory`.
pub(crate) fn sign(
    alloc: Global,
    set: &mut RecordSet,
    signatures: Vec<GivenRecord>,
    ttl: u32,
    warnings: &mut Vec<LoadWarning>,
) -> Result<(), ProtoError>
    requires unsigned { set.old.signatures ≡ [] }
    requires kinds { AllByRecursion (λ g. is_signature g.record.rdata ≡ true) signatures.items }
    ensures ok { OnOk result (set.new ≡ signed_by ttl signatures.items set.old) }
    ensures warned { OnOk result
        (warnings.new.items ≡ warnings.old.items ++ repeat_warnings signatures.items) }
    ensures err { IsOkUnless result ProtoError.Memory }
{
    let first = first_ones(alloc, signatures, warnings)?;
    sign_all(set, first, ttl)
}

/// Appends signatures to those of a set, with this TTL.
fn sign_all(set: &mut RecordSet, signatures: Vec<GivenRecord>, ttl: u32) -> Result<(), ProtoError>
    requires { AllByRecursion (λ g. is_signature g.record.rdata ≡ true) signatures.items }
    ensures ok { OnOk result
        (set.new
        ≡ record set.old {
          signatures = set.old.signatures ++ map (with_ttl ttl) (records_of signatures.items);
        }) }
    ensures err { IsOkUnless result ProtoError.Memory }
{
    for given in signatures {
        set.insert_rrsig(with_ttl(given.record, ttl))?;
    }
    Ok(())
}

/// A record with another TTL.
fn with_ttl(mut given: Record, ttl: u32) -> Record
    ensures { result ≡ with_ttl ttl given }
{
    given.ttl = ttl;
    given
}
