//! Records with the data of a record before them.
ghost use Rattle.std.specs.Prelude.{◌≡◌, ◌++◌, [], map, IfOk, OnOk, IsOkUnless};
ghost use Rattle.std.specs.List.{list_any};
ghost use Rattle.zone_proto.specs.Data.{same_data};
ghost use Rattle.zone_builder.specs.Repeats.{are_distinct, first_ones, flagged, holds, repeats_behind, unflagged};
ghost use Rattle.zone_builder.specs.Warnings.{repeat_warnings, repeated_warning};

use crate::given::{GivenRecord, RecordAt};
use crate::warning::LoadWarning;
use std::alloc::{AllocError, Global};
use std::collections::BTreeSet;
use zone_proto::{ProtoError, RData};

/// From this number of records on, equal data are looked for by their order. Fewer are compared each with each, which doesn't allocate.
const MANY: usize = 16;

/// The records without those that have the data of one before them. Appends a warning of each of the latter. n records take time in the
/// order of n log n. Its only error is `Memory`.
pub(crate) fn first_ones(
    alloc: Global,
    records: Vec<GivenRecord>,
    warnings: &mut Vec<LoadWarning>,
) -> Result<Vec<GivenRecord>, ProtoError>
    ensures ok { IfOk result (λ first. first.items ≡ first_ones records.items) }
    ensures warned { OnOk result
        (warnings.new.items ≡ warnings.old.items ++ repeat_warnings records.items) }
    ensures err { IsOkUnless result ProtoError.Memory }
{
    if records.len() < MANY && are_distinct(records.as_slice()) {
        return Ok(records);
    }
    let repeats = repeats_of(alloc, records.as_slice())?;
    parted(alloc, records, repeats, warnings)
}

/// Whether no two of some records have equal data.
fn are_distinct(records: &[GivenRecord]) -> bool
    ensures { result ≡ are_distinct records.now }
{
    for (index, given) in records.iter().enumerate() {
        if holds(&records[index + 1..], &given.record.rdata) {
            return false;
        }
    }
    true
}

/// Whether a record has these data.
fn holds(records: &[GivenRecord], rdata: &RData) -> bool
    ensures { result ≡ holds records.now rdata.now }
{
    records.iter().any(|given| given.record.rdata == *rdata)
}

/// For each record, whether one before it has its data.
fn repeats_of(alloc: Global, records: &[GivenRecord]) -> Result<Vec<bool>, AllocError>
    ensures { IfOk result (λ repeats. repeats.items
        ≡ repeats_behind same_data [] (map (λ g. g.record.rdata) records.now)) }
{
    let data = data_of(alloc, records)?;
    repeats(alloc, data.as_slice())
}

/// The data of records.
fn data_of(alloc: Global, records: &[GivenRecord]) -> Result<Vec<&RData>, AllocError>
    ensures { IfOk result
        (λ list. map (λ d. d.now) list.items ≡ map (λ g. g.record.rdata) records.now) }
{
    let mut list = Vec::with_capacity(alloc, records.len())?;
    for given in records {
        list.push(&given.record.rdata)?;
    }
    Ok(list)
}

/// For each value, whether an equal one is before it, which is looked up among those by their order.
fn repeats<T: Ord>(alloc: Global, values: &[&T]) -> Result<Vec<bool>, AllocError>
    ensures { IfOk result (λ repeats. repeats.items
        ≡ repeats_behind T.eq [] (map (λ v. v.now) values.now)) }
{
    let mut seen = BTreeSet::new(alloc);
    let mut repeats = Vec::with_capacity(alloc, values.len())?;
    for value in values {
        let is_new = seen.insert(*value)?;
        repeats.push(!is_new)?;
    }
    Ok(repeats)
}

/// The records for which it isn't said that they repeat others. Appends a warning of each other one.
fn parted(
    alloc: Global,
    records: Vec<GivenRecord>,
    repeats: Vec<bool>,
    warnings: &mut Vec<LoadWarning>,
) -> Result<Vec<GivenRecord>, ProtoError>
    ensures ok { IfOk result (λ kept. kept.items ≡ unflagged records.items repeats.items) }
    ensures warned { OnOk result (warnings.new.items
        ≡ warnings.old.items ++ map repeated_warning (flagged records.items repeats.items)) }
    ensures err { IsOkUnless result ProtoError.Memory }
{
    let mut kept = Vec::with_capacity(alloc, records.len())?;
    let mut repeats = repeats.into_iter();
    for given in records {
        if repeats.next().unwrap_or(false) {
            warnings.push(LoadWarning::Repeated(RecordAt::of(&given)?))?;
        } else {
            kept.push(given)?;
        }
    }
    Ok(kept)
}

/// Warns of each of these records, which repeat others.
pub(crate) fn warn_of_repeated(
    records: &[GivenRecord],
    warnings: &mut Vec<LoadWarning>,
) -> Result<(), ProtoError>
    ensures warned { OnOk result (warnings.new.items
        ≡ warnings.old.items ++ map repeated_warning records.now) }
    ensures err { IsOkUnless result ProtoError.Memory }
{
    for given in records {
        warnings.push(LoadWarning::Repeated(RecordAt::of(given)?))?;
    }
    Ok(())
}
