//! Differences applied to a zone.
ghost use Rattle.std.specs.Prelude.{◌≡◌, IfOk, IsOkUnless};
ghost use Rattle.zone_proto.specs.Keys.{key as key_at};
ghost use Rattle.zone_proto.specs.Names.{lower, IsName};
ghost use Rattle.zone_difference.specs.Differences.{applied, replayed, taken_at, given_at, with_each, with_given, with_taken, Changes, Gives};

use crate::copying::copied;
use crate::difference::{Difference, is_same};
use crate::error::DifferenceError;
use std::alloc::Global;
use zone_map::RecordMap;
use zone_proto::{LowerName, RecordSet, RrKey};

/// The zone that a difference makes of another, which is only read: its sets that are to be taken out are taken out, and then those
/// that are given are put in, in their order. Each other set stays, with its signatures.
///
/// # Errors
///
/// The first of these, in the order of the difference: `NotThere` where no equal set is there to be taken out; `AlreadyThere` where
/// a set is there already under the key of one that is given, and `Empty` where that has no records. `Memory` where none is found.
pub fn applied(
    alloc: Global,
    zone: &RecordMap,
    difference: Difference,
) -> Result<RecordMap, DifferenceError>
    ensures { Gives result (applied zone.now difference.taken.items difference.given.items) }
{
    let mut records = copied(alloc, zone)?;
    match apply(&mut records, difference) {
        Ok(()) => Ok(records),
        Err(error) => Err(error),
    }
}

/// The zone that differences make of another one after the other, as [`applied`] says of each. The zone is only read.
pub fn replayed(
    alloc: Global,
    zone: &RecordMap,
    differences: Vec<Difference>,
) -> Result<RecordMap, DifferenceError>
    ensures { Gives result (replayed zone.now differences.items) }
{
    let mut records = copied(alloc, zone)?;
    match apply_each(&mut records, differences) {
        Ok(()) => Ok(records),
        Err(error) => Err(error),
    }
}

/// Applies differences in place. Where one is refused, some are applied.
fn apply_each(records: &mut RecordMap, differences: Vec<Difference>) -> Result<(), DifferenceError>
    ensures { Changes result records.new (replayed records.old differences.items) }
{
    for difference in differences {
        match apply(records, difference) {
            Ok(()) => {}
            Err(error) => return Err(error),
        }
    }
    Ok(())
}

/// Applies a difference in place. Where it is refused, a part of it is applied.
fn apply(records: &mut RecordMap, difference: Difference) -> Result<(), DifferenceError>
    ensures { Changes result records.new
        (applied records.old difference.taken.items difference.given.items) }
{
    let Difference { taken, given } = difference;
    match take_all(records, taken) {
        Ok(()) => give_all(records, given),
        Err(error) => Err(error),
    }
}

/// Takes sets out in place. Where one isn't there, some are taken out.
fn take_all(records: &mut RecordMap, taken: Vec<RecordSet>) -> Result<(), DifferenceError>
    ensures { Changes result records.new (with_each with_taken records.old taken.items) }
{
    for set in taken {
        match take_out(records, &set) {
            Ok(()) => {}
            Err(error) => return Err(error),
        }
    }
    Ok(())
}

/// Gives sets in place. Where one is refused, some are given.
fn give_all(records: &mut RecordMap, given: Vec<RecordSet>) -> Result<(), DifferenceError>
    ensures { Changes result records.new (with_each with_given records.old given.items) }
{
    for set in given {
        match give(records, set) {
            Ok(()) => {}
            Err(error) => return Err(error),
        }
    }
    Ok(())
}

/// Takes a set out, if it is there.
fn take_out(records: &mut RecordMap, set: &RecordSet) -> Result<(), DifferenceError>
    ensures { Changes result records.new (with_taken records.old set.now) }
{
    let key = key_of(set)?;
    if !is_same(records.get(&key), set) {
        return Err(DifferenceError::NotThere);
    }
    let _ = records.remove(&key);
    Ok(())
}

/// Gives a set, if none is there and it has records.
fn give(records: &mut RecordMap, set: RecordSet) -> Result<(), DifferenceError>
    ensures { Changes result records.new (with_given records.old set) }
{
    let key = key_of(&set)?;
    if records.get(&key).is_some() {
        return Err(DifferenceError::AlreadyThere);
    }
    if set.is_empty() {
        return Err(DifferenceError::Empty);
    }
    let _records = set.as_slice();
    match records.put(key, set) {
        Ok(_) => Ok(()),
        Err(_) => Err(DifferenceError::Memory),
    }
}

/// The key of a set.
fn key_of(set: &RecordSet) -> Result<RrKey, DifferenceError>
    ensures ok { IfOk result (λ key. key ≡ key_at (lower set.now.owner) set.now.record_type) }
    ensures named { IfOk result (λ key. IsName key.name) }
    ensures err { IsOkUnless result DifferenceError.Memory }
{
    Ok(RrKey::new(LowerName::new(set.name())?, set.record_type()))
}
