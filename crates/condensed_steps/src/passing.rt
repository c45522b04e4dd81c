//! Sets on the way over a step.
ghost use Rattle.std.specs.Prelude.{◌≡◌, fold, map, IfOk, OnOk, IsOkUnless};
ghost use Rattle.zone_proto.specs.Names.{IsName};
ghost use Rattle.zone_map.specs.Puts.{without_all};
ghost use Rattle.zone_map.specs.Zones.{without};
ghost use Rattle.condensed_steps.specs.Condensing.{behind, key_of, with_set};

use zone_map::RecordMap;
use zone_proto::{LowerName, ProtoError, RecordSet, RrKey};

/// Takes out the sets that stand under the keys of an SOA and of those that are deleted, and puts in copies of those that are added and of the other
/// SOA. Where it is refused, by `Memory` alone, some are out or in.
pub(crate) fn pass(
    sets: &mut RecordMap,
    old_soa: &RecordSet,
    deleted: &[RecordSet],
    added: &[RecordSet],
    new_soa: &RecordSet,
) -> Result<(), ProtoError>
    ensures behind { OnOk result (sets.new ≡ behind sets.old (record {
      old_soa = old_soa.now;
      deleted = deleted.now;
      new_soa = new_soa.now;
      added = added.now;
    })) }
    ensures err { IsOkUnless result ProtoError.Memory }
{
    take_out(sets, old_soa)?;
    take_all_out(sets, deleted)?;
    put_all_in(sets, added)?;
    put_in(sets, new_soa)?;
    Ok(())
}

/// Takes out the sets under the keys of others.
fn take_all_out(sets: &mut RecordMap, others: &[RecordSet]) -> Result<(), ProtoError>
    ensures out { OnOk result (sets.new ≡ without_all sets.old (map key_of others.now)) }
    ensures err { IsOkUnless result ProtoError.Memory }
{
    for other in others {
        take_out(sets, other)?;
    }
    Ok(())
}

/// Takes out the set under the key of another.
fn take_out(sets: &mut RecordMap, other: &RecordSet) -> Result<(), ProtoError>
    ensures out { OnOk result
        (sets.new ≡ without sets.old (key_of other.now).name (key_of other.now).record_type.0) }
    ensures err { IsOkUnless result ProtoError.Memory }
{
    let key = key_of(other)?;
    let _ = sets.remove(&key);
    Ok(())
}

/// Puts in copies of sets, each under its key.
fn put_all_in(sets: &mut RecordMap, others: &[RecordSet]) -> Result<(), ProtoError>
    ensures put { OnOk result (sets.new ≡ fold with_set sets.old others.now) }
    ensures err { IsOkUnless result ProtoError.Memory }
{
    for other in others {
        put_in(sets, other)?;
    }
    Ok(())
}

/// Puts in a copy of a set under its key, where it has records; else none stands there then.
fn put_in(sets: &mut RecordMap, other: &RecordSet) -> Result<(), ProtoError>
    ensures put { OnOk result (sets.new ≡ with_set sets.old other.now) }
    ensures err { IsOkUnless result ProtoError.Memory }
{
    let key = key_of(other)?;
    if other.is_empty() {
        let _ = sets.remove(&key);
        return Ok(());
    }
    let copy = other.clone()?;
    let _records = other.as_slice();
    match sets.put(key, copy) {
        Ok(_) => Ok(()),
        Err(_) => Err(ProtoError::Memory),
    }
}

/// The key of a set.
fn key_of(set: &RecordSet) -> Result<RrKey, ProtoError>
    ensures ok { IfOk result (λ key. key ≡ key_of set.now) }
    ensures named { IfOk result (λ key. IsName key.name) }
    ensures err { IsOkUnless result ProtoError.Memory }
{
    Ok(RrKey::new(LowerName::new(set.name())?, set.record_type()))
}
