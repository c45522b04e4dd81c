//! A zone without what is made where it is signed.
ghost use Rattle.std.specs.Prelude.{◌≡◌, filter, IfOk, IsOkUnless};
ghost use Rattle.std.specs.Map.{keys_of};
ghost use Rattle.zone_map.specs.Puts.{without_all};
ghost use Rattle.update_denials.specs.Prepared.{is_made, IsUnsecured};

use std::alloc::Global;
use zone_map::RecordMap;
use zone_proto::{ProtoError, RrKey, is_derived};

/// The sets of a zone without those that are made where it is signed: RRSIG, NSEC, NSEC3 and NSEC3PARAM. Refused by `Memory` alone.
pub(crate) fn unsecured(alloc: Global, records: RecordMap) -> Result<RecordMap, ProtoError>
    ensures ok { IfOk result (IsUnsecured records) }
    ensures err { IsOkUnless result ProtoError.Memory }
{
    let mut records = records;
    let keys = made_keys(alloc, &records)?;
    // Its keys ascend, which tells what stands where others are taken out.
    let _count = records.len();
    remove_all(&mut records, keys);
    Ok(records)
}

/// The keys of the sets that are made where a zone is signed, in order. Refused by `Memory` alone.
fn made_keys(alloc: Global, records: &RecordMap) -> Result<Vec<RrKey>, ProtoError>
    ensures ok { IfOk result (λ keys. keys.items ≡ filter is_made (keys_of records.now)) }
    ensures err { IsOkUnless result ProtoError.Memory }
{
    let mut keys = Vec::new(alloc);
    for (key, _) in records.iter() {
        if is_derived(key.record_type) {
            keys.push(key.clone()?)?;
        }
    }
    Ok(keys)
}

/// Takes the sets under these keys out. Takes no memory.
fn remove_all(records: &mut RecordMap, keys: Vec<RrKey>)
    ensures { records.new ≡ without_all records.old keys.items }
{
    for key in keys {
        let _ = records.remove(&key);
    }
}
