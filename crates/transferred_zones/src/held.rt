//! The records of a zone that is held.
ghost use Rattle.std.specs.Prelude.{◌≡◌, ◌++◌, map, IfOk, IsOkUnless, OnOk};
ghost use Rattle.transferred_zones.specs.HeldRecords.{records_in, with_ttl};

use std::alloc::Global;
use zone_map::RecordMap;
use zone_proto::{ProtoError, Record};

/// The records of the sets of a zone, by owner in canonical order (RFC 4034 section 6.1) and by type, each set's with its signatures behind them.
/// All have the TTL of their set. Refused by `Memory` alone.
pub fn records_of(alloc: Global, zone: &RecordMap) -> Result<Vec<Record>, ProtoError>
    ensures ok { IfOk result (λ records. records.items ≡ records_in zone.now) }
    ensures err { IsOkUnless result ProtoError.Memory }
{
    let mut records = Vec::new(alloc);
    for (_, set) in zone.iter() {
        push_all(&mut records, set.as_slice(), set.ttl())?;
        push_all(&mut records, set.rrsigs(), set.ttl())?;
    }
    Ok(records)
}

/// Puts copies of records behind others, each with this TTL. Refused by `Memory` alone.
fn push_all(records: &mut Vec<Record>, standing: &[Record], ttl: u32) -> Result<(), ProtoError>
    ensures ok { OnOk result
        (records.new.items ≡ records.old.items ++ map (with_ttl ttl) standing.now) }
    ensures err { IsOkUnless result ProtoError.Memory }
{
    for one in standing {
        let mut copy = one.clone()?;
        copy.ttl = ttl;
        records.push(copy)?;
    }
    Ok(())
}
