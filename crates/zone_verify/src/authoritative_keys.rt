//! The keys of the sets at the names that a zone is authoritative for, among those of a chain.
ghost use Rattle.std.specs.Prelude.{◌≡◌, map, IfOk, OnOk, IsOkUnless};
ghost use Rattle.zone_proto.specs.Types.{NSEC3};
ghost use Rattle.zone_map.specs.Zones.{IsZone};
ghost use Rattle.zone_denial.specs.AuthoritativeKeys.{authoritative_keys};
ghost use Rattle.zone_verify.specs.ChainSets.{sets_of};

use crate::chain_sets::ChainSets;
use zone_denial::authoritative_keys::counts;
use zone_proto::{LowerName, ProtoError, RecordType, RrKey};

/// The keys of the sets at the names that the zone of this origin is authoritative for, in order, those of NSEC3 aside
/// (RFC 4035 section 2.3, RFC 5155 section 7.1). Its only error is `Memory`.
pub(crate) fn authoritative_keys<'z>(
    sets: &ChainSets<'z>,
    origin: &LowerName,
) -> Result<Vec<&'z RrKey>, ProtoError>
    ensures ok { IfOk result
        (λ keys. map (λ k. k.now) keys.items
        ≡ authoritative_keys origin.now (sets_of sets.now) NSEC3) }
    ensures zone { OnOk result (IsZone sets.now.records.now) }
    ensures err { IsOkUnless result ProtoError.Memory }
{
    let records = sets.records;
    let mut keys = Vec::with_capacity(origin.alloc(), records.len())?;
    let mut cut = None;
    for (key, set) in records.iter() {
        if !sets.has(key.record_type, set) {
            continue;
        }
        if counts(origin, RecordType::NSEC3, &mut cut, key) {
            keys.push(key)?;
        }
    }
    Ok(keys)
}
