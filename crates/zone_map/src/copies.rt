//! Copies of sets, put into a record map.
ghost use Rattle.std.specs.Prelude.{◌≡◌, OnOk, IsOkUnless};
ghost use Rattle.zone_map.specs.Zones.{put, IsStoredAt};

use crate::record_map::RecordMap;
use zone_proto::{ProtoError, RecordSet, RrKey};

/// Stores a copy of a set, of the owner and type of its key, under a copy of that. Its only error is `Memory`.
pub fn put_copy(sets: &mut RecordMap, key: &RrKey, set: &RecordSet) -> Result<(), ProtoError>
    requires { IsStoredAt key.now.name key.now.record_type.0 set.now }
    ensures ok { OnOk result
        (sets.new ≡ put sets.old key.now.name key.now.record_type.0 set.now) }
    ensures err { IsOkUnless result ProtoError.Memory }
{
    match sets.put(key.clone()?, set.clone()?) {
        Ok(_) => Ok(()),
        Err(_) => Err(ProtoError::Memory),
    }
}
