//! Sets of the record map exchanged for others, which takes no memory.
ghost use Rattle.std.specs.Prelude.{◌≡◌, if◌then◌else◌};
ghost use Rattle.zone_map.specs.Zones.{set_at, owns, put, IsStoredAt, IsZone};

use crate::record_map::RecordMap;
use zone_proto::{RecordSet, RrKey};

impl RecordMap {
    /// Puts a set in place of the one under a key, and gives that one. Where none is there, nothing changes. Doesn't allocate.
    pub fn replace(&mut self, key: &RrKey, set: RecordSet) -> Option<RecordSet>
        requires { IsStoredAt key.now.name key.now.record_type.0 set }
        ensures before { result ≡ set_at self.old key.now.name key.now.record_type.0 }
        ensures replaced { self.new
            ≡ (if owns self.old key.now.name key.now.record_type.0 then
            put self.old key.now.name key.now.record_type.0 set else self.old) }
        ensures zone { IsZone self.new }
    {
        self.sets.replace(key, set)
    }
}
