//! The serials of the sets of one type, in place.
ghost use Rattle.std.specs.Prelude.{◌≡◌, ◌==◌, if◌then◌else◌};
ghost use Rattle.zone_map.specs.Standing.{with_serial};
ghost use Rattle.zone_map.specs.Zones.{IsZone};

use crate::record_map::RecordMap;
use zone_frozen::SetMap;
use zone_proto::{RecordSet, RecordType, RrKey};

impl RecordMap {
    /// Puts a serial in place of that of each set of a type; their records and signatures stay. Doesn't allocate.
    pub fn set_serials(&mut self, record_type: RecordType, serial: u32)
        ensures sets { self.new ≡ with_serial record_type.0 serial self.old }
        ensures zone { IsZone self.new }
    {
        put_serials(&mut self.sets, record_type, serial);
    }
}

/// Puts a serial in place of that of each set under a key of a type.
fn put_serials(sets: &mut SetMap, record_type: RecordType, serial: u32)
    ensures { sets.new ≡ with_serial record_type.0 serial sets.old }
{
    sets.retain(|key, set| {
        put_serial(key, set, record_type, serial);
        true
    });
}

/// Puts a serial in place of that of a set, if its key is of a type.
fn put_serial(key: &RrKey, set: &mut RecordSet, record_type: RecordType, serial: u32)
    ensures { set.new
        ≡ (if key.now.record_type.0 == record_type.0 then record set.old { serial = serial } else
        set.old) }
{
    if key.record_type == record_type {
        set.set_serial(serial);
    }
}
