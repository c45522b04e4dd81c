//! The record map as the list of its sets by their keys.
ghost use Rattle.std.specs.Prelude.{◌≡◌, length};
ghost use Rattle.zone_map.specs.Zones.{AreStored, IsZone};

use crate::record_map::RecordMap;
use zone_frozen::SetRange;

impl RecordMap {
    /// The sets by their keys, in the order of the keys. Doesn't allocate.
    pub fn iter(&self) -> SetRange<'_>
        ensures rest { result ≡ self.now }
        ensures zone { IsZone self.now }
        ensures stored { AreStored self.now }
    {
        self.sets.iter()
    }

    /// How many sets there are. Doesn't allocate.
    pub fn len(&self) -> usize
        ensures count { result ≡ length self.now }
        ensures zone { IsZone self.now }
    {
        self.sets.len()
    }
}
