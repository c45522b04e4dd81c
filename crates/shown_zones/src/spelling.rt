//! Owners as the records of a set spell them.
ghost use Rattle.std.specs.Prelude.{◌≡◌};
ghost use Rattle.shown_zones.specs.Shown.{spelled};

use zone_proto::{Name, RecordSet};

/// The owner of a set as its first record spells it, or, where it has no records, as the set does. Doesn't allocate.
pub fn spelled(set: &RecordSet) -> &Name
    ensures { result.now ≡ spelled set.now.owner set.now.records }
{
    match set.as_slice().first() {
        Some(first) => &first.name,
        None => set.name(),
    }
}
