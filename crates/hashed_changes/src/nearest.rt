//! The nearest owner of NSEC3 before another in the order of the digests.
ghost use Rattle.std.specs.Prelude.{◌≡◌, not, filter, option_copied};
ghost use Rattle.std.specs.List.Sorted.{IsStrictlySortedBy};
ghost use Rattle.zone_proto.specs.Names.{name_cmp};
ghost use Rattle.zone_proto.specs.Order.{greatest};
ghost use Rattle.hashed_changes.specs.Among.{is_among};
ghost use Rattle.hashed_changes.specs.Around.{nearest_around};
ghost use Rattle.hashed_changes.specs.Places.{owners_of, AreInOrder};
ghost use Rattle.hashed_changes.specs.Renewal.{owners_besides};

use crate::places::{Affected, is_moved};
use zone_map::{LastOwners, Reads, RecordMap};
use zone_proto::{LowerName, RecordType};

/// The nearest owner of NSEC3 in a zone before another name that no affected name has: the last one before it, and before the first the last of all,
/// since the owners of a zone's NSEC3 sets are a circle (RFC 5155 section 3.1.7). It reads the owners back to that one. Doesn't allocate.
#[tactic(auto, using(crate::proofs::NearestRead::earlier, crate::proofs::NearestRead::around))]
pub(crate) fn nearest_owner<'m>(
    zone: &'m RecordMap,
    affected: &[Affected],
    name: &LowerName,
) -> Option<&'m LowerName>
    requires { AreInOrder affected.now }
    ensures { option_copied result
        ≡ nearest_around name_cmp (owners_besides zone.now (owners_of affected.now)) name.now }
{
    let earlier = last_besides(zone.denial_owners_before(RecordType::NSEC3, name), affected);
    match earlier {
        Some(owner) => Some(owner),
        None => last_besides(zone.last_denial_owners(RecordType::NSEC3), affected),
    }
}

/// The last of these owners that no affected name has. Doesn't allocate.
fn last_besides<'m>(owners: LastOwners<'m>, affected: &[Affected]) -> Option<&'m LowerName>
    requires ascend { IsStrictlySortedBy name_cmp owners }
    requires order { AreInOrder affected.now }
    ensures { option_copied result
        ≡ greatest name_cmp
        (filter (λ o. not (is_among (owners_of affected.now) o)) owners.entry) }
{
    let mut reads = Reads::new();
    let mut left = owners;
    while let Some(owner) = left.read_last(&mut reads) {
        if !is_moved(affected, owner) {
            return Some(owner);
        }
    }
    None
}
