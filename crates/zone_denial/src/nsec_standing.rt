//! Whether the NSEC sets that are in a zone are those that it would get.
ghost use Rattle.std.specs.Prelude.{◌≡◌, ℕ, map, IsTrue};
ghost use Rattle.std.specs.List.Sorted.{IsStrictlySortedBy};
ghost use Rattle.std.specs.Ordering.{nat_cmp};
ghost use Rattle.zone_proto.specs.Keys.{key_cmp};
ghost use Rattle.zone_proto.specs.Names.{lower};
ghost use Rattle.zone_proto.specs.Types.{NSEC as nsec_type, RRSIG};
ghost use Rattle.zone_map.specs.Standing.{renumbered};
ghost use Rattle.zone_denial.specs.NsecLinks.{AreLinked};
ghost use Rattle.zone_denial.specs.NsecSets.{nsec_data, new_set};
ghost use Rattle.zone_denial.specs.StandingSets.{standing_sets};
ghost use Rattle.zone_denial.specs.TypeLists.{joined};

use crate::key_runs::count_of_first;
use crate::listed_types::lists_types;
use crate::nsec_sets::first_name;
use crate::only_data::only_data;
use zone_map::RecordMap;
use zone_proto::{LowerName, NSEC, RData, RecordSet, RecordType, RrKey};

/// Whether the NSEC sets that are in the zone are those that these keys give, serials and signatures aside: one for
/// each name in order, and no other. It stops at the first difference. Doesn't allocate.
pub(crate) fn nsec_sets_stand(
    records: &RecordMap,
    keys: &[&RrKey],
    origin: &LowerName,
    ttl: u32,
) -> bool
    requires { IsStrictlySortedBy key_cmp (map (λ k. k.now) keys.now) }
    ensures { IsTrue result → (serial : ℕ)
        → AreLinked origin.now (map (λ k. k.now) keys.now) ttl serial
        (standing_sets nsec_type serial records.now) }
{
    // So that no pass over the zone is made where none can be found.
    if records.is_without(RecordType::NSEC) {
        return false;
    }
    let mut start = 0;
    for (key, set) in records.iter() {
        if key.record_type != RecordType::NSEC {
            continue;
        }
        if start == keys.len() {
            return false;
        }
        let first = keys[start];
        let end = start + count_of_first(&keys[start..]);
        let next = first_name(&keys[end..], origin);
        if !is_nsec_set(set, &first.name, next, &keys[start..end], ttl) {
            return false;
        }
        start = end;
    }
    start == keys.len()
}

/// Whether a set is the NSEC set of a name with this next one and the types of these keys, serial and signatures aside.
fn is_nsec_set(
    set: &RecordSet,
    name: &LowerName,
    next: &LowerName,
    keys: &[&RrKey],
    ttl: u32,
) -> bool
    requires { set.now.record_type ≡ nsec_type }
    ensures whole { IsTrue result → (serial : ℕ)
        → renumbered serial set.now
        ≡ new_set ttl serial name.now
        (nsec_data next.now
        (joined nat_cmp nsec_type
        (joined nat_cmp RRSIG (map (λ k. k.now.record_type.0) keys.now)))) }
    ensures lower { IsTrue result → lower name.now ≡ name.now }
{
    match only_data(set, name, ttl) {
        Some(RData::NSEC(data)) => is_nsec_data(data, next, keys),
        _ => false,
    }
}

/// Whether data have this next name and the types of these keys.
fn is_nsec_data(data: &NSEC, next: &LowerName, keys: &[&RrKey]) -> bool
    ensures { IsTrue result
        → «data».now
        ≡ nsec_data next.now
        (joined nat_cmp nsec_type
        (joined nat_cmp RRSIG (map (λ k. k.now.record_type.0) keys.now))) }
{
    next.is_exactly(&data.next_domain_name) && lists_types(data.types.as_slice(), keys)
}
