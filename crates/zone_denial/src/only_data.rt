//! The data of a set that has one record, as each set of denial has that is made.
ghost use Rattle.std.specs.Prelude.{◌≡◌, ℕ, ◌∷◌, [], IfSome};
ghost use Rattle.zone_proto.specs.Names.{lower};
ghost use Rattle.zone_map.specs.Standing.{renumbered};
ghost use Rattle.zone_denial.specs.OneRecordSets.{one_record_set};

use zone_proto::{DNSClass, LowerName, RData, Record, RecordSet};

/// The data of a set that has one record, where both are of this owner and TTL and of class IN.
pub(crate) fn only_data<'s>(set: &'s RecordSet, owner: &LowerName, ttl: u32) -> Option<&'s RData>
    ensures whole { IfSome result
        (λ d. (serial : ℕ)
        → renumbered serial set.now
        ≡ one_record_set set.now.record_type ttl serial owner.now d.now) }
    ensures lower { IfSome result (λ d. lower owner.now ≡ owner.now) }
{
    if set.ttl() != ttl || set.dns_class() != DNSClass::IN || !owner.is_exactly(set.name()) {
        return None;
    }
    let only = only_record(set)?;
    if only.ttl != ttl || only.dns_class != DNSClass::IN || !owner.is_exactly(&only.name) {
        return None;
    }
    Some(&only.rdata)
}

/// The record of a set that has no other.
fn only_record(set: &RecordSet) -> Option<&Record>
    ensures { IfSome result (λ only. set.now.records ≡ only.now ∷ []) }
{
    let mut records = set.records_without_rrsigs();
    let only = records.next()?;
    match records.next() {
        Some(_) => None,
        None => Some(only),
    }
}
