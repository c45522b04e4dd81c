//! The SOA data of a set.
ghost use Rattle.std.specs.Prelude.{◌≡◌, option_copied};
ghost use Rattle.zone_lookup.specs.StartOfAuthority.{first_soa};

use zone_proto::{RData, RecordSet, SOA};

/// The SOA data of the first record of `set`; None if it has no records, or data of another type.
pub fn first_soa(set: &RecordSet) -> Option<&SOA>
    ensures { option_copied result ≡ first_soa set.now.records }
{
    match &set.records_without_rrsigs().next()?.rdata {
        RData::SOA(soa) => Some(soa),
        _ => None,
    }
}
