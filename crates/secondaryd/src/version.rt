//! The version of a zone.
ghost use Rattle.std.specs.Prelude.{◌≡◌};
ghost use Rattle.secondaryd.specs.Versions.{version_in, version_in_data, version_in_records};

use zone_map::RecordMap;
use zone_proto::{RData, Record, RrKey};
use zone_secondary::Version;

/// What the SOA record of a zone says to secondaries, which is under this key.
pub fn version_in(records: &RecordMap, apex: &RrKey) -> Option<Version>
    ensures { result ≡ version_in records.now apex.now }
{
    match records.get(apex) {
        Some(set) => version_in_records(set.as_slice()),
        None => None,
    }
}

/// What the first of some records says.
fn version_in_records(records: &[Record]) -> Option<Version>
    ensures { result ≡ version_in_records records.now }
{
    match records {
        [first, ..] => version_in_data(&first.rdata),
        [] => None,
    }
}

/// What data say, if they are those of an SOA record.
fn version_in_data(rdata: &RData) -> Option<Version>
    ensures { result ≡ version_in_data rdata.now }
{
    match rdata {
        RData::SOA(soa) => Some(Version {
            serial: soa.serial,
            refresh: soa.refresh.cast_unsigned(),
            retry: soa.retry.cast_unsigned(),
            expire: soa.expire.cast_unsigned(),
        }),
        _ => None,
    }
}
