//! The records of a zone as a transfer sends them (RFC 5936 section 2.2).
ghost use Rattle.std.specs.Prelude.{◌≡◌, ◌++◌, OnOk, map};
ghost use Rattle.message_writing.specs.Responses.{records_of, records_together, with_ttl};
ghost use Rattle.zone_server.specs.Transfers.{between, one_by_one, soa_alone};

use message_writing::Group;
use std::alloc::AllocError;
use zone_proto::{Record, RecordSet, RecordType};

/// The records of a zone's SOA without their signatures: the first and the last of a transfer (RFC 5936 section 2.2).
pub fn soa_alone(soa: &RecordSet) -> Group<'_>
    ensures { records_of result ≡ records_together (soa_alone soa.now) }
{
    Group {
        records: soa.as_slice(),
        signatures: &[],
        ttl: soa.ttl(),
    }
}

/// A set as it is sent between the two: with its signatures; of an SOA these alone.
pub fn between(set: &RecordSet) -> Group<'_>
    ensures { records_of result ≡ records_together (between set.now) }
{
    if set.record_type() == RecordType::SOA {
        return Group {
            records: &[],
            signatures: set.rrsigs(),
            ttl: set.ttl(),
        };
    }
    Group {
        records: set.as_slice(),
        signatures: set.rrsigs(),
        ttl: set.ttl(),
    }
}

/// Appends records with a TTL, each as a group of its own: a set that no message has room for is sent so. Its only error is want of
/// memory.
pub fn push_singles<'g>(
    singles: &mut Vec<Group<'g>>,
    records: &'g [Record],
    ttl: u32,
) -> Result<(), AllocError>
    ensures { OnOk result (map records_of singles.new.items
        ≡ map records_of singles.old.items ++ one_by_one (map (with_ttl ttl) records.now)) }
{
    for record in records {
        singles.push(Group {
            records: std::slice::from_ref(record),
            signatures: &[],
            ttl,
        })?;
    }
    Ok(())
}
