//! Records that are sent each by itself.
ghost use Rattle.std.specs.Prelude.{◌≡◌, ◌++◌, map, OnOk};
ghost use Rattle.message_writing.specs.Responses.{all_records, with_ttl};

use crate::response::Group;
use std::alloc::AllocError;
use zone_proto::Record;

/// Appends records with a TTL in seconds, each by itself, so that a message may end behind any of them (RFC 5936 section 2.2). Fails
/// only for lack of memory.
pub fn push_records<'r>(
    groups: &mut Vec<Group<'r>>,
    records: &'r [Record],
    ttl: u32,
) -> Result<(), AllocError>
    ensures { OnOk result (all_records groups.new.items
        ≡ all_records groups.old.items ++ map (with_ttl ttl) records.now) }
{
    for record in records {
        groups.push(Group {
            records: std::slice::from_ref(record),
            signatures: &[],
            ttl,
        })?;
    }
    Ok(())
}
