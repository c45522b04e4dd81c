//! Records each by itself.
ghost use Rattle.std.specs.Prelude.{◌≡◌, ◌++◌, map, IfOk, OnOk};
ghost use Rattle.message_writing.specs.Responses.{all_records, with_ttl};
ghost use Rattle.message_series.specs.Singles.{AreSingle};

use message_writing::Group;
use std::alloc::{AllocError, Global};
use zone_proto::Record;

/// The records of groups, each by itself.
pub(crate) fn singles_of<'r>(
    alloc: Global,
    groups: &[Group<'r>],
) -> Result<Vec<Group<'r>>, AllocError>
    ensures records { IfOk result
        (λ singles. all_records singles.items ≡ all_records groups.now) }
    ensures single { IfOk result (λ singles. AreSingle singles.items) }
{
    let mut singles = Vec::new(alloc);
    for group in groups {
        push_each(&mut singles, group.records, group.ttl)?;
        push_each(&mut singles, group.signatures, group.ttl)?;
    }
    Ok(singles)
}

/// Appends records with a TTL in seconds, each by itself.
#[tactic(auto, using(crate::proofs::OneByOne::single_more))]
fn push_each<'r>(
    groups: &mut Vec<Group<'r>>,
    records: &'r [Record],
    ttl: u32,
) -> Result<(), AllocError>
    requires { AreSingle groups.old.items }
    ensures records { OnOk result (all_records groups.new.items
        ≡ all_records groups.old.items ++ map (with_ttl ttl) records.now) }
    ensures single { OnOk result (AreSingle groups.new.items) }
{
    for record in records {
        groups.push(Group {
            records: std::slice::from_ref(record),
            signatures: &[],
            ttl,
        })?;
    }
    Ok(())
}
