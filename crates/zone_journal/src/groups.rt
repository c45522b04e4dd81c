//! The records of a step.
ghost use Rattle.std.specs.Prelude.{◌≡◌, ◌++◌, IfOk, OnOk};
ghost use Rattle.message_writing.specs.Responses.{all_records};
ghost use Rattle.std.specs.List.{All, AllByRecursion, flat_map};
ghost use Rattle.shown_zones.specs.Steps.{step_of};
ghost use Rattle.shown_zones.specs.Sending.{sent, sent_sets, sent_step};
ghost use Rattle.zone_journal.specs.Writing.{IsSound};

use message_writing::Group;
use shown_zones::ZoneStep;
use std::alloc::{AllocError, Global};
use zone_proto::RecordSet;

/// The records of a step, a group for each set.
pub(crate) fn groups_of(alloc: Global, step: &ZoneStep) -> Result<Vec<Group<'_>>, AllocError>
    ensures records { IfOk result
        (λ groups. all_records groups.items ≡ sent_step (step_of step.now)) }
    ensures sound { OnOk result (AllByRecursion IsSound (sent_sets (step_of step.now))) }
{
    let mut groups = Vec::new(alloc);
    push_set(&mut groups, &step.old_soa)?;
    push_sets(&mut groups, step.deleted.as_slice())?;
    push_set(&mut groups, &step.new_soa)?;
    push_sets(&mut groups, step.added.as_slice())?;
    Ok(groups)
}

/// Appends the records of sets.
fn push_sets<'s>(groups: &mut Vec<Group<'s>>, sets: &'s [RecordSet]) -> Result<(), AllocError>
    ensures records { OnOk result
        (all_records groups.new.items ≡ all_records groups.old.items ++ flat_map sent sets.now) }
    ensures sound { OnOk result (All IsSound sets.now) }
{
    for set in sets {
        push_set(groups, set)?;
    }
    Ok(())
}

/// Appends the records of a set, and then its signatures.
fn push_set<'s>(groups: &mut Vec<Group<'s>>, set: &'s RecordSet) -> Result<(), AllocError>
    ensures records { OnOk result
        (all_records groups.new.items ≡ all_records groups.old.items ++ sent set.now) }
    ensures sound { OnOk result (IsSound set.now) }
{
    groups.push(Group {
        records: set.as_slice(),
        signatures: set.rrsigs(),
        ttl: set.ttl(),
    })?;
    Ok(())
}
