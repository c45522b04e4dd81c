//! The records of steps, each by itself.
ghost use Rattle.std.specs.Prelude.{◌≡◌, ◌++◌, map, IfOk, OnOk};
ghost use Rattle.std.specs.List.{flat_map};
ghost use Rattle.message_writing.specs.Responses.{all_records};
ghost use Rattle.shown_zones.specs.Sending.{sent, sent_alone, sent_step, sent_steps};
ghost use Rattle.shown_zones.specs.Steps.{step_of};

use message_writing::{Group, push_records};
use shown_zones::ZoneStep;
use std::alloc::{AllocError, Global};
use zone_proto::RecordSet;

/// The records of steps between two SOA records of the newest version (RFC 1995 section 4), each by itself, so that a message may end behind any
/// of them: of each step the older SOA and what is deleted, the newer SOA and what is added; of each set the records and then its
/// signatures, all with the TTL of the set. Fails only for lack of memory.
pub fn difference_groups<'s>(
    alloc: Global,
    soa: &'s RecordSet,
    steps: &'s [ZoneStep],
) -> Result<Vec<Group<'s>>, AllocError>
    ensures { IfOk result
        (λ groups. all_records groups.items ≡ sent_steps soa.now (map step_of steps.now)) }
{
    let mut groups = Vec::new(alloc);
    push_alone(&mut groups, soa)?;
    push_steps(&mut groups, steps)?;
    push_alone(&mut groups, soa)?;
    Ok(groups)
}

/// Appends the records of steps.
fn push_steps<'s>(groups: &mut Vec<Group<'s>>, steps: &'s [ZoneStep]) -> Result<(), AllocError>
    ensures { OnOk result (all_records groups.new.items
        ≡ all_records groups.old.items ++ flat_map sent_step (map step_of steps.now)) }
{
    for step in steps {
        push_step(groups, step)?;
    }
    Ok(())
}

/// Appends the records of a step.
fn push_step<'s>(groups: &mut Vec<Group<'s>>, step: &'s ZoneStep) -> Result<(), AllocError>
    ensures { OnOk result (all_records groups.new.items
        ≡ all_records groups.old.items ++ sent_step (step_of step.now)) }
{
    push_set(groups, &step.old_soa)?;
    push_sets(groups, step.deleted.as_slice())?;
    push_set(groups, &step.new_soa)?;
    push_sets(groups, step.added.as_slice())?;
    Ok(())
}

/// Appends the records of sets.
fn push_sets<'s>(groups: &mut Vec<Group<'s>>, sets: &'s [RecordSet]) -> Result<(), AllocError>
    ensures { OnOk result
        (all_records groups.new.items ≡ all_records groups.old.items ++ flat_map sent sets.now) }
{
    for set in sets {
        push_set(groups, set)?;
    }
    Ok(())
}

/// Appends the records of a set, and then its signatures.
fn push_set<'s>(groups: &mut Vec<Group<'s>>, set: &'s RecordSet) -> Result<(), AllocError>
    ensures { OnOk result
        (all_records groups.new.items ≡ all_records groups.old.items ++ sent set.now) }
{
    push_alone(groups, set)?;
    push_records(groups, set.rrsigs(), set.ttl())?;
    Ok(())
}

/// Appends the records of a set without its signatures.
fn push_alone<'s>(groups: &mut Vec<Group<'s>>, set: &'s RecordSet) -> Result<(), AllocError>
    ensures { OnOk result
        (all_records groups.new.items ≡ all_records groups.old.items ++ sent_alone set.now) }
{
    push_records(groups, set.as_slice(), set.ttl())
}
