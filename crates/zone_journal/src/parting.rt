//! The sets of a step, parted by its SOAs.
ghost use Rattle.std.specs.Prelude.{◌≡◌, ◌==◌, option_map, IfOk};
ghost use Rattle.std.specs.List.{list_any, position};
ghost use Rattle.zone_journal.specs.Entries.{as_step, first_of, is_soa, step_in, step_with};

use shown_zones::ZoneStep;
use std::alloc::{AllocError, Global};
use zone_proto::{RecordSet, RecordType};

/// The step that begins with its older SOA; none where the sets aren't those of a step.
pub(crate) fn step_in(sets: Vec<RecordSet>) -> Result<Option<ZoneStep>, AllocError>
    ensures { IfOk result (λ step. as_step step ≡ step_in sets.items) }
{
    let Some((old_soa, mut deleted)) = first_of(sets) else {
        return Ok(None);
    };
    if !is_soa(&old_soa) {
        return Ok(None);
    }
    let Some(at) = soa_at(deleted.as_slice()) else {
        return Ok(None);
    };
    let behind = deleted.split_off(at)?;
    Ok(step_with(old_soa, deleted, behind))
}

/// The step of an SOA, the sets that are deleted, and a second SOA with those that are added.
fn step_with(
    old_soa: RecordSet,
    deleted: Vec<RecordSet>,
    behind: Vec<RecordSet>,
) -> Option<ZoneStep>
    ensures { as_step result ≡ step_with old_soa deleted.items behind.items }
{
    let (new_soa, added) = first_of(behind)?;
    if has_soa(added.as_slice()) {
        return None;
    }
    Some(ZoneStep {
        old_soa,
        deleted,
        new_soa,
        added,
    })
}

/// The first of some sets, and the others.
fn first_of(mut sets: Vec<RecordSet>) -> Option<(RecordSet, Vec<RecordSet>)>
    ensures { option_map (λ x. (x.0, x.1.items)) result ≡ first_of sets.items }
{
    if sets.is_empty() {
        return None;
    }
    let first = sets.remove(0);
    Some((first, sets))
}

/// Where the first SOA stands among sets.
fn soa_at(sets: &[RecordSet]) -> Option<usize>
    ensures { result ≡ position is_soa sets.now }
{
    sets.iter().position(|set| is_soa(set))
}

/// Whether an SOA is among sets.
fn has_soa(sets: &[RecordSet]) -> bool
    ensures { result ≡ list_any is_soa sets.now }
{
    sets.iter().any(|set| is_soa(set))
}

/// Whether a set is an SOA.
fn is_soa(set: &RecordSet) -> bool
    ensures { result ≡ is_soa set.now }
{
    set.record_type() == RecordType::SOA
}
