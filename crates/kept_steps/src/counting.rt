//! How many records steps have.
ghost use Rattle.std.specs.Prelude.{◌≡◌, ◌≤◌, drop, length};
ghost use Rattle.std.specs.List.{flat_map};
ghost use Rattle.shown_zones.specs.Sending.{sent};
ghost use Rattle.kept_steps.specs.Kept.{newest_within, records_of, size_of, IsLeft};

use shown_zones::ZoneStep;
use zone_proto::RecordSet;

/// What is left of room for records behind those of a step; none where the step has more.
#[tactic(auto, using(crate::proofs::Rooms::step_count))]
pub(crate) fn room_behind(step: &ZoneStep, room: usize) -> Option<usize>
    ensures { IsLeft (length (records_of step.now)) room result }
{
    let left = behind_set(&step.old_soa, room)?;
    let left = behind_sets(step.deleted.as_slice(), left)?;
    let left = behind_set(&step.new_soa, left)?;
    let left = behind_sets(step.added.as_slice(), left)?;
    Some(left)
}

/// The same behind the records of sets.
fn behind_sets(sets: &[RecordSet], room: usize) -> Option<usize>
    ensures { IsLeft (length (flat_map sent sets.now)) room result }
{
    let mut left = room;
    for set in sets {
        match behind_set(set, left) {
            Some(rest) => left = rest,
            None => return None,
        }
    }
    Some(left)
}

/// The same behind the records of a set and its signatures.
fn behind_set(set: &RecordSet, room: usize) -> Option<usize>
    ensures { IsLeft (length (sent set.now)) room result }
{
    let records = set.as_slice().len();
    if room < records {
        return None;
    }
    let left = room - records;
    let signatures = set.rrsigs().len();
    if left < signatures {
        return None;
    }
    Some(left - signatures)
}

/// How many of the first of some steps, which have so many records, have to go until the others have so many at most; and how many these have.
#[tactic(auto, unfolding(crate::specs::Kept::newest_within))]
fn too_many(steps: &[ZoneStep], records: usize, most: usize) -> (usize, usize)
    requires { records ≡ size_of steps.now }
    ensures kept { drop result.0 steps.now ≡ newest_within most steps.now }
    ensures some { result.0 ≤ length steps.now }
    ensures counted { result.1 ≡ size_of (newest_within most steps.now) }
    ensures within { result.1 ≤ most }
{
    let mut left = records;
    for (place, step) in steps.iter().enumerate() {
        if left <= most {
            return (place, left);
        }
        match room_behind(step, left) {
            Some(rest) => left = rest,
            // It has no more than all.
            None => unreachable!(),
        }
    }
    (steps.len(), left)
}

/// Drops the first of some steps, which have so many records, until the others have so many at most; and gives how many they have. Each of the others
/// is moved once, however many go.
#[tactic(auto, using(crate::proofs::Newest::left_of_turned))]
pub(crate) fn drop_oldest(steps: &mut Vec<ZoneStep>, records: usize, most: usize) -> usize
    requires { records ≡ size_of steps.old.items }
    ensures kept { steps.new.items ≡ newest_within most steps.old.items }
    ensures counted { result ≡ size_of steps.new.items }
    ensures within { result ≤ most }
{
    let (count, left) = too_many(steps.as_slice(), records, most);
    steps.rotate_left(count);
    steps.truncate(steps.len() - count);
    left
}
