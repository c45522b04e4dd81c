//! Which steps can be read back.
ghost use Rattle.std.specs.Prelude.{◌≡◌};
ghost use Rattle.shown_zones.specs.Steps.{step_of};
ghost use Rattle.zone_journal.specs.Writing.{all_follow, follows, is_soa_set, is_writable};

use shown_zones::{ZoneStep, spelled};
use zone_proto::{RecordSet, RecordType};

/// Whether the sets of a step can be read back, one behind the other.
pub(crate) fn is_writable(step: &ZoneStep) -> bool
    ensures { result ≡ is_writable (step_of step.now) }
{
    is_soa_set(&step.old_soa)
        && is_soa_set(&step.new_soa)
        && all_follow(&step.old_soa, step.deleted.as_slice())
        && all_follow(&step.new_soa, step.added.as_slice())
}

/// Whether a set is an SOA.
fn is_soa_set(set: &RecordSet) -> bool
    ensures { result ≡ is_soa_set set.now }
{
    set.record_type() == RecordType::SOA && !set.is_empty()
}

/// Whether each of some sets can be read back behind the one before it.
fn all_follow(first: &RecordSet, sets: &[RecordSet]) -> bool
    ensures { result ≡ all_follow first.now sets.now }
{
    let mut before = first;
    for set in sets {
        if !follows(before, set) {
            return false;
        }
        before = set;
    }
    true
}

/// Whether a set can be read back behind another.
fn follows(before: &RecordSet, set: &RecordSet) -> bool
    ensures { result ≡ follows before.now set.now }
{
    !set.is_empty()
        && set.record_type() != RecordType::RRSIG
        && set.record_type() != RecordType::SOA
        && !(*spelled(set) == *spelled(before) && set.record_type() == before.record_type())
}
