//! The records of one owner in canonical form and order.
ghost use Rattle.std.specs.Prelude.{◌≡◌, ◌++◌, flat_map, filter, map, nat_le, nat_lt, OnOk, IfErr};
ghost use Rattle.zone_proto.specs.Types.{RRSIG as rrsig_type};
ghost use Rattle.zone_planning.specs.Faults.{IsUnwritableUnless};
ghost use Rattle.zone_digest.specs.Faults.{AreDigestible};
ghost use Rattle.zone_digest.specs.ZoneText.{own_text, owner_text, signatures_text};

use crate::signatures::push_signatures;
use zone_planning::{PlanFault, push_set};
use zone_proto::{RecordSet, RecordType};

/// Appends the records of an owner's sets, which are in the order of their types, and their signatures. Refused by `Unwritable` for data
/// that no octets are, and by `Memory`.
pub(crate) fn push_owner(out: &mut Vec<u8>, sets: &[&RecordSet]) -> Result<(), PlanFault>
    ensures ok { OnOk result
        (out.new.items ≡ out.old.items ++ owner_text (map (λ s. s.now) sets.now)) }
    ensures err { IfErr result
        (λ e. IsUnwritableUnless e (AreDigestible (map (λ s. s.now) sets.now))) }
{
    push_up_to_signatures(out, sets)?;
    push_all_signatures(out, sets)?;
    push_past_signatures(out, sets)
}

/// Appends the records of the sets up to the type RRSIG.
fn push_up_to_signatures(out: &mut Vec<u8>, sets: &[&RecordSet]) -> Result<(), PlanFault>
    ensures ok { OnOk result
        (out.new.items
        ≡ out.old.items
        ++ flat_map own_text
        (filter (λ s. nat_le s.record_type rrsig_type) (map (λ s. s.now) sets.now))) }
    ensures err { IfErr result
        (λ e. IsUnwritableUnless e (AreDigestible (map (λ s. s.now) sets.now))) }
{
    for set in sets {
        if set.record_type().0 <= RecordType::RRSIG.0 {
            push_set(out, set.ttl(), set)?;
        }
    }
    Ok(())
}

/// Appends the signatures of the sets.
fn push_all_signatures(out: &mut Vec<u8>, sets: &[&RecordSet]) -> Result<(), PlanFault>
    ensures ok { OnOk result
        (out.new.items
        ≡ out.old.items ++ flat_map signatures_text (map (λ s. s.now) sets.now)) }
    ensures err { IfErr result
        (λ e. IsUnwritableUnless e (AreDigestible (map (λ s. s.now) sets.now))) }
{
    for set in sets {
        push_signatures(out, set)?;
    }
    Ok(())
}

/// Appends the records of the sets of types past RRSIG.
fn push_past_signatures(out: &mut Vec<u8>, sets: &[&RecordSet]) -> Result<(), PlanFault>
    ensures ok { OnOk result
        (out.new.items
        ≡ out.old.items
        ++ flat_map own_text
        (filter (λ s. nat_lt rrsig_type s.record_type) (map (λ s. s.now) sets.now))) }
    ensures err { IfErr result
        (λ e. IsUnwritableUnless e (AreDigestible (map (λ s. s.now) sets.now))) }
{
    for set in sets {
        if set.record_type().0 > RecordType::RRSIG.0 {
            push_set(out, set.ttl(), set)?;
        }
    }
    Ok(())
}
