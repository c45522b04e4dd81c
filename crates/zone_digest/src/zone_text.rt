//! The records of a zone in canonical form and order.
ghost use Rattle.std.specs.Prelude.{◌≡◌, ◌++◌, not, true, OnOk, IfErr, option_copied};
ghost use Rattle.std.specs.Option.{option_map_or};
ghost use Rattle.zone_proto.specs.Keys.{key_eq};
ghost use Rattle.zone_proto.specs.Names.{same_name};
ghost use Rattle.zone_planning.specs.Faults.{IsUnwritableUnless};
ghost use Rattle.zone_digest.specs.Faults.{AreDigestible, IsDigestibleZone};
ghost use Rattle.zone_digest.specs.ZoneText.{digested_sets, sets_text, zone_text};

use crate::owners::push_owner;
use zone_map::RecordMap;
use zone_planning::PlanFault;
use zone_proto::{LowerName, RecordSet, RecordType, RrKey};

/// The type of a zone's digest (RFC 8976 section 2).
pub const ZONEMD: RecordType = RecordType(63);

/// Appends the records of the zone of an origin, in canonical form and order, each once, without the ZONEMD records of the origin and
/// their signatures (RFC 8976 section 3.3.1).
///
/// # Errors
///
/// Refused by `Unwritable` for data that no octets are, and by `Memory`.
pub fn push_zone(
    out: &mut Vec<u8>,
    origin: &LowerName,
    records: &RecordMap,
) -> Result<(), PlanFault>
    ensures ok { OnOk result
        (out.new.items ≡ out.old.items ++ zone_text origin.now records.now) }
    ensures err { IfErr result
        (λ e. IsUnwritableUnless e (IsDigestibleZone origin.now records.now)) }
{
    let own = RrKey::new(origin.clone()?, ZONEMD);
    push_sets(out, &own, records)
}

/// Appends the records of all sets but the one under the key of the zone's own ZONEMD set. Refused by `Unwritable` for data that no
/// octets are, and by `Memory`.
fn push_sets(out: &mut Vec<u8>, own: &RrKey, records: &RecordMap) -> Result<(), PlanFault>
    ensures ok { OnOk result
        (out.new.items ≡ out.old.items ++ sets_text own.now records.now) }
    ensures err { IfErr result
        (λ e. IsUnwritableUnless e (AreDigestible (digested_sets own.now records.now))) }
{
    let mut sets = Vec::new(*out.allocator());
    let mut last = None;
    for (key, set) in records.iter() {
        if is_digested(own, key) {
            if !is_of_owner(last, set) {
                push_owner(out, sets.as_slice())?;
                sets.clear();
            }
            sets.push(set)?;
            last = Some(set);
        }
    }
    push_owner(out, sets.as_slice())
}

/// Whether the set under a key is digested: all are but the zone's own ZONEMD set.
fn is_digested(own: &RrKey, key: &RrKey) -> bool
    ensures { result ≡ not (key_eq own.now key.now) }
{
    !own.same_as(key)
}

/// Whether a set has the owner of the last one, if there was one.
fn is_of_owner(last: Option<&RecordSet>, set: &RecordSet) -> bool
    ensures { result
        ≡ option_map_or (λ l. same_name l.owner set.now.owner) (option_copied last.entry) true }
{
    match last {
        Some(last) => last.name() == set.name(),
        None => true,
    }
}
