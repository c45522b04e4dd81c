//! The NSEC3 sets that match and cover a hashed owner (RFC 5155 section 1.3).
ghost use Rattle.std.specs.Prelude.{◌≡◌, IfOk, IsOkUnless, option_and_then, option_copied};
ghost use Rattle.std.specs.Option.{option_or};
ghost use Rattle.zone_proto.specs.Types.{NSEC3};
ghost use Rattle.zone_map.specs.Zones.{set_at, IsZone};
ghost use Rattle.zone_denial.specs.Nsec3Denial.{cover_owner};

use zone_map::{Reads, RecordMap};
use zone_proto::{LowerName, ProtoError, RecordSet, RecordType, RrKey};

/// The set that matches: that of the owner itself. Its only error is `Memory`.
pub fn matching<'m>(
    denials: &'m RecordMap,
    owner: &LowerName,
) -> Result<Option<&'m RecordSet>, ProtoError>
    ensures ok { IfOk result (λ set. option_copied set ≡ set_at denials.now owner.now NSEC3) }
    ensures err { IsOkUnless result ProtoError.Memory }
{
    let key = RrKey::new(owner.clone()?, RecordType::NSEC3);
    Ok(denials.get(&key))
}

/// The set that covers: that of the greatest owner before this one, or of the greatest of all where none is before. Its only error is `Memory`.
pub fn covering<'m>(
    denials: &'m RecordMap,
    owner: &LowerName,
) -> Result<Option<&'m RecordSet>, ProtoError>
    ensures ok { IfOk result
        (λ set. option_copied set
        ≡ option_and_then (λ o. set_at denials.now o NSEC3) (cover_owner denials.now owner.now)) }
    ensures err { IsOkUnless result ProtoError.Memory }
{
    match cover_owner(denials, owner) {
        Some(before) => matching(denials, before),
        None => Ok(None),
    }
}

/// The set that matches, or else the one that covers. Its only error is `Memory`.
pub fn matching_or_covering<'m>(
    denials: &'m RecordMap,
    owner: &LowerName,
) -> Result<Option<&'m RecordSet>, ProtoError>
    ensures ok { IfOk result
        (λ set. option_copied set
        ≡ option_or (set_at denials.now owner.now NSEC3)
        (option_and_then (λ o. set_at denials.now o NSEC3)
        (cover_owner denials.now owner.now))) }
    ensures err { IsOkUnless result ProtoError.Memory }
{
    match matching(denials, owner)? {
        Some(set) => Ok(Some(set)),
        None => covering(denials, owner),
    }
}

/// The owner of the set that covers.
fn cover_owner<'m>(denials: &'m RecordMap, owner: &LowerName) -> Option<&'m LowerName>
    ensures found { option_copied result ≡ cover_owner denials.now owner.now }
    ensures zone { IsZone denials.now }
{
    let mut before = denials.denial_owners_before(RecordType::NSEC3, owner);
    match before.read_last(&mut Reads::new()) {
        Some(owner) => Some(owner),
        None => denials
            .last_denial_owners(RecordType::NSEC3)
            .read_last(&mut Reads::new()),
    }
}
