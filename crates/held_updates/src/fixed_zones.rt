//! Zones that no update changes here: those that are signed, and those that have expired.
ghost use Rattle.std.specs.Prelude.{◌≡◌, IfOk};
ghost use Rattle.zone_map.specs.Zones.{owns};
ghost use Rattle.held_updates.specs.Planning.{has_expired, is_signed};

use std::alloc::AllocError;
use zone_database::Zone;
use zone_proto::{RecordType, RrKey};

/// Whether a zone has expired (RFC 1034 section 4.3.5): it has no SOA at its origin, and answers with SERVFAIL. Fails only for lack of memory.
pub fn has_expired(zone: &Zone) -> Result<bool, AllocError>
    ensures { IfOk result (λ is. is ≡ has_expired zone.now) }
{
    Ok(!has_at_origin(zone, RecordType::SOA)?)
}

/// Whether a zone is signed: it denies by NSEC or NSEC3, or has keys at its origin (RFC 4035 section 2). Fails only for lack of memory.
pub fn is_signed(zone: &Zone) -> Result<bool, AllocError>
    ensures { IfOk result (λ is. is ≡ is_signed zone.now) }
{
    if zone.nx_proof_kind.is_some() {
        return Ok(true);
    }
    has_at_origin(zone, RecordType::DNSKEY)
}

/// Whether the origin of a zone has a set of a type.
fn has_at_origin(zone: &Zone, record_type: RecordType) -> Result<bool, AllocError>
    ensures { IfOk result
        (λ has. has ≡ owns zone.now.inner.records zone.now.origin record_type.0) }
{
    let Ok(origin) = zone.origin.clone() else {
        return Err(AllocError);
    };
    let key = RrKey::new(origin, record_type);
    Ok(zone.inner.get(&key).is_some())
}
