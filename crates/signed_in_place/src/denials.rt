//! The TTL of a zone's denials, and its serial.
ghost use Rattle.std.specs.Prelude.{◌≡◌, IfOk, IsOkUnless};
ghost use Rattle.zone_lookup.specs.StartOfAuthority.{serial};
ghost use Rattle.zone_planner.specs.Plans.{denial_ttl};

use zone_lookup::start_of_authority::first_soa;
use zone_map::RecordMap;
use zone_proto::{LowerName, ProtoError, RecordType, RrKey};

/// The TTL of the denials of the zone of an origin, in seconds, and its serial; both are 0 without an SOA. Refused by `Memory` alone.
pub fn ttl_and_serial(zone: &RecordMap, origin: &LowerName) -> Result<(u32, u32), ProtoError>
    ensures ok { IfOk result
        (λ found. found ≡ (denial_ttl zone.now origin.now, serial zone.now origin.now)) }
    ensures err { IsOkUnless result ProtoError.Memory }
{
    let apex = RrKey::new(origin.clone()?, RecordType::SOA);
    let Some(set) = zone.get(&apex) else {
        return Ok((0, 0));
    };
    match first_soa(set) {
        Some(soa) => Ok((soa.minimum.min(set.ttl()), soa.serial)),
        None => Ok((0, 0)),
    }
}
