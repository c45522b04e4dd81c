//! The serial of a zone.
ghost use Rattle.std.specs.Prelude.{◌≡◌, IfOk, IsOkUnless};
ghost use Rattle.zone_lookup.specs.StartOfAuthority.{serial};

use zone_lookup::start_of_authority::first_soa;
use zone_map::RecordMap;
use zone_proto::{LowerName, ProtoError, RecordType, RrKey};

/// The serial of the zone of an origin, 0 without an SOA. Refused by `Memory` alone.
pub(crate) fn serial_of(zone: &RecordMap, origin: &LowerName) -> Result<u32, ProtoError>
    ensures ok { IfOk result (λ found. found ≡ serial zone.now origin.now) }
    ensures err { IsOkUnless result ProtoError.Memory }
{
    let apex = RrKey::new(origin.clone()?, RecordType::SOA);
    Ok(match zone.get(&apex).and_then(first_soa) {
        Some(soa) => soa.serial,
        None => 0,
    })
}
