//! The serials of zones (RFC 1035 section 3.3.13).
ghost use Rattle.std.specs.Prelude.{◌≡◌, IfOk, IsOkUnless, option_and_then, option_copied};
ghost use Rattle.std.specs.Option.{option_map_or};
ghost use Rattle.zone_lookup.specs.StartOfAuthority.{first_soa, serial};
ghost use Rattle.zone_database.specs.Databases.{zones_in};
ghost use Rattle.zone_database.specs.Calls.{IsSerial, IsSerialAt};

use crate::database::ZoneDatabase;
use crate::loads::origin_of;
use crate::outcome::Outcome;
use crate::zone::Zone;
use std::alloc::Global;
use zone_lookup::start_of_authority::first_soa;
use zone_proto::{LowerName, ProtoError, RecordSet, RecordType, RrKey};

/// Writes the serial of the zone of an origin.
#[tactic(auto, using(crate::proofs::CallFacts::unread, crate::proofs::CallFacts::read_on))]
pub(crate) fn serial_of(
    alloc: Global,
    database: &ZoneDatabase,
    origin: &[u8],
    serial: &mut u32,
) -> Outcome
    ensures { IsSerial origin.now serial.old serial.new (zones_in database.now) result }
{
    match origin_of(alloc, origin) {
        Ok(name) => serial_at(database, &LowerName::from(name), serial),
        Err(outcome) => outcome,
    }
}

/// Writes the serial of the zone of an origin.
fn serial_at(database: &ZoneDatabase, origin: &LowerName, serial: &mut u32) -> Outcome
    ensures { IsSerialAt origin.now serial.old serial.new (zones_in database.now) result }
{
    let Some(zone) = database.get(origin) else {
        return Outcome::NoZone;
    };
    match zone_serial(zone) {
        Ok(number) => {
            *serial = number;
            Outcome::Done
        }
        Err(_) => Outcome::NoMemory,
    }
}

/// The serial of a zone: that of the SOA at its origin, 0 without one.
fn zone_serial(zone: &Zone) -> Result<u32, ProtoError>
    ensures serial { IfOk result (λ number. number
        ≡ serial zone.now.inner.records zone.now.origin) }
    ensures err { IsOkUnless result ProtoError.Memory }
{
    let key = RrKey::new(zone.origin.clone()?, RecordType::SOA);
    Ok(serial_in(zone.inner.get(&key)))
}

/// The serial of the SOA that a set begins with; 0 without one.
fn serial_in(set: Option<&RecordSet>) -> u32
    ensures { result ≡ option_map_or (λ a. a.serial)
        (option_and_then (λ s. first_soa s.records) (option_copied set.entry)) 0 }
{
    let Some(set) = set else {
        return 0;
    };
    match first_soa(set) {
        Some(soa) => soa.serial,
        None => 0,
    }
}
