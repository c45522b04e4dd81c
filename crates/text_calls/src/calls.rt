//! Writes a zone as a zone file: what a program that isn't written in Rattle asks of the zones that it keeps, a call of `ningkraet`.
ghost use Rattle.std.specs.Prelude.{◌≡◌, IfOk, string_bytes};
ghost use Rattle.std.specs.List.{find};
ghost use Rattle.call_handles.specs.Rooms.{IsUntouched};
ghost use Rattle.zone_database.specs.Calls.{AsksHeld};
ghost use Rattle.zone_database.specs.Databases.{begins_at, zones_in};
ghost use Rattle.text_calls.specs.Texts.{zone_text, WritesAt, WritesNamed};

use call_handles::Handle;
use std::alloc::{AllocError, Global};
use zone_database::{DatabaseHandle, Outcome, Zone, ZoneDatabase, give, origin_of};
use zone_printing::MasterZoneText;
use zone_proto::{LowerName, RecordType, RrKey};

/// Writes the zone of an origin as a zone file into the room (RFC 1035 section 5), the SOA first, as [`MasterZoneText`] has it, and its length
/// into `written`. Nothing of a zone that has expired.
///
/// `NoRoom` where it is longer than the room, which stays as it was: the length is the one that is needed. `NoZone`, `BadName`, `NoMemory` and
/// `Closed` as elsewhere: nothing is written. The zones stay as they are.
#[tactic(auto, using(zone_database::proofs::CallFacts::asked))]
pub fn write_zone(
    alloc: Global,
    zones: &mut DatabaseHandle,
    origin: &[u8],
    buffer: &mut [u8],
    written: &mut usize,
) -> Outcome
    ensures text { AsksHeld
        (λ zs o. WritesNamed origin.now zs o written.new buffer.old buffer.new)
        (IsUntouched written.new buffer.old buffer.new) zones.old.held result }
    ensures same { zones.new.held ≡ zones.old.held }
{
    *written = 0;
    match zones.take(alloc) {
        Some(database) => {
            let outcome = write_named(alloc, &database, origin, buffer, written);
            zones.put(database);
            outcome
        }
        None => Outcome::Closed,
    }
}

/// The same in the zones of a database.
#[tactic(auto, using(crate::proofs::TextFacts::unread, crate::proofs::TextFacts::read_on))]
fn write_named(
    alloc: Global,
    database: &ZoneDatabase,
    origin: &[u8],
    buffer: &mut [u8],
    written: &mut usize,
) -> Outcome
    requires { written.old ≡ 0 }
    ensures { WritesNamed origin.now (zones_in database.now) result written.new buffer.old
        buffer.new }
{
    match origin_of(alloc, origin) {
        Ok(name) => {
            let origin = LowerName::from(name);
            write_at(alloc, database, &origin, buffer, written)
        }
        Err(outcome) => outcome,
    }
}

/// The same of the zone of an origin.
#[tactic(auto, using(crate::proofs::TextFacts::no_zone, crate::proofs::TextFacts::no_text, crate::proofs::TextFacts::text_given))]
fn write_at(
    alloc: Global,
    database: &ZoneDatabase,
    origin: &LowerName,
    buffer: &mut [u8],
    written: &mut usize,
) -> Outcome
    requires { written.old ≡ 0 }
    ensures { WritesAt (find (begins_at origin.now) (zones_in database.now)) result written.new
        buffer.old buffer.new }
{
    let Some(zone) = database.get(origin) else {
        return Outcome::NoZone;
    };
    let Ok(text) = zone_text(alloc, zone) else {
        return Outcome::NoMemory;
    };
    let (outcome, length) = give(text.as_bytes(), buffer);
    *written = length;
    outcome
}

/// The text of a zone. Fails only for lack of memory.
fn zone_text(alloc: Global, zone: &Zone) -> Result<String, AllocError>
    ensures { IfOk result (λ text. string_bytes text ≡ zone_text zone.now) }
{
    let Ok(origin) = zone.origin.clone() else {
        return Err(AllocError);
    };
    let apex = RrKey::new(origin, RecordType::SOA);
    format!(in alloc; "{}", MasterZoneText(alloc, &apex, zone.inner.record_map()))
}
