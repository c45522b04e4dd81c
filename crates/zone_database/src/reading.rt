//! Zones made of the text of zone files.
ghost use Rattle.std.specs.Prelude.{◌≡◌, IfOk, IfErr, IsOkUnless, map};
ghost use Rattle.zone_proto.specs.Names.{lower};
ghost use Rattle.zone_map.specs.Zones.{IsZone};
ghost use Rattle.zone_builder.specs.Faults.{IsFault};
ghost use Rattle.zone_database.specs.Texts.{given_of, IsLoaded, IsRecordsFault, IsText, IsTextFault, IsZoneOf, IsZoneOfText};
ghost use Rattle.zone_database.specs.Zones.{zone_of_records};

use crate::zone::{Zone, zone_of};
use std::alloc::{AllocError, Global};
use zone_builder::{GivenRecord, LoadFault, LoadWarning, Loaded, load};
use zone_file::{PlacedRecord, ZoneError, ZoneFault, read_zone_text};
use zone_proto::Name;

/// Why no zone is made of a text.
#[derive(Debug, Drop)]
pub enum TextFault {
    /// No memory was found.
    Memory,
    /// The text isn't that of a zone file. This is its first fault.
    Text(ZoneFault),
    /// The records of the text make no zone.
    Zone(LoadFault),
}

/// A zone that a text makes.
#[derive(Drop)]
pub struct ReadZone {
    /// The zone.
    pub zone: Zone,
    /// What of the records isn't taken as it is.
    pub warnings: Vec<LoadWarning>,
}

/// Makes the zone of an origin from the text of a zone file (RFC 1035 section 5), whose relative names the origin completes.
///
/// # Errors
///
/// The first fault of the text; if it has none, what keeps its records from being a zone, as `load` says. `Memory` may come in
/// place of any of these.
#[tactic(auto, using(crate::proofs::TextFacts::made_so, crate::proofs::TextFacts::wrong_so))]
pub fn read_zone(alloc: Global, origin: Name, text: &[u8]) -> Result<ReadZone, TextFault>
    ensures zone { IfOk result (λ read. IsZoneOfText origin text.now read.zone) }
    ensures fault { IfErr result (IsTextFault origin text.now) }
{
    let records = text_records(alloc, &origin, text)?;
    read_records(alloc, origin, records)
}

/// Reads the records of a text.
fn text_records(alloc: Global, origin: &Name, text: &[u8]) -> Result<Vec<PlacedRecord>, TextFault>
    ensures read { IfOk result (λ records. IsText origin.now text.now records.items) }
    ensures fault { IfErr result (IsTextFault origin.now text.now) }
{
    let Ok(first) = origin.clone() else {
        return Err(TextFault::Memory);
    };
    match read_zone_text(alloc, first, text) {
        Ok(records) => Ok(records),
        Err(ZoneError::Memory) => Err(TextFault::Memory),
        Err(ZoneError::Fault(fault)) => Err(TextFault::Text(fault)),
    }
}

/// Makes the zone of these records.
#[tactic(auto, using(crate::proofs::TextFacts::served_so))]
fn read_records(
    alloc: Global,
    origin: Name,
    records: Vec<PlacedRecord>,
) -> Result<ReadZone, TextFault>
    ensures zone { IfOk result (λ read. IsZoneOf (lower origin) (map given_of records.items)
        read.zone) }
    ensures fault { IfErr result (IsRecordsFault (lower origin) (map given_of records.items)) }
{
    match load_records(alloc, origin, records) {
        Ok(loaded) => loaded_zone(alloc, loaded),
        Err(LoadFault::Memory) => Err(TextFault::Memory),
        Err(fault) => Err(TextFault::Zone(fault)),
    }
}

/// The zone that was loaded, as it is served.
fn loaded_zone(alloc: Global, loaded: Loaded) -> Result<ReadZone, TextFault>
    requires { IsZone loaded.records }
    ensures zone { IfOk result (λ read. read.zone
        ≡ zone_of_records loaded.origin loaded.records) }
    ensures err { IsOkUnless result TextFault.Memory }
{
    let Loaded {
        origin,
        records,
        warnings,
    } = loaded;
    match zone_of(alloc, origin, records) {
        Ok(zone) => Ok(ReadZone { zone, warnings }),
        Err(_) => Err(TextFault::Memory),
    }
}

/// Makes the zone of an origin of the records of a file, as `load` does.
pub fn load_records(
    alloc: Global,
    origin: Name,
    records: Vec<PlacedRecord>,
) -> Result<Loaded, LoadFault>
    ensures zone { IfOk result (IsLoaded (lower origin) (map given_of records.items)) }
    ensures fault { IfErr result (IsFault (lower origin) (map given_of records.items)) }
{
    let given = given_records(alloc, records)?;
    load(alloc, origin, given)
}

/// The records with their places.
fn given_records(alloc: Global, records: Vec<PlacedRecord>) -> Result<Vec<GivenRecord>, AllocError>
    ensures { IfOk result (λ given. given.items ≡ map given_of records.items) }
{
    let mut given = Vec::with_capacity(alloc, records.len())?;
    for placed in records {
        given.push(GivenRecord {
            record: placed.given,
            place: Some(placed.place),
        })?;
    }
    Ok(given)
}
