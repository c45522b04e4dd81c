//! The zone that records make.
ghost use Rattle.std.specs.Prelude.{◌≡◌, map, IfErr, IfOk};
ghost use Rattle.std.specs.List.{find};
ghost use Rattle.zone_proto.specs.Names.{lower};
ghost use Rattle.transferred_zones.specs.TransferredZones.{given, given_of, is_left_out, IsZoneFault, IsZoneOf};

use crate::fault::TakeFault;
use std::alloc::{AllocError, Global};
use zone_builder::{GivenRecord, LoadFault, LoadWarning, load};
use zone_map::RecordMap;
use zone_proto::{Name, Record};

/// Makes the zone of an origin from the records that a transfer gave. It has each of them, and no others.
///
/// For each owner and each type there is a set of its records, in order and equal ones once: a duplicate is passed over (RFC 5936 section 2.2).
/// With them are the signatures that cover the set. All get the least TTL of the records (RFC 2181 section 5.2, RFC 4034 section 3).
///
/// # Errors
///
/// `NoZone` with the fault of [`load`], if the records make no zone. `LeftOut` for the first record outside the zone, or else the first
/// signature, by owner in canonical order and by type, that covers no set. `Memory` may come in place of either.
pub fn zone_of(alloc: Global, origin: Name, records: Vec<Record>) -> Result<RecordMap, TakeFault>
    ensures ok { IfOk result (IsZoneOf (lower origin) records.items) }
    ensures err { IfErr result (IsZoneFault (lower origin) records.items) }
{
    let given = given(alloc, records)?;
    let loaded = match load(alloc, origin, given) {
        Ok(loaded) => loaded,
        Err(LoadFault::Memory) => return Err(TakeFault::Memory),
        Err(fault) => return Err(TakeFault::NoZone(fault)),
    };
    match first_left_out(loaded.warnings) {
        Some(warning) => Err(TakeFault::LeftOut(warning)),
        None => Ok(loaded.records),
    }
}

/// Records as they are given to make a zone of.
fn given(alloc: Global, records: Vec<Record>) -> Result<Vec<GivenRecord>, AllocError>
    ensures { IfOk result (λ list. list.items ≡ given records.items) }
{
    records.into_iter().map(given_of).collect(alloc)
}

/// A record as it is given to make a zone of. A transfer says no place of it.
fn given_of(record: Record) -> GivenRecord
    ensures { result ≡ given_of «record» }
{
    GivenRecord {
        record,
        place: None,
    }
}

/// The first warning of a record that is left out.
fn first_left_out(warnings: Vec<LoadWarning>) -> Option<LoadWarning>
    ensures { result ≡ find is_left_out warnings.items }
{
    warnings.into_iter().find(|warning| is_left_out(warning))
}

/// Whether a warning is of a record that is left out.
fn is_left_out(warning: &LoadWarning) -> bool
    ensures { result ≡ is_left_out warning.now }
{
    match warning {
        LoadWarning::Outside(_) | LoadWarning::SignsNothing(_) => true,
        LoadWarning::Repeated(_) | LoadWarning::TtlsDiffer(_, _) => false,
    }
}
