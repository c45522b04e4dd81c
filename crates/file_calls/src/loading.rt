//! The zone of a file and of those that it includes, put among those of a database.
ghost use Rattle.std.specs.Prelude.{◌≡◌, ◌⊎◌, map};
ghost use Rattle.zone_proto.specs.Names.{lower};
ghost use Rattle.zone_map.specs.Zones.{IsZone};
ghost use Rattle.zone_database.specs.Databases.{zones_in};
ghost use Rattle.zone_database.specs.Texts.{given_of};
ghost use Rattle.zone_database.specs.Zones.{zone_of_records};
ghost use Rattle.included_texts.specs.Kept.{files_of, IsSame, kept_of};
ghost use Rattle.included_texts.specs.Kept as kept;
ghost use Rattle.file_calls.specs.Calls.{kept_in, wanted_in};
ghost use Rattle.file_calls.specs.Loading.{IsLoaded, IsReported, IsWanting, LoadsHeld, PutsFiles, PutsRecords, PutsZone};

use crate::calls::held;
use crate::handle::FilesHandle;
use crate::outcome::FileOutcome;
use crate::reading::read_kept;
use crate::reporting::{tell, tell_fault, tell_faults, tell_warnings};
use call_handles::Handle;
use included_texts::KeptTexts;
use std::alloc::Global;
use std::str;
use zone_builder::{LoadFault, Loaded};
use zone_database::{DatabaseHandle, Outcome, ZoneDatabase, load_records, origin_of, zone_of};
use zone_file::PlacedRecord;
use zone_proto::Name;
use zone_texts::{Reading, Sources};

/// Puts the zone of an origin that a file makes, with those that it includes (RFC 1035 section 5.1), in place of the one of this origin, or
/// among the others, and writes what is reported about the files into the room. `WantsFiles` says that files are included of which nothing is
/// kept. Refused by `BadName` where the origin isn't a name, by `BadText` where the files make no zone, by `BadFileName` where the name of the
/// file isn't UTF-8, by `Closed` without zones, and by `NoMemory`; then the zones are as they were.
pub fn load(
    alloc: Global,
    zones: &mut DatabaseHandle,
    files: &mut FilesHandle,
    origin: &[u8],
    file: &[u8],
    text: &[u8],
    buffer: &mut [u8],
    written: &mut usize,
) -> FileOutcome
    ensures zones { LoadsHeld (files_of file.now text.now (kept_in files.old.held)) origin.now
        file.now zones.old.held result zones.new.held }
    ensures kept { IsSame (kept_in files.old.held) (kept_in files.new.held) }
    ensures wanted { IsWanting result (wanted_in files.new.held) }
    ensures told { IsReported result written.new buffer.old buffer.new }
{
    let mut told = String::new(alloc);
    let outcome = load_held(alloc, zones, files, origin, file, text, &mut told);
    *written = tell(outcome, told.as_bytes(), buffer);
    outcome
}

/// The same, with what is told as a text.
#[tactic(auto, using(crate::proofs::Loads::beside_held, crate::proofs::Loads::unloaded, crate::proofs::Loads::same_beside, crate::proofs::Loads::wanting_beside, crate::proofs::Texts::held_same))]
fn load_held(
    alloc: Global,
    zones: &mut DatabaseHandle,
    files: &mut FilesHandle,
    origin: &[u8],
    file: &[u8],
    text: &[u8],
    told: &mut String,
) -> FileOutcome
    ensures zones { LoadsHeld (files_of file.now text.now (kept_in files.old.held)) origin.now
        file.now zones.old.held result zones.new.held }
    ensures kept { IsSame (kept_in files.old.held) (kept_in files.new.held) }
    ensures wanted { IsWanting result (wanted_in files.new.held) }
{
    let Some(mut texts) = held(alloc, files) else {
        return FileOutcome::NoMemory;
    };
    let outcome = load_beside(alloc, zones, &mut texts, origin, file, text, told);
    files.put(texts);
    outcome
}

/// The same beside texts.
#[tactic(auto, using(crate::proofs::Loads::loaded_held, crate::proofs::Loads::closed))]
fn load_beside(
    alloc: Global,
    zones: &mut DatabaseHandle,
    texts: &mut KeptTexts,
    origin: &[u8],
    file: &[u8],
    text: &[u8],
    told: &mut String,
) -> FileOutcome
    ensures zones { LoadsHeld (files_of file.now text.now (kept_of texts.old)) origin.now
        file.now zones.old.held result zones.new.held }
    ensures kept { IsSame (kept_of texts.old) (kept_of texts.new) }
    ensures wanted { IsWanting result (kept.wanted_in texts.new) }
{
    match zones.take(alloc) {
        Some(mut database) => {
            let outcome = load_zone(alloc, &mut database, texts, origin, file, text, told);
            zones.put(database);
            outcome
        }
        None => FileOutcome::Closed,
    }
}

/// Puts the zone among those of a database.
#[tactic(auto, using(crate::proofs::Loads::named, crate::proofs::Loads::bad_name))]
fn load_zone(
    alloc: Global,
    database: &mut ZoneDatabase,
    texts: &mut KeptTexts,
    origin: &[u8],
    file: &[u8],
    text: &[u8],
    told: &mut String,
) -> FileOutcome
    ensures zones { IsLoaded (files_of file.now text.now (kept_of texts.old)) origin.now file.now
        (zones_in database.old) result (zones_in database.new) }
    ensures kept { IsSame (kept_of texts.old) (kept_of texts.new) }
    ensures wanted { IsWanting result (kept.wanted_in texts.new) }
{
    let Ok(file) = str::from_utf8(file) else {
        return FileOutcome::BadFileName;
    };
    match origin_of(alloc, origin) {
        Ok(origin) => put_file(alloc, database, texts, origin, file, text, told),
        Err(Outcome::BadName) => FileOutcome::BadName,
        Err(_) => FileOutcome::NoMemory,
    }
}

/// Puts the zone of this origin among those of a database.
#[tactic(auto, using(crate::proofs::Loads::files_put, crate::proofs::Loads::files_bad, crate::proofs::Loads::none_wanted, crate::proofs::Loads::bad_wanted, crate::proofs::Loads::no_names, crate::proofs::Loads::some_names))]
fn put_file(
    alloc: Global,
    database: &mut ZoneDatabase,
    texts: &mut KeptTexts,
    origin: Name,
    file: &str,
    text: &[u8],
    told: &mut String,
) -> FileOutcome
    ensures zones { PutsFiles (files_of file.now text.now (kept_of texts.old)) origin file.now
        (zones_in database.old) result (zones_in database.new) }
    ensures kept { IsSame (kept_of texts.old) (kept_of texts.new) }
    ensures wanted { IsWanting result (kept.wanted_in texts.new) }
{
    let Ok(again) = origin.clone() else {
        return FileOutcome::NoMemory;
    };
    let Some(reading) = read_kept(alloc, texts, again, file, text) else {
        return FileOutcome::NoMemory;
    };
    if texts.wants() {
        return FileOutcome::WantsFiles;
    }
    if !reading.is_faultless() {
        return bad_text(tell_faults(&reading, told).is_ok());
    }
    let Reading {
        records,
        sources,
        ..
    } = reading;
    put_records(alloc, database, origin, records, &sources, told)
}

/// What a call ends with where the files make no zone, and whether that could be told.
fn bad_text(is_told: bool) -> FileOutcome
    ensures { (result ≡ FileOutcome.BadText) ⊎ (result ≡ FileOutcome.NoMemory) }
{
    if is_told {
        FileOutcome::BadText
    } else {
        FileOutcome::NoMemory
    }
}

/// Puts the zone of these records among those of a database.
#[tactic(auto, using(crate::proofs::Loads::records_put, crate::proofs::Loads::records_bad))]
fn put_records(
    alloc: Global,
    database: &mut ZoneDatabase,
    origin: Name,
    records: Vec<PlacedRecord>,
    sources: &Sources,
    told: &mut String,
) -> FileOutcome
    ensures { PutsRecords (lower origin) (map given_of records.items) (zones_in database.old) result
        (zones_in database.new) }
{
    match load_records(alloc, origin, records) {
        Ok(loaded) => put_loaded(alloc, database, loaded, sources, told),
        Err(LoadFault::Memory) => FileOutcome::NoMemory,
        Err(fault) => bad_text(tell_fault(sources, &fault, told).is_ok()),
    }
}

/// Puts a zone that was loaded among those of a database.
#[tactic(auto, using(crate::proofs::Loads::zone_put))]
fn put_loaded(
    alloc: Global,
    database: &mut ZoneDatabase,
    loaded: Loaded,
    sources: &Sources,
    told: &mut String,
) -> FileOutcome
    requires { IsZone loaded.records }
    ensures { PutsZone (zone_of_records loaded.origin loaded.records) (zones_in database.old) result
        (zones_in database.new) }
{
    if tell_warnings(sources, loaded.warnings.as_slice(), told).is_err() {
        return FileOutcome::NoMemory;
    }
    let Loaded {
        origin,
        records,
        ..
    } = loaded;
    let Ok(zone) = zone_of(alloc, origin, records) else {
        return FileOutcome::NoMemory;
    };
    match database.put(alloc, zone) {
        Ok(()) => FileOutcome::Done,
        Err(_) => FileOutcome::NoMemory,
    }
}
