//! The files that the program reads: a key, and the zone that it wrote before.
ghost use Rattle.std.specs.Prelude.{◌≡◌, List, ℕ, Some, map, IfOk, IfSome};
ghost use Rattle.zone_proto.specs.Names.{lower};
ghost use Rattle.transferred_zones.specs.TransferredZones.{IsZoneOf};
ghost use Rattle.secondaryd.specs.Files.{given_in, AreRecordsOf, IsZoneOfFile};

use host_texts::{read_file, refuse, refuse_unread};
use key_files::{KeyEntry, KeyFileError, read_keys};
use message_tsig::{Key, KeyZones};
use std::alloc::{AllocError, Global};
use std::fs;
use std::io::{Read, Write};
use transferred_zones::zone_of;
use zone_file::{FaultText, InputError, PlacedRecord, read_zone};
use zone_map::RecordMap;
use zone_proto::{Name, Record};

/// The first key of a file. None if there is none; why is told.
pub fn read_key<E: Write>(rt: &HostRuntime, file: &str, fault: &mut E) -> Option<Key> {
    let alloc = rt.alloc();
    let mut text = Vec::new(alloc);
    read_file(rt, file, &mut text, fault)?;
    match read_keys(alloc, text.as_slice()) {
        Ok(entries) => match entries.into_iter().next() {
            Some(entry) => Some(key_of(entry)),
            None => refuse(fault, file, &"there is no key"),
        },
        Err(KeyFileError::Memory) => refuse(fault, file, &"out of memory"),
        Err(KeyFileError::Fault(found)) => {
            let _ = write!(fault, "{file}:{found}\n");
            None
        }
    }
}

/// The key of an entry.
fn key_of(entry: KeyEntry) -> Key {
    let KeyEntry {
        name,
        algorithm,
        secret,
    } = entry;
    Key {
        name,
        algorithm,
        secret,
        zones: KeyZones::All,
    }
}

/// The zone of a file. None if it can't be read, or its records make none; why is told.
pub fn read_zone_file<E: Write>(
    rt: &HostRuntime,
    file: &str,
    origin: Name,
    fault: &mut E,
) -> Option<RecordMap> {
    match fs::open(rt, file) {
        Ok(mut input) => zone_in(rt.alloc(), file, origin, &mut input, fault),
        Err(e) => refuse_unread(fault, file, e.kind()),
    }
}

/// The zone of a file that is read from an input. Where it is known what that has left, as of a slice, it is the file's text.
fn zone_in<R: Read, E: Write>(
    alloc: Global,
    file: &str,
    origin: Name,
    input: &mut R,
    fault: &mut E,
) -> Option<RecordMap>
    ensures { IfSome result (λ zone. (text : List ℕ) → R.remaining input.old ≡ Some text →
        IsZoneOfFile origin text zone) }
{
    let records = records_in(alloc, file, &origin, input, fault)?;
    match zone_of(alloc, origin, records) {
        Ok(zone) => Some(zone),
        Err(found) => refuse(fault, file, &found),
    }
}

/// The records of a file that is read from an input.
fn records_in<R: Read, E: Write>(
    alloc: Global,
    file: &str,
    origin: &Name,
    input: &mut R,
    fault: &mut E,
) -> Option<Vec<Record>>
    ensures { IfSome result (λ records. (text : List ℕ) → R.remaining input.old ≡ Some text →
        AreRecordsOf origin.now text records.items) }
{
    let Ok(first) = origin.clone() else {
        return refuse(fault, file, &"out of memory");
    };
    match read_zone(alloc, first, input) {
        Ok(placed) => match given_in(alloc, placed) {
            Ok(records) => Some(records),
            Err(_) => refuse(fault, file, &"out of memory"),
        },
        Err(InputError::Memory) => refuse(fault, file, &"out of memory"),
        Err(InputError::Input(kind)) => refuse_unread(fault, file, kind),
        Err(InputError::Fault(found)) => {
            let text = FaultText {
                file,
                fault: &found,
            };
            let _ = write!(fault, "{text}\n");
            None
        }
    }
}

/// Records without their places.
fn given_in(alloc: Global, placed: Vec<PlacedRecord>) -> Result<Vec<Record>, AllocError>
    ensures { IfOk result (λ records. records.items ≡ map given_in placed.items) }
{
    placed.into_iter().map(|one| one.given).collect(alloc)
}
