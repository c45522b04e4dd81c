//! The zones of files, with what is reported about each.
ghost use Rattle.std.specs.Prelude.{◌≡◌, List, ℕ, [], Some, map, IfOk, IfSome, unwrap_or};
ghost use Rattle.zone_proto.specs.Names.{lower};
ghost use Rattle.zone_map.specs.Zones.{IsZone};
ghost use Rattle.file_origins.specs.Origins.{origin_of};
ghost use Rattle.zone_database.specs.Texts.{given_of, IsLoaded};
ghost use Rattle.zone_database.specs.Zones.{zone_of_records};
ghost use Rattle.zone_texts.specs.Inclusions.{Files, records_of};
ghost use Rattle.zone_texts.specs.Readings.{IsReadOf};
ghost use Rattle.zoned.specs.Files.{IsZoneOfFileAlone, IsZoneOfFiles};
ghost use Rattle.zoned.specs.Zones.{policy_of};

use crate::wanted::WantedZone;
use file_origins::{first_origin, zone_origin};
use host_texts::{HostTexts, read_faultless, refuse_at, refuse_unread, tell, tell_at};
use std::alloc::{AllocError, Global};
use std::collections::BTreeMap;
use std::fs;
use std::io::{Read, Write};
use zone_builder::{LoadFault, Loaded};
use zone_database::{Zone, load_records, zone_of};
use zone_file::PlacedRecord;
use zone_proto::{LowerName, ProtoError, RecordType, RrKey};
use zone_server::TransferPolicy;
use zone_texts::{Reading, Sources, Texts};

/// Loads the zones that are wanted. None if one can't be loaded, or two have one origin; why is told.
pub fn load_zones<E: Write>(
    rt: &HostRuntime,
    alloc: Global,
    wanted: &[WantedZone<'_>],
    fault: &mut E,
) -> Option<Vec<Zone>> {
    let mut zones = Vec::new(alloc);
    let mut files = BTreeMap::new(alloc);
    for file in wanted {
        let zone = load_file(rt, alloc, file, fault)?;
        if let Some(other) = files.get(&zone.origin) {
            let _ = write!(
                fault,
                "{}: {} is the origin of {other} too\n",
                file.file, zone.origin
            );
            return None;
        }
        if put(&mut zones, &mut files, zone, file.file).is_err() {
            tell(fault, b"out of memory\n");
            return None;
        }
    }
    Some(zones)
}

/// Appends a zone to others, and its file under its origin.
fn put<'w>(
    zones: &mut Vec<Zone>,
    files: &mut BTreeMap<LowerName, &'w str>,
    zone: Zone,
    file: &'w str,
) -> Result<(), ProtoError> {
    files.insert(zone.origin.clone()?, file)?;
    zones.push(zone)?;
    Ok(())
}

/// Loads the zone of a file.
fn load_file<E: Write>(
    rt: &HostRuntime,
    alloc: Global,
    wanted: &WantedZone<'_>,
    fault: &mut E,
) -> Option<Zone> {
    match fs::open(rt, wanted.file) {
        Ok(mut input) => {
            let mut texts = HostTexts { rt };
            load_zone(alloc, wanted, &mut input, &mut texts, fault)
        }
        Err(e) => refuse_unread(fault, wanted.file, e.kind()),
    }
}

/// Loads the zone of a file that is read from an input, and of those that it includes. Where it is known what the input has left, as of a
/// slice, that is the file's text.
#[tactic(auto, using(crate::proofs::ServedFiles::made_alone, crate::proofs::ServedFiles::made_whole))]
fn load_zone<R: Read, T: Texts, E: Write>(
    alloc: Global,
    wanted: &WantedZone<'_>,
    input: &mut R,
    texts: &mut T,
    fault: &mut E,
) -> Option<Zone>
    ensures alone { IfSome result (λ zone. (text : List ℕ) → R.remaining input.old ≡ Some text →
        IsZoneOfFileAlone wanted.now.origin text zone) }
    // Where files are known, with that text, so it is with those that it includes.
    ensures included { IfSome result (λ zone. (text : List ℕ) → R.remaining input.old ≡ Some text →
        (files : Files) → T.known texts.old ≡ Some files →
        files.text wanted.now.file.now ≡ text →
        IsZoneOfFiles wanted.now.origin files wanted.now.file.now zone) }
{
    let Reading {
        records,
        sources,
        ..
    } = read_records(alloc, wanted, input, texts, fault)?;
    let loaded = loaded_of(alloc, wanted, &sources, records, fault)?;
    match told_zone(alloc, loaded, &sources, fault) {
        Ok(zone) => Some(zone),
        Err(_) => {
            tell(fault, b"out of memory\n");
            None
        }
    }
}

/// The zone that was loaded, as it is served, with what is reported about its file.
fn told_zone<E: Write>(
    alloc: Global,
    loaded: Loaded,
    sources: &Sources,
    fault: &mut E,
) -> Result<Zone, ProtoError>
    requires { IsZone loaded.records }
    ensures { IfOk result (λ zone. zone ≡ zone_of_records loaded.origin loaded.records) }
{
    warn(&loaded, sources, fault)?;
    let Loaded {
        origin,
        records,
        ..
    } = loaded;
    zone_of(alloc, origin, records)
}

/// Tells what of a file isn't taken as it is: records that are left out, and all NSEC3PARAM records but one. Each
/// stands for a whole chain, of which a server may take any (RFC 5155 section 7.3); it takes the first that is there.
fn warn<E: Write>(loaded: &Loaded, sources: &Sources, fault: &mut E) -> Result<(), ProtoError> {
    for warning in loaded.warnings.iter() {
        tell_at(fault, sources, warning.place(), warning);
    }
    let key = RrKey::new(loaded.origin.clone()?, RecordType::NSEC3PARAM);
    if loaded
        .records
        .get(&key)
        .is_some_and(|set| set.as_slice().len() > 1)
    {
        let _ = write!(
            fault,
            "{}: several NSEC3PARAM stand at the origin, and the first that has a chain is taken\n",
            sources.name(0)
        );
    }
    Ok(())
}

/// Reads the records of a file and of those that it includes. Faults are told.
fn read_records<R: Read, T: Texts, E: Write>(
    alloc: Global,
    wanted: &WantedZone<'_>,
    input: &mut R,
    texts: &mut T,
    fault: &mut E,
) -> Option<Reading>
    ensures alone { IfSome result (λ reading. (text : List ℕ) → R.remaining input.old ≡ Some text →
        IsReadOf (unwrap_or wanted.now.origin []) text reading.records.items) }
    ensures included { IfSome result (λ reading.
        (text : List ℕ) → R.remaining input.old ≡ Some text →
        (files : Files) → T.known texts.old ≡ Some files →
        files.text wanted.now.file.now ≡ text →
        records_of files (unwrap_or wanted.now.origin []) wanted.now.file.now
        ≡ Some reading.records.items) }
{
    let Ok(origin) = first_origin(alloc, &wanted.origin) else {
        tell(fault, b"out of memory\n");
        return None;
    };
    let reading = read_faultless(alloc, origin, wanted.file, input, texts, fault)?;
    Some(reading)
}

/// Makes the zone of the records of a file.
fn loaded_of<E: Write>(
    alloc: Global,
    wanted: &WantedZone<'_>,
    sources: &Sources,
    records: Vec<PlacedRecord>,
    fault: &mut E,
) -> Option<Loaded>
    ensures { IfSome result (IsLoaded (lower (origin_of wanted.now.origin records.items))
        (map given_of records.items)) }
{
    let Ok(origin) = zone_origin(alloc, &wanted.origin, records.as_slice()) else {
        tell(fault, b"out of memory\n");
        return None;
    };
    match load_records(alloc, origin, records) {
        Ok(loaded) => Some(loaded),
        Err(LoadFault::Memory) => {
            tell(fault, b"out of memory\n");
            None
        }
        Err(found) => refuse_at(fault, sources, found.place(), &found),
    }
}

/// Who may transfer each of the zones that are wanted, in their order.
pub fn policies(alloc: Global, wanted: &[WantedZone<'_>]) -> Result<Vec<TransferPolicy>, AllocError>
    ensures { IfOk result (λ policies. policies.items ≡ map policy_of wanted.now) }
{
    let mut policies = Vec::with_capacity(alloc, wanted.len())?;
    for zone in wanted {
        policies.push(zone.policy)?;
    }
    Ok(policies)
}
