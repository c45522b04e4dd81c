//! The zone that the records of a file make, and what is reported about it.
ghost use Rattle.std.specs.Prelude.{◌≡◌, ◌≤◌, map, IsTrue};
ghost use Rattle.zone_proto.specs.Names.{lower};
ghost use Rattle.zone_map.specs.Zones.{IsZone};
ghost use Rattle.zone_database.specs.declared.zone.Zone.{Zone};
ghost use Rattle.file_origins.specs.Origins.{origin_of};
ghost use Rattle.zone_database.specs.Texts.{given_of, IsZoneOf};
ghost use Rattle.zone_database.specs.Zones.{served_zone};
ghost use Rattle.response_laws.specs.ProvedSayings.{IsUnreferred};
ghost use Rattle.zone_response.specs.Queries.{Zone as ServedZone};
ghost use Rattle.zone_check.specs.Denials.{DeniesRightly, IsReported, served};
ghost use Rattle.zone_check.specs.Publications.{is_ready, IsFit};

use crate::denial::{Denial, tell_denial};
use crate::publication::tell_publication;
use crate::reporting::Warning;
use crate::wanted::Wanted;
use file_origins::zone_origin;
use host_texts::{tell, tell_at};
use std::alloc::Global;
use std::io::Write;
use std::{fmt, io};
use zone_builder::{LoadFault, Loaded};
use zone_database::load_records;
use zone_file::PlacedRecord;
use zone_map::RecordMap;
use zone_proto::{LowerName, RData, RecordType};
use zone_texts::Sources;

/// Makes the zone of the records, and gives the status of the program: 0 where one is made, and the sets by which it
/// denies, if it has any, are a closed chain; 1 where that isn't so, and 2 where it can't be told. Warnings don't
/// change it.
///
/// Where it is 0, each zone that a server makes of the records has no NSEC and NSEC3 sets, or meets the premises of
/// the laws about what a response proves.
pub fn check_zone<W: Write, E: Write>(
    alloc: Global,
    wanted: &Wanted<'_>,
    sources: &Sources,
    records: Vec<PlacedRecord>,
    output: &mut W,
    fault: &mut E,
) -> u8
    ensures status { result ≤ 2 }
    ensures fit { result ≡ 0
        → IsFit wanted.now.is_strict wanted.now.period
        (lower (origin_of wanted.now.origin records.items))
        (map given_of records.items) }
    ensures served { result ≡ 0
        → (z : Zone)
        → IsZoneOf (lower (origin_of wanted.now.origin records.items))
        (map given_of records.items) z
        → DeniesRightly (served_zone z) }
{
    let count = records.len();
    let Ok(origin) = zone_origin(alloc, &wanted.origin, records.as_slice()) else {
        return tell(fault, b"out of memory\n");
    };
    match load_records(alloc, origin, records) {
        Ok(loaded) => tell_loaded(alloc, wanted, sources, count, &loaded, output, fault),
        Err(LoadFault::Memory) => tell(fault, b"out of memory\n"),
        Err(found) => {
            tell_at(fault, sources, found.place(), &found);
            1
        }
    }
}

/// Tells of a zone that was made, and gives the status for it.
fn tell_loaded<W: Write, E: Write>(
    alloc: Global,
    wanted: &Wanted<'_>,
    sources: &Sources,
    count: usize,
    loaded: &Loaded,
    output: &mut W,
    fault: &mut E,
) -> u8
    requires zone { IsZone loaded.now.records }
    requires top { IsUnreferred (served loaded.now) }
    ensures status { result ≤ 2 }
    ensures served { result ≡ 0 → DeniesRightly (served loaded.now) }
    ensures published { result ≡ 0
        → IsTrue (is_ready wanted.now.is_strict wanted.now.period
        loaded.now.origin loaded.now.records) }
{
    for warning in loaded.warnings.iter() {
        tell_at(fault, sources, warning.place(), &Warning(warning));
    }
    if wanted.origin.is_none() && has_lone_primary(loaded) {
        tell_at(fault, sources, None, &Warning(&LonePrimary));
    }
    let Some(denial) = tell_denial(sources, loaded, fault) else {
        return tell(fault, b"out of memory\n");
    };
    let Some(is_ready) = tell_publication(alloc, wanted, sources, loaded, fault) else {
        return 2;
    };
    let summary = Summary {
        origin: &loaded.origin,
        records: count,
        names: count_of_names(&loaded.records),
        denial,
    };
    match write_summary(output, wanted.file, &summary) {
        Ok(()) => status_of(denial, is_ready),
        Err(_) => tell(fault, b"write failed\n"),
    }
}

/// The status for a zone that denies so, and is ready to be published or isn't.
fn status_of(denial: Denial, is_ready: bool) -> u8
    ensures status { result ≤ 1 }
    ensures closed { (z : ServedZone) → result ≡ 0 → IsReported z denial → DeniesRightly z }
    ensures ready { result ≡ 0 → IsTrue is_ready }
{
    if is_ready { denial.status() } else { 1 }
}

/// What is told where a name was completed by the root: no `$ORIGIN` stands before it, and no origin is named.
struct LonePrimary;

impl fmt::Display for LonePrimary {
    fn fmt<W: fmt::Write>(&self, f: &mut fmt::Formatter<W>) -> fmt::Result {
        f.write_str(
            "the SOA names a server right below the root: a relative name stands there without an origin",
        )
    }
}

/// Whether the SOA at the origin names a server right below the root.
fn has_lone_primary(loaded: &Loaded) -> bool {
    for (key, set) in loaded.records.iter() {
        if key.record_type == RecordType::SOA {
            if let Some(record) = set.as_slice().first() {
                if let RData::SOA(soa) = &record.rdata {
                    return soa.mname.num_labels() == 1;
                }
            }
        }
    }
    false
}

/// How many names own sets.
fn count_of_names(records: &RecordMap) -> usize {
    let mut count = 0usize;
    let mut last: Option<&LowerName> = None;
    for (key, _) in records.iter() {
        if last.is_none_or(|name| *name != key.name) {
            count = count.saturating_add(1);
        }
        last = Some(&key.name);
    }
    count
}

/// What a zone has.
#[derive(Drop)]
struct Summary<'z> {
    origin: &'z LowerName,
    records: usize,
    names: usize,
    denial: Denial,
}

impl fmt::Display for Summary<'_> {
    fn fmt<W: fmt::Write>(&self, f: &mut fmt::Formatter<W>) -> fmt::Result {
        write!(
            f,
            "zone {}, {} records, {} names, {}",
            self.origin, self.records, self.names, self.denial
        )
    }
}

/// Writes what a zone has.
fn write_summary<W: Write>(output: &mut W, file: &str, summary: &Summary<'_>) -> io::Result<()> {
    write!(output, "{file}: {summary}\n")?;
    output.flush()
}
