//! The signatures of a signed zone, handed over to be verified.

use crate::keeping::write_standing;
use crate::reading::read_whole_zone;
use crate::signing::written;
use crate::wanted::Wanted;
use host_texts::refuse;
use std::io;
use std::io::{BufWriter, Write};
use zone_map::RecordMap;
use zone_planning::blank_number;
use zone_proto::RrKey;

/// Writes each signature of the zone in the file, with what it is made of (RFC 4034 section 3.1.8.1), and after them the end. None if there
/// is no such zone, if a signature has one octet alone, as those of plans have, or if a write fails, which is reported.
pub fn write_signatures<E: Write>(
    rt: &HostRuntime,
    wanted: &Wanted<'_>,
    fault: &mut E,
) -> Option<()> {
    let alloc = rt.alloc();
    let zone = read_whole_zone(rt, wanted, fault)?;
    if first_blank(&zone.records).is_some() {
        return refuse(fault, wanted.file, &"a signature has one octet alone");
    }
    let Ok(mut output) = BufWriter::new(alloc, io::writer(rt)) else {
        return refuse(fault, wanted.file, &"out of memory");
    };
    written(
        write_standing(alloc, &mut output, &zone.records),
        wanted,
        fault,
    )
}

/// The key of the first set of which a signature has one octet alone, so that it isn't handed over.
fn first_blank(records: &RecordMap) -> Option<&RrKey> {
    for (key, set) in records.iter() {
        for record in set.rrsigs() {
            if blank_number(record).is_some() {
                return Some(key);
            }
        }
    }
    None
}
