//! Reads a zone file, and tells what is wrong with it, or what it has.
ghost use Rattle.std.specs.Prelude.{◌≡◌, ◌≤◌, ℕ, List, Some, IsFalse, map};
ghost use Rattle.zone_proto.specs.Names.{lower};
ghost use Rattle.file_origins.specs.Origins.{origin_of};
ghost use Rattle.zone_database.specs.declared.zone.Zone.{Zone};
ghost use Rattle.zone_database.specs.Files.{IsZoneOfFile};
ghost use Rattle.zone_database.specs.Texts.{given_of, IsZoneOf};
ghost use Rattle.zone_database.specs.Zones.{served_zone};
ghost use Rattle.zone_check.specs.Denials.{DeniesRightly};
ghost use Rattle.zone_check.specs.Publications.{AreReadFit, IsFit, IsReadFit, IsZoneOfFiles};
ghost use Rattle.zone_texts.specs.Inclusions.{Files};
ghost use Rattle.zone_texts.specs.Readings.{IsFaultless};
ghost use Rattle.zone_file.specs.declared.placed.PlacedRecord.{PlacedRecord};

use crate::wanted::Wanted;
use crate::zone::check_zone;
use file_origins::first_origin;
use host_texts::{tell, tell_faults, tell_unread};
use std::alloc::Global;
use std::cmp::Ordering;
use std::io;
use std::io::{ErrorKind, Read, Write};
use zone_file::PlacedRecord;
use zone_file_writer::MasterText;
use zone_proto::{Record, RecordType};
use zone_texts::{FilesError, Reading, Texts, read_files};

/// Reads a zone file from `input`, and gives the status of the program: 0 where a zone can be made of it, and the
/// sets by which it denies, if it has any, are a closed chain; 1 where that isn't so, and 2 where it can't be told.
/// With `--print` it is 0 where the file is read to its end. What is wrong is told on `fault`, a line each, with
/// file, line and column where it is about a record. What the file has is told on `output`: its records, if they are
/// to be printed, and else what zone they make.
///
/// Where the status is 0 and nothing is to be printed, each zone that a server makes of the same text and origin has
/// no NSEC and NSEC3 sets, or is one of which the laws of `response_laws` speak: `responses_prove_what_they_say` and
/// `hashed_responses_prove_what_they_say`.
pub fn check<R: Read, T: Texts, W: Write, E: Write>(
    alloc: Global,
    wanted: &Wanted<'_>,
    input: &mut R,
    texts: &mut T,
    output: &mut W,
    fault: &mut E,
) -> u8
    ensures status { result ≤ 2 }
    // Where it is known what the input has left, as of a slice, that is the text.
    ensures fit { result ≡ 0 → IsFalse wanted.now.is_printed
        → (text : List ℕ) → R.remaining input.old ≡ Some text
        → (records : List PlacedRecord)
        × IsReadFit wanted.now.is_strict wanted.now.period wanted.now.origin text records }
    ensures served { result ≡ 0 → IsFalse wanted.now.is_printed
        → (text : List ℕ) → R.remaining input.old ≡ Some text
        → (z : Zone) → IsZoneOfFile wanted.now.origin text z
        → DeniesRightly (served_zone z) }
    // Where files are known, with that text, so it is with those that it includes.
    ensures fit_files { result ≡ 0 → IsFalse wanted.now.is_printed
        → (text : List ℕ) → R.remaining input.old ≡ Some text
        → (files : Files) → T.known texts.old ≡ Some files
        → files.text wanted.now.file.now ≡ text
        → (records : List PlacedRecord)
        × AreReadFit wanted.now.is_strict wanted.now.period wanted.now.origin files
        wanted.now.file.now records }
    ensures served_files { result ≡ 0 → IsFalse wanted.now.is_printed
        → (text : List ℕ) → R.remaining input.old ≡ Some text
        → (files : Files) → T.known texts.old ≡ Some files
        → files.text wanted.now.file.now ≡ text
        → (z : Zone) → IsZoneOfFiles wanted.now.origin files wanted.now.file.now z
        → DeniesRightly (served_zone z) }
{
    let Ok(origin) = first_origin(alloc, &wanted.origin) else {
        return tell(fault, b"out of memory\n");
    };
    match read_files(alloc, origin, wanted.file, input, texts, wanted.most_told) {
        Ok(reading) => check_reading(alloc, wanted, reading, output, fault),
        Err(FilesError::Memory) => tell(fault, b"out of memory\n"),
        Err(FilesError::Input(kind)) => tell_unread(fault, wanted.file, kind),
    }
}

/// The same for what was read of a file and of those that it includes.
fn check_reading<W: Write, E: Write>(
    alloc: Global,
    wanted: &Wanted<'_>,
    reading: Reading,
    output: &mut W,
    fault: &mut E,
) -> u8
    ensures status { result ≤ 2 }
    ensures faultless { result ≡ 0 → IsFaultless reading }
    ensures fit { result ≡ 0 → IsFalse wanted.now.is_printed
        → IsFit wanted.now.is_strict wanted.now.period
        (lower (origin_of wanted.now.origin reading.records.items))
        (map given_of reading.records.items) }
    ensures served { result ≡ 0 → IsFalse wanted.now.is_printed
        → (z : Zone)
        → IsZoneOf (lower (origin_of wanted.now.origin reading.records.items))
        (map given_of reading.records.items) z
        → DeniesRightly (served_zone z) }
{
    if !reading.is_faultless() {
        tell_faults(fault, &reading, ", which --all tells");
        return 1;
    }
    let Reading {
        mut records,
        sources,
        ..
    } = reading;
    if !wanted.is_printed {
        return check_zone(alloc, wanted, &sources, records, output, fault);
    }
    match print(alloc, output, &mut records) {
        Ok(()) => 0,
        Err(e) if e.kind() == ErrorKind::OutOfMemory => tell(fault, b"out of memory\n"),
        Err(_) => tell(fault, b"write failed\n"),
    }
}

/// Writes the records in the order in which they are printed, those of one owner and type in the order of the file.
fn print<W: Write>(
    alloc: Global,
    output: &mut W,
    records: &mut Vec<PlacedRecord>,
) -> io::Result<()> {
    records.sort_by(|one, other| printed_order(&one.given, &other.given))?;
    for placed in records.iter() {
        write!(output, "{}\n", MasterText(alloc, &placed.given))?;
    }
    output.flush()
}

/// The order in which records are printed: an SOA first, and the others by owner, in canonical order (RFC 4034
/// section 6.1), and type.
fn printed_order(one: &Record, other: &Record) -> Ordering {
    let (first, second) = (one.record_type(), other.record_type());
    let by_start = (first != RecordType::SOA).cmp(&(second != RecordType::SOA));
    by_start
        .then(one.name.cmp(&other.name))
        .then(first.cmp(&second))
}
