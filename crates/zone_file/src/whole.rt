//! The records of a whole zone file.
ghost use Rattle.std.specs.Prelude.{◌≡◌, ◌++◌, ◌∷◌, [], List, ℕ, map, OnOk, IfOk, IfErr, IsOkUnless};
ghost use Rattle.zone_file.specs.Zones.{EndsIn, Outcome, Read, Stopped, outcomes_from, with_record, zone_of};

use crate::error::{ZoneError, ZoneFault};
use crate::placed::PlacedRecord;
use crate::zone_reader::ZoneReader;
use std::alloc::Global;
use zone_proto::Name;

/// Reads the records of the text of a zone file with this origin, in the order of its entries.
///
/// # Errors
///
/// The first fault of the text; `Memory` if there isn't enough.
pub fn read_zone_text(
    alloc: Global,
    origin: Name,
    text: &[u8],
) -> Result<Vec<PlacedRecord>, ZoneError>
    ensures ok { IfOk result (λ records. zone_of origin text.now ≡ map Read records.items) }
    ensures fault { IfErr result (λ e. (f : ZoneFault) → e ≡ ZoneError.Fault f →
        EndsIn f (zone_of origin text.now)) }
{
    let mut reader = ZoneReader::new(alloc, origin);
    let mut records = Vec::new(alloc);
    take_records(alloc, &mut reader, &mut records, text)?;
    take_last(alloc, reader, &mut records)?;
    Ok(records)
}

/// Appends the records that end in a piece of the text to others.
#[tactic(auto, using(crate::proofs::ZoneFacts::one_more, crate::proofs::ZoneFacts::stops))]
pub(crate) fn take_records(
    alloc: Global,
    reader: &mut ZoneReader,
    records: &mut Vec<PlacedRecord>,
    piece: &[u8],
) -> Result<(), ZoneError>
    ensures ok { OnOk result ((more : List ℕ) →
        map Read records.old.items ++ outcomes_from (piece.now ++ more) reader.old
        ≡ map Read records.new.items ++ outcomes_from more reader.new) }
    ensures fault { IfErr result (λ e. (f : ZoneFault) → e ≡ ZoneError.Fault f →
        (more : List ℕ) →
        EndsIn f (map Read records.old.items ++ outcomes_from (piece.now ++ more) reader.old)) }
{
    let mut rest = piece;
    while !rest.is_empty() {
        let (count, given) = reader.take_record(alloc, rest)?;
        push(records, given)?;
        rest = &rest[count..];
    }
    Ok(())
}

/// Ends the text, and puts its last record behind others, if its last line is one.
#[tactic(auto, using(crate::proofs::ZoneFacts::ends))]
pub(crate) fn take_last(
    alloc: Global,
    reader: ZoneReader,
    records: &mut Vec<PlacedRecord>,
) -> Result<(), ZoneError>
    ensures ok { OnOk result
        (map Read records.old.items ++ outcomes_from [] reader ≡ map Read records.new.items) }
    ensures fault { IfErr result (λ e. (f : ZoneFault) → e ≡ ZoneError.Fault f →
        EndsIn f (map Read records.old.items ++ outcomes_from [] reader)) }
{
    let last = reader.finish(alloc)?;
    push(records, last)?;
    Ok(())
}

/// Appends a record to others, if there is one.
fn push(records: &mut Vec<PlacedRecord>, given: Option<PlacedRecord>) -> Result<(), ZoneError>
    ensures ok { OnOk result ((others : List Outcome) →
        map Read records.old.items ++ with_record given others
        ≡ map Read records.new.items ++ others) }
    ensures err { IsOkUnless result ZoneError.Memory }
{
    match given {
        Some(given) => {
            records.push(given)?;
            Ok(())
        }
        None => Ok(()),
    }
}
