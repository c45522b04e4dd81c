//! The records of a zone file that is read from an input.
ghost use Rattle.std.specs.Prelude.{◌≡◌, ◌≢◌, ◌<◌, List, ℕ, map, length, OnOk, IfOk, IfErr, Some};
ghost use Rattle.std.specs.Bool.{OnFalse};
ghost use Rattle.std.specs.Io.KnownBytes.{IsAtEnd};
ghost use Rattle.zone_file.specs.Inputs.{GoesOn, with_rest};
ghost use Rattle.zone_file.specs.Zones.{EndsIn, Read as RecordRead, zone_of};

use crate::error::{InputError, ZoneFault};
use crate::placed::PlacedRecord;
use crate::whole::{take_last, take_records};
use crate::zone_reader::ZoneReader;
use input_reads::read_some;
use std::alloc::Global;
use std::io::{ErrorKind, Read};
use zone_proto::Name;

/// How many octets are read at once.
const CHUNK: usize = 16_384;

/// Reads the records of a zone file with this origin from an input, up to its end, in the order of its entries. It makes no
/// difference how many octets a read returns. No more of the text is kept than what was read at once and the current entry,
/// which has at most 1,048,576 octets; a read that a signal interrupted is repeated.
///
/// # Errors
///
/// The first fault of the text; `Input` if a read failed; `Memory` if there isn't enough. Octets after the fault may have been
/// read.
pub fn read_zone<R: Read>(
    alloc: Global,
    origin: Name,
    input: &mut R,
) -> Result<Vec<PlacedRecord>, InputError>
    // Where it is known what the input has left, as of a slice, that is the text.
    ensures ok { IfOk result (λ records. (text : List ℕ) → R.remaining input.old ≡ Some text →
        zone_of origin text ≡ map RecordRead records.items) }
    ensures end { OnOk result (IsAtEnd (R.remaining input.new)) }
    ensures fault { IfErr result (λ e. (f : ZoneFault) → e ≡ InputError.Fault f →
        (text : List ℕ) → R.remaining input.old ≡ Some text → EndsIn f (zone_of origin text)) }
{
    let mut chunk = vec![in alloc; 0u8; CHUNK]?;
    read_in_chunks(alloc, origin, input, chunk.as_mut_slice())
}

/// The same by reads into a buffer.
fn read_in_chunks<R: Read>(
    alloc: Global,
    origin: Name,
    input: &mut R,
    chunk: &mut [u8],
) -> Result<Vec<PlacedRecord>, InputError>
    requires { 0 < length chunk.old }
    ensures ok { IfOk result (λ records. (text : List ℕ) → R.remaining input.old ≡ Some text →
        zone_of origin text ≡ map RecordRead records.items) }
    ensures end { OnOk result (IsAtEnd (R.remaining input.new)) }
    ensures fault { IfErr result (λ e. (f : ZoneFault) → e ≡ InputError.Fault f →
        (text : List ℕ) → R.remaining input.old ≡ Some text → EndsIn f (zone_of origin text)) }
{
    let mut reader = ZoneReader::new(alloc, origin);
    let mut records = Vec::new(alloc);
    read_to_end(alloc, &mut reader, &mut records, input, chunk)?;
    take_last(alloc, reader, &mut records)?;
    Ok(records)
}

/// Reads up to the end of the input, and puts the records that end in what is read behind others.
fn read_to_end<R: Read>(
    alloc: Global,
    reader: &mut ZoneReader,
    records: &mut Vec<PlacedRecord>,
    input: &mut R,
    chunk: &mut [u8],
) -> Result<(), InputError>
    requires { 0 < length chunk.old }
    ensures ok { OnOk result
        (GoesOn (R.remaining input.old) (R.remaining input.new)
        records.old.items records.new.items reader.old reader.new) }
    ensures end { OnOk result (IsAtEnd (R.remaining input.new)) }
    ensures fault { IfErr result (λ e. (f : ZoneFault) → e ≡ InputError.Fault f →
        (text : List ℕ) → R.remaining input.old ≡ Some text →
        EndsIn f (with_rest records.old.items text reader.old)) }
{
    for _ in 0..u64::MAX {
        match read_more(alloc, reader, records, input, chunk) {
            Ok(true) => {}
            Ok(false) => return Ok(()),
            Err(error) => return Err(error),
        }
    }
    Err(InputError::Input(ErrorKind::Interrupted))
}

/// The same by one read. False at the end of the input.
fn read_more<R: Read>(
    alloc: Global,
    reader: &mut ZoneReader,
    records: &mut Vec<PlacedRecord>,
    input: &mut R,
    chunk: &mut [u8],
) -> Result<bool, InputError>
    requires { 0 < length chunk.old }
    ensures ok { OnOk result
        (GoesOn (R.remaining input.old) (R.remaining input.new)
        records.old.items records.new.items reader.old reader.new) }
    ensures end { IfOk result (λ is_more. OnFalse is_more (IsAtEnd (R.remaining input.new))) }
    ensures fault { IfErr result (λ e. (f : ZoneFault) → e ≡ InputError.Fault f →
        (text : List ℕ) → R.remaining input.old ≡ Some text →
        EndsIn f (with_rest records.old.items text reader.old)) }
{
    let count = match read_some(input, chunk) {
        Ok(count) => count,
        Err(error) => return Err(InputError::Input(error.kind())),
    };
    if count == 0 {
        return Ok(false);
    }
    take_records(alloc, reader, records, &chunk[..count])?;
    Ok(true)
}
