//! How a zone file is read.

use crate::octets::octets_of;
use crate::pieces::Pieces;
use line_text::RecordText;
use std::alloc::{AllocError, Global};
use zone_file::{FaultText, InputError, PlacedRecord, read_zone, read_zone_text};
use zone_proto::Name;

/// The records of a zone file, each behind the place of its entry and with `/` behind it; or its fault. The first word of a row is
/// the origin. What is read of the text as a whole has to be read of an input that gives it octet by octet.
pub fn answer(alloc: Global, row: &str) -> Result<String, AllocError> {
    let (origin, rest) = row.split_once(' ').unwrap_or((row, ""));
    let text = octets_of(alloc, rest)?;
    let whole = told(alloc, read(alloc, origin, text.as_slice()))?;
    let pieces = told(alloc, read_pieces(alloc, origin, text.as_slice(), false))?;
    if whole.as_str() == pieces.as_str() {
        Ok(whole)
    } else {
        format!(in alloc; "{whole} and in pieces {pieces}")
    }
}

/// The same of an input that fails behind the text.
pub fn failing_answer(alloc: Global, row: &str) -> Result<String, AllocError> {
    let (origin, rest) = row.split_once(' ').unwrap_or((row, ""));
    let text = octets_of(alloc, rest)?;
    told(alloc, read_pieces(alloc, origin, text.as_slice(), true))
}

/// The records of a zone file of this origin.
pub fn read(alloc: Global, origin: &str, text: &[u8]) -> Result<Vec<PlacedRecord>, InputError> {
    match Name::parse(alloc, origin) {
        Ok(origin) => Ok(read_zone_text(alloc, origin, text)?),
        Err(_) => Err(InputError::Memory),
    }
}

/// The same from an input that gives a thousandth of the text at each read, one octet at least, and then ends or fails.
fn read_pieces(
    alloc: Global,
    origin: &str,
    text: &[u8],
    fails: bool,
) -> Result<Vec<PlacedRecord>, InputError> {
    let length = (text.len() / 1000).saturating_add(1);
    let mut input = Pieces {
        text,
        length,
        fails,
        is_next: false,
    };
    match Name::parse(alloc, origin) {
        Ok(origin) => Ok(read_zone(alloc, origin, &mut input)?),
        Err(_) => Err(InputError::Memory),
    }
}

/// What a call answered.
fn told(
    alloc: Global,
    answered: Result<Vec<PlacedRecord>, InputError>,
) -> Result<String, AllocError> {
    match answered {
        Ok(records) => tell(alloc, records.as_slice()),
        Err(error) => error_line(alloc, &error),
    }
}

/// Why a zone file isn't read, as a line.
pub fn error_line(alloc: Global, error: &InputError) -> Result<String, AllocError> {
    let file = "example.zone";
    match error {
        InputError::Memory => Err(AllocError),
        InputError::Input(kind) => format!(in alloc; "{file}: {kind}"),
        InputError::Fault(fault) => format!(in alloc; "{}", FaultText { file, fault }),
    }
}

fn tell(alloc: Global, records: &[PlacedRecord]) -> Result<String, AllocError> {
    let mut told = String::new(alloc);
    for placed in records {
        let place = placed.place;
        write!(
            &mut told,
            "{}:{} {} / ",
            place.line,
            place.column,
            RecordText(&placed.given)
        )?;
    }
    Ok(told)
}
