//! How the records of a zone file are printed.

use crate::octets::octets_of;
use crate::zone;
use std::alloc::{AllocError, Global};
use zone_file::PlacedRecord;
use zone_file_writer::MasterText;

/// The records of a zone file as they are printed, with `/` behind each; the first word of a row is the origin. What is printed is
/// read again under another origin, and has to be printed alike.
pub fn answer(alloc: Global, row: &str) -> Result<String, AllocError> {
    let (origin, rest) = row.split_once(' ').unwrap_or((row, ""));
    let text = octets_of(alloc, rest)?;
    let lines = lines_of(alloc, origin, text.as_slice())?;
    let again = lines_of(alloc, "elsewhere.", lines.as_bytes())?;
    if lines.as_str() != again.as_str() {
        return format!(in alloc; "{lines} and again {again}");
    }
    let mut told = String::new(alloc);
    for line in lines.lines() {
        write!(&mut told, "{line} / ")?;
    }
    Ok(told)
}

/// The records of a zone file, each printed in a line of its own; or where it isn't one.
fn lines_of(alloc: Global, origin: &str, text: &[u8]) -> Result<String, AllocError> {
    match zone::read(alloc, origin, text) {
        Ok(records) => print(alloc, records.as_slice()),
        Err(error) => zone::error_line(alloc, &error),
    }
}

fn print(alloc: Global, records: &[PlacedRecord]) -> Result<String, AllocError> {
    let mut lines = String::new(alloc);
    for placed in records {
        write!(&mut lines, "{}\n", MasterText(alloc, &placed.given))?;
    }
    Ok(lines)
}
