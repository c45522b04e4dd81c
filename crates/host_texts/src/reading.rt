//! Files that are read, with what is told where they can't be.
ghost use Rattle.std.specs.Prelude.{◌≡◌, List, ℕ, Some, IfSome};
ghost use Rattle.zone_texts.specs.Inclusions.{Files, records_of};
ghost use Rattle.zone_texts.specs.Readings.{IsReadOf};

use crate::reporting::{refuse, refuse_unread, tell_faults};
use std::alloc::Global;
use std::fs;
use std::io::{Read, Write};
use zone_proto::Name;
use zone_texts::{FilesError, MOST_TOLD, Reading, Texts, read_files};

/// Appends the octets of a file to a text. None if it can't be read, which is told; the text may have some of them then.
pub fn read_file<E: Write>(
    rt: &HostRuntime,
    file: &str,
    text: &mut Vec<u8>,
    fault: &mut E,
) -> Option<()> {
    let read = match fs::open(rt, file) {
        Ok(mut input) => input.read_to_end(text),
        Err(e) => Err(e),
    };
    match read {
        Ok(_) => Some(()),
        Err(e) => refuse_unread(fault, file, e.kind()),
    }
}

/// Reads the records of a zone file of a name, at whose beginning the origin is this, from an input, with those of the files that it includes
/// (RFC 1035 section 5.1). None if they can't be read, or have a fault; why is told, of faults the first twenty.
pub fn read_faultless<R: Read, T: Texts, E: Write>(
    alloc: Global,
    origin: Name,
    file: &str,
    input: &mut R,
    texts: &mut T,
    fault: &mut E,
) -> Option<Reading>
    // Where it is known what the input has left, as of a slice, that is the file's text.
    ensures alone { IfSome result (λ reading. (text : List ℕ) → R.remaining input.old ≡ Some text →
        IsReadOf origin text reading.records.items) }
    // Where files are known, with that text, so it is with those that it includes.
    ensures included { IfSome result (λ reading.
        (text : List ℕ) → R.remaining input.old ≡ Some text →
        (files : Files) → T.known texts.old ≡ Some files → files.text file.now ≡ text →
        records_of files origin file.now ≡ Some reading.records.items) }
{
    match read_files(alloc, origin, file, input, texts, MOST_TOLD) {
        Ok(reading) => {
            if !reading.is_faultless() {
                tell_faults(fault, &reading, "");
                return None;
            }
            Some(reading)
        }
        Err(FilesError::Memory) => refuse(fault, file, &"out of memory"),
        Err(FilesError::Input(kind)) => refuse_unread(fault, file, kind),
    }
}
