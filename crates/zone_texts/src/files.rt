//! A zone file, read with the files that it includes.
ghost use Rattle.std.specs.Prelude.{◌≡◌, List, ℕ, Some, IfOk};
ghost use Rattle.zone_texts.specs.Inclusions.{Files, records_of};
ghost use Rattle.zone_texts.specs.Readings.{IsFaultless, IsReadOf};

use crate::fault::{FileFault, What};
use crate::lines::count_lines;
use crate::reading::read_text;
use crate::sources::{FilePlace, MOST_OPEN, Sources};
use crate::state::{Part, Reading};
use crate::texts::Texts;
use std::alloc::{AllocError, AllocFailed, Global};
use std::io::{ErrorKind, Read};
use zone_file::{Context, InputError, PlacedRecord, ZoneFault, read_zone};
use zone_proto::Name;

/// How many faults of a zone file are told where no other number is wanted.
pub const MOST_TOLD: usize = 20;

/// Why no files are read.
#[derive(Debug)]
pub enum FilesError {
    /// A growth that the allocator refused.
    Memory,
    /// The input failed, in this way.
    Input(ErrorKind),
}

/// Want of memory is `Memory`.
impl From<AllocError> for FilesError {
    ghost use Rattle.zone_texts.specs.declared.files.FilesError.TheVariants.{Memory};

    ghost from_gives = { λ _ e. e ≡ Memory };

    fn from(_: AllocError) -> FilesError {
        FilesError::Memory
    }
}

/// Want of memory is `Memory`; the value that found no room is dropped.
impl<T: Drop> From<AllocFailed<T>> for FilesError {
    ghost use Rattle.zone_texts.specs.declared.files.FilesError.TheVariants.{Memory};

    ghost from_gives = { λ _ e. e ≡ Memory };

    fn from(_: AllocFailed<T>) -> FilesError {
        FilesError::Memory
    }
}

/// Reads the records of the zone file of a name with this origin from an input, up to its end. Where it isn't a zone file by itself,
/// `texts` is asked for its text and for those that it includes (RFC 1035 section 5.1), to be read from the beginning, and all their
/// faults are told, so many at most; where its text isn't given, the first fault alone.
///
/// # Errors
///
/// `Input` if a read failed; `Memory` if there isn't enough.
pub fn read_files<R: Read, T: Texts>(
    alloc: Global,
    origin: Name,
    file: &str,
    input: &mut R,
    texts: &mut T,
    most: usize,
) -> Result<Reading, FilesError>
    // Where it is known what the input has left, as of a slice, that is the file's text.
    ensures alone { IfOk result (λ reading. (text : List ℕ) → R.remaining input.old ≡ Some text →
        IsReadOf origin text reading.records.items) }
    // Where files are known, with that text, what has no fault is their records.
    ensures included { IfOk result (λ reading. (text : List ℕ) → R.remaining input.old ≡ Some text →
        (files : Files) → T.known texts.old ≡ Some files → files.text file.now ≡ text →
        IsFaultless reading → records_of files origin file.now ≡ Some reading.records.items) }
{
    let Ok(again) = origin.clone() else {
        return Err(FilesError::Memory);
    };
    match read_zone(alloc, origin, input) {
        Ok(records) => Ok(whole(alloc, file, records, most)?),
        Err(InputError::Memory) => Err(FilesError::Memory),
        Err(InputError::Input(kind)) => Err(FilesError::Input(kind)),
        Err(InputError::Fault(first)) => read_again(alloc, again, file, first, texts, most),
    }
}

/// What was read of one file without faults.
fn whole(
    alloc: Global,
    file: &str,
    records: Vec<PlacedRecord>,
    most: usize,
) -> Result<Reading, AllocError>
    ensures records { IfOk result (λ reading. reading.records ≡ records) }
{
    Ok(Reading {
        records,
        most,
        faults: Vec::new(alloc),
        more_faults: 0,
        sources: Sources::new(alloc, file)?,
    })
}

/// Reads the file again, with those that it includes. This is its first fault, read by itself.
fn read_again<T: Texts>(
    alloc: Global,
    origin: Name,
    file: &str,
    first: ZoneFault,
    texts: &mut T,
    most: usize,
) -> Result<Reading, FilesError>
    ensures { IfOk result (λ reading. (files : Files) → T.known texts.old ≡ Some files →
        IsFaultless reading → records_of files origin file.now ≡ Some reading.records.items) }
{
    match texts.text(alloc, file) {
        Ok(text) => Ok(read_whole(alloc, origin, file, text.as_slice(), texts, most)?),
        Err(ErrorKind::OutOfMemory) => Err(FilesError::Memory),
        Err(_) => {
            let mut reading = whole(alloc, file, Vec::new(alloc), most)?;
            let at = FilePlace {
                file: 0,
                place: first.place,
            };
            reading.faults.push(FileFault {
                at,
                what: What::Entry(first),
            })?;
            Ok(reading)
        }
    }
}

/// Reads the text of a file, with those that it includes.
fn read_whole<T: Texts>(
    alloc: Global,
    origin: Name,
    file: &str,
    text: &[u8],
    texts: &mut T,
    most: usize,
) -> Result<Reading, AllocError>
    ensures { IfOk result (λ reading. (files : Files) → T.known texts.old ≡ Some files →
        files.text file.now ≡ text.now → IsFaultless reading →
        records_of files origin file.now ≡ Some reading.records.items) }
{
    let mut reading = whole(alloc, file, Vec::new(alloc), most)?;
    reading.sources.lines = count_lines(text).saturating_add(1);
    let mut context = Context {
        origin,
        owner: None,
        ttl: None,
        last_ttl: None,
    };
    let part = Part {
        file: 0,
        before: 0,
        lines: 0,
    };
    read_text(
        alloc,
        texts,
        &mut reading,
        &mut context,
        part,
        file,
        text,
        MOST_OPEN - 1,
    )?;
    Ok(reading)
}
