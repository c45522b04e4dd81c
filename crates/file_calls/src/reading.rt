//! The records of a file and of those that it includes, as far as they are kept.
ghost use Rattle.std.specs.Prelude.{◌≡◌, IfSome, Some};
ghost use Rattle.zone_texts.specs.Inclusions.{records_of};
ghost use Rattle.zone_texts.specs.Readings.{IsFaultless};
ghost use Rattle.included_texts.specs.Kept.{files_of, IsSame, kept_of};

use included_texts::{FileTexts, KeptTexts};
use std::alloc::Global;
use zone_proto::Name;
use zone_texts::{FilesError, MOST_TOLD, Reading, read_files};

/// Reads a file of this name and text, with those that it includes, of which nothing else is wanted then but what isn't kept. None for lack
/// of memory.
pub(crate) fn read_kept(
    alloc: Global,
    texts: &mut KeptTexts,
    origin: Name,
    file: &str,
    text: &[u8],
) -> Option<Reading>
    ensures records { IfSome result (λ reading. IsFaultless reading →
        records_of (files_of file.now text.now (kept_of texts.old)) origin file.now
        ≡ Some reading.records.items) }
    ensures kept { IsSame (kept_of texts.old) (kept_of texts.new) }
{
    let (reading, wanted) = read_beside(alloc, texts, origin, file, text);
    texts.want(wanted);
    reading
}

/// Reads a file of this name and text, with those that it includes, and gives the names of those of which nothing is kept.
#[tactic(auto, using(crate::proofs::Loads::own_text))]
fn read_beside(
    alloc: Global,
    kept: &KeptTexts,
    origin: Name,
    file: &str,
    text: &[u8],
) -> (Option<Reading>, Vec<String>)
    ensures { IfSome result.0 (λ reading. IsFaultless reading →
        records_of (files_of file.now text.now (kept_of kept.now)) origin file.now
        ≡ Some reading.records.items) }
{
    let mut texts = FileTexts {
        file,
        text,
        kept,
        wanted: Vec::new(alloc),
    };
    let mut input = text;
    let read = read_files(alloc, origin, file, &mut input, &mut texts, MOST_TOLD);
    let FileTexts { wanted, .. } = texts;
    match read {
        Ok(reading) => (Some(reading), wanted),
        Err(FilesError::Memory | FilesError::Input(_)) => (None, wanted),
    }
}
