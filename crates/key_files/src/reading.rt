//! The keys of a file.
ghost use Rattle.std.specs.Prelude.{◌≡◌, [], IfErr, IfOk, MatchOption, Ok};
ghost use Rattle.key_files.specs.Entries.{entries_of, FailsBy, IsCut, keys_of, placed, ReportsFault, words_before};

use crate::entry::{KeyEntry, KeyWords, entry_of};
use crate::fault::{KeyFileError, KeyFileFault, KeyFileReason, WordError};
use crate::place::place_at;
use crate::words::words_of;
use std::alloc::Global;

/// The keys of a text, in their order. Its first fault refuses it, with the place of the word that is at fault, and so does want of memory.
/// Two keys may have one name: which of them counts is up to those who use them.
#[tactic(auto, unfolding(crate::specs::Entries::keys_of))]
pub fn read_keys(alloc: Global, text: &[u8]) -> Result<Vec<KeyEntry>, KeyFileError>
    ensures keys { IfOk result (λ keys. keys_of text.now ≡ Ok keys.items) }
    ensures fault { IfErr result (ReportsFault text.now) }
{
    let words = words_of(alloc, text)?;
    match entries_of(alloc, text, words.as_slice()) {
        Ok(entries) => Ok(entries),
        Err(error) => Err(placed(text, error)),
    }
}

/// A fault, told by line and column.
fn placed(text: &[u8], error: WordError) -> KeyFileError
    ensures { result ≡ placed text.now error }
{
    match error {
        WordError::Wrong(at, reason) => KeyFileError::Fault(KeyFileFault {
            place: place_at(text, at),
            reason,
        }),
        WordError::Memory => KeyFileError::Memory,
    }
}

/// The keys that the words of a text write which begin at these offsets.
#[tactic(auto, using(crate::proofs::Entries::cut_fails, crate::proofs::Entries::entry_fails, crate::proofs::Entries::entry_read))]
fn entries_of(alloc: Global, text: &[u8], words: &[usize]) -> Result<Vec<KeyEntry>, WordError>
    ensures entries { IfOk result (λ entries. entries_of text.now words.now ≡ Ok entries.items) }
    ensures fault { IfErr result (FailsBy (entries_of text.now words.now)) }
{
    let mut entries = Vec::new(alloc);
    let mut rest = words;
    while let Some((key, more)) = first_key(rest)? {
        let entry = entry_of(alloc, text, key)?;
        entries.push(entry)?;
        rest = more;
    }
    Ok(entries)
}

/// The words of the first key among these, and those behind; none where there is no word.
fn first_key(words: &[usize]) -> Result<Option<(KeyWords, &[usize])>, WordError>
    ensures key { IfOk result (λ found. MatchOption found (words.now ≡ [])
        (λ x. words.now ≡ words_before x.0 x.1.now)) }
    ensures fault { IfErr result (IsCut words.now) }
{
    match words {
        [] => Ok(None),
        [
            name_word,
            name,
            first_word,
            first,
            second_word,
            second,
            more @ ..,
        ] => {
            let key = KeyWords {
                name_word: *name_word,
                name: *name,
                first_word: *first_word,
                first: *first,
                second_word: *second_word,
                second: *second,
            };
            Ok(Some((key, more)))
        }
        [name_word, ..] => Err(WordError::Wrong(*name_word, KeyFileReason::Incomplete)),
    }
}
