//! Names, types and keys of record sets, read.
ghost use Rattle.std.specs.Prelude.{◌≡◌, Some, None, IfOk, IfErr};
ghost use Rattle.line_text.specs.Errors.{OnBadText};
ghost use Rattle.line_text.specs.Reading.{next_key, next_name, next_type, type_of_word};

use crate::error::TextError;
use crate::words::Words;
use std::alloc::Global;
use std::str;
use zone_proto::{LowerName, Name, RecordType, RrKey};

/// Reads the next word as a name in its text form (RFC 1035 section 5.1). `BadText` where there is no further word or
/// it is none. Its only error is `Memory`. After a refusal the words are of no more use.
#[tactic(auto, using(crate::proofs::ReadingFacts::reading))]
pub fn read_name(alloc: Global, words: &mut Words<'_>) -> Result<Name, TextError>
    ensures ok { IfOk result (λ n. next_name words.old ≡ Some (n, words.new)) }
    ensures refusal { OnBadText result (next_name words.old ≡ None) }
{
    let word = words.take_needed()?;
    let Ok(text) = str::from_utf8(word) else {
        return Err(TextError::BadText);
    };
    match Name::parse(alloc, text) {
        Ok(name) => Ok(name),
        Err(error) => Err(TextError::from(error)),
    }
}

/// Reads the next word as a type, by its name or as `TYPE` and its number (RFC 3597 section 5). `BadText` where there
/// is no further word or it is neither. Doesn't allocate. After a refusal the words are of no more use.
#[tactic(auto, using(crate::proofs::ReadingFacts::reading))]
pub fn read_type(words: &mut Words<'_>) -> Result<RecordType, TextError>
    ensures ok { IfOk result (λ t. next_type words.old ≡ Some (t, words.new)) }
    ensures refusal { IfErr result (λ e. (e ≡ TextError.BadText) × (next_type words.old ≡ None)) }
{
    let word = words.take_needed()?;
    type_of(word).ok_or(TextError::BadText)
}

/// The type that a word names.
#[tactic(auto, using(crate::proofs::ReadingFacts::reading))]
fn type_of(word: &[u8]) -> Option<RecordType>
    ensures { type_of_word word.now ≡ result }
{
    match str::from_utf8(word) {
        Ok(text) => RecordType::from_text(text),
        Err(_) => None,
    }
}

/// Reads the next two words as the key of a record set, its owner and its type: refused as these are.
#[tactic(auto, using(crate::proofs::ReadingFacts::reading))]
pub fn read_key(alloc: Global, words: &mut Words<'_>) -> Result<RrKey, TextError>
    ensures ok { IfOk result (λ k. next_key words.old ≡ Some (k, words.new)) }
    ensures refusal { OnBadText result (next_key words.old ≡ None) }
{
    let owner = read_name(alloc, words)?;
    let record_type = read_type(words)?;
    Ok(RrKey::new(LowerName::from(owner), record_type))
}
