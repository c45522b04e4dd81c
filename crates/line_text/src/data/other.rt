//! The data of a type that `RData` has no case for, read. They are printed as octets.
ghost use Rattle.std.specs.Prelude.{◌≡◌, Some, None, IfOk};
ghost use Rattle.line_text.specs.Errors.{OnBadText};
ghost use Rattle.line_text.specs.Other.{next_other};

use crate::error::TextError;
use crate::hex::read_hex;
use crate::words::Words;
use std::alloc::Global;
use zone_proto::{OtherData, RData, RecordType};

/// Reads the data of a type without a case of its own: one word of hex.
#[tactic(auto, using(crate::proofs::ReadingFacts::reading))]
pub(crate) fn read_other(
    alloc: Global,
    record_type: RecordType,
    words: &mut Words<'_>,
) -> Result<RData, TextError>
    ensures ok { IfOk result (λ d. next_other record_type.0 words.old ≡ Some (d, words.new)) }
    ensures refusal { OnBadText result (next_other record_type.0 words.old ≡ None) }
{
    let word = words.take_needed()?;
    let Some(octets) = read_hex(alloc, word)? else {
        return Err(TextError::BadText);
    };
    match OtherData::new(record_type, octets) {
        Some(other) => Ok(RData::Other(other)),
        None => Err(TextError::BadText),
    }
}
