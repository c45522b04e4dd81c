//! A fault with the word that is at its place.
ghost use Rattle.std.specs.Prelude.{◌≡◌, IfOk};
ghost use Rattle.zone_file.specs.Faults.{at_word, octets_at, same_place};

use crate::error::ZoneFault;
use record_fields::Fault;
use std::alloc::{AllocError, Global};
use zone_proto::Seq;
use zone_scanner::{Place, Word};

/// A fault, with the word at its place among these.
pub(crate) fn at_word(alloc: Global, words: &[Word], fault: Fault) -> Result<ZoneFault, AllocError>
    ensures { IfOk result (λ quoted_word. quoted_word ≡ at_word words.now fault) }
{
    let word = octets_at(alloc, words, fault.place)?;
    Ok(ZoneFault {
        place: fault.place,
        reason: fault.reason,
        word,
    })
}

/// A copy of the octets of the word that begins at a place, if one does.
fn octets_at(alloc: Global, words: &[Word], place: Place) -> Result<Option<Seq<u8>>, AllocError>
    ensures { IfOk result (λ octets. octets ≡ octets_at place words.now) }
{
    for word in words {
        if same_place(word.place(), place) {
            return Ok(Some(copy(alloc, word.octets())?));
        }
    }
    Ok(None)
}

fn same_place(one: Place, other: Place) -> bool
    ensures { result ≡ same_place one other }
{
    one.line == other.line && one.column == other.column
}

/// A copy of octets.
fn copy(alloc: Global, octets: &[u8]) -> Result<Seq<u8>, AllocError>
    ensures { IfOk result (λ copy. copy ≡ octets.now) }
{
    match Seq::from_slice(alloc, octets) {
        Ok(copy) => Ok(copy),
        Err(_) => Err(AllocError),
    }
}
