//! Data that the words to the end of an entry write together, read as one line.
ghost use Rattle.std.specs.Prelude.{◌≡◌};
ghost use Rattle.record_fields.specs.Readings.{Gives, after};
ghost use Rattle.record_fields.specs.Fields.{Left};
ghost use Rattle.record_fields.specs.Lines.{first_place, line_of, next_location};
ghost use Rattle.record_fields.specs.Rows.{behind};

use crate::fault::{Fault, ReadError, Reason};
use crate::locations::read_location;
use crate::words::Words;
use std::alloc::Global;
use zone_scanner::{Place, Word};

/// Takes a location to the end of the entry, and appends its octets.
pub(crate) fn push_location(
    alloc: Global,
    words: &mut Words<'_>,
    out: &mut Vec<u8>,
) -> Result<(), ReadError>
    ensures { Gives (λ _. (out.new.items, words.new)) result
        (behind out.old.items (next_location words.old)) }
{
    let place = words.place();
    let rest = words.take_rest();
    let mut line = Vec::new(alloc);
    push_words(rest, &mut line)?;
    match read_location(alloc, line.as_slice())? {
        Some(octets) => Ok(out.extend_from_slice(octets.as_slice())?),
        None => Err(ReadError::Fault(Fault {
            place: first_place(place, rest),
            reason: Reason::Location,
        })),
    }
}

/// The place of the first of words, or that of the word before them.
fn first_place(before: Place, words: &[Word]) -> Place
    ensures { result ≡ first_place before words.now }
{
    match words {
        [] => before,
        [word, ..] => word.place(),
    }
}

/// Appends words, each behind a space. A fault if one is in quotes.
fn push_words(words: &[Word], line: &mut Vec<u8>) -> Result<(), ReadError>
    ensures { Gives (λ _. line.new.items) result (after line.old.items (line_of words.now)) }
{
    for word in words {
        if word.is_quoted() {
            return Err(ReadError::Fault(Fault {
                place: word.place(),
                reason: Reason::Quoted,
            }));
        }
        line.push(b' ')?;
        line.extend_from_slice(word.octets())?;
    }
    Ok(())
}
