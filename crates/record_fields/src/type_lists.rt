//! Types to the end of an entry, and their bit map.
ghost use Rattle.std.specs.Prelude.{◌≡◌};
ghost use Rattle.record_fields.specs.Readings.{Gives};
ghost use Rattle.record_fields.specs.Fields.{Left};
ghost use Rattle.record_fields.specs.Rows.{behind};
ghost use Rattle.record_fields.specs.TypeLists.{ascending, next_type_map, next_types, types_named};

use crate::fault::{Fault, ReadError, Reason};
use crate::fields::read_record_type;
use crate::words::Words;
use message_writing::push_types;
use std::alloc::Global;
use zone_proto::RecordType;
use zone_scanner::Word;

/// Takes types to the end of the entry, in any order, and gives them ascending, each once.
///
/// # Errors
///
/// A fault at the first word that is no type of records; `Memory` if memory is refused.
pub fn take_types(alloc: Global, words: &mut Words<'_>) -> Result<Vec<RecordType>, ReadError>
    ensures { Gives (λ ts. (ts.items, words.new)) result (next_types words.old) }
{
    let rest = words.take_rest();
    let types = read_types(alloc, rest)?;
    Ok(ascending(types))
}

/// Takes types to the end of the entry, and appends their bit map.
pub(crate) fn push_type_map(
    alloc: Global,
    words: &mut Words<'_>,
    out: &mut Vec<u8>,
) -> Result<(), ReadError>
    ensures { Gives (λ _. (out.new.items, words.new)) result
        (behind out.old.items (next_type_map words.old)) }
{
    let types = take_types(alloc, words)?;
    Ok(push_types(out, types.as_slice())?)
}

/// The types that words name, in their order.
fn read_types(alloc: Global, words: &[Word]) -> Result<Vec<RecordType>, ReadError>
    ensures { Gives (λ ts. ts.items) result (types_named words.now) }
{
    let mut types = Vec::new(alloc);
    for word in words {
        let Some(record_type) = read_record_type(alloc, word.octets())? else {
            return Err(ReadError::Fault(Fault {
                place: word.place(),
                reason: Reason::Type,
            }));
        };
        types.push(record_type)?;
    }
    Ok(types)
}

/// Types in ascending order, each once.
fn ascending(mut types: Vec<RecordType>) -> Vec<RecordType>
    ensures { result.items ≡ ascending types.items }
{
    types.sort_unstable();
    types.dedup();
    types
}
