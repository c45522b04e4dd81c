//! Type bit maps, printed behind a text.
ghost use Rattle.std.specs.Prelude.{◌≡◌, Some, None, IfOk, if◌then◌else◌, string_bytes};
ghost use Rattle.zone_file_writer.specs.Rows.{ended};
ghost use Rattle.zone_file_writer.specs.TypeLists.{ascend_from, if_map_of, is_map_of, types_words};

use crate::types::TypesText;
use message_reading::types_of;
use message_writing::push_types;
use record_fields::is_of_messages;
use std::alloc::{AllocError, Global};
use std::fmt::Write;
use zone_proto::RecordType;

/// Appends the types of a type bit map, and gives whether the octets are the map of types of records.
#[tactic(auto, using(crate::proofs::TypeTexts::listed, crate::proofs::TypeTexts::no_map))]
pub(crate) fn push_type_list(
    alloc: Global,
    octets: &[u8],
    text: &mut String,
) -> Result<bool, AllocError>
    ensures { IfOk result (λ is. (if is then Some (string_bytes text.new) else None)
        ≡ ended (string_bytes text.old) (types_words octets.now)) }
{
    match types_of(alloc, octets) {
        Ok(Some(types)) => push_listed(alloc, types.as_slice(), octets, text),
        Ok(None) => Ok(false),
        Err(_) => Err(AllocError),
    }
}

/// Appends types, if octets are their map.
#[tactic(auto, using(crate::proofs::TypeTexts::types_printed, crate::proofs::TypeTexts::other_map))]
fn push_listed(
    alloc: Global,
    types: &[RecordType],
    octets: &[u8],
    text: &mut String,
) -> Result<bool, AllocError>
    ensures { IfOk result (λ is. (if is then Some (string_bytes text.new) else None)
        ≡ ended (string_bytes text.old) (if_map_of octets.now types.now)) }
{
    if !is_map_of(alloc, types, octets)? {
        return Ok(false);
    }
    write!(text, "{}", TypesText(types))?;
    Ok(true)
}

/// Whether octets are the map of types that ascend, each once, and that records have.
fn is_map_of(alloc: Global, types: &[RecordType], octets: &[u8]) -> Result<bool, AllocError>
    ensures { IfOk result (λ is. is ≡ is_map_of octets.now types.now) }
{
    if !ascend(types) {
        return Ok(false);
    }
    let mut map = Vec::new(alloc);
    push_types(&mut map, types)?;
    Ok(map.as_slice() == octets)
}

/// Whether types ascend, each once, and records have each of them.
fn ascend(types: &[RecordType]) -> bool
    ensures { result ≡ ascend_from 0 types.now }
{
    let mut least = 0u32;
    for record_type in types {
        let number = u32::from(record_type.0);
        if number < least || is_of_messages(*record_type) {
            return false;
        }
        least = number + 1;
    }
    true
}
