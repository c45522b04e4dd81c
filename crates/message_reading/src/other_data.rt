//! The data of types without a case of their own.
ghost use Rattle.std.specs.Prelude.{◌≡◌, ◌≤◌, false, IfOk, length, option_map};
ghost use Rattle.zone_proto.specs.Types.{has_own_case};
ghost use Rattle.message_reading.specs.DataForms.{data_of};
ghost use Rattle.message_reading.specs.OtherForms.{form_of, in_form, with_names};
ghost use Rattle.message_reading.specs.Octets.{past};

use crate::name_octets::name_octets;
use crate::octets::{octets_of, past};
use std::alloc::Global;
use zone_proto::{OtherData, ProtoError, RData, RecordType};

/// The data of a type that has no case of its own: its octets, in the form in which they have no pointers.
pub(crate) fn other_data_of(
    alloc: Global,
    record_type: RecordType,
    message: &[u8],
    at: usize,
    octets: &[u8],
) -> Result<Option<RData>, ProtoError>
    requires inside { at ≤ length message.now }
    requires other { has_own_case record_type.0 ≡ false }
    ensures { IfOk result (λ rdata. rdata ≡ data_of record_type.0 message.now at octets.now) }
{
    let Some(plain) = in_form(alloc, form_of(record_type), message, at, octets)? else {
        return Ok(None);
    };
    match OtherData::new(record_type, plain) {
        None => Ok(None),
        Some(other) => Ok(Some(RData::Other(other))),
    }
}

/// How many octets come before the names of the data of a type, and how many names follow; none of a type without
/// pointers.
fn form_of(record_type: RecordType) -> Option<(usize, usize)>
    ensures { result ≡ form_of record_type.0 }
{
    match record_type.0 {
        3 | 4 | 7 | 8 | 9 | 12 => Some((0, 1)),
        14 | 17 => Some((0, 2)),
        18 | 21 => Some((2, 1)),
        _ => None,
    }
}

/// Octets of a form, without pointers.
fn in_form(
    alloc: Global,
    form: Option<(usize, usize)>,
    message: &[u8],
    at: usize,
    octets: &[u8],
) -> Result<Option<Vec<u8>>, ProtoError>
    requires { at ≤ length message.now }
    ensures { IfOk result (λ plain. option_map (λ v. v.items) plain
        ≡ in_form form message.now at octets.now) }
{
    let Some((count, names)) = form else {
        return Ok(Some(Vec::from_slice(alloc, octets)?));
    };
    let Some((front, rest)) = octets_of(count, octets) else {
        return Ok(None);
    };
    let plain = Vec::from_slice(alloc, front)?;
    with_names(alloc, plain, names, message, at, octets, rest)
}

/// These octets, and then so many names, to the end of what is left of octets that are at an offset of a message.
fn with_names(
    alloc: Global,
    mut plain: Vec<u8>,
    names: usize,
    message: &[u8],
    at: usize,
    octets: &[u8],
    left: &[u8],
) -> Result<Option<Vec<u8>>, ProtoError>
    requires { at ≤ length message.now }
    ensures { IfOk result (λ v. option_map (λ v. v.items) v
        ≡ with_names plain.items names message.now (past at octets.now) left.now) }
{
    let mut rest = left;
    for _ in 0..names {
        match name_octets(alloc, message, past(at, octets, rest), rest)? {
            None => return Ok(None),
            Some((text, next)) => {
                plain.extend_from_slice(text.as_slice())?;
                rest = next;
            }
        }
    }
    if rest.is_empty() {
        Ok(Some(plain))
    } else {
        Ok(None)
    }
}
