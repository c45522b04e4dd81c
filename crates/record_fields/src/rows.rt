//! Data read by a row of the table, field by field.
ghost use Rattle.std.specs.Prelude.{◌≡◌};
ghost use Rattle.record_fields.specs.Readings.{Gives};
ghost use Rattle.record_fields.specs.Fields.{Left};
ghost use Rattle.record_fields.specs.Rows.{behind, fields_of, next_ending, next_field, next_fields, next_row};

use crate::fault::ReadError;
use crate::field::{Ending, Field, Fields};
use crate::fields::{take_algorithm, take_ipv4, take_type, take_u8, take_u16, take_u32};
use crate::hosts::{push_gateway, push_identity, push_relay};
use crate::lines::push_location;
use crate::names::{push_name, push_names};
use crate::parameters::push_parameters;
use crate::parts::{
    push_access_point, push_eui48, push_eui64, push_groups, push_tag, take_certificate_type,
    take_digest_type, take_scheme,
};
use crate::prefixes::push_prefixes;
use crate::table::Row;
use crate::texts::{
    push_base64, push_base64_if_there, push_hex, push_octets, push_string, push_string_if_there,
    push_strings,
};
use crate::type_lists::push_type_map;
use crate::words::Words;
use message_writing::{push_long, push_short};
use std::alloc::Global;
use zone_proto::Name;

/// Takes the data of a type that has this row, and gives their octets, in wire form and without pointers. Names are completed by
/// the origin where they aren't absolute.
///
/// # Errors
///
/// The first fault of the words; `Memory` if memory is refused.
#[tactic(auto, using(crate::proofs::RowFacts::field_more, crate::proofs::RowFacts::row_fails, crate::proofs::RowFacts::behind_nothing))]
pub fn take_row(
    alloc: Global,
    origin: &Name,
    row: &Row,
    words: &mut Words<'_>,
) -> Result<Vec<u8>, ReadError>
    ensures { Gives (λ os. (os.items, words.new)) result (next_row origin.now row.now words.old) }
{
    let mut octets = Vec::new(alloc);
    let mut left = row.1;
    while let Some((field, others)) = left.split_first() {
        push_field(alloc, origin, field, words, &mut octets)?;
        left = others;
    }
    push_ending(alloc, origin, row.2, words, &mut octets)?;
    Ok(octets)
}

/// Takes a field, and appends its octets.
fn push_field(
    alloc: Global,
    origin: &Name,
    field: Field,
    words: &mut Words<'_>,
    out: &mut Vec<u8>,
) -> Result<(), ReadError>
    ensures { Gives (λ _. (out.new.items, words.new)) result
        (behind out.old.items (next_field origin.now field words.old)) }
{
    match field {
        Field::Number8 => Ok(out.push(take_u8(words)?)?),
        Field::Number16 => Ok(push_short(out, take_u16(words)?)?),
        Field::Number32 => Ok(push_long(out, take_u32(words)?)?),
        Field::Algorithm => Ok(out.push(take_algorithm(alloc, words)?)?),
        Field::DigestType => Ok(out.push(take_digest_type(alloc, words)?)?),
        Field::CertificateType => Ok(push_short(out, take_certificate_type(alloc, words)?)?),
        Field::RecordType => Ok(push_short(out, take_type(alloc, words)?.0)?),
        Field::Scheme => Ok(out.push(take_scheme(alloc, words)?)?),
        Field::Ipv4 => Ok(out.extend_from_slice(&take_ipv4(words)?)?),
        Field::Name => push_name(alloc, origin, words, out),
        Field::Text => push_string(alloc, words, out),
        Field::Tag => push_tag(words, out),
        Field::Groups => push_groups(alloc, words, out),
        Field::Eui48 => push_eui48(alloc, words, out),
        Field::Eui64 => push_eui64(alloc, words, out),
        Field::Gateway => push_gateway(alloc, origin, words, out),
        Field::Relay => push_relay(alloc, origin, words, out),
        Field::Identity => push_identity(alloc, words, out),
    }
}

/// Takes what stands behind the fields, and appends its octets.
fn push_ending(
    alloc: Global,
    origin: &Name,
    ending: Ending,
    words: &mut Words<'_>,
    out: &mut Vec<u8>,
) -> Result<(), ReadError>
    ensures { Gives (λ _. (out.new.items, words.new)) result
        (behind out.old.items (next_ending origin.now ending words.old)) }
{
    match ending {
        Ending::Nothing => Ok(()),
        Ending::Texts => push_strings(alloc, words, out),
        Ending::TextIfThere => push_string_if_there(alloc, words, out),
        Ending::Octets => push_octets(alloc, words, out),
        Ending::Hex => push_hex(alloc, words, out),
        Ending::Base64 => push_base64(alloc, words, out),
        Ending::Base64IfThere => push_base64_if_there(alloc, words, out),
        Ending::Names => push_names(alloc, origin, words, out),
        Ending::Parameters => push_parameters(alloc, words, out),
        Ending::Types => push_type_map(alloc, words, out),
        Ending::Location => push_location(alloc, words, out),
        Ending::Prefixes => push_prefixes(alloc, words, out),
        Ending::AccessPoint => push_access_point(alloc, words, out),
    }
}
