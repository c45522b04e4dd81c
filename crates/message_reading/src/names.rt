//! Names read from a message.
ghost use Rattle.std.specs.Prelude.{◌≡◌, IfOk, option_map};
ghost use Rattle.message_reading.specs.Octets.{alone};
ghost use Rattle.message_reading.specs.MessageNames.{name_of, plain_name_of};

use crate::name_octets::name_octets;
use std::alloc::Global;
use zone_proto::{Name, ProtoError};

/// The name that the octets at the offset `at` of a message begin with, in the case in which it is there, and what
/// follows it. Its pointers are followed: each leads before the octets that it is reached from, and not into the header
/// (RFC 1035 section 4.1.4). None if it doesn't end within the octets, has more than 255 octets, a pointer that leads
/// elsewhere, or a reserved octet in place of a length. Fails only for lack of memory; none is taken where its wire
/// form has at most 31 octets.
pub fn name_of<'o>(
    alloc: Global,
    message: &'o [u8],
    at: usize,
    octets: &'o [u8],
) -> Result<Option<(Name, &'o [u8])>, ProtoError>
    ensures { IfOk result (λ found. option_map (λ x. (x.0, x.1.now)) found
        ≡ name_of message.now at octets.now) }
{
    match name_octets(alloc, message, at, octets)? {
        None => Ok(None),
        Some((text, rest)) => Ok(Some((Name::from_wire(alloc, text.as_slice())?, rest))),
    }
}

/// The name that the octets at an offset of a message are.
pub(crate) fn only_name_of(
    alloc: Global,
    message: &[u8],
    at: usize,
    octets: &[u8],
) -> Result<Option<Name>, ProtoError>
    ensures { IfOk result (λ found. found ≡ alone (name_of message.now at octets.now)) }
{
    match name_of(alloc, message, at, octets)? {
        Some((name, [])) => Ok(Some(name)),
        _ => Ok(None),
    }
}

/// The name without pointers that octets begin with, in the case in which it is there, and what follows it; none if it
/// has a pointer, or as in `name_of`. Fails only for lack of memory.
pub fn plain_name_of(alloc: Global, octets: &[u8]) -> Result<Option<(Name, &[u8])>, ProtoError>
    ensures { IfOk result (λ found. option_map (λ x. (x.0, x.1.now)) found
        ≡ plain_name_of octets.now) }
{
    name_of(alloc, &[], 0, octets)
}
