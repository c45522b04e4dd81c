//! Type bit maps (RFC 4034 section 4.1.2).
ghost use Rattle.std.specs.Prelude.{◌≡◌, ◌≤◌, ◌<◌, ◌+◌, ◌*◌, ◌++◌, map, IfOk, IfSome, OnOk, length, option_map};
ghost use Rattle.message_reading.specs.TypeMaps.{bit_of, bits_from, block_of, ends_in_bits, is_passed_over, set_bits, type_numbered, types_of, weights};

use crate::octets::{octet_of, octets_of};
use std::alloc::{AllocError, Global};
use zone_proto::{ProtoError, RecordType, Seq};

/// The types of a type bit map (RFC 4034 section 4.1.2), in ascending order, but for those that no data of a zone have; none if the
/// octets aren't a map: blocks of windows that ascend, each of 1 to 32 octets, the last of which isn't 0. No block is a map of no types.
///
/// # Errors
///
/// `Memory` if memory is refused.
pub fn types_of(alloc: Global, octets: &[u8]) -> Result<Option<Seq<RecordType>>, ProtoError>
    ensures { IfOk result (λ types. types ≡ types_of octets.now) }
{
    let mut types = Vec::new(alloc);
    let mut lowest = 0usize;
    let mut rest = octets;
    for _ in 0..257usize {
        let Some((first, behind)) = rest.split_first() else {
            return Ok(Some(Seq::from_vec(types)));
        };
        let window = usize::from(*first);
        if window < lowest {
            return Ok(None);
        }
        let Some((bits, next)) = block_of(behind) else {
            return Ok(None);
        };
        push_bits(&mut types, window * 256, bits)?;
        lowest = window + 1;
        rest = next;
    }
    Ok(None)
}

/// The octets of a block behind its window, and what follows them.
fn block_of(octets: &[u8]) -> Option<(&[u8], &[u8])>
    ensures value { option_map (λ x. (x.0.now, x.1.now)) result ≡ block_of octets.now }
    ensures short { IfSome result (λ x. length x.0.now ≤ 32) }
{
    let (count, rest) = octet_of(octets)?;
    let (bits, rest) = octets_of(usize::from(count), rest)?;
    if count <= 32 && ends_in_bits(bits) {
        Some((bits, rest))
    } else {
        None
    }
}

/// Whether there are octets, and the last one is not 0.
fn ends_in_bits(bits: &[u8]) -> bool
    ensures { result ≡ ends_in_bits bits.now }
{
    match bits {
        [.., last] => *last != 0,
        [] => false,
    }
}

/// Appends the types of the bits that are set in octets, whose bits are numbered from a number on.
fn push_bits(types: &mut Vec<RecordType>, first: usize, bits: &[u8]) -> Result<(), AllocError>
    requires { first + 8 * length bits.now ≤ 65536 }
    ensures { OnOk result (types.new.items
        ≡ types.old.items ++ map type_numbered (bits_from first bits.now)) }
{
    let mut number = first;
    for octet in bits {
        push_octet(types, number, *octet)?;
        number += 8;
    }
    Ok(())
}

/// Appends the types of the bits that are set in an octet.
fn push_octet(types: &mut Vec<RecordType>, number: usize, octet: u8) -> Result<(), AllocError>
    requires { number + 8 ≤ 65536 }
    ensures { OnOk result (types.new.items
        ≡ types.old.items ++ map type_numbered (set_bits weights number octet)) }
{
    push_bit(types, number, octet / 128 % 2 == 1)?;
    push_bit(types, number + 1, octet / 64 % 2 == 1)?;
    push_bit(types, number + 2, octet / 32 % 2 == 1)?;
    push_bit(types, number + 3, octet / 16 % 2 == 1)?;
    push_bit(types, number + 4, octet / 8 % 2 == 1)?;
    push_bit(types, number + 5, octet / 4 % 2 == 1)?;
    push_bit(types, number + 6, octet / 2 % 2 == 1)?;
    push_bit(types, number + 7, octet % 2 == 1)?;
    Ok(())
}

/// Appends the type of a bit that is set, unless it is passed over.
fn push_bit(types: &mut Vec<RecordType>, number: usize, set: bool) -> Result<(), AllocError>
    requires { number < 65536 }
    ensures { OnOk result (types.new.items
        ≡ types.old.items ++ map type_numbered (bit_of number set)) }
{
    if set && !is_passed_over(number) {
        types.push(RecordType(number as u16))?;
    }
    Ok(())
}

/// Whether the bit of a type is passed over: that of OPT, and those of types of queries alone.
fn is_passed_over(number: usize) -> bool
    ensures { result ≡ is_passed_over number }
{
    number == 41 || (249 <= number && number <= 255)
}
