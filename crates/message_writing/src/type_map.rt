//! Type bit maps, written (RFC 4034 section 4.1.2).
ghost use Rattle.std.specs.Prelude.{◌≡◌, ◌≤◌, ◌<◌, ◌+◌, ◌++◌, OnOk, length};
ghost use Rattle.message_reading.specs.TypeMaps.{weights};
ghost use Rattle.message_writing.specs.DataText.{types_text};
ghost use Rattle.message_writing.specs.TypeMapText.{bit_taken, bits_taken, block_text, numbers, run_length, window_text};

use std::alloc::AllocError;
use zone_proto::RecordType;

/// Appends the type bit map of types (RFC 4034 section 4.1.2), which ascend: a block for each window that has one.
///
/// # Errors
///
/// `AllocError` if memory is refused; octets of the map may stand in `out` then.
pub fn push_types(out: &mut Vec<u8>, types: &[RecordType]) -> Result<(), AllocError>
    ensures { OnOk result (out.new.items ≡ out.old.items ++ types_text types.now) }
{
    let mut left = types;
    for _ in 0..256usize {
        let Some((first, others)) = left.split_first() else {
            return Ok(());
        };
        let count = 1 + run_length(first.0 / 256, others);
        let (block, rest) = left.split_at(count);
        push_block(out, block)?;
        left = rest;
    }
    Ok(())
}

/// How many types at the front belong to a window.
fn run_length(window: u16, types: &[RecordType]) -> usize
    ensures value { result ≡ run_length window (numbers types.now) }
    ensures within { result ≤ length types.now }
{
    let mut count = 0usize;
    for record_type in types {
        if record_type.0 / 256 != window {
            return count;
        }
        count += 1;
    }
    count
}

/// Appends the block of types of one window.
fn push_block(out: &mut Vec<u8>, types: &[RecordType]) -> Result<(), AllocError>
    ensures { OnOk result (out.new.items ≡ out.old.items ++ block_text (numbers types.now)) }
{
    let Some((first, _)) = types.split_first() else {
        return Ok(());
    };
    let Some((last, _)) = types.split_last() else {
        return Ok(());
    };
    push_window(out, first.0, last.0, types)
}

/// Appends the block of the types from a lowest to a highest number: that of their window, how many octets reach up to the highest,
/// and the octets.
fn push_window(
    out: &mut Vec<u8>,
    lowest: u16,
    highest: u16,
    types: &[RecordType],
) -> Result<(), AllocError>
    ensures { OnOk result (out.new.items ≡ out.old.items ++ window_text lowest highest
        (numbers types.now)) }
{
    let window = lowest / 256;
    let count = highest % 256 / 8 + 1;
    out.push(window as u8)?;
    out.push(count as u8)?;
    let mut left = types;
    let mut number = u32::from(window) * 256;
    for _ in 0..count {
        let (octet, rest) = octet_taken(number, left);
        out.push(octet)?;
        left = rest;
        number += 8;
    }
    Ok(())
}

/// The octet of the eight types that are numbered from a number on, where these are at the front, and the types that
/// are left.
fn octet_taken(number: u32, types: &[RecordType]) -> (u8, &[RecordType])
    requires { number < 65536 }
    ensures octet { result.0 ≡ (bits_taken weights number (numbers types.now)).0 }
    ensures rest { numbers result.1.now ≡ (bits_taken weights number (numbers types.now)).1 }
{
    let (bit0, left) = bit_taken(128, number, types);
    let (bit1, left) = bit_taken(64, number + 1, left);
    let (bit2, left) = bit_taken(32, number + 2, left);
    let (bit3, left) = bit_taken(16, number + 3, left);
    let (bit4, left) = bit_taken(8, number + 4, left);
    let (bit5, left) = bit_taken(4, number + 5, left);
    let (bit6, left) = bit_taken(2, number + 6, left);
    let (bit7, left) = bit_taken(1, number + 7, left);
    (
        bit0 + (bit1 + (bit2 + (bit3 + (bit4 + (bit5 + (bit6 + bit7)))))),
        left,
    )
}

/// The weight of a bit where the type of its number is at the front, else 0, and the types that are left.
fn bit_taken(weight: u8, number: u32, types: &[RecordType]) -> (u8, &[RecordType])
    ensures small { result.0 ≤ weight }
    ensures bit { result.0 ≡ (bit_taken weight number (numbers types.now)).0 }
    ensures rest { numbers result.1.now ≡ (bit_taken weight number (numbers types.now)).1 }
{
    match types {
        [first, rest @ ..] if u32::from(first.0) == number => (weight, rest),
        _ => (0, types),
    }
}
