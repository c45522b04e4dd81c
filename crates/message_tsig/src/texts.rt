//! Numbers and octets written.
ghost use Rattle.std.specs.Prelude.{◌≡◌, ◌++◌, OnOk, IfOk};
ghost use Rattle.message_tsig.specs.Texts.{counted_text, short_text, time_text, with_additionals};

use crate::octets::{behind, front};
use std::alloc::{AllocError, Global};

/// Appends a number of 16 bits, the high octet first.
pub(crate) fn push_short(out: &mut Vec<u8>, number: u16) -> Result<(), AllocError>
    ensures { OnOk result (out.new.items ≡ out.old.items ++ short_text number) }
{
    out.push((number / 256) as u8)?;
    out.push((number % 256) as u8)?;
    Ok(())
}

/// Appends the last two octets of a number.
fn push_low(out: &mut Vec<u8>, number: u64) -> Result<(), AllocError>
    ensures { OnOk result (out.new.items ≡ out.old.items ++ short_text number) }
{
    out.push((number / 256 % 256) as u8)?;
    out.push((number % 256) as u8)?;
    Ok(())
}

/// Appends a number of 48 bits, the high octets first.
pub(crate) fn push_time(out: &mut Vec<u8>, number: u64) -> Result<(), AllocError>
    ensures { OnOk result (out.new.items ≡ out.old.items ++ time_text number) }
{
    push_low(out, number / 4294967296)?;
    push_low(out, number / 65536)?;
    push_low(out, number)
}

/// Appends octets behind the number of them.
pub(crate) fn push_counted(out: &mut Vec<u8>, octets: &[u8]) -> Result<(), AllocError>
    ensures { OnOk result (out.new.items ≡ out.old.items ++ counted_text octets.now) }
{
    push_low(out, octets.len() as u64)?;
    out.extend_from_slice(octets)
}

/// A message with another count of additional records, and room for so many octets behind it.
pub(crate) fn with_additionals(
    alloc: Global,
    count: u16,
    message: &[u8],
    room: usize,
) -> Result<Vec<u8>, AllocError>
    ensures { IfOk result (λ out. out.items ≡ with_additionals count message.now) }
{
    let mut out = Vec::with_capacity(alloc, message.len().saturating_add(room))?;
    out.extend_from_slice(front(message, 10))?;
    push_short(&mut out, count)?;
    out.extend_from_slice(behind(message, 12))?;
    Ok(out)
}
