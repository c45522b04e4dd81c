//! Octets, numbers, labels and pointers at the end of a message.
ghost use Rattle.std.specs.Prelude.{◌≡◌, ◌≤◌, ◌<◌, ◌∷◌, [], ◌++◌, ◌+◌, ◌/◌, ◌%◌, OnOk, length, take, drop};
ghost use Rattle.message_writing.specs.DataText.{short_text, long_text};

use std::alloc::AllocError;

/// Appends a number of 16 bits, the high octet first (RFC 1035 section 2.3.2). Refused for lack of memory.
pub fn push_short(out: &mut Vec<u8>, number: u16) -> Result<(), AllocError>
    ensures { OnOk result (out.new.items ≡ out.old.items ++ short_text number) }
{
    out.push((number / 256) as u8)?;
    out.push((number % 256) as u8)?;
    Ok(())
}

/// Appends a label behind its length.
pub(crate) fn push_label(out: &mut Vec<u8>, label: &[u8]) -> Result<(), AllocError>
    requires { length label.now ≤ 63 }
    ensures { OnOk result (out.new.items ≡ out.old.items ++ length label.now ∷ label.now) }
{
    out.push(label.len() as u8)?;
    out.extend_from_slice(label)
}

/// Appends a pointer to an offset (RFC 1035 section 4.1.4).
pub(crate) fn push_pointer(out: &mut Vec<u8>, offset: u16) -> Result<(), AllocError>
    requires { offset < 16384 }
    ensures { OnOk result (out.new.items
        ≡ out.old.items ++ (192 + offset / 256) ∷ (offset % 256) ∷ []) }
{
    out.push((192 + offset / 256) as u8)?;
    out.push((offset % 256) as u8)?;
    Ok(())
}

/// Appends a number of 32 bits, the high octet first (RFC 1035 section 2.3.2). Refused for lack of memory.
pub fn push_long(out: &mut Vec<u8>, number: u32) -> Result<(), AllocError>
    ensures { OnOk result (out.new.items ≡ out.old.items ++ long_text number) }
{
    let high = number / 65536;
    let low = number % 65536;
    out.extend_from_slice(&[
        (high / 256) as u8,
        (high % 256) as u8,
        (low / 256) as u8,
        (low % 256) as u8,
    ])
}

/// Puts two octets in place of others.
#[tactic(auto, using(crate::proofs::Placed::two_placed))]
pub(crate) fn put_octets(out: &mut Vec<u8>, at: usize, first: u8, second: u8)
    requires { at + 2 ≤ length out.old.items }
    ensures { out.new.items
        ≡ take at out.old.items ++ (first ∷ second ∷ drop (at + 2) out.old.items) }
{
    let octets = out.as_mut_slice();
    octets[at] = first;
    octets[at + 1] = second;
}

/// Puts a number of 16 bits in place of two octets.
pub(crate) fn put_short(out: &mut Vec<u8>, at: usize, number: u16)
    requires { at + 2 ≤ length out.old.items }
    ensures { out.new.items
        ≡ take at out.old.items ++ (short_text number ++ drop (at + 2) out.old.items) }
{
    put_octets(out, at, (number / 256) as u8, (number % 256) as u8);
}
