//! What is to be signed, as octets.
ghost use Rattle.std.specs.Prelude.{◌≡◌, ◌++◌, [], ◌∷◌, OnOk, IfErr};
ghost use Rattle.zone_planning.specs.Blank.{single};
ghost use Rattle.zone_planning.specs.Faults.{IsSignable, IsSignableBy, IsUnwritableUnless};
ghost use Rattle.zone_planning.specs.Frames.{end_text, frame, frames, asked_by, asked_from, asked_of};
ghost use Rattle.zone_planning.specs.SignedData.{signed_data};

use crate::blank::single;
use crate::fault::PlanFault;
use crate::signed_data::push_signed_data;
use message_writing::push_long;
use std::alloc::AllocError;
use zone_proto::{RData, RRSIG, RecordSet};

/// Appends a frame for each blank signature of a set, in order: the number of its key in one octet, how many octets follow in
/// four, and the octets that its signature is to be made of (RFC 4034 section 3.1.8.1). Refused by `Unwritable` for data that no
/// octets are, and by `Memory`.
pub fn push_frames(out: &mut Vec<u8>, set: &RecordSet) -> Result<(), PlanFault>
    ensures ok { OnOk result (out.new.items ≡ out.old.items ++ frames (asked_of set.now)) }
    ensures err { IfErr result (λ e. IsUnwritableUnless e (IsSignable set.now)) }
{
    for record in set.rrsigs() {
        if let RData::RRSIG(rrsig) = &record.rdata {
            if let Some(number) = single(rrsig.signature.as_slice()) {
                push_frame(out, number, rrsig, set)?;
            }
        }
    }
    Ok(())
}

/// Appends what stands behind the last frame: one of no octets.
pub fn push_end(out: &mut Vec<u8>) -> Result<(), AllocError>
    ensures { OnOk result (out.new.items ≡ out.old.items ++ end_text) }
{
    out.extend_from_slice(&[0, 0, 0, 0, 0])
}

/// Appends the frame of a blank signature, in whose place stands this number.
fn push_frame(
    out: &mut Vec<u8>,
    number: u8,
    rrsig: &RRSIG,
    set: &RecordSet,
) -> Result<(), PlanFault>
    ensures ok { OnOk result
        (out.new.items
        ≡ out.old.items
        ++ frame (record { number = number; octets = signed_data rrsig.now set.now })) }
    ensures err { IfErr result
        (λ e. IsUnwritableUnless e (IsSignableBy set.now (RData.RRSIG rrsig.now))) }
{
    let mut octets = Vec::new(*out.allocator());
    push_signed_data(&mut octets, rrsig, set)?;
    if octets.len() > 4294967295 {
        return Err(PlanFault::Unwritable);
    }
    out.push(number)?;
    push_long(out, octets.len() as u32)?;
    out.extend_from_slice(octets.as_slice())?;
    Ok(())
}
