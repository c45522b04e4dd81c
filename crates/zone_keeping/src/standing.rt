//! Signatures that stand in a plan, handed over to be verified.
ghost use Rattle.std.specs.Prelude.{◌≡◌, ◌++◌, OnOk, IfErr};
ghost use Rattle.zone_planning.specs.Faults.{IsUnwritableUnless};
ghost use Rattle.zone_planning.specs.SignedData.{signed_data};
ghost use Rattle.zone_keeping.specs.Faults.{AreVerifiable, IsVerifiable};
ghost use Rattle.zone_keeping.specs.Standing.{end_text, standing_from, standing_of, standing_text, standing_texts};

use message_writing::{push_long, push_short};
use std::alloc::AllocError;
use zone_planning::{PlanFault, blank_number, push_signed_data};
use zone_proto::{RData, RRSIG, RecordSet};

/// Appends each signature of a set that isn't blank, in order, with what it is made of (RFC 4034 section 3.1.8.1): how many octets
/// that is in four octets, the octets, the length of the signature in two, and the signature.
///
/// # Errors
///
/// Refused by `Unwritable` for a set with data that no octets are and for lengths that don't fit, and by `Memory`.
pub fn push_standing(out: &mut Vec<u8>, set: &RecordSet) -> Result<(), PlanFault>
    ensures ok { OnOk result
        (out.new.items ≡ out.old.items ++ standing_texts (standing_of set.now)) }
    ensures err { IfErr result (λ e. IsUnwritableUnless e (AreVerifiable set.now)) }
{
    for record in set.rrsigs() {
        if let RData::RRSIG(rrsig) = &record.rdata {
            if blank_number(record).is_none() {
                push_one(out, rrsig, set)?;
            }
        }
    }
    Ok(())
}

/// Appends what comes after the last signature: four octets that are 0.
pub fn push_standing_end(out: &mut Vec<u8>) -> Result<(), AllocError>
    ensures { OnOk result (out.new.items ≡ out.old.items ++ end_text) }
{
    out.extend_from_slice(&[0, 0, 0, 0])
}

/// Appends a signature of a set with what it is made of.
fn push_one(out: &mut Vec<u8>, rrsig: &RRSIG, set: &RecordSet) -> Result<(), PlanFault>
    ensures ok { OnOk result
        (out.new.items
        ≡ out.old.items
        ++ standing_text
        (record { octets = signed_data rrsig.now set.now; signature = rrsig.now.signature })) }
    ensures err { IfErr result (λ e. IsUnwritableUnless e (IsVerifiable set.now rrsig.now)) }
{
    let mut octets = Vec::new(*out.allocator());
    push_signed_data(&mut octets, rrsig, set)?;
    let signature = rrsig.signature.as_slice();
    if octets.len() > 4294967295 || signature.len() > 65535 {
        return Err(PlanFault::Unwritable);
    }
    push_long(out, octets.len() as u32)?;
    out.extend_from_slice(octets.as_slice())?;
    push_short(out, signature.len() as u16)?;
    out.extend_from_slice(signature)?;
    Ok(())
}
