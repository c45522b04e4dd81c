//! The octets that a signature is made of (RFC 4034 section 3.1.8.1).
ghost use Rattle.std.specs.Prelude.{◌≡◌, ◌≤◌, ◌++◌, length, OnOk, IfErr, IsOkUnless};
ghost use Rattle.message_writing.specs.DataText.{fixed_text};
ghost use Rattle.zone_planning.specs.Canonical.{canonical_set};
ghost use Rattle.zone_planning.specs.Faults.{AreShort, AreWritable, IsUnwritableUnless};
ghost use Rattle.zone_planning.specs.SignedData.{front_text, record_text, records_text, set_text, signed_data};

use crate::fault::PlanFault;
use crate::ordering::canonical_set;
use message_writing::{push_long, push_short};
use std::alloc::AllocError;
use zone_proto::{ProtoError, RRSIG, RecordSet, Seq};

/// Appends what the signature of a set is made of: the data of its RRSIG record up to the signer, whose name is in lower case,
/// and the records of the set in canonical form and order. Refused by `Unwritable` for data that no octets are, and by
/// `Memory`.
#[tactic(auto, unfolding(crate::specs::SignedData::signed_data))]
pub fn push_signed_data(out: &mut Vec<u8>, rrsig: &RRSIG, set: &RecordSet) -> Result<(), PlanFault>
    ensures ok { OnOk result (out.new.items ≡ out.old.items ++ signed_data rrsig.now set.now) }
    ensures err { IfErr result
        (λ e. IsUnwritableUnless e
        (AreWritable set.now.records × AreShort (canonical_set set.now.records))) }
{
    push_front(out, rrsig)?;
    push_set(out, rrsig.original_ttl, set)
}

/// Appends the data of an RRSIG record up to the signature.
#[tactic(auto, unfolding(crate::specs::SignedData::front_text))]
fn push_front(out: &mut Vec<u8>, rrsig: &RRSIG) -> Result<(), ProtoError>
    ensures ok { OnOk result (out.new.items ≡ out.old.items ++ front_text rrsig.now) }
    ensures err { IsOkUnless result ProtoError.Memory }
{
    let signer = rrsig.signer_name.wire_lower()?;
    push_fixed(out, rrsig)?;
    out.extend_from_slice(signer.as_slice())?;
    Ok(())
}

/// Appends the records of a set in canonical form and order, each once, with this TTL in seconds (RFC 4034 section 6). Refused by
/// `Unwritable` for data that no octets are, and by `Memory`.
#[tactic(auto, unfolding(crate::specs::SignedData::set_text))]
pub fn push_set(out: &mut Vec<u8>, ttl: u32, set: &RecordSet) -> Result<(), PlanFault>
    ensures ok { OnOk result (out.new.items ≡ out.old.items ++ set_text ttl set.now) }
    ensures err { IfErr result
        (λ e. IsUnwritableUnless e
        (AreWritable set.now.records × AreShort (canonical_set set.now.records))) }
{
    let texts = canonical_set(*out.allocator(), set.as_slice())?;
    let owner = set.name().wire_lower()?;
    push_records(
        out,
        owner.as_slice(),
        set.record_type().0,
        ttl,
        texts.as_slice(),
    )
}

/// Appends records of class IN of an owner in wire form, of this type and TTL in seconds, and of these data, in their order. Refused by
/// `Unwritable` for data of more than 65,535 octets, and by `Memory`.
pub fn push_records(
    out: &mut Vec<u8>,
    owner: &[u8],
    record_type: u16,
    ttl: u32,
    texts: &[Seq<u8>],
) -> Result<(), PlanFault>
    ensures ok { OnOk result
        (out.new.items ≡ out.old.items ++ records_text owner.now record_type ttl texts.now) }
    ensures err { IfErr result (λ e. IsUnwritableUnless e (AreShort texts.now)) }
{
    for octets in texts {
        push_record(out, owner, record_type, ttl, octets.as_slice())?;
    }
    Ok(())
}

/// Appends the numbers of a signature.
fn push_fixed(out: &mut Vec<u8>, rrsig: &RRSIG) -> Result<(), AllocError>
    ensures { OnOk result
        (out.new.items ≡ out.old.items ++ fixed_text rrsig.now) }
{
    push_short(out, rrsig.type_covered.0)?;
    out.push(rrsig.algorithm)?;
    out.push(rrsig.num_labels)?;
    push_long(out, rrsig.original_ttl)?;
    push_long(out, rrsig.expiration)?;
    push_long(out, rrsig.inception)?;
    push_short(out, rrsig.key_tag)
}

/// Appends a record of class IN, of these octets.
fn push_record(
    out: &mut Vec<u8>,
    owner: &[u8],
    record_type: u16,
    ttl: u32,
    octets: &[u8],
) -> Result<(), PlanFault>
    ensures ok { OnOk result
        (out.new.items
        ≡ out.old.items ++ record_text owner.now record_type ttl octets.now) }
    ensures err { IfErr result (λ e. IsUnwritableUnless e (length octets.now ≤ 65535)) }
{
    if octets.len() > 65535 {
        return Err(PlanFault::Unwritable);
    }
    out.extend_from_slice(owner)?;
    push_short(out, record_type)?;
    push_short(out, 1)?;
    push_long(out, ttl)?;
    push_short(out, octets.len() as u16)?;
    out.extend_from_slice(octets)?;
    Ok(())
}
