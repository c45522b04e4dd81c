//! The signatures of a set in canonical form and order.
ghost use Rattle.std.specs.Prelude.{◌≡◌, ◌++◌, map, IfOk, IfErr, OnOk};
ghost use Rattle.std.specs.List.{All};
ghost use Rattle.zone_planning.specs.Faults.{AreShort, IsUnwritableUnless};
ghost use Rattle.zone_planning.specs.Canonical.{in_order};
ghost use Rattle.zone_digest.specs.Faults.{IsWritableSignature};
ghost use Rattle.zone_digest.specs.ZoneText.{signature_octets, signatures_text};

use message_writing::push_plain_data;
use std::alloc::Global;
use zone_planning::{PlanFault, in_order, push_records};
use zone_proto::{LowerName, Name, RData, Record, RecordSet, RecordType, Seq};

/// Appends the signatures of a set, with its TTL. Refused by `Unwritable` for data that no octets are, and by `Memory`.
pub(crate) fn push_signatures(out: &mut Vec<u8>, set: &RecordSet) -> Result<(), PlanFault>
    ensures ok { OnOk result (out.new.items ≡ out.old.items ++ signatures_text set.now) }
    ensures err { IfErr result
        (λ e. IsUnwritableUnless e
        (All (λ r. IsWritableSignature r.rdata) set.now.signatures
        × AreShort (in_order (map (λ r. signature_octets r.rdata) set.now.signatures)))) }
{
    let texts = in_order(signature_forms(*out.allocator(), set.rrsigs())?);
    let owner = set.name().wire_lower()?;
    push_records(
        out,
        owner.as_slice(),
        RecordType::RRSIG.0,
        set.ttl(),
        texts.as_slice(),
    )
}

/// The data of signatures in canonical form, in their order. Refused by `Unwritable` and `Memory`.
fn signature_forms(alloc: Global, signatures: &[Record]) -> Result<Vec<Seq<u8>>, PlanFault>
    ensures ok { IfOk result
        (λ forms. forms.items ≡ map (λ r. signature_octets r.rdata) signatures.now) }
    ensures err { IfErr result
        (λ e. IsUnwritableUnless e (All (λ r. IsWritableSignature r.rdata) signatures.now)) }
{
    let mut forms = Vec::with_capacity(alloc, signatures.len())?;
    for signature in signatures {
        forms.push(signature_octets(alloc, &signature.rdata)?)?;
    }
    Ok(forms)
}

/// The data of a signature in canonical form. Refused by `Unwritable` and `Memory`.
fn signature_octets(alloc: Global, rdata: &RData) -> Result<Seq<u8>, PlanFault>
    ensures ok { IfOk result (λ octets. octets ≡ signature_octets rdata.now) }
    ensures err { IfErr result (λ e. IsUnwritableUnless e (IsWritableSignature rdata.now)) }
{
    let mut out = Vec::new(alloc);
    match rdata {
        RData::RRSIG(rrsig) => {
            let mut lowered = rrsig.clone()?;
            lowered.signer_name = Name::from(LowerName::new(&rrsig.signer_name)?);
            push_plain_data(alloc, &mut out, &RData::RRSIG(lowered))?;
        }
        other => push_plain_data(alloc, &mut out, other)?,
    }
    Ok(Seq::from_vec(out))
}
