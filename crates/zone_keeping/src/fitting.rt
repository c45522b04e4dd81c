//! Which standing signature fits into the place of a blank one.
ghost use Rattle.std.specs.Prelude.{◌≡◌, IfOk, IfErr, None, Some, option_map};
ghost use Rattle.zone_proto.specs.Signing.{signed_part};
ghost use Rattle.zone_planning.specs.Faults.{IsUnwritableUnless};
ghost use Rattle.zone_planning.specs.Filling.{is_as_long};
ghost use Rattle.zone_planning.specs.SignedData.{signed_data};
ghost use Rattle.zone_keeping.specs.Faults.{AreComparable};
ghost use Rattle.zone_keeping.specs.Fitting.{first_fit, fits, is_alike, is_made, is_same};

use crate::span::Span;
use std::alloc::Global;
use zone_keys::signature_length;
use zone_planning::{PlanFault, push_signed_data};
use zone_proto::{DNSKEY, RData, RRSIG, RecordSet};

/// The first signature of a set of the old zone that fits into the place of a blank one of a set, which a key is to make, if there is
/// one.
pub(crate) fn first_fit<'a>(
    alloc: Global,
    span: &Span,
    key: &DNSKEY,
    set: &RecordSet,
    old: &'a RecordSet,
    blank: &RRSIG,
) -> Result<Option<&'a RRSIG>, PlanFault>
    ensures ok { IfOk result
        (λ found. option_map (λ r. r.now) found
        ≡ first_fit span.now key.now (signed_part set.now) old.now blank.now old.now.signatures) }
    ensures err { IfErr result (λ e. IsUnwritableUnless e (AreComparable old.now set.now)) }
{
    for record in old.rrsigs() {
        if let RData::RRSIG(rrsig) = &record.rdata {
            if fits(alloc, span, key, set, old, blank, rrsig)? {
                return Ok(Some(rrsig));
            }
        }
    }
    Ok(None)
}

/// Whether a signature of a set of the old zone fits into the place of a blank one of a set, which a key is to make.
fn fits(
    alloc: Global,
    span: &Span,
    key: &DNSKEY,
    set: &RecordSet,
    old: &RecordSet,
    blank: &RRSIG,
    rrsig: &RRSIG,
) -> Result<bool, PlanFault>
    ensures ok { IfOk result
        (λ fit. fit ≡ fits span.now key.now (signed_part set.now) old.now blank.now rrsig.now) }
    ensures err { IfErr result (λ e. IsUnwritableUnless e (AreComparable old.now set.now)) }
{
    if !is_alike(blank, rrsig) || !span.is_within(rrsig) || !is_made(key, rrsig) {
        return Ok(false);
    }
    is_same(alloc, set, old, rrsig)
}

/// Whether a signature is by the key that is to make a blank one, and of a set of the same type, labels and TTL.
fn is_alike(blank: &RRSIG, rrsig: &RRSIG) -> bool
    ensures { result ≡ is_alike blank.now rrsig.now }
{
    rrsig.type_covered == blank.type_covered
        && rrsig.algorithm == blank.algorithm
        && rrsig.num_labels == blank.num_labels
        && rrsig.original_ttl == blank.original_ttl
        && rrsig.key_tag == blank.key_tag
        && rrsig.signer_name == blank.signer_name
}

/// Whether a signature is not blank, and as long as those of a key, where its algorithm tells that.
fn is_made(key: &DNSKEY, rrsig: &RRSIG) -> bool
    ensures { result ≡ is_made key.now rrsig.now }
{
    let octets = rrsig.signature.as_slice();
    octets.len() != 1 && is_as_long(key, octets)
}

/// Whether octets are as many as a signature of a key has, where its algorithm tells that.
fn is_as_long(key: &DNSKEY, octets: &[u8]) -> bool
    ensures { result ≡ is_as_long key.now octets.now }
{
    match signature_length(key) {
        Some(length) => octets.len() == length,
        None => true,
    }
}

/// Whether a signature of a set of the old zone is made of the octets that it would be made of for this set.
#[tactic(auto, using(crate::proofs::SameOctets::data_of_part))]
fn is_same(
    alloc: Global,
    set: &RecordSet,
    old: &RecordSet,
    rrsig: &RRSIG,
) -> Result<bool, PlanFault>
    ensures ok { IfOk result
        (λ same. same ≡ is_same (signed_part set.now) old.now rrsig.now) }
    ensures err { IfErr result (λ e. IsUnwritableUnless e (AreComparable old.now set.now)) }
{
    let mut ours = Vec::new(alloc);
    push_signed_data(&mut ours, rrsig, set)?;
    let mut theirs = Vec::new(alloc);
    push_signed_data(&mut theirs, rrsig, old)?;
    Ok(ours.as_slice() == theirs.as_slice())
}
