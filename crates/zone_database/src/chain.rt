//! The sets in which a zone's denials are looked up, where it has NSEC or NSEC3 sets of several chains.
ghost use Rattle.std.specs.Prelude.{◌≡◌, Some, IfOk, IsOkUnless, IsTrue, option_copied};
ghost use Rattle.zone_denial.specs.Chains.{chain_sets};
ghost use Rattle.zone_database.specs.ChainsBeside.{chain_beside, has_others};

use std::alloc::Global;
use zone_denial::chain_sets::stays;
use zone_map::{RecordMap, put_copy};
use zone_proto::{NxProofKind, ProtoError, RecordType};

/// A zone's sets without the NSEC and NSEC3 sets that don't belong to the chain by which it denies: those of another
/// chain, or of the remains of one, with which a proof mustn't be mixed (RFC 5155 section 7.3). None if it has none of
/// these, as in a zone that isn't signed, of which no set is looked at. Its only error is `Memory`.
pub(crate) fn chain_beside(
    alloc: Global,
    kind: Option<&NxProofKind>,
    records: &RecordMap,
) -> Result<Option<RecordMap>, ProtoError>
    ensures chain { IfOk result
        (λ chain. chain ≡ chain_beside (option_copied kind.entry) records.now) }
    ensures err { IsOkUnless result ProtoError.Memory }
{
    if is_mixed(kind, records) {
        Ok(Some(chain_sets(alloc, kind, records)?))
    } else {
        Ok(None)
    }
}

/// Whether a set of denial doesn't belong to the chain; the index of these sets tells where there are none.
#[tactic(auto, using(crate::proofs::NoDenials::none_beside, crate::proofs::NoDenials::names_alone))]
fn is_mixed(kind: Option<&NxProofKind>, records: &RecordMap) -> bool
    ensures { result ≡ has_others (option_copied kind.entry) records.now }
{
    if records.is_without(RecordType::NSEC3) {
        if is_by_names(kind) {
            return false;
        }
        if records.is_without(RecordType::NSEC) {
            return false;
        }
    }
    has_others(kind, records)
}

/// Whether a zone denies by NSEC.
fn is_by_names(kind: Option<&NxProofKind>) -> bool
    ensures { IsTrue result → option_copied kind.entry ≡ Some NxProofKind.Nsec }
{
    match kind {
        Some(NxProofKind::Nsec) => true,
        _ => false,
    }
}

/// The same of sets of which each is looked at.
fn has_others(kind: Option<&NxProofKind>, records: &RecordMap) -> bool
    ensures { result ≡ has_others (option_copied kind.entry) records.now }
{
    for (key, set) in records.iter() {
        if !stays(kind, key.record_type, set) {
            return true;
        }
    }
    false
}

/// Copies of the sets that stay.
fn chain_sets(
    alloc: Global,
    kind: Option<&NxProofKind>,
    records: &RecordMap,
) -> Result<RecordMap, ProtoError>
    ensures chain { IfOk result
        (λ chain. chain ≡ chain_sets (option_copied kind.entry) records.now) }
    ensures err { IsOkUnless result ProtoError.Memory }
{
    let mut chain = RecordMap::new(alloc);
    for (key, set) in records.iter() {
        if stays(kind, key.record_type, set) {
            put_copy(&mut chain, key, set)?;
        }
    }
    Ok(chain)
}
