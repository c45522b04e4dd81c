//! Lists of types, compared with what is at their names.
ghost use Rattle.std.specs.Prelude.{◌≡◌, IfOk, IsTrue, OnOk};
ghost use Rattle.zone_denial.specs.Chains.{is_stated_at_delegation};
ghost use Rattle.zone_verify.specs.ChainSets.{sets_of};
ghost use Rattle.zone_verify.specs.Lists.{IsKeyListed, IsListed, MayAllBeListed, MayBeListed, is_signed, is_stated_at};

use crate::chain_sets::ChainSets;
use crate::fault::{ChainFault, told};
use zone_proto::{LowerName, ProtoError, RecordType, RrKey};

/// A name with a list of types.
#[derive(Clone, Copy, Drop)]
pub(crate) struct Site<'s> {
    pub(crate) name: &'s LowerName,
    /// Whether it is a delegation, where lists tell of some types only.
    pub(crate) is_delegation: bool,
    /// The type of the set that has the list: NSEC or NSEC3.
    pub(crate) denial: RecordType,
}

impl Site<'_> {
    /// Whether a list tells of a type whether that is there.
    fn is_stated(&self, record_type: RecordType) -> bool
        ensures { result ≡ is_stated_at self.now.is_delegation record_type.0 }
    {
        !self.is_delegation || is_stated_at_delegation(record_type)
    }
}

/// Whether a list tells of a type at a delegation (RFC 4035 section 2.3, RFC 6840 section 4.1).
fn is_stated_at_delegation(record_type: RecordType) -> bool
    ensures { result ≡ is_stated_at_delegation record_type.0 }
{
    record_type == RecordType::NS
        || (record_type == RecordType::CNAME
            || (record_type == RecordType::SOA || record_type == RecordType::DS))
}

/// Checks that the name owns the listed types, as far as the list says anything of them; RRSIG may be listed anywhere, NSEC where
/// the zone has it, of this chain or not, and NSEC3 nowhere.
///
/// # Errors
///
/// Refused by `Lists` for the first that doesn't, and by `Memory`.
pub(crate) fn check_list(
    sets: &ChainSets<'_>,
    site: &Site<'_>,
    types: &[RecordType],
) -> Result<(), ChainFault>
    ensures ok { OnOk result
        (MayAllBeListed sets.now.records.now (sets_of sets.now) site.now.name.now
        site.now.is_delegation types.now) }
{
    for record_type in types {
        check_listed(sets, site, *record_type)?;
    }
    Ok(())
}

/// Checks that a listed type is there, as far as the list tells of it.
fn check_listed(
    sets: &ChainSets<'_>,
    site: &Site<'_>,
    record_type: RecordType,
) -> Result<(), ChainFault>
    ensures ok { OnOk result
        (MayBeListed sets.now.records.now (sets_of sets.now) site.now.name.now
        site.now.is_delegation record_type.0) }
{
    if stands(sets, site, record_type)? {
        return Ok(());
    }
    Err(ChainFault::Lists(told(site.name)?, site.denial, record_type))
}

/// Whether a type may be listed: it is there, or the list doesn't tell of it. Its only error is `Memory`.
fn stands(
    sets: &ChainSets<'_>,
    site: &Site<'_>,
    record_type: RecordType,
) -> Result<bool, ProtoError>
    ensures { IfOk result
        (λ may. IsTrue may
        → MayBeListed sets.now.records.now (sets_of sets.now) site.now.name.now
        site.now.is_delegation record_type.0) }
{
    if record_type == RecordType::NSEC3 {
        return Ok(false);
    }
    if record_type == RecordType::RRSIG || !site.is_stated(record_type) {
        return Ok(true);
    }
    if record_type == RecordType::NSEC {
        return sets.owns_beside(site.name, record_type);
    }
    sets.owns(site.name, record_type)
}

/// Checks that a key's type is listed at its name, as far as the list tells of it, and RRSIG where its set is signed.
///
/// # Errors
///
/// Refused by `Lacks` where it isn't, and by `Memory`.
pub(crate) fn check_key(
    sets: &ChainSets<'_>,
    site: &Site<'_>,
    types: &[RecordType],
    key: &RrKey,
) -> Result<(), ChainFault>
    ensures { OnOk result
        (IsKeyListed (sets_of sets.now) site.now.is_delegation types.now key.now) }
{
    if site.is_stated(key.record_type) {
        require_listed(site, types, key.record_type)?;
    }
    if !site.is_delegation && is_signed(sets, key) {
        require_listed(site, types, RecordType::RRSIG)?;
    }
    Ok(())
}

/// Whether the set of a key has signatures, or is one of signatures.
fn is_signed(sets: &ChainSets<'_>, key: &RrKey) -> bool
    ensures { result ≡ is_signed (sets_of sets.now) key.now }
{
    match sets.at(key) {
        Some(set) => key.record_type == RecordType::RRSIG || !set.rrsigs().is_empty(),
        None => false,
    }
}

/// Checks that a type is listed.
pub(crate) fn require_listed(
    site: &Site<'_>,
    types: &[RecordType],
    record_type: RecordType,
) -> Result<(), ChainFault>
    ensures { OnOk result (IsListed types.now record_type.0) }
{
    if is_listed(types, record_type) {
        return Ok(());
    }
    Err(ChainFault::Lacks(told(site.name)?, site.denial, record_type))
}

/// Whether a type is listed. A list that was read is in ascending order, so binary search finds it; any other is read through.
fn is_listed(types: &[RecordType], record_type: RecordType) -> bool
    ensures { IsTrue result → IsListed types.now record_type.0 }
{
    match types.binary_search(&record_type) {
        Ok(_) => true,
        Err(_) => types.contains(&record_type),
    }
}
