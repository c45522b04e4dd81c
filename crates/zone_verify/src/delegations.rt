//! What is at and above a name: zone cuts and DNAME.
ghost use Rattle.std.specs.Prelude.{◌≡◌, IfOk, IsOkUnless, IsTrue};
ghost use Rattle.zone_denial.specs.Chains.{is_below_dname, is_delegation, is_insecure_delegation};
ghost use Rattle.zone_verify.specs.ChainSets.{sets_of};

use crate::chain_sets::ChainSets;
use zone_denial::authoritative_keys::is_above;
use zone_proto::{LowerName, ProtoError, RecordType};

/// Whether a name is a delegation: strictly below the origin, with NS and without SOA (RFC 1034 section 4.2). Its only
/// error is `Memory`.
pub(crate) fn is_delegation(
    sets: &ChainSets<'_>,
    origin: &LowerName,
    name: &LowerName,
) -> Result<bool, ProtoError>
    ensures ok { IfOk result (λ is. is ≡ is_delegation origin.now (sets_of sets.now) name.now) }
    ensures err { IsOkUnless result ProtoError.Memory }
{
    if !is_above(origin, name) || !sets.owns(name, RecordType::NS)? {
        return Ok(false);
    }
    Ok(!sets.owns(name, RecordType::SOA)?)
}

/// Whether a name is a delegation without DS (RFC 5155 section 1.3). Its only error is `Memory`.
pub(crate) fn is_insecure_delegation(
    sets: &ChainSets<'_>,
    origin: &LowerName,
    name: &LowerName,
) -> Result<bool, ProtoError>
    ensures ok { IfOk result
        (λ is. is ≡ is_insecure_delegation origin.now (sets_of sets.now) name.now) }
    ensures err { IsOkUnless result ProtoError.Memory }
{
    if !is_delegation(sets, origin, name)? {
        return Ok(false);
    }
    Ok(!sets.owns(name, RecordType::DS)?)
}

/// Whether a DNAME is above a name, so that what the name owns is never answered (RFC 6672 section 2.4). It looks at
/// each ancestor. Its only error is `Memory`.
pub(crate) fn is_below_dname(sets: &ChainSets<'_>, name: &LowerName) -> Result<bool, ProtoError>
    ensures ok { IfOk result
        (λ is. IsTrue is → IsTrue (is_below_dname (sets_of sets.now) name.now)) }
    ensures err { IsOkUnless result ProtoError.Memory }
{
    let mut ancestor = name.clone()?;
    for _step in 0..name.num_labels() {
        ancestor.shorten();
        if sets.owns(&ancestor, RecordType::DNAME)? {
            return Ok(true);
        }
    }
    Ok(false)
}
