//! Names one label below the origin of a zone that don't exist.
ghost use Rattle.std.specs.Prelude.{IfOk, IfSome, IsTrue, IsOkUnless};
ghost use Rattle.zone_response.specs.ApexDenials.{HasPlainApex, IsMissingChild};

use crate::names::{is_at_or_above, is_child};
use crate::node_sets::{exists, read_apex, read_node_sets};
use crate::question::ServedZone;
use zone_map::Counter;
use zone_proto::{LowerName, Nsec3Hash, ProtoError, RecordSet, RecordType, RrKey, Signer};

/// The SOA set of a zone, if its origin owns one and no DNAME set, and the wildcard below the origin doesn't exist: then nothing at the origin changes
/// what is said of a name one label below it that doesn't exist ([`is_missing_child`]). Its only error is `Memory`.
pub fn plain_apex<'z, S: Signer, H: Nsec3Hash>(
    zone: &ServedZone<'z, S, H>,
) -> Result<Option<&'z RecordSet>, ProtoError>
    ensures plain { IfOk result (λ soa. IfSome soa (λ s.
        HasPlainApex zone.now.inner.now.records zone.now.origin.now s.now)) }
    ensures err { IsOkUnless result ProtoError.Memory }
{
    let apex = read_apex(zone.inner, zone.origin)?;
    if apex.second_asked.is_some() {
        return Ok(None);
    }
    let Ok(wildcard) = zone.origin.prepend_label(b"*") else {
        return Ok(None);
    };
    let key = RrKey::first_of(&wildcard)?;
    let here = read_node_sets(zone.inner, &key, RecordType::NS, RecordType::NS);
    if exists(zone.inner, &key, here, &mut Counter::new()) {
        return Ok(None);
    }
    Ok(apex.first_asked)
}

/// Whether a name is one label below the origin of a zone and doesn't exist. Its only error is `Memory`.
pub fn is_missing_child<S: Signer, H: Nsec3Hash>(
    zone: &ServedZone<'_, S, H>,
    name: &LowerName,
) -> Result<bool, ProtoError>
    ensures missing { IfOk result (λ missing. IsTrue missing
        → IsMissingChild zone.now.inner.now.records zone.now.origin.now name.now) }
    ensures err { IsOkUnless result ProtoError.Memory }
{
    if !is_at_or_above(zone.origin, name) || !is_child(zone.origin, name) {
        return Ok(false);
    }
    let key = RrKey::first_of(name)?;
    let here = read_node_sets(zone.inner, &key, RecordType::NS, RecordType::NS);
    Ok(!exists(zone.inner, &key, here, &mut Counter::new()))
}
