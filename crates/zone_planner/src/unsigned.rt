//! The sets of a zone that nobody signs.
ghost use Rattle.std.specs.Prelude.{◌≡◌, ◌==◌, ◌||◌, true, false, IsTrue, IfOk, IsOkUnless};
ghost use Rattle.std.specs.Option.{ForSome, IsSomeAnd};
ghost use Rattle.zone_planner.specs.Zones.{is_cut, left_out};

use crate::zone::is_below;
use std::alloc::Global;
use zone_denial::authoritative_keys::is_above;
use zone_map::RecordMap;
use zone_proto::{LowerName, ProtoError, RecordType, RrKey};

/// The keys of the sets that nobody signs: those of names below a zone cut, and at one all but DS and NSEC (RFC 4035 section 2.2), in
/// order. Refused by `Memory` alone.
pub(crate) fn left_out(
    alloc: Global,
    origin: &LowerName,
    records: &RecordMap,
) -> Result<Vec<RrKey>, ProtoError>
    ensures ok { IfOk result (λ keys. keys.items ≡ left_out origin.now records.now) }
    ensures err { IsOkUnless result ProtoError.Memory }
{
    let mut keys = Vec::new(alloc);
    // The names below a zone cut stand together after it, so only the last cut without one above it matters for those that follow.
    let mut cut = None;
    let mut no_cut = None;
    for (key, _) in records.iter() {
        if is_below(cut, &key.name) {
            keys.push(key.clone()?)?;
            continue;
        }
        if !is_cut_knowing(origin, records, cut, no_cut, &key.name)? {
            no_cut = Some(&key.name);
            continue;
        }
        cut = Some(&key.name);
        if !is_parents(key.record_type) {
            keys.push(key.clone()?)?;
        }
    }
    Ok(keys)
}

/// Whether a name is a zone cut, where it is known of one name that it is, and of another that it isn't. Refused by `Memory` alone.
fn is_cut_knowing(
    origin: &LowerName,
    records: &RecordMap,
    cut: Option<&LowerName>,
    no_cut: Option<&LowerName>,
    name: &LowerName,
) -> Result<bool, ProtoError>
    requires cut { ForSome cut (λ a. is_cut origin.now records.now a.now ≡ true) }
    requires no_cut { ForSome no_cut (λ a. is_cut origin.now records.now a.now ≡ false) }
    ensures ok { IfOk result (λ is. is ≡ is_cut origin.now records.now name.now) }
    ensures err { IsOkUnless result ProtoError.Memory }
{
    if is_same(cut, name) {
        return Ok(true);
    }
    if is_same(no_cut, name) {
        return Ok(false);
    }
    is_cut(origin, records, name)
}

/// Whether a name is another, if there is one.
fn is_same(other: Option<&LowerName>, name: &LowerName) -> bool
    ensures { IsTrue result → IsSomeAnd other.entry (λ a. a.now ≡ name.now) }
{
    match other {
        Some(other) => other == name,
        None => false,
    }
}

/// Whether a name is a zone cut: it stands strictly below the origin, and owns NS (RFC 1034 section 4.2). Refused by `Memory` alone.
fn is_cut(origin: &LowerName, records: &RecordMap, name: &LowerName) -> Result<bool, ProtoError>
    ensures ok { IfOk result (λ is. is ≡ is_cut origin.now records.now name.now) }
    ensures err { IsOkUnless result ProtoError.Memory }
{
    if !is_above(origin, name) {
        return Ok(false);
    }
    let key = RrKey::new(name.clone()?, RecordType::NS);
    Ok(records.get(&key).is_some())
}

/// Whether a set of the type at a zone cut is the parent's: DS or NSEC (RFC 4035 section 2.2).
fn is_parents(record_type: RecordType) -> bool
    ensures { result ≡ (record_type.0 == 43) || (record_type.0 == 47) }
{
    record_type == RecordType::DS || record_type == RecordType::NSEC
}
