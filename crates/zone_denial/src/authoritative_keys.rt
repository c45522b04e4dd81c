//! The keys of the sets at the names that a zone is authoritative for, found in one pass over its sets.
ghost use Rattle.std.specs.Prelude.{◌≡◌, ◌==◌, ◌&&◌, not, false, map, option_map, IfOk, OnOk, IsOkUnless};
ghost use Rattle.std.specs.Option.{option_map_or};
ghost use Rattle.zone_proto.specs.Names.{is_above, is_at_or_above};
ghost use Rattle.zone_proto.specs.Types.{NS};
ghost use Rattle.zone_map.specs.Zones.{IsZone};
ghost use Rattle.zone_denial.specs.AuthoritativeKeys.{authoritative_keys, counts, cut_after, next_cut};

use zone_map::RecordMap;
use zone_proto::{LowerName, ProtoError, RecordType, RrKey};

/// The keys of the sets at the names that the zone of this origin is authoritative for, in order; those of the type
/// that denies, NSEC or NSEC3, are left out (RFC 4035 section 2.3, RFC 5155 section 7.1). Its only error is `Memory`.
pub(crate) fn authoritative_keys<'a>(
    records: &'a RecordMap,
    origin: &LowerName,
    denial: RecordType,
) -> Result<Vec<&'a RrKey>, ProtoError>
    ensures ok { IfOk result
        (λ keys. map (λ k. k.now) keys.items ≡ authoritative_keys origin.now records.now denial.0) }
    ensures zone { OnOk result (IsZone records.now) }
    ensures err { IsOkUnless result ProtoError.Memory }
{
    let mut keys = Vec::with_capacity(origin.alloc(), records.len())?;
    let mut cut = None;
    for (key, _) in records.iter() {
        if counts(origin, denial, &mut cut, key) {
            keys.push(key)?;
        }
    }
    Ok(keys)
}

/// Whether the key that comes next in a pass over the sets of a zone, in order, counts: it is of another type than the one that
/// denies, and the zone of this origin is authoritative for its name (RFC 4035 section 2.3).
///
/// `cut` is the last zone cut that has none above it: none when the pass begins, then kept by this call. The names below a zone cut
/// come together after it, so it decides for all that follow, until another name comes.
pub fn counts<'k>(
    origin: &LowerName,
    denial: RecordType,
    cut: &mut Option<&'k LowerName>,
    key: &'k RrKey,
) -> bool
    ensures counted { result
        ≡ counts origin.now denial.0 (option_map (λ a. a.now) cut.old) key.now }
    ensures cut { option_map (λ a. a.now) cut.new
        ≡ next_cut origin.now (option_map (λ a. a.now) cut.old) key.now }
{
    if is_below(*cut, &key.name) {
        return false;
    }
    *cut = next_cut(origin, *cut, key);
    is_listed(origin, denial, key)
}

/// The zone cut that names after this key may be below, where the key itself is below none.
fn next_cut<'a>(
    origin: &LowerName,
    cut: Option<&'a LowerName>,
    key: &'a RrKey,
) -> Option<&'a LowerName>
    ensures { option_map (λ a. a.now) result
        ≡ cut_after origin.now (option_map (λ a. a.now) cut.entry) key.now }
{
    if is_cut(origin, key) {
        return Some(&key.name);
    }
    match cut {
        Some(cut) if *cut == key.name => Some(cut),
        _ => None,
    }
}

/// Whether a key makes its name a zone cut: that of an NS set strictly below the origin (RFC 1034 section 4.2).
fn is_cut(origin: &LowerName, key: &RrKey) -> bool
    ensures { result ≡ (key.now.record_type.0 == NS) && is_above origin.now key.now.name }
{
    key.record_type == RecordType::NS && is_above(origin, &key.name)
}

/// Whether the denial of its name lists the type of a key, where no zone cut is above the name.
fn is_listed(origin: &LowerName, denial: RecordType, key: &RrKey) -> bool
    ensures { result
        ≡ not (key.now.record_type.0 == denial.0) && is_at_or_above origin.now key.now.name }
{
    key.record_type != denial && origin.zone_of(&key.name)
}

/// Whether a name is below a zone cut, if there is one.
fn is_below(cut: Option<&LowerName>, name: &LowerName) -> bool
    ensures { result ≡ option_map_or (λ a. is_above a.now name.now) cut.entry false }
{
    match cut {
        Some(cut) => is_above(cut, name),
        None => false,
    }
}

/// Whether a name is a proper ancestor of another.
pub fn is_above(ancestor: &LowerName, name: &LowerName) -> bool
    ensures { result ≡ is_above ancestor.now name.now }
{
    ancestor.zone_of(name) && ancestor != name
}
