//! The names that a change of a zone affects: those that may come to have an NSEC3 set, lose theirs, or have another one.
ghost use Rattle.std.specs.Prelude.{◌≡◌, ◌++◌, ◌∷◌, [], ◌==◌, ◌&&◌, filter, flat_map, IfOk, OnOk, IsOkUnless};
ghost use Rattle.std.specs.List.Sorted.{IsStrictlySortedBy};
ghost use Rattle.zone_proto.specs.Names.{Name, name_cmp, is_above, is_at_or_above};
ghost use Rattle.zone_map.specs.Zones.{names_of};
ghost use Rattle.hashed_changes.specs.Among.{is_among};
ghost use Rattle.hashed_changes.specs.Affected.{is_affected, makes_cut};
ghost use Rattle.hashed_changes.specs.AffectedNames.{affected_by, all_affected, with_ancestors};

use crate::authority::is_at_or_above;
use std::alloc::Global;
use zone_denial::authoritative_keys::is_above;
use zone_map::RecordMap;
use zone_proto::{LowerName, ProtoError, RecordType, RrKey};

/// The names whose NSEC3 sets sets that came or went under these keys may make others, in the zone after that, ascending, each once: the owners of these
/// sets, and strictly below the origin the names above them and those below a zone cut that came or went (RFC 5155 section 7.1).
///
/// # Errors
///
/// `Memory`.
pub fn affected_names(
    alloc: Global,
    zone: &RecordMap,
    origin: &LowerName,
    keys: &[RrKey],
) -> Result<Vec<LowerName>, ProtoError>
    ensures names { IfOk result (λ names. (n : Name)
        → is_among names.items n ≡ is_affected origin.now zone.now keys.now n) }
    ensures ascending { IfOk result (λ names. IsStrictlySortedBy name_cmp names.items) }
    ensures err { IsOkUnless result ProtoError.Memory }
{
    let mut names = all_affected(alloc, zone, origin, keys)?;
    put_in_order(&mut names);
    Ok(names)
}

/// Sorts names, and leaves out those that stand there more than once. Takes no memory.
fn put_in_order(names: &mut Vec<LowerName>)
    ensures names { (n : Name) → is_among names.new.items n ≡ is_among names.old.items n }
    ensures ascending { IsStrictlySortedBy name_cmp names.new.items }
{
    names.sort_unstable();
    names.dedup();
}

/// These names in the order of the keys, some more than once. Refused by `Memory` alone.
fn all_affected(
    alloc: Global,
    zone: &RecordMap,
    origin: &LowerName,
    keys: &[RrKey],
) -> Result<Vec<LowerName>, ProtoError>
    ensures ok { IfOk result
        (λ names. names.items ≡ all_affected origin.now zone.now keys.now) }
    ensures err { IsOkUnless result ProtoError.Memory }
{
    let mut names = Vec::new(alloc);
    for key in keys {
        push_affected(zone, origin, key, &mut names)?;
    }
    Ok(names)
}

/// Puts the names that a set of a key affects behind others. Refused by `Memory` alone.
#[tactic(auto, using(crate::proofs::AffectedPushed::affected_alone, crate::proofs::AffectedPushed::affected_with))]
fn push_affected(
    zone: &RecordMap,
    origin: &LowerName,
    key: &RrKey,
    names: &mut Vec<LowerName>,
) -> Result<(), ProtoError>
    ensures ok { OnOk result
        (names.new.items ≡ names.old.items ++ affected_by origin.now zone.now key.now) }
    ensures err { IsOkUnless result ProtoError.Memory }
{
    push_with_ancestors(origin, &key.name, names)?;
    if !makes_cut(origin, key) {
        return Ok(());
    }
    push_below(zone, origin, &key.name, names)?;
    Ok(())
}

/// Whether a set of a key makes a zone cut.
fn makes_cut(origin: &LowerName, key: &RrKey) -> bool
    ensures { result ≡ makes_cut origin.now key.now }
{
    key.record_type == RecordType::NS && is_above(origin, &key.name)
}

/// Puts the names at or below one that own sets behind others, with the ancestors of each. Refused by `Memory` alone.
fn push_below(
    zone: &RecordMap,
    origin: &LowerName,
    name: &LowerName,
    names: &mut Vec<LowerName>,
) -> Result<(), ProtoError>
    ensures ok { OnOk result (names.new.items
        ≡ names.old.items
        ++ flat_map (with_ancestors origin.now)
        (filter (is_at_or_above name.now) (names_of zone.now))) }
    ensures err { IsOkUnless result ProtoError.Memory }
{
    let least = RrKey::first_of(name)?;
    for (key, _) in zone.as_map().from(&least) {
        if !is_at_or_above(name, &key.name) {
            break;
        }
        push_with_ancestors(origin, &key.name, names)?;
    }
    Ok(())
}

/// Puts a name behind others, and its ancestors strictly below the origin. Refused by `Memory` alone.
fn push_with_ancestors(
    origin: &LowerName,
    name: &LowerName,
    names: &mut Vec<LowerName>,
) -> Result<(), ProtoError>
    ensures ok { OnOk result
        (names.new.items ≡ names.old.items ++ with_ancestors origin.now name.now) }
    ensures err { IsOkUnless result ProtoError.Memory }
{
    names.push(name.clone()?)?;
    let mut ancestor = name.clone()?;
    while !ancestor.is_root() {
        ancestor.shorten();
        push_if_below(origin, &ancestor, names)?;
    }
    Ok(())
}

/// Puts a name behind others, if it is strictly below the origin. Refused by `Memory` alone.
#[tactic(auto, using(crate::proofs::AffectedPushed::pushed_below, crate::proofs::AffectedPushed::not_pushed))]
fn push_if_below(
    origin: &LowerName,
    name: &LowerName,
    names: &mut Vec<LowerName>,
) -> Result<(), ProtoError>
    ensures ok { OnOk result
        (names.new.items ≡ names.old.items ++ filter (is_above origin.now) (name.now ∷ [])) }
    ensures err { IsOkUnless result ProtoError.Memory }
{
    if is_above(origin, name) {
        names.push(name.clone()?)?;
    }
    Ok(())
}
