//! Whether a list of types is the one that a denial has for keys, found without making that.
ghost use Rattle.std.specs.Prelude.{◌≡◌, ℕ, ◌<◌, List, ◌∷◌, ◌++◌, map, IfSome, IsTrue};
ghost use Rattle.std.specs.Ordering.{nat_cmp};
ghost use Rattle.zone_proto.specs.Types.{NSEC as nsec, RRSIG as rrsig};
ghost use Rattle.zone_denial.specs.TypeLists.{joined};

use crate::type_list::count_below;
use zone_proto::{RecordType, RrKey};

/// Whether a list of types is that of keys that ascend, with RRSIG and NSEC, each once; no where a key is of one of the two.
pub(crate) fn lists_types(types: &[RecordType], keys: &[&RrKey]) -> bool
    ensures { IsTrue result → map (λ t. t.0) types.now
        ≡ joined nat_cmp nsec (joined nat_cmp rrsig (map (λ k. k.now.record_type.0) keys.now)) }
{
    let below = count_below(types, RecordType::RRSIG);
    if below > keys.len() {
        return false;
    }
    let (low, high) = keys.split_at(below);
    if !begins_above(high) {
        return false;
    }
    let Some(left) = after_all(types, low, high) else {
        return false;
    };
    left.is_empty()
}

/// Whether the first key, if there is one, is of a type greater than NSEC.
fn begins_above(keys: &[&RrKey]) -> bool
    ensures { IsTrue result → (first : ℕ) (others : List ℕ)
        → map (λ k. k.now.record_type.0) keys.now ≡ first ∷ others → nsec < first }
{
    match keys.first() {
        Some(first) => first.record_type > RecordType::NSEC,
        None => true,
    }
}

/// What is left of a list of types behind those of keys, RRSIG, NSEC, and those of other keys, if it begins with these.
fn after_all<'t>(
    types: &'t [RecordType],
    low: &[&RrKey],
    high: &[&RrKey],
) -> Option<&'t [RecordType]>
    ensures { IfSome result
        (λ left. map (λ t. t.0) types.now
        ≡ map (λ k. k.now.record_type.0) low.now
        ++ (rrsig
        ∷ (nsec
        ∷ (map (λ k. k.now.record_type.0) high.now ++ map (λ t. t.0) left.now)))) }
{
    let left = after_types(types, low)?;
    let left = after_type(left, RecordType::RRSIG)?;
    let left = after_type(left, RecordType::NSEC)?;
    after_types(left, high)
}

/// What is left of a list of types behind those of keys, if it begins with these.
fn after_types<'t>(types: &'t [RecordType], keys: &[&RrKey]) -> Option<&'t [RecordType]>
    ensures { IfSome result
        (λ left. map (λ t. t.0) types.now
        ≡ map (λ k. k.now.record_type.0) keys.now ++ map (λ t. t.0) left.now) }
{
    let mut left = types;
    for key in keys {
        left = after_type(left, key.record_type)?;
    }
    Some(left)
}

/// What is left of a list of types behind the first, if that is this one.
fn after_type(types: &[RecordType], record_type: RecordType) -> Option<&[RecordType]>
    ensures { IfSome result
        (λ left. map (λ t. t.0) types.now ≡ record_type.0 ∷ map (λ t. t.0) left.now) }
{
    let (first, left) = types.split_first()?;
    (*first == record_type).then_some(left)
}
