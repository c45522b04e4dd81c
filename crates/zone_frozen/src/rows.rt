//! Changes in a list of sets in the order of their keys, in place.
ghost use Rattle.std.specs.Prelude.{◌≡◌, None, MatchOption, IfSome, option_map};
ghost use Rattle.std.specs.List.Sorted.{IsStrictlySortedBy};
ghost use Rattle.std.specs.Map.{keys_of, lookup, remove_entry, set_value};
ghost use Rattle.std.specs.Map.Calls.{CalledAtPair, RetainsPairs};
ghost use Rattle.zone_proto.specs.Keys.{key_cmp, key_eq};
ghost use Rattle.zone_proto.specs.Results.{IsInsertion};
ghost use Rattle.zone_frozen.specs.Sets.{with_step, inserted_under, BelongsUnder, IsPlaceOf};

use std::mem::replace;
use zone_proto::{ProtoError, Record, RecordSet, RrKey};

/// The place of the set under a key, if there is one.
fn place_of(rows: &[(RrKey, RecordSet)], key: &RrKey) -> Option<usize>
    requires { IsStrictlySortedBy key_cmp (keys_of rows.now) }
    ensures { MatchOption result (lookup (key_eq key.now) rows.now ≡ None)
        (IsPlaceOf rows.now key.now) }
{
    match rows.binary_search_by(|row| row.0.cmp(key)) {
        Ok(place) => Some(place),
        Err(_) => None,
    }
}

/// Takes out the set under a key, and gives it with its key. Doesn't allocate.
pub(crate) fn take_row(
    rows: &mut Vec<(RrKey, RecordSet)>,
    key: &RrKey,
) -> Option<(RrKey, RecordSet)>
    requires { IsStrictlySortedBy key_cmp (keys_of rows.old.items) }
    ensures set { option_map (λ e. e.1) result ≡ lookup (key_eq key.now) rows.old.items }
    ensures key { IfSome result (λ e. e.0 ≡ key.now) }
    ensures removed { rows.new.items ≡ remove_entry (key_eq key.now) rows.old.items }
    ensures ordered { IsStrictlySortedBy key_cmp (keys_of rows.new.items) }
{
    let place = place_of(rows.as_slice(), key)?;
    Some(rows.remove(place))
}

/// Puts a set in place of the one under a key, and gives that one. Doesn't allocate.
pub(crate) fn replace_row(
    rows: &mut Vec<(RrKey, RecordSet)>,
    key: &RrKey,
    set: RecordSet,
) -> Option<RecordSet>
    requires { IsStrictlySortedBy key_cmp (keys_of rows.old.items) }
    ensures before { result ≡ lookup (key_eq key.now) rows.old.items }
    ensures put { rows.new.items ≡ set_value (key_eq key.now) rows.old.items set }
    ensures ordered { IsStrictlySortedBy key_cmp (keys_of rows.new.items) }
{
    let place = place_of(rows.as_slice(), key)?;
    Some(replace(&mut rows[place].1, set))
}

/// Steps the serial of the set under a key, if there is one. Doesn't allocate.
pub(crate) fn step_row(rows: &mut Vec<(RrKey, RecordSet)>, key: &RrKey)
    requires { IsStrictlySortedBy key_cmp (keys_of rows.old.items) }
    ensures stepped { rows.new.items ≡ with_step key.now rows.old.items }
    ensures ordered { IsStrictlySortedBy key_cmp (keys_of rows.new.items) }
{
    if let Some(place) = place_of(rows.as_slice(), key) {
        rows[place].1.step_serial();
    }
}

/// Inserts a record into the set under a key, as [`RecordSet::insert`] says. The answer is whether it was taken; where no set is there,
/// it isn't. Fails only for want of memory, which changes nothing.
pub(crate) fn insert_in_row(
    rows: &mut Vec<(RrKey, RecordSet)>,
    key: &RrKey,
    new: Record,
    serial: u32,
) -> Result<bool, ProtoError>
    requires ordered { IsStrictlySortedBy key_cmp (keys_of rows.old.items) }
    requires belongs { BelongsUnder new key.now rows.old.items }
    ensures inserted { IsInsertion rows.old.items
        (inserted_under new serial key.now rows.old.items) result rows.new.items }
    ensures ordered { IsStrictlySortedBy key_cmp (keys_of rows.new.items) }
{
    match place_of(rows.as_slice(), key) {
        Some(place) => rows[place].1.insert(new, serial),
        None => Ok(false),
    }
}

/// Goes through the sets in their order: `keep` may change each, and answers whether it stays. Doesn't allocate.
pub(crate) fn retain_rows<F: FnMut(&RrKey, &mut RecordSet) -> bool>(
    rows: &mut Vec<(RrKey, RecordSet)>,
    mut keep: F,
)
    requires pre { (f : _) (x1 : _) (x2 : _) → F.pre f x1 x2 }
    requires ordered { IsStrictlySortedBy key_cmp (keys_of rows.old.items) }
    ensures kept { RetainsPairs (CalledAtPair F.FnMut) keep rows.old.items rows.new.items }
    ensures ordered { IsStrictlySortedBy key_cmp (keys_of rows.new.items) }
{
    rows.retain_mut(|row| keep(&row.0, &mut row.1));
}
