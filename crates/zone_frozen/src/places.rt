//! Places in a list of sets in the order of their keys: where those from a key on start, and which set is the last before a place.
ghost use Rattle.std.specs.Prelude.{◌≡◌, ◌≤◌, ◌<◌, ◌-◌, true, IsTrue, drop, take, length, option_copied};
ghost use Rattle.std.specs.List.{HoldsAt};
ghost use Rattle.std.specs.List.Sorted.{IsStrictlySortedBy};
ghost use Rattle.std.specs.Map.{keys_of};
ghost use Rattle.std.specs.declared.cmp.Ordering.TheVariants.{Less};
ghost use Rattle.zone_proto.specs.Keys.{key_cmp};
ghost use Rattle.zone_proto.specs.Order.{is_upto};
ghost use Rattle.zone_frozen.specs.Sets.{sets_upto, EndsWith, StartsAt};

use crate::hints::Hints;
use zone_proto::{RecordSet, RrKey};

/// Where the sets from a key on start: where the hints say, if that is so, else by a binary search.
pub(crate) fn start_of(rows: &[(RrKey, RecordSet)], hints: &Hints, key: &RrKey) -> usize
    requires { IsStrictlySortedBy key_cmp (keys_of rows.now) }
    ensures { StartsAt rows.now key.now result }
{
    let guess = hints.guess(rows, key);
    if starts_at(rows, guess, key) {
        return guess;
    }
    let near = hints.near(rows, key);
    if starts_at(rows, near, key) {
        return near;
    }
    searched(rows, key)
}

/// Whether the sets from a key on start at a place: the set before it is before the key, and the one there isn't.
pub(crate) fn starts_at(rows: &[(RrKey, RecordSet)], place: usize, key: &RrKey) -> bool
    ensures { IsTrue result → StartsAt rows.now key.now place }
{
    reaches(rows, place, key) && follows(rows, place, key)
}

/// Whether a place is in a list or at its end, and the set there, if there is one, isn't before a key.
fn reaches(rows: &[(RrKey, RecordSet)], place: usize, key: &RrKey) -> bool
    ensures within { IsTrue result → place ≤ length rows.now }
    ensures here { IsTrue result → place < length rows.now
        → HoldsAt (λ e. is_upto key_cmp key.now e.0 ≡ true) rows.now place }
{
    if place >= rows.len() {
        return place == rows.len();
    }
    key.cmp(&rows[place].0).is_le()
}

/// Whether the set before a place, if there is one, is before a key.
fn follows(rows: &[(RrKey, RecordSet)], place: usize, key: &RrKey) -> bool
    requires { place ≤ length rows.now }
    ensures { IsTrue result → 0 < place
        → HoldsAt (λ e. key_cmp e.0 key.now ≡ Less) rows.now (place - 1) }
{
    place == 0 || rows[place - 1].0.cmp(key).is_lt()
}

/// Where the sets from a key on start, by a binary search.
fn searched(rows: &[(RrKey, RecordSet)], key: &RrKey) -> usize
    requires { IsStrictlySortedBy key_cmp (keys_of rows.now) }
    ensures { StartsAt rows.now key.now result }
{
    match rows.binary_search_by(|row| row.0.cmp(key)) {
        Ok(place) => place,
        Err(place) => place,
    }
}

/// The sets of a list from a place on.
pub(crate) fn rows_from(rows: &[(RrKey, RecordSet)], place: usize) -> &[(RrKey, RecordSet)]
    requires { place ≤ length rows.now }
    ensures { result.now ≡ drop place rows.now }
{
    &rows[place..]
}

/// Where the sets up to a key end, if those from it on start at a place.
pub(crate) fn end_at(rows: &[(RrKey, RecordSet)], place: usize, key: &RrKey) -> usize
    requires ordered { IsStrictlySortedBy key_cmp (keys_of rows.now) }
    requires start { StartsAt rows.now key.now place }
    ensures within { result ≤ length rows.now }
    ensures end { sets_upto rows.now key.now ≡ take result rows.now }
{
    if place >= rows.len() {
        return place;
    }
    if rows[place].0.same_as(key) {
        return place + 1;
    }
    place
}

/// The last set before a place.
pub(crate) fn last_before(rows: &[(RrKey, RecordSet)], place: usize) -> Option<&(RrKey, RecordSet)>
    requires { place ≤ length rows.now }
    ensures { EndsWith (take place rows.now) (option_copied result) }
{
    if place == 0 {
        return None;
    }
    Some(&rows[place - 1])
}
