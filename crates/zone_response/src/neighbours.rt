//! What the keys next to a name in the order of a zone tell of the names above it. The names below a name stand together:
//! so if a key is of an ancestor of the name, or of a name below that ancestor, the last key before the name is too, or the
//! first from it on.
ghost use Rattle.std.specs.Prelude.{◌≡◌, ◌+◌, ◌-◌, ◌≤◌, ℕ, length};
ghost use Rattle.zone_proto.specs.Keys.{key_cmp};
ghost use Rattle.zone_proto.specs.Names.{Name as NameLabels, IsAbove, IsAtOrAbove};
ghost use Rattle.zone_proto.specs.Order.{is_before, is_upto};
ghost use Rattle.zone_response.specs.Neighbours.{IsInTree, NoneBelowLonger, NoLongerExists};

use zone_lookup::InnerInMemory;
use zone_map::{Counter, SetMap};
use zone_proto::{LowerName, RrKey, Signer};

/// As many labels as an ancestor of a name has at most that exists. Two searches tell.
pub(crate) fn existing_labels<S: Signer>(
    inner: &InnerInMemory<S>,
    least: &RrKey,
    searches: &mut Counter,
) -> usize
    ensures shorter { result ≤ length least.now.name - 1 }
    ensures longest { NoLongerExists inner.now.records least.now.name result }
    ensures in_tree { IsInTree inner.now.records least.now.name result }
    ensures counted { searches.new ≤ searches.old + 2 }
{
    let sets = inner.as_map();
    let before = labels_before(sets, least, searches);
    let after = labels_after(sets, least, searches);
    before.max(after)
}

/// As many labels as an ancestor of a key's name has at most, of which a key before this one is, or of a name below it. One
/// search tells: that for the last of these keys.
pub(crate) fn labels_before(sets: &SetMap, key: &RrKey, searches: &mut Counter) -> usize
    ensures shorter { result ≤ length key.now.name - 1 }
    ensures longest { NoneBelowLonger sets.now key.now.name result
        (λ k. is_before key_cmp k key.now) }
    ensures in_tree { IsInTree sets.now key.now.name result }
    ensures counted { searches.new ≤ searches.old + 1 }
{
    searches.add_one();
    match sets.last_before(key) {
        Some((last, _)) => shared_above(&key.name, &last.name),
        None => 0,
    }
}

/// The same of the keys that aren't before it, by the first of them.
fn labels_after(sets: &SetMap, key: &RrKey, searches: &mut Counter) -> usize
    ensures shorter { result ≤ length key.now.name - 1 }
    ensures longest { NoneBelowLonger sets.now key.now.name result
        (λ k. is_upto key_cmp key.now k) }
    ensures in_tree { IsInTree sets.now key.now.name result }
    ensures counted { searches.new ≤ searches.old + 1 }
{
    searches.add_one();
    match sets.from(key).next() {
        Some((first, _)) => shared_above(&key.name, &first.name),
        None => 0,
    }
}

/// How many labels the longest ancestor of a name has that is another name or an ancestor of that.
fn shared_above(name: &LowerName, other: &LowerName) -> usize
    ensures shorter { result ≤ length name.now - 1 }
    ensures longest { (a : NameLabels) → IsAbove a name.now → IsAtOrAbove a other.now
        → length a ≤ result }
    ensures shared { (a : NameLabels) → IsAbove a name.now → length a ≡ result
        → IsAtOrAbove a other.now }
{
    name.shared_labels(other)
        .min(name.num_labels().saturating_sub(1))
}
