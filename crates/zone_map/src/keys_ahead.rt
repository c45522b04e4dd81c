//! The keys of a map in a pass over them beside other keys.
ghost use Rattle.std.specs.Prelude.{◌≡◌, true, IfSome, option_copied};
ghost use Rattle.std.specs.List.{list_any};
ghost use Rattle.std.specs.List.Sorted.{IsStrictlySortedBy};
ghost use Rattle.std.specs.Map.{keys_of};
ghost use Rattle.std.specs.declared.cmp.Ordering.TheVariants.{Less};
ghost use Rattle.zone_proto.specs.declared.rr_key.RrKey.{RrKey as Key};
ghost use Rattle.zone_proto.specs.Keys.{key_cmp, key_eq};
ghost use Rattle.zone_proto.specs.Order.{is_upto};
ghost use Rattle.zone_map.specs.Ahead.{ahead};

use std::marker::Model;
use zone_frozen::SetRange;
use zone_proto::RrKey;

/// The keys of a map that are left in a pass over them beside other keys, which ascend as they do. Doesn't allocate.
#[derive(Drop)]
pub struct KeysAhead<'m> {
    /// None behind the last one.
    first: Option<&'m RrKey>,
    others: SetRange<'m>,
}

impl<'m> Model for KeysAhead<'m> {
    ghost use Rattle.std.specs.Prelude.{List, option_copied};
    ghost use Rattle.std.specs.List.Sorted.{IsStrictlySortedBy};
    ghost use Rattle.std.specs.Map.{keys_of};
    ghost use Rattle.zone_proto.specs.declared.rr_key.RrKey.{RrKey};
    ghost use Rattle.zone_proto.specs.Keys.{key_cmp};
    ghost use Rattle.zone_map.specs.Ahead.{ahead};

    ghost Value = { List RrKey };

    ghost view = { λ a. ahead (option_copied a.first) (keys_of a.others) };

    ghost invariant = { λ a.
        IsStrictlySortedBy key_cmp (ahead (option_copied a.first) (keys_of a.others)) };
}

impl<'m> KeysAhead<'m> {
    /// The keys of these sets.
    pub(crate) fn new(sets: SetRange<'m>) -> KeysAhead<'m>
        requires { IsStrictlySortedBy key_cmp (keys_of sets) }
        ensures { result ≡ keys_of sets.entry }
    {
        let mut others = sets;
        let first = next_key(&mut others);
        KeysAhead { first, others }
    }

    /// Whether `key` is one of those that are left. Those before it are passed, and those behind it stay. Doesn't
    /// allocate.
    pub fn has(&mut self, key: &RrKey) -> bool
        ensures answer { result ≡ list_any (key_eq key.now) self.old }
        ensures later { (q : Key) → key_cmp key.now q ≡ Less
            → list_any (key_eq q) self.new ≡ list_any (key_eq q) self.old }
    {
        self.first = first_not_before(self.first, &mut self.others, key);
        match self.first {
            Some(first) => key.same_as(first),
            None => false,
        }
    }
}

/// The key of the next set.
fn next_key<'m>(sets: &mut SetRange<'m>) -> Option<&'m RrKey>
    ensures { ahead (option_copied result) (keys_of sets.new) ≡ keys_of sets.old }
{
    match sets.next() {
        Some((key, _)) => Some(key),
        None => None,
    }
}

/// The first of these keys that doesn't come before another key. Those before it are passed.
fn first_not_before<'m>(
    mut first: Option<&'m RrKey>,
    others: &mut SetRange<'m>,
    key: &RrKey,
) -> Option<&'m RrKey>
    requires { IsStrictlySortedBy key_cmp (ahead (option_copied first) (keys_of others.old)) }
    ensures ordered { IsStrictlySortedBy key_cmp
        (ahead (option_copied result) (keys_of others.new)) }
    ensures same { (q : Key) → is_upto key_cmp key.now q ≡ true
        → list_any (key_eq q) (ahead (option_copied result) (keys_of others.new))
        ≡ list_any (key_eq q) (ahead (option_copied first.entry)
        (keys_of others.old)) }
    ensures first { IfSome result (λ k. is_upto key_cmp key.now k.now ≡ true) }
{
    while let Some(next) = first {
        if key.cmp(next).is_le() {
            break;
        }
        first = next_key(others);
    }
    first
}
