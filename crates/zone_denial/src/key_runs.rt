//! Keys of one name, which stand together where keys are in order.
ghost use Rattle.std.specs.Prelude.{◌≡◌, ◌+◌, ◌≤◌, List, ◌∷◌, length};
ghost use Rattle.std.specs.Borrow.{Bor};
ghost use Rattle.std.specs.List.{prefix_len};
ghost use Rattle.std.specs.Ordering.{eq_by_cmp};
ghost use Rattle.zone_proto.specs.declared.rr_key.RrKey.{RrKey as Key};
ghost use Rattle.zone_proto.specs.Names.{name_cmp};

use zone_proto::{LowerName, RrKey};

/// How many keys in front are of a name.
pub(crate) fn count_of_name(keys: &[&RrKey], name: &LowerName) -> usize
    ensures value { result ≡ prefix_len (λ k. eq_by_cmp name_cmp k.now.name name.now) keys.now }
    ensures bound { result ≤ length keys.now }
{
    keys.iter().take_while(|key| key.name == *name).count()
}

/// How many keys in front are of the name of the first, which isn't compared with itself.
pub(crate) fn count_of_first(keys: &[&RrKey]) -> usize
    ensures value { (first : Bor Key) (others : List (Bor Key)) → keys.now ≡ first ∷ others
        → result ≡ 1 + prefix_len (λ k. eq_by_cmp name_cmp k.now.name first.now.name) others }
    ensures bound { result ≤ length keys.now }
{
    match keys.split_first() {
        Some((first, others)) => 1 + count_of_name(others, &first.name),
        None => 0,
    }
}
