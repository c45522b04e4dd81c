//! The sets of a zone from a key on.
ghost use Rattle.std.specs.Prelude.{◌≡◌, option_copied};
ghost use Rattle.std.specs.List.Sorted.{IsStrictlySortedBy};
ghost use Rattle.std.specs.Map.{keys_of};
ghost use Rattle.zone_proto.specs.Keys.{key_cmp};
ghost use Rattle.transfer_messages.specs.Transfers.{ahead_of};

use zone_map::{SetMap, SetRange};
use zone_proto::RrKey;

/// The sets from a key on; all of them without a key.
pub(crate) fn sets_ahead<'z>(sets: &'z SetMap, from: Option<&RrKey>) -> SetRange<'z>
    ensures value { result ≡ ahead_of sets.now (option_copied from.entry) }
    ensures ordered { IsStrictlySortedBy key_cmp (keys_of sets.now) }
{
    match from {
        None => sets.iter(),
        Some(key) => sets.from(key),
    }
}
