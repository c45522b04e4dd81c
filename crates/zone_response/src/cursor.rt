//! Sets that mostly stand close behind others that were read before.
ghost use Rattle.std.specs.Prelude.{◌≡◌, IfOk, IfSome, IsOkUnless};
ghost use Rattle.std.specs.List.Sorted.{IsStrictlySortedBy};
ghost use Rattle.std.specs.Map.{keys_of};
ghost use Rattle.zone_proto.specs.Keys.{key_cmp};
ghost use Rattle.zone_response.specs.NodeSets.{sets_from, IsFromSome};

use zone_map::{SetMap, SetRange};
use zone_proto::{ProtoError, RrKey};

// How many sets are passed over at most before a walk of the map looks for the key.
const MAX_PASSED: usize = 8;

/// The sets of a map from a key on; `near` are those from another key on, if one was read. No walk looks for the key where it
/// stands close behind that one.
pub(crate) fn sets_near<'z>(
    sets: &'z SetMap,
    near: Option<SetRange<'z>>,
    least: &RrKey,
) -> Result<SetRange<'z>, ProtoError>
    requires ordered { IsStrictlySortedBy key_cmp (keys_of sets.now) }
    requires near { IfSome near (IsFromSome sets.now) }
    ensures ok { IfOk result (λ from. from ≡ sets_from sets.now least.now) }
    ensures err { IsOkUnless result ProtoError.Memory }
{
    let Some(near) = near else {
        return Ok(sets.from(least));
    };
    let mut rest = near;
    let Some((key, _)) = rest.next() else {
        return Ok(sets.from(least));
    };
    if key.cmp(least).is_ge() {
        return Ok(sets.from(least));
    }
    passed_on(sets, rest, least)
}

/// The same where `rest` has all sets from that key on.
fn passed_on<'z>(
    sets: &'z SetMap,
    rest: SetRange<'z>,
    least: &RrKey,
) -> Result<SetRange<'z>, ProtoError>
    requires ordered { IsStrictlySortedBy key_cmp (keys_of rest) }
    requires all { sets_from rest least.now ≡ sets_from sets.now least.now }
    ensures ok { IfOk result (λ from. from ≡ sets_from sets.now least.now) }
    ensures err { IsOkUnless result ProtoError.Memory }
{
    let mut rest = rest;
    for _count in 0..MAX_PASSED {
        let here = rest.clone()?;
        let Some((key, _)) = rest.next() else {
            return Ok(here);
        };
        if key.cmp(least).is_ge() {
            return Ok(here);
        }
    }
    Ok(sets.from(least))
}
