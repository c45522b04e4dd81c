//! Sets put behind one another.
ghost use Rattle.std.specs.Prelude.{◌≡◌, ◌++◌, ◌∷◌, [], map, OnOk, IsOkUnless};
ghost use Rattle.std.specs.List.{list_any};
ghost use Rattle.zone_response.specs.Sections.{sent, as_it_is, is_alike, unless_among, sent_set, sent_sets};

use crate::response::{Part, Sent};
use zone_lookup::Found;
use zone_proto::{ProtoError, RecordSet};

/// Puts an item last.
pub(crate) fn push<T: Drop>(list: &mut Vec<T>, item: T) -> Result<(), ProtoError>
    ensures ok { OnOk result (list.new.items ≡ list.old.items ++ item ∷ []) }
    ensures err { IsOkUnless result ProtoError.Memory }
{
    list.push(item)?;
    Ok(())
}

/// Puts a set last.
pub(crate) fn send<'z>(list: &mut Vec<Sent<'z>>, item: Sent<'z>) -> Result<(), ProtoError>
    ensures ok { OnOk result
        (sent_sets list.new ≡ sent_sets list.old ++ sent_set item.entry ∷ []) }
    ensures err { IsOkUnless result ProtoError.Memory }
{
    push(list, item)
}

/// Puts a set of the zone last, with this TTL.
pub(crate) fn lend_for<'z>(
    list: &mut Vec<Sent<'z>>,
    set: &'z RecordSet,
    ttl: u32,
    part: Part,
) -> Result<(), ProtoError>
    ensures ok { OnOk result
        (sent_sets list.new ≡ sent_sets list.old ++ sent part ttl set.now ∷ []) }
    ensures err { IsOkUnless result ProtoError.Memory }
{
    let item = Sent {
        set: Found::Stored(set),
        ttl,
        part,
    };
    send(list, item)
}

/// Puts a set of the zone last, with its own TTL.
pub(crate) fn lend<'z>(
    list: &mut Vec<Sent<'z>>,
    set: &'z RecordSet,
    part: Part,
) -> Result<(), ProtoError>
    ensures ok { OnOk result
        (sent_sets list.new ≡ sent_sets list.old ++ as_it_is part set.now ∷ []) }
    ensures err { IsOkUnless result ProtoError.Memory }
{
    lend_for(list, set, set.ttl(), part)
}

/// Puts a set of the zone last, with its own TTL, unless the list has one of its owner and type.
pub(crate) fn send_unless_among<'z>(
    list: &mut Vec<Sent<'z>>,
    set: &'z RecordSet,
    part: Part,
) -> Result<(), ProtoError>
    ensures ok { OnOk result
        (sent_sets list.new
        ≡ sent_sets list.old ++ unless_among (sent_sets list.old) (as_it_is part set.now)) }
    ensures err { IsOkUnless result ProtoError.Memory }
{
    if is_among(list, set) {
        return Ok(());
    }
    lend(list, set, part)
}

/// Whether a list has a set of another's owner and type.
fn is_among(list: &[Sent<'_>], set: &RecordSet) -> bool
    ensures { result ≡ list_any (is_alike set.now) (map sent_set list.now) }
{
    for item in list {
        if is_alike(set, item) {
            return true;
        }
    }
    false
}

/// Whether an item is a set of another's owner and type.
fn is_alike(set: &RecordSet, item: &Sent<'_>) -> bool
    ensures { result ≡ is_alike set.now (sent_set item.now) }
{
    let other = item.set.set();
    other.record_type() == set.record_type() && other.name() == set.name()
}

/// Puts a set last that was made for the response, with its own TTL.
pub(crate) fn send_made(
    list: &mut Vec<Sent<'_>>,
    set: RecordSet,
    part: Part,
) -> Result<(), ProtoError>
    ensures ok { OnOk result
        (sent_sets list.new ≡ sent_sets list.old ++ as_it_is part set ∷ []) }
    ensures err { IsOkUnless result ProtoError.Memory }
{
    let ttl = set.ttl();
    let item = Sent {
        set: Found::Made(set),
        ttl,
        part,
    };
    send(list, item)
}
