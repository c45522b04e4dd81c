//! The types that a denial lists.
ghost use Rattle.std.specs.Prelude.{◌≡◌, ◌≤◌, length, map, nat_lt, IfOk, OnOk, IsOkUnless};
ghost use Rattle.std.specs.List.{prefix_len};
ghost use Rattle.std.specs.Ordering.{nat_cmp};
ghost use Rattle.zone_proto.specs.Types.{RRSIG};
ghost use Rattle.zone_denial.specs.TypeLists.{joined};

use zone_proto::{ProtoError, RecordType, RrKey, Seq};

/// The types of keys that ascend, RRSIG and one more, each once (RFC 4034 section 4.1.2). They are put together in
/// `room`, of which nothing is left: so lists that are made one after the other take no memory each. Its only error is
/// `Memory`.
pub(crate) fn type_list(
    room: &mut Vec<RecordType>,
    keys: &[&RrKey],
    more: RecordType,
) -> Result<Seq<RecordType>, ProtoError>
    ensures ok { IfOk result (λ types. map (λ t. t.0) types
        ≡ joined nat_cmp more.0 (joined nat_cmp RRSIG (map (λ k. k.now.record_type.0) keys.now))) }
    ensures err { IsOkUnless result ProtoError.Memory }
{
    fill_signed(room, keys)?;
    join(room, more)?;
    Seq::from_slice(*room.allocator(), room.as_slice())
}

/// The types of keys that ascend, and RRSIG, each once, put together in the same way. Its only error is `Memory`.
pub(crate) fn signed_types(
    room: &mut Vec<RecordType>,
    keys: &[&RrKey],
) -> Result<Seq<RecordType>, ProtoError>
    ensures ok { IfOk result (λ types. map (λ t. t.0) types
        ≡ joined nat_cmp RRSIG (map (λ k. k.now.record_type.0) keys.now)) }
    ensures err { IsOkUnless result ProtoError.Memory }
{
    fill_signed(room, keys)?;
    Seq::from_slice(*room.allocator(), room.as_slice())
}

/// Puts the types of keys that ascend, and RRSIG, each once, in place of what a list has. Its only error is `Memory`.
fn fill_signed(types: &mut Vec<RecordType>, keys: &[&RrKey]) -> Result<(), ProtoError>
    ensures ok { OnOk result
        (map (λ t. t.0) types.new.items
        ≡ joined nat_cmp RRSIG (map (λ k. k.now.record_type.0) keys.now)) }
    ensures err { IsOkUnless result ProtoError.Memory }
{
    types.clear();
    for key in keys {
        types.push(key.record_type)?;
    }
    join(types, RecordType::RRSIG)
}

/// Puts a type into an ascending list, unless it is there.
fn join(types: &mut Vec<RecordType>, record_type: RecordType) -> Result<(), ProtoError>
    ensures ok { OnOk result
        (map (λ t. t.0) types.new.items
        ≡ joined nat_cmp record_type.0 (map (λ t. t.0) types.old.items)) }
    ensures err { IsOkUnless result ProtoError.Memory }
{
    let place = count_below(types.as_slice(), record_type);
    if place < types.len() && types[place] == record_type {
        return Ok(());
    }
    types.insert(place, record_type)?;
    Ok(())
}

/// How many types in front are less than another.
pub(crate) fn count_below(types: &[RecordType], record_type: RecordType) -> usize
    ensures value { result ≡ prefix_len (λ t. nat_lt t.0 record_type.0) types.now }
    ensures bound { result ≤ length types.now }
{
    types
        .iter()
        .take_while(|other| **other < record_type)
        .count()
}
