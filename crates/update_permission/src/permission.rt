//! Whether who asks for an update may make its changes.
ghost use Rattle.std.specs.Prelude.{◌≡◌, ◌||◌, not, map, IfOk, IsOkUnless, option_copied};
ghost use Rattle.std.specs.List.{list_all};
ghost use Rattle.zone_proto.specs.Names.{lower};
ghost use Rattle.zone_map.specs.Zones.{types_at};
ghost use Rattle.update_permission.specs.Permissions.{are_permitted, deletes_name, is_each_permitted, is_permitted, may_go, type_about};

use std::alloc::Global;
use update_policy::{Rule, permits};
use zone_map::RecordMap;
use zone_proto::{DNSClass, LowerName, ProtoError, RecordType, RrKey};
use zone_update::{Content, Entry, goes, types_at};

/// Whether a table of rules permits the owner of a key each of these changes in the zone of an origin: the set of its name and of the type
/// of its data, or its own type where it has none; and where all sets of a name are deleted (RFC 2136 section 2.5.3) each of those that go
/// with it. Nothing is permitted without a key. Refused by `Memory` alone.
pub fn is_permitted(
    alloc: Global,
    rules: &[Rule],
    key: Option<&LowerName>,
    origin: &LowerName,
    zone: &RecordMap,
    changes: &[Entry],
) -> Result<bool, ProtoError>
    ensures ok { IfOk result
        (λ is. is
        ≡ are_permitted rules.now (option_copied key.entry) origin.now zone.now changes.now) }
    ensures err { IsOkUnless result ProtoError.Memory }
{
    match key {
        None => Ok(false),
        Some(key) => is_each_permitted(alloc, rules, key, origin, zone, changes),
    }
}

/// Whether the owner of a key may make each of these changes.
fn is_each_permitted(
    alloc: Global,
    rules: &[Rule],
    key: &LowerName,
    origin: &LowerName,
    zone: &RecordMap,
    changes: &[Entry],
) -> Result<bool, ProtoError>
    ensures ok { IfOk result
        (λ is. is ≡ is_each_permitted rules.now key.now origin.now zone.now changes.now) }
    ensures err { IsOkUnless result ProtoError.Memory }
{
    for entry in changes {
        if !is_one_permitted(alloc, rules, key, origin, zone, entry)? {
            return Ok(false);
        }
    }
    Ok(true)
}

/// Whether the owner of a key may make a change.
fn is_one_permitted(
    alloc: Global,
    rules: &[Rule],
    key: &LowerName,
    origin: &LowerName,
    zone: &RecordMap,
    entry: &Entry,
) -> Result<bool, ProtoError>
    ensures ok { IfOk result
        (λ is. is ≡ is_permitted rules.now key.now origin.now zone.now entry.now) }
    ensures err { IsOkUnless result ProtoError.Memory }
{
    let name = LowerName::new(&entry.name)?;
    if !deletes_name(entry) {
        return Ok(permits(rules, Some(key), &name, type_about(entry)));
    }
    let least = RrKey::new(name, RecordType(0));
    let types = types_at(alloc, zone.as_map(), &least)?;
    Ok(may_go(rules, key, origin, &least.name, types.as_slice()))
}

/// The type of the set that a change is about: that of its data, where it has some.
fn type_about(entry: &Entry) -> RecordType
    ensures { result.0 ≡ type_about entry.now }
{
    match &entry.content {
        Content::Data(data) => data.record_type(),
        Content::Empty | Content::Unread => entry.record_type,
    }
}

/// Whether a change deletes all sets of its name.
fn deletes_name(entry: &Entry) -> bool
    ensures { result ≡ deletes_name entry.now }
{
    entry.dns_class == DNSClass::ANY && entry.record_type == RecordType::ANY
}

/// Whether the owner of a key may change each of these types of a name whose sets go with it.
fn may_go(
    rules: &[Rule],
    key: &LowerName,
    origin: &LowerName,
    name: &LowerName,
    types: &[RecordType],
) -> bool
    ensures { result
        ≡ list_all (may_go rules.now key.now origin.now name.now) (map (λ t. t.0) types.now) }
{
    for record_type in types {
        if goes(origin, name, *record_type) && !permits(rules, Some(key), name, *record_type) {
            return false;
        }
    }
    true
}
