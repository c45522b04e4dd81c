//! The keys whose signatures can be told from those of others.
ghost use Rattle.std.specs.Prelude.{◌≡◌, IfOk, IsOkUnless, option_copied};
ghost use Rattle.std.specs.List.{list_all};
ghost use Rattle.zone_proto.specs.Types.{DNSKEY as dnskey_type};
ghost use Rattle.zone_map.specs.Zones.{set_at};
ghost use Rattle.zone_keeping.specs.Usable.{has_tag_of, is_apart, is_apart_from, is_key, is_sole, key_at, key_for, usable_keys};

use std::alloc::Global;
use zone_keys::key_tag;
use zone_map::RecordMap;
use zone_planning::blank_number;
use zone_proto::{DNSKEY, LowerName, ProtoError, RData, Record, RecordSet, RecordType, RrKey};

/// The longest public key that a record has room for, in octets.
const LONGEST_KEY: usize = 65531;

/// The keys of a plan by their numbers, without those whose signatures can't be told from those of another key of the plan, or of the
/// DNSKEY set that the old zone has at an origin. Its only error is `Memory`.
pub(crate) fn usable_keys_of(
    alloc: Global,
    keys: &[DNSKEY],
    origin: &LowerName,
    old: &RecordMap,
) -> Result<Vec<Option<DNSKEY>>, ProtoError>
    ensures ok { IfOk result
        (λ usable. usable.items ≡ usable_keys keys.now (set_at old.now origin.now dnskey_type)) }
    ensures err { IsOkUnless result ProtoError.Memory }
{
    let key = RrKey::new(origin.clone()?, RecordType::DNSKEY);
    usable_keys(alloc, keys, old.get(&key))
}

/// The same for a DNSKEY set, if there is one.
fn usable_keys(
    alloc: Global,
    keys: &[DNSKEY],
    published: Option<&RecordSet>,
) -> Result<Vec<Option<DNSKEY>>, ProtoError>
    ensures ok { IfOk result
        (λ usable. usable.items ≡ usable_keys keys.now (option_copied published.entry)) }
    ensures err { IsOkUnless result ProtoError.Memory }
{
    let mut usable = Vec::with_capacity(alloc, keys.len())?;
    for key in keys {
        if is_sole(keys, published, key) {
            usable.push(Some(key.clone()?))?;
        } else {
            usable.push(None)?;
        }
    }
    Ok(usable)
}

/// The key that is to make a signature, if that is blank and the key is usable.
pub(crate) fn key_for<'a>(usable: &'a [Option<DNSKEY>], signature: &Record) -> Option<&'a DNSKEY>
    ensures { option_copied result ≡ key_for usable.now signature.now.rdata }
{
    key_at(usable, blank_number(signature)?)
}

/// The key of a number, if it is usable.
fn key_at(usable: &[Option<DNSKEY>], number: u8) -> Option<&DNSKEY>
    ensures { option_copied result ≡ key_at usable.now number }
{
    usable.get(usize::from(number))?.as_ref()
}

/// Whether a key's signatures can be told from those of all others.
fn is_sole(keys: &[DNSKEY], published: Option<&RecordSet>, key: &DNSKEY) -> bool
    ensures { result ≡ is_sole keys.now (option_copied published.entry) key.now }
{
    match published {
        Some(set) => { is_apart_from_keys(keys, key) && is_apart_from_records(set.as_slice(), key) }
        None => is_apart_from_keys(keys, key),
    }
}

/// Whether a key's signatures can be told from those of these keys.
fn is_apart_from_keys(keys: &[DNSKEY], key: &DNSKEY) -> bool
    ensures { result ≡ list_all (is_apart key.now) keys.now }
{
    keys.iter().all(|other| is_apart(key, other))
}

/// Whether a key's signatures can be told from those of the keys that records have.
fn is_apart_from_records(records: &[Record], key: &DNSKEY) -> bool
    ensures { result ≡ list_all (λ r. is_apart_from key.now r.rdata) records.now }
{
    records
        .iter()
        .all(|record| is_apart_from(key, &record.rdata))
}

/// Whether a key's signatures can be told from those of the key that data are, if they are one.
fn is_apart_from(key: &DNSKEY, rdata: &RData) -> bool
    ensures { result ≡ is_apart_from key.now rdata.now }
{
    match rdata {
        RData::DNSKEY(other) => is_apart(key, other),
        _ => true,
    }
}

/// Whether a key's signatures can be told from those of another one by algorithm and tag, or it is that one.
fn is_apart(key: &DNSKEY, other: &DNSKEY) -> bool
    ensures { result ≡ is_apart key.now other.now }
{
    is_key(key, other) || !(key.algorithm == other.algorithm && has_tag_of(key, other))
}

/// Whether a key is another one.
fn is_key(key: &DNSKEY, other: &DNSKEY) -> bool
    ensures { result ≡ is_key key.now other.now }
{
    key.flags == other.flags
        && key.protocol == other.protocol
        && key.algorithm == other.algorithm
        && key.public_key.as_slice() == other.public_key.as_slice()
}

/// Whether keys have the same tag, or one is longer than a record can be.
fn has_tag_of(key: &DNSKEY, other: &DNSKEY) -> bool
    ensures { result ≡ has_tag_of key.now other.now }
{
    key.public_key.as_slice().len() > LONGEST_KEY
        || other.public_key.as_slice().len() > LONGEST_KEY
        || key_tag(key) == key_tag(other)
}
