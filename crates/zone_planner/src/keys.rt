//! The keys of a zone, and their records.
ghost use Rattle.std.specs.Prelude.{◌≡◌, ◌≤◌, length, map, flat_map, unwrap_or, IfOk, OnOk, IsOkUnless};
ghost use Rattle.std.specs.List.{All};
ghost use Rattle.zone_proto.specs.Types.{IN};
ghost use Rattle.zone_map.specs.Upserts.{upserted};
ghost use Rattle.zone_planner.specs.Requests.{IsShort};
ghost use Rattle.zone_planner.specs.Keys.{apex_record, by_flags, cdnskey_data, cds_data, key_data, with_data};

use std::alloc::Global;
use zone_keys::{dnskey_data, ds_data, signs_keys, signs_others};
use zone_map::RecordMap;
use zone_planning::other_data;
use zone_proto::{DNSClass, DNSKEY, LowerName, Name, ProtoError, RData, Record, RecordType};

/// A key of a zone, and what it does there.
#[derive(Debug, Drop)]
pub struct PlannedKey {
    /// The key.
    pub key: DNSKEY,
    /// Whether its DNSKEY record stands in the zone.
    pub is_published: bool,
    /// Whether it signs the sets of keys: DNSKEY, CDS and CDNSKEY.
    pub signs_keys: bool,
    /// Whether it signs all other sets.
    pub signs_others: bool,
    /// Whether the zone asks its parent for a DS record of it, by CDS and CDNSKEY (RFC 7344).
    pub is_for_parent: bool,
}

/// Keys that are all published and sign by their flags: a secure entry point the keys, and any other the rest; but a key both where
/// its algorithm has no other kind (RFC 6781 section 3.1). Those that sign keys are for the parent, if it is asked for their DS
/// records. Refused by `Memory` alone.
pub fn planned_by_flags(
    alloc: Global,
    keys: &[DNSKEY],
    asks_parent: bool,
) -> Result<Vec<PlannedKey>, ProtoError>
    ensures ok { IfOk result
        (λ planned. planned.items ≡ map (by_flags keys.now asks_parent) keys.now) }
    ensures err { IsOkUnless result ProtoError.Memory }
{
    let mut planned = Vec::with_capacity(alloc, keys.len())?;
    for key in keys {
        planned.push(by_flags(keys, asks_parent, key)?)?;
    }
    Ok(planned)
}

/// One of these keys, which signs by its flags.
fn by_flags(keys: &[DNSKEY], asks_parent: bool, key: &DNSKEY) -> Result<PlannedKey, ProtoError>
    ensures ok { IfOk result (λ planned. planned ≡ by_flags keys.now asks_parent key.now) }
    ensures err { IsOkUnless result ProtoError.Memory }
{
    let signs_keys = signs_keys(keys, key);
    Ok(PlannedKey {
        key: key.clone()?,
        is_published: true,
        signs_keys,
        signs_others: signs_others(keys, key),
        is_for_parent: asks_parent && signs_keys,
    })
}

/// Inserts the records of keys into a zone, of this TTL in seconds and with this serial; one that stands there is passed over.
pub(crate) fn put_keys(
    records: &mut RecordMap,
    origin: &LowerName,
    keys: &[PlannedKey],
    ttl: u32,
    serial: u32,
) -> Result<(), ProtoError>
    requires { All IsShort keys.now }
    ensures ok { OnOk result
        (records.new
        ≡ with_data origin.now ttl serial records.old (flat_map (key_data origin.now) keys.now)) }
    ensures err { IsOkUnless result ProtoError.Memory }
{
    for key in keys {
        put_key(records, origin, key, ttl, serial)?;
    }
    Ok(())
}

/// The same of one key.
fn put_key(
    records: &mut RecordMap,
    origin: &LowerName,
    key: &PlannedKey,
    ttl: u32,
    serial: u32,
) -> Result<(), ProtoError>
    requires { IsShort key.now }
    ensures ok { OnOk result
        (records.new
        ≡ with_data origin.now ttl serial records.old (key_data origin.now key.now)) }
    ensures err { IsOkUnless result ProtoError.Memory }
{
    if key.is_published {
        let data = RData::DNSKEY(key.key.clone()?);
        put_data(records, origin, data, ttl, serial)?;
    }
    if key.is_for_parent {
        put_data(records, origin, cds(origin, &key.key)?, ttl, serial)?;
        put_data(records, origin, cdnskey(origin, &key.key)?, ttl, serial)?;
    }
    Ok(())
}

/// Inserts the record of data at the origin.
fn put_data(
    records: &mut RecordMap,
    origin: &LowerName,
    rdata: RData,
    ttl: u32,
    serial: u32,
) -> Result<(), ProtoError>
    ensures ok { OnOk result
        (records.new
        ≡ unwrap_or (upserted records.old IN (apex_record origin.now ttl rdata) serial)
        records.old) }
    ensures err { IsOkUnless result ProtoError.Memory }
{
    let owner = Name::from(origin.clone()?);
    records.upsert(Record::from_rdata(owner, ttl, rdata), serial, DNSClass::IN)?;
    Ok(())
}

/// The data that ask the parent zone for a DS record of a key (RFC 7344 section 3.1).
fn cds(origin: &LowerName, key: &DNSKEY) -> Result<RData, ProtoError>
    requires { length key.now.public_key ≤ 65531 }
    ensures ok { IfOk result (λ made. made ≡ cds_data origin.now key.now) }
    ensures err { IsOkUnless result ProtoError.Memory }
{
    Ok(other_data(RecordType(59), ds_data(origin, key)?))
}

/// The data that pass a key on to the parent zone (RFC 7344 section 3.2).
fn cdnskey(origin: &LowerName, key: &DNSKEY) -> Result<RData, ProtoError>
    ensures ok { IfOk result (λ made. made ≡ cdnskey_data key.now) }
    ensures err { IsOkUnless result ProtoError.Memory }
{
    Ok(other_data(RecordType(60), dnskey_data(origin.alloc(), key)?))
}
