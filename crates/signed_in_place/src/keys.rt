//! Whether the records of a zone's keys stand at its origin, and stay there.
ghost use Rattle.std.specs.Prelude.{◌≡◌, ◌≤◌, length, nat_le, option_copied, IfOk, IsOkUnless};
ghost use Rattle.std.specs.List.{list_all};
ghost use Rattle.zone_proto.specs.Sets.{stores};
ghost use Rattle.zone_planner.specs.Keys.{cdnskey_data, cds_data};
ghost use Rattle.signed_in_place.specs.InPlace.{asks_parent, has_data, has_key, have_same_records, is_asked_for, is_published, keeps_keys, keeps_records};

use zone_keys::{dnskey_data, ds_data};
use zone_map::RecordMap;
use zone_planner::PlannedKey;
use zone_planning::other_data;
use zone_proto::{DNSKEY, LowerName, ProtoError, RData, Record, RecordSet, RecordType, RrKey};

/// The types by which a zone asks its parent for the DS records of its keys (RFC 7344 section 3).
const CDS: RecordType = RecordType(59);

const CDNSKEY: RecordType = RecordType(60);

/// Whether the records of keys stay at the origin, and those by which it asks its parent for their DS records. Refused by `Memory` alone.
pub fn keeps_keys(
    origin: &LowerName,
    zone: &RecordMap,
    after: &RecordMap,
) -> Result<bool, ProtoError>
    ensures ok { IfOk result (λ keeps. keeps ≡ keeps_keys origin.now zone.now after.now) }
    ensures err { IsOkUnless result ProtoError.Memory }
{
    let keys = keeps_records(origin, zone, after, RecordType::DNSKEY)?;
    let cds = keeps_records(origin, zone, after, CDS)?;
    let cdnskey = keeps_records(origin, zone, after, CDNSKEY)?;
    Ok(keys && cds && cdnskey)
}

/// Whether the records of a type stay at the origin. Refused by `Memory` alone.
pub fn keeps_records(
    origin: &LowerName,
    zone: &RecordMap,
    after: &RecordMap,
    record_type: RecordType,
) -> Result<bool, ProtoError>
    ensures ok { IfOk result
        (λ keeps. keeps ≡ keeps_records origin.now zone.now after.now record_type.0) }
    ensures err { IsOkUnless result ProtoError.Memory }
{
    let key = RrKey::new(origin.clone()?, record_type);
    Ok(have_same_records(zone.get(&key), after.get(&key)))
}

/// Whether two sets have the same records, signatures aside; one that isn't there has none.
fn have_same_records(one: Option<&RecordSet>, other: Option<&RecordSet>) -> bool
    ensures { result
        ≡ have_same_records (option_copied one.entry) (option_copied other.entry) }
{
    match (one, other) {
        (Some(one), Some(other)) => one.as_slice() == other.as_slice(),
        (None, None) => true,
        _ => false,
    }
}

/// Whether the data of each of these keys stand at the origin. Refused by `Memory` alone.
pub fn has_keys(
    origin: &LowerName,
    zone: &RecordMap,
    keys: &[PlannedKey],
) -> Result<bool, ProtoError>
    ensures ok { IfOk result (λ has. has ≡ list_all (has_key origin.now zone.now) keys.now) }
    ensures err { IsOkUnless result ProtoError.Memory }
{
    for key in keys {
        if !has_key(origin, zone, key)? {
            return Ok(false);
        }
    }
    Ok(true)
}

/// Whether the data by which a key is to stand at the origin do so. Refused by `Memory` alone.
fn has_key(origin: &LowerName, zone: &RecordMap, key: &PlannedKey) -> Result<bool, ProtoError>
    ensures ok { IfOk result (λ has. has ≡ has_key origin.now zone.now key.now) }
    ensures err { IsOkUnless result ProtoError.Memory }
{
    if !is_short(&key.key) {
        return Ok(false);
    }
    let published = is_published(origin, zone, key)?;
    let asked_for = is_asked_for(origin, zone, key)?;
    Ok(published && asked_for)
}

/// Whether a key is no longer than the data of a record.
fn is_short(key: &DNSKEY) -> bool
    ensures { result ≡ nat_le (length key.now.public_key) 65531 }
{
    key.public_key.as_slice().len() <= 65531
}

/// Whether the DNSKEY record of a key stands at the origin, if it is to. Refused by `Memory` alone.
fn is_published(origin: &LowerName, zone: &RecordMap, key: &PlannedKey) -> Result<bool, ProtoError>
    ensures ok { IfOk result (λ is. is ≡ is_published origin.now zone.now key.now) }
    ensures err { IsOkUnless result ProtoError.Memory }
{
    if !key.is_published {
        return Ok(true);
    }
    let data = RData::DNSKEY(key.key.clone()?);
    let has = has_data(origin, zone, &data)?;
    Ok(has)
}

/// Whether the zone asks its parent for the DS record of a key, if it is to (RFC 7344). Refused by `Memory` alone.
fn is_asked_for(origin: &LowerName, zone: &RecordMap, key: &PlannedKey) -> Result<bool, ProtoError>
    requires { length key.now.key.public_key ≤ 65531 }
    ensures ok { IfOk result (λ is. is ≡ is_asked_for origin.now zone.now key.now) }
    ensures err { IsOkUnless result ProtoError.Memory }
{
    if !key.is_for_parent {
        return Ok(true);
    }
    asks_parent(origin, zone, &key.key)
}

/// Whether the zone asks its parent for the DS record of a key (RFC 7344). Refused by `Memory` alone.
fn asks_parent(origin: &LowerName, zone: &RecordMap, key: &DNSKEY) -> Result<bool, ProtoError>
    requires { length key.now.public_key ≤ 65531 }
    ensures ok { IfOk result (λ asks. asks ≡ asks_parent origin.now zone.now key.now) }
    ensures err { IsOkUnless result ProtoError.Memory }
{
    let cds = has_cds(origin, zone, key)?;
    let cdnskey = has_cdnskey(origin, zone, key)?;
    Ok(cds && cdnskey)
}

/// Whether the CDS record of a key stands at the origin. Refused by `Memory` alone.
fn has_cds(origin: &LowerName, zone: &RecordMap, key: &DNSKEY) -> Result<bool, ProtoError>
    requires { length key.now.public_key ≤ 65531 }
    ensures ok { IfOk result
        (λ has. has ≡ has_data origin.now zone.now (cds_data origin.now key.now)) }
    ensures err { IsOkUnless result ProtoError.Memory }
{
    let data = cds_data(origin, key)?;
    let has = has_data(origin, zone, &data)?;
    Ok(has)
}

/// Whether the CDNSKEY record of a key stands at the origin. Refused by `Memory` alone.
fn has_cdnskey(origin: &LowerName, zone: &RecordMap, key: &DNSKEY) -> Result<bool, ProtoError>
    ensures ok { IfOk result (λ has. has ≡ has_data origin.now zone.now (cdnskey_data key.now)) }
    ensures err { IsOkUnless result ProtoError.Memory }
{
    let data = cdnskey_data(origin, key)?;
    let has = has_data(origin, zone, &data)?;
    Ok(has)
}

/// The data that ask the parent zone for a DS record of a key (RFC 7344 section 3.1). Refused by `Memory` alone.
fn cds_data(origin: &LowerName, key: &DNSKEY) -> Result<RData, ProtoError>
    requires { length key.now.public_key ≤ 65531 }
    ensures ok { IfOk result (λ made. made ≡ cds_data origin.now key.now) }
    ensures err { IsOkUnless result ProtoError.Memory }
{
    Ok(other_data(CDS, ds_data(origin, key)?))
}

/// The data that pass a key on to the parent zone (RFC 7344 section 3.2). Refused by `Memory` alone.
fn cdnskey_data(origin: &LowerName, key: &DNSKEY) -> Result<RData, ProtoError>
    ensures ok { IfOk result (λ made. made ≡ cdnskey_data key.now) }
    ensures err { IsOkUnless result ProtoError.Memory }
{
    Ok(other_data(CDNSKEY, dnskey_data(origin.alloc(), key)?))
}

/// Whether a record of the origin has these data. Refused by `Memory` alone.
fn has_data(origin: &LowerName, zone: &RecordMap, rdata: &RData) -> Result<bool, ProtoError>
    ensures ok { IfOk result (λ has. has ≡ has_data origin.now zone.now rdata.now) }
    ensures err { IsOkUnless result ProtoError.Memory }
{
    let key = RrKey::new(origin.clone()?, rdata.record_type());
    match zone.get(&key) {
        Some(set) => Ok(stores(set.as_slice(), rdata)),
        None => Ok(false),
    }
}

/// Whether one of these records has these data.
fn stores(records: &[Record], rdata: &RData) -> bool
    ensures { result ≡ stores records.now rdata.now }
{
    records.iter().any(|stored| stored.rdata == *rdata)
}
