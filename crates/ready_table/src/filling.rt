//! A table of what is asked of a zone most.
ghost use Rattle.std.specs.Prelude.{◌≡◌, [], ◌∷◌, IfOk, OnOk};
ghost use Rattle.zone_response.specs.Queries.{zone_of, Zone};
ghost use Rattle.ready_table.specs.Ready.{AreReady, DeniesFor, RefersFor};

use crate::asking::{ask, keep};
use crate::questions::write_query;
use crate::table::ReadyTable;
use ready_denials::ready_denial;
use ready_referrals::{ReadyReferrals, ready_referrals};
use std::alloc::{AllocError, Global};
use zone_map::RecordMap;
use zone_proto::{LowerName, Nsec3Hash, RecordType, Signer};
use zone_response::ServedZone;
use zone_server::{DATAGRAM_SIZE, ListedZones, ServedZones};

/// Text (RFC 1035 section 3.3.14).
const TXT: RecordType = RecordType(16);

/// The ready answers of a zone: to a query for each set of the types A, AAAA, CNAME, MX, NS, SOA, SRV, TXT and DNSKEY, and for A
/// and AAAA where a name has an address or an alias; each to a query without EDNS and to one that takes DNSSEC records. What is
/// truncated isn't kept, and of what isn't the zone's own nothing. And what denies a name right below its origin, and what refers at
/// and below its cuts. Fails only for lack of memory.
pub fn ready_table<S: Signer, H: Nsec3Hash>(
    alloc: Global,
    zone: ServedZone<'_, S, H>,
) -> Result<ReadyTable, AllocError>
    ensures ready { IfOk result (AreReady (zone_of S.signature_of H.digest_of zone.entry)) }
    ensures denial { IfOk result (DeniesFor (zone_of S.signature_of H.digest_of zone.entry)) }
    ensures referrals { IfOk result (RefersFor (zone_of S.signature_of H.digest_of zone.entry)) }
{
    let origin = zone.origin;
    let records = zone.inner.record_map();
    let denial = ready_denial(alloc, &zone)?;
    let referrals = ready_referrals(alloc, &zone)?;
    let mut list = Vec::new(alloc);
    list.push(zone)?;
    let zones = ListedZones::new(alloc, list)?;
    let mut table = ReadyTable::new(alloc);
    keep_all(alloc, &zones, origin, records, &referrals, &mut table)?;
    let table = table.with_slots(alloc)?;
    Ok(ReadyTable {
        denial,
        referrals,
        ..table
    })
}

/// Keeps the answers of a zone about its sets, but for those of names that are referred.
fn keep_all<Z: ServedZones>(
    alloc: Global,
    zones: &Z,
    origin: &LowerName,
    records: &RecordMap,
    referrals: &ReadyReferrals,
    table: &mut ReadyTable,
) -> Result<(), AllocError>
    ensures { OnOk result ((z : Zone) → Z.zones zones.now ≡ z ∷ [] → z.origin ≡ origin.now
        → AreReady z table.old → AreReady z table.new) }
{
    let mut asked: Option<&LowerName> = None;
    for (key, _) in records.iter() {
        if referrals.find(&key.name).is_some() {
            continue;
        }
        if has_addresses(key.record_type) {
            if !is_name(asked, &key.name) {
                keep_answers(alloc, zones, origin, &key.name, RecordType::A, table)?;
                keep_answers(alloc, zones, origin, &key.name, RecordType::AAAA, table)?;
                asked = Some(&key.name);
            }
        } else if is_asked(key.record_type) {
            keep_answers(alloc, zones, origin, &key.name, key.record_type, table)?;
        }
    }
    Ok(())
}

/// Keeps the answers of a zone to the queries for a name and a type.
fn keep_answers<Z: ServedZones>(
    alloc: Global,
    zones: &Z,
    origin: &LowerName,
    name: &LowerName,
    query_type: RecordType,
    table: &mut ReadyTable,
) -> Result<(), AllocError>
    ensures { OnOk result ((z : Zone) → Z.zones zones.now ≡ z ∷ [] → z.origin ≡ origin.now
        → AreReady z table.old → AreReady z table.new) }
{
    let mut message = Vec::new(alloc);
    write_query(&mut message, name, query_type, None, DATAGRAM_SIZE)?;
    keep_answer(alloc, zones, origin, message.as_slice(), table)?;
    write_query(&mut message, name, query_type, Some(true), DATAGRAM_SIZE)?;
    keep_answer(alloc, zones, origin, message.as_slice(), table)
}

/// Keeps the answer of a zone to a query, if it is one that is kept.
fn keep_answer<Z: ServedZones>(
    alloc: Global,
    zones: &Z,
    origin: &LowerName,
    message: &[u8],
    table: &mut ReadyTable,
) -> Result<(), AllocError>
    ensures { OnOk result ((z : Zone) → Z.zones zones.now ≡ z ∷ [] → z.origin ≡ origin.now
        → AreReady z table.old → AreReady z table.new) }
{
    let mut out = Vec::new(alloc);
    match ask(alloc, zones, origin, message, &mut out)? {
        Some(query) => keep(alloc, table, out.as_slice(), &query),
        None => Ok(()),
    }
}

/// Whether a name that owns a set of this type is asked for addresses.
fn has_addresses(record_type: RecordType) -> bool {
    record_type == RecordType::A
        || record_type == RecordType::AAAA
        || record_type == RecordType::CNAME
}

/// Whether sets of this type are asked for much.
fn is_asked(record_type: RecordType) -> bool {
    record_type == RecordType::NS
        || record_type == RecordType::SOA
        || record_type == RecordType::MX
        || record_type == TXT
        || record_type == RecordType::SRV
        || record_type == RecordType::DNSKEY
}

/// Whether a name is there, and is this one.
fn is_name(found: Option<&LowerName>, name: &LowerName) -> bool {
    match found {
        Some(found) => *found == *name,
        None => false,
    }
}
