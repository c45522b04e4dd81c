//! What is found of a zone.
ghost use Rattle.std.specs.Prelude.{◌≡◌, ◌++◌, IfOk, OnOk, IsOkUnless};
ghost use Rattle.zone_publication.specs.Findings.{findings, of_records, set_findings};

use crate::dates::Period;
use crate::delegations::{push_below_dname, push_digests, push_placing};
use crate::finding::Finding;
use crate::names::Zone;
use crate::requests::push_requests;
use crate::signatures::{apex_algorithms, push_signatures};
use crate::targets::push_targets;
use std::alloc::Global;
use zone_map::RecordMap;
use zone_proto::{LowerName, ProtoError, Record, RecordSet, RecordType, RrKey};

/// What an operator has to know of a zone before it is published, at a moment: of its sets, by owner in canonical order and by
/// type, and of each set in this order
///
/// - a DS at the apex, or without NS beside it (RFC 4035 section 2.4);
/// - data below a DNAME (RFC 6672 section 2.4);
/// - digests of DS and CDS of another length than their type has;
/// - a CDS or CDNSKEY elsewhere than at the apex, or of no key of the zone (RFC 7344 section 4.1);
/// - hosts of NS, MX and SRV within the zone that are aliases or have no address, as glue below a zone cut (RFC 1034 section
///   4.2.1, RFC 2181 section 10.3);
/// - if the apex has keys of a zone, each of their algorithms of which no signature stands (RFC 4035 section 2.2), and each signature
///   with another signer, count of labels or TTL, or that doesn't hold at that moment, or not for long (RFC 4034 section 3.1).
///
/// Nothing is found of sets below a zone cut, which aren't the zone's own. No signature is verified.
///
/// # Errors
///
/// `Memory` alone.
pub fn check(
    alloc: Global,
    records: &RecordMap,
    origin: &LowerName,
    period: Period,
) -> Result<Vec<Finding>, ProtoError>
    ensures ok { IfOk result
        (λ found. found.items ≡ findings origin.now period records.now) }
    ensures err { IsOkUnless result ProtoError.Memory }
{
    let zone = Zone { records, origin };
    let algorithms = apex_algorithms(alloc, &zone)?;
    let mut found = Vec::new(alloc);
    for (key, set) in records.iter() {
        push_findings(
            alloc,
            &zone,
            period,
            algorithms.as_slice(),
            key,
            set,
            &mut found,
        )?;
    }
    Ok(found)
}

/// Adds what is found of a set. Its only error is `Memory`.
fn push_findings(
    alloc: Global,
    zone: &Zone<'_>,
    period: Period,
    algorithms: &[u8],
    key: &RrKey,
    set: &RecordSet,
    out: &mut Vec<Finding>,
) -> Result<(), ProtoError>
    ensures ok { OnOk result (out.new.items ≡ out.old.items
        ++ set_findings zone.now.origin.now period algorithms.now zone.now.records.now
        key.now.name key.now.record_type.0 set.now) }
    ensures err { IsOkUnless result ProtoError.Memory }
{
    let (owner, record_type) = (&key.name, key.record_type);
    if zone.is_below_cut(owner)? {
        return Ok(());
    }
    push_placing(zone, owner, record_type, out)?;
    push_below_dname(zone, owner, record_type, out)?;
    push_of_records(alloc, zone, owner, record_type, set.as_slice(), out)?;
    push_signatures(zone, period, algorithms, owner, record_type, set, out)
}

/// Adds what is found of the records of a set. Its only error is `Memory`.
fn push_of_records(
    alloc: Global,
    zone: &Zone<'_>,
    owner: &LowerName,
    record_type: RecordType,
    records: &[Record],
    out: &mut Vec<Finding>,
) -> Result<(), ProtoError>
    ensures ok { OnOk result (out.new.items ≡ out.old.items
        ++ of_records zone.now.origin.now zone.now.records.now owner.now record_type.0
        records.now) }
    ensures err { IsOkUnless result ProtoError.Memory }
{
    push_digests(owner, record_type, records, out)?;
    push_requests(alloc, zone, owner, record_type, records, out)?;
    push_targets(zone, owner, record_type, records, out)
}
