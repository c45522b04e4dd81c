//! The signatures of a zone.
ghost use Rattle.std.specs.Prelude.{◌≡◌, ◌++◌, ◌==◌, IfOk, OnOk, IsOkUnless};
ghost use Rattle.std.specs.List.{flat_map, list_any};
ghost use Rattle.zone_proto.specs.declared.record.Record.{Record as RecordValue};
ghost use Rattle.zone_proto.specs.Names.{lower, name_eq};
ghost use Rattle.zone_publication.specs.Signatures.{apex_algorithms, is_of_algorithm, is_to_be_signed, is_zone_key, lacking, signature_finding, signatures, signed_labels, what_is_wrong, when_held, with_algorithm, with_algorithms};

use crate::dates::{Period, ahead, is_not_before};
use crate::finding::{Finding, What, push_finding};
use crate::names::Zone;
use std::alloc::{AllocError, Global};
use zone_proto::{DNSKEY, LowerName, ProtoError, RData, RRSIG, Record, RecordSet, RecordType};

/// The algorithms of the zone's keys, each once. Its only error is `Memory`.
pub(crate) fn apex_algorithms(alloc: Global, zone: &Zone<'_>) -> Result<Vec<u8>, ProtoError>
    ensures ok { IfOk result (λ algorithms. algorithms.items
        ≡ apex_algorithms zone.now.origin.now zone.now.records.now) }
    ensures err { IsOkUnless result ProtoError.Memory }
{
    let mut algorithms = Vec::new(alloc);
    if let Some(set) = zone.set_at(zone.origin, RecordType::DNSKEY)? {
        push_algorithms(set.as_slice(), &mut algorithms)?;
    }
    Ok(algorithms)
}

/// Adds the algorithms of keys to others, each once.
fn push_algorithms(records: &[Record], algorithms: &mut Vec<u8>) -> Result<(), AllocError>
    ensures { OnOk result
        (algorithms.new.items ≡ with_algorithms algorithms.old.items records.now) }
{
    for given in records {
        push_algorithm(&given.rdata, algorithms)?;
    }
    Ok(())
}

/// Adds the algorithm of a key of the zone, if it is another.
fn push_algorithm(rdata: &RData, algorithms: &mut Vec<u8>) -> Result<(), AllocError>
    ensures { OnOk result
        (algorithms.new.items ≡ with_algorithm algorithms.old.items rdata.now) }
{
    if let RData::DNSKEY(key) = rdata {
        if is_zone_key(key) && !has(algorithms.as_slice(), key.algorithm) {
            algorithms.push(key.algorithm)?;
        }
    }
    Ok(())
}

/// Whether an algorithm is among others.
fn has(algorithms: &[u8], algorithm: u8) -> bool
    ensures { result ≡ list_any (λ a. a == algorithm) algorithms.now }
{
    algorithms.iter().any(|other| *other == algorithm)
}

/// Whether a key is one of a zone (RFC 4034 section 2.1.1).
pub(crate) fn is_zone_key(key: &DNSKEY) -> bool
    ensures { result ≡ is_zone_key key.now }
{
    key.flags / 256 % 2 == 1
}

/// Adds what is found of the signatures of a set, where the zone has keys of these algorithms. Its only error is `Memory`.
pub(crate) fn push_signatures(
    zone: &Zone<'_>,
    period: Period,
    algorithms: &[u8],
    owner: &LowerName,
    record_type: RecordType,
    set: &RecordSet,
    out: &mut Vec<Finding>,
) -> Result<(), ProtoError>
    ensures ok { OnOk result (out.new.items ≡ out.old.items
        ++ signatures zone.now.origin.now period algorithms.now zone.now.records.now owner.now
        record_type.0 set.now) }
    ensures err { IsOkUnless result ProtoError.Memory }
{
    if !is_to_be_signed(zone, owner, record_type)? {
        return Ok(());
    }
    push_lacking(algorithms, owner, record_type, set.rrsigs(), out)?;
    if algorithms.is_empty() {
        return Ok(());
    }
    for given in set.rrsigs() {
        push_signature(
            zone,
            period,
            owner,
            record_type,
            set.ttl(),
            &given.rdata,
            out,
        )?;
    }
    Ok(())
}

/// Whether a set is one that has to be signed in a signed zone. Its only error is `Memory`.
fn is_to_be_signed(
    zone: &Zone<'_>,
    owner: &LowerName,
    record_type: RecordType,
) -> Result<bool, ProtoError>
    ensures ok { IfOk result (λ is. is
        ≡ is_to_be_signed zone.now.origin.now zone.now.records.now owner.now record_type.0) }
    ensures err { IsOkUnless result ProtoError.Memory }
{
    if record_type == RecordType::RRSIG || zone.is_below_dname(owner)? {
        return Ok(false);
    }
    if zone.is_cut(owner)? {
        return Ok(record_type == RecordType::DS || record_type == RecordType::NSEC);
    }
    Ok(true)
}

/// Adds the algorithms of which a set has no signature. Its only error is `Memory`.
fn push_lacking(
    algorithms: &[u8],
    owner: &LowerName,
    record_type: RecordType,
    rrsigs: &[Record],
    out: &mut Vec<Finding>,
) -> Result<(), ProtoError>
    ensures ok { OnOk result (out.new.items ≡ out.old.items
        ++ flat_map (lacking owner.now record_type.0 rrsigs.now) algorithms.now) }
    ensures err { IsOkUnless result ProtoError.Memory }
{
    for algorithm in algorithms {
        if !is_signed_by(*algorithm, rrsigs) {
            push_finding(owner, record_type, What::NoSignature(*algorithm), out)?;
        }
    }
    Ok(())
}

/// Whether a signature is of an algorithm.
fn is_signed_by(algorithm: u8, rrsigs: &[Record]) -> bool
    ensures { result
        ≡ list_any (λ (r : RecordValue). is_of_algorithm algorithm r.rdata) rrsigs.now }
{
    rrsigs
        .iter()
        .any(|given| is_of_algorithm(algorithm, &given.rdata))
}

/// Whether data are a signature of an algorithm.
fn is_of_algorithm(algorithm: u8, rdata: &RData) -> bool
    ensures { result ≡ is_of_algorithm algorithm rdata.now }
{
    match rdata {
        RData::RRSIG(rrsig) => rrsig.algorithm == algorithm,
        _ => false,
    }
}

/// Adds what is wrong with a signature. Its only error is `Memory`.
fn push_signature(
    zone: &Zone<'_>,
    period: Period,
    owner: &LowerName,
    record_type: RecordType,
    ttl: u32,
    rdata: &RData,
    out: &mut Vec<Finding>,
) -> Result<(), ProtoError>
    ensures ok { OnOk result (out.new.items ≡ out.old.items
        ++ signature_finding zone.now.origin.now period owner.now record_type.0 ttl rdata.now) }
    ensures err { IsOkUnless result ProtoError.Memory }
{
    let RData::RRSIG(rrsig) = rdata else {
        return Ok(());
    };
    match what_is_wrong(zone, period, owner, ttl, rrsig)? {
        Some(what) => push_finding(owner, record_type, what, out),
        None => Ok(()),
    }
}

/// What is wrong with a signature. Its only error is `Memory`.
fn what_is_wrong(
    zone: &Zone<'_>,
    period: Period,
    owner: &LowerName,
    ttl: u32,
    rrsig: &RRSIG,
) -> Result<Option<What>, ProtoError>
    ensures ok { IfOk result (λ what. what
        ≡ what_is_wrong zone.now.origin.now period owner.now ttl rrsig.now) }
    ensures err { IsOkUnless result ProtoError.Memory }
{
    if !is_by_zone(zone, rrsig)? {
        return Ok(Some(What::WrongSigner(rrsig.key_tag)));
    }
    if usize::from(rrsig.num_labels) != signed_labels(owner) {
        return Ok(Some(What::WrongLabels(rrsig.key_tag)));
    }
    if rrsig.original_ttl != ttl {
        return Ok(Some(What::WrongTtl(rrsig.key_tag)));
    }
    Ok(when_held(period, rrsig))
}

/// Whether the owner of the key of a signature is the origin. Its only error is `Memory`.
#[tactic(auto, using(crate::proofs::SameNames::same_name))]
fn is_by_zone(zone: &Zone<'_>, rrsig: &RRSIG) -> Result<bool, ProtoError>
    ensures ok { IfOk result
        (λ is. is ≡ name_eq (lower rrsig.now.signer_name) zone.now.origin.now) }
    ensures err { IsOkUnless result ProtoError.Memory }
{
    let signer = LowerName::new(&rrsig.signer_name)?;
    Ok(signer == *zone.origin)
}

/// How many labels the signatures of an owner count.
fn signed_labels(owner: &LowerName) -> usize
    ensures { result ≡ signed_labels owner.now }
{
    let count = owner.num_labels();
    if owner.is_wildcard() {
        count - 1
    } else {
        count
    }
}

/// Why a signature doesn't hold at a moment, or not for long.
fn when_held(period: Period, rrsig: &RRSIG) -> Option<What>
    ensures { result ≡ when_held period rrsig.now }
{
    if !is_not_before(period.moment, rrsig.inception) {
        return Some(What::NotYetValid(rrsig.key_tag));
    }
    if !is_not_before(rrsig.expiration, period.moment) {
        return Some(What::Expired(rrsig.key_tag));
    }
    if ahead(rrsig.expiration, period.moment) < period.soon {
        return Some(What::EndsSoon(rrsig.key_tag));
    }
    None
}
