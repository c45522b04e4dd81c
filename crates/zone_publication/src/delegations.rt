//! Where sets stand, and the digests of delegations.
ghost use Rattle.std.specs.Prelude.{◌≡◌, ◌++◌, OnOk, IsOkUnless};
ghost use Rattle.zone_publication.specs.Delegations.{below_dname, digest_finding, digest_length, digests, is_length, is_of_denial, placing, record_digest};

use crate::finding::{Finding, What, push_finding};
use crate::names::Zone;
use zone_proto::{LowerName, ProtoError, RData, Record, RecordType};

/// The digest of a key that the parent is to have (RFC 7344 section 3.1).
pub(crate) const CDS: RecordType = RecordType(59);

/// Adds what is found of where a set stands. Its only error is `Memory`.
pub(crate) fn push_placing(
    zone: &Zone<'_>,
    owner: &LowerName,
    record_type: RecordType,
    out: &mut Vec<Finding>,
) -> Result<(), ProtoError>
    ensures ok { OnOk result (out.new.items ≡ out.old.items
        ++ placing zone.now.origin.now zone.now.records.now owner.now record_type.0) }
    ensures err { IsOkUnless result ProtoError.Memory }
{
    if record_type != RecordType::DS {
        return Ok(());
    }
    if !zone.is_below(owner) {
        return push_finding(owner, record_type, What::AtApex, out);
    }
    if !zone.owns(owner, RecordType::NS)? {
        return push_finding(owner, record_type, What::WithoutNs, out);
    }
    Ok(())
}

/// Adds that a set stands below a DNAME. Its only error is `Memory`.
pub(crate) fn push_below_dname(
    zone: &Zone<'_>,
    owner: &LowerName,
    record_type: RecordType,
    out: &mut Vec<Finding>,
) -> Result<(), ProtoError>
    ensures ok { OnOk result (out.new.items ≡ out.old.items
        ++ below_dname zone.now.origin.now zone.now.records.now owner.now record_type.0) }
    ensures err { IsOkUnless result ProtoError.Memory }
{
    if !is_of_denial(record_type) && zone.is_below_dname(owner)? {
        return push_finding(owner, record_type, What::BelowDname, out);
    }
    Ok(())
}

/// Whether a type is one of DNSSEC that may stand below a DNAME.
fn is_of_denial(record_type: RecordType) -> bool
    ensures { result ≡ is_of_denial record_type.0 }
{
    record_type == RecordType::NSEC
        || (record_type == RecordType::NSEC3 || record_type == RecordType::RRSIG)
}

/// Adds what is found of the digests of a set. Its only error is `Memory`.
pub(crate) fn push_digests(
    owner: &LowerName,
    record_type: RecordType,
    records: &[Record],
    out: &mut Vec<Finding>,
) -> Result<(), ProtoError>
    ensures ok { OnOk result (out.new.items
        ≡ out.old.items ++ digests owner.now record_type.0 records.now) }
    ensures err { IsOkUnless result ProtoError.Memory }
{
    if record_type != RecordType::DS && record_type != CDS {
        return Ok(());
    }
    for given in records {
        push_record_digest(owner, record_type, &given.rdata, out)?;
    }
    Ok(())
}

/// Adds what is found of the digest of a record. Its only error is `Memory`.
fn push_record_digest(
    owner: &LowerName,
    record_type: RecordType,
    rdata: &RData,
    out: &mut Vec<Finding>,
) -> Result<(), ProtoError>
    ensures ok { OnOk result (out.new.items
        ≡ out.old.items ++ record_digest owner.now record_type.0 rdata.now) }
    ensures err { IsOkUnless result ProtoError.Memory }
{
    match rdata {
        RData::Other(other) => push_digest(owner, record_type, other.octets(), out),
        _ => Ok(()),
    }
}

/// Adds what is found of a digest among data. Its only error is `Memory`.
fn push_digest(
    owner: &LowerName,
    record_type: RecordType,
    octets: &[u8],
    out: &mut Vec<Finding>,
) -> Result<(), ProtoError>
    ensures ok { OnOk result (out.new.items
        ≡ out.old.items ++ digest_finding owner.now record_type.0 octets.now) }
    ensures err { IsOkUnless result ProtoError.Memory }
{
    match octets {
        [_, _, algorithm, digest_type, digest @ ..] => {
            if *algorithm == 0 || is_length(digest.len(), *digest_type) {
                return Ok(());
            }
            push_finding(owner, record_type, What::DigestLength(*digest_type), out)
        }
        _ => Ok(()),
    }
}

/// Whether a digest of this type has so many octets, as far as that is known.
fn is_length(count: usize, digest_type: u8) -> bool
    ensures { result ≡ is_length count (digest_length digest_type) }
{
    match digest_type {
        1 => count == 20,
        2 | 3 => count == 32,
        4 => count == 48,
        _ => true,
    }
}
