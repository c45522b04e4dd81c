//! By what a zone denies what it doesn't hold.
ghost use Rattle.std.specs.Prelude.{◌≡◌, ◌⊎◌, Ok, Err, IfErr, IfOk, IsOkUnless, option_copied};
ghost use Rattle.zone_proto.specs.HashedOwners.{owner_or_refusal};
ghost use Rattle.zone_denial.specs.Nsec3Zones.{hash_with};
ghost use Rattle.zone_builder.specs.DenialKinds.{announced_kind, chain_kind, denial_kind, first_kind, hashed_kind, named_kind, nsec3_set_of};

use crate::nsec3_data::opts_out;
use lookup_types::Nsec3QueryInfo;
use zone_denial::chain_sets::has_parameters;
use zone_map::RecordMap;
use zone_proto::{
    LowerName, NSEC3PARAM, Nsec3Hash, NxProofKind, ProtoError, RData, Record, RecordSet,
    RecordType, RrKey,
};

/// By what a zone denies what it doesn't have: by hashed names, with the parameters of the first NSEC3PARAM record of the
/// origin that has a chain (RFC 5155 section 7.3), otherwise by names, if the origin owns NSEC (RFC 4035 section 2.3); None if
/// neither is the case. A chain has an NSEC3 set with these parameters at the origin's hashed owner, and that set says whether
/// opt-out is used (RFC 5155 section 4.1.2). `hash` gives the digests. Its only error is `Memory`.
pub fn denial_kind<H: Nsec3Hash>(
    records: &RecordMap,
    origin: &LowerName,
    hash: &H,
) -> Result<Option<NxProofKind>, ProtoError>
    ensures kind { IfOk result
        (λ kind. kind ≡ denial_kind origin.now records.now (H.digest_of hash.now)) }
    ensures err { IsOkUnless result ProtoError.Memory }
{
    let key = RrKey::new(origin.clone()?, RecordType::NSEC3PARAM);
    let Some(announced) = records.get(&key) else {
        return named_kind(records, origin);
    };
    match first_kind(records, origin, hash, announced.as_slice())? {
        Some(kind) => Ok(Some(kind)),
        None => named_kind(records, origin),
    }
}

/// Denial by the first chain that these records announce. Its only error is `Memory`.
fn first_kind<H: Nsec3Hash>(
    records: &RecordMap,
    origin: &LowerName,
    hash: &H,
    announced: &[Record],
) -> Result<Option<NxProofKind>, ProtoError>
    ensures kind { IfOk result
        (λ kind. kind ≡ first_kind origin.now records.now (H.digest_of hash.now) announced.now) }
    ensures err { IsOkUnless result ProtoError.Memory }
{
    for record in announced {
        if let Some(kind) = announced_kind(records, origin, hash, &record.rdata)? {
            return Ok(Some(kind));
        }
    }
    Ok(None)
}

/// Denial by the chain that data announce. Its only error is `Memory`.
fn announced_kind<H: Nsec3Hash>(
    records: &RecordMap,
    origin: &LowerName,
    hash: &H,
    rdata: &RData,
) -> Result<Option<NxProofKind>, ProtoError>
    ensures kind { IfOk result
        (λ kind. kind ≡ announced_kind origin.now records.now (H.digest_of hash.now) rdata.now) }
    ensures err { IsOkUnless result ProtoError.Memory }
{
    match rdata {
        RData::NSEC3PARAM(parameters) => hashed_kind(records, origin, hash, parameters),
        _ => Ok(None),
    }
}

/// Denial by the chain with these parameters, if it has a set at the origin's hashed owner. Its only error is `Memory`.
fn hashed_kind<H: Nsec3Hash>(
    records: &RecordMap,
    origin: &LowerName,
    hash: &H,
    parameters: &NSEC3PARAM,
) -> Result<Option<NxProofKind>, ProtoError>
    ensures kind { IfOk result
        (λ kind. kind
        ≡ hashed_kind origin.now records.now (H.digest_of hash.now) parameters.now) }
    ensures err { IsOkUnless result ProtoError.Memory }
{
    match nsec3_set_at(records, origin, hash, parameters)? {
        Some(set) => chain_kind(parameters, set),
        None => Ok(None),
    }
}

/// The NSEC3 set at the origin's hashed owner. Its only error is `Memory`.
fn nsec3_set_at<'r, H: Nsec3Hash>(
    records: &'r RecordMap,
    origin: &LowerName,
    hash: &H,
    parameters: &NSEC3PARAM,
) -> Result<Option<&'r RecordSet>, ProtoError>
    ensures found { IfOk result
        (λ found. option_copied found
        ≡ nsec3_set_of records.now
        (owner_or_refusal origin.now
        (hash_with (H.digest_of hash.now) parameters.now origin.now))) }
    ensures err { IsOkUnless result ProtoError.Memory }
{
    match hashed_owner(origin, hash, parameters) {
        Ok(owner) => Ok(records.get(&RrKey::new(owner, RecordType::NSEC3))),
        Err(ProtoError::Memory) => Err(ProtoError::Memory),
        Err(_) => Ok(None),
    }
}

/// The origin's hashed owner (RFC 5155 section 3). Refused where the origin has no digest, or that makes no owner, or by `Memory`.
fn hashed_owner<H: Nsec3Hash>(
    origin: &LowerName,
    hash: &H,
    parameters: &NSEC3PARAM,
) -> Result<LowerName, ProtoError>
    ensures ok { IfOk result
        (λ owner. owner_or_refusal origin.now
        (hash_with (H.digest_of hash.now) parameters.now origin.now)
        ≡ Ok owner) }
    ensures err { IfErr result
        (λ e. (e ≡ ProtoError.Memory)
        ⊎ (owner_or_refusal origin.now
        (hash_with (H.digest_of hash.now) parameters.now origin.now)
        ≡ Err e)) }
{
    let query = Nsec3QueryInfo {
        qname: origin,
        qtype: RecordType::NSEC3,
        has_wildcard_match: false,
        algorithm: parameters.algorithm,
        salt: parameters.salt.as_slice(),
        iterations: parameters.iterations,
    };
    query.hashed_owner_name(hash, origin, origin)
}

/// Denial by the chain with these parameters, if an NSEC3 set belongs to it. Its only error is `Memory`.
fn chain_kind(parameters: &NSEC3PARAM, set: &RecordSet) -> Result<Option<NxProofKind>, ProtoError>
    ensures kind { IfOk result (λ kind. kind ≡ chain_kind parameters.now set.now) }
    ensures err { IsOkUnless result ProtoError.Memory }
{
    let belongs = has_parameters(
        parameters.algorithm,
        parameters.salt.as_slice(),
        parameters.iterations,
        set,
    );
    if !belongs {
        return Ok(None);
    }
    Ok(Some(NxProofKind::Nsec3 {
        algorithm: parameters.algorithm,
        salt: parameters.salt.clone()?,
        iterations: parameters.iterations,
        opt_out: opts_out(set),
    }))
}

/// Denial by names, where the origin owns NSEC. Its only error is `Memory`.
fn named_kind(records: &RecordMap, origin: &LowerName) -> Result<Option<NxProofKind>, ProtoError>
    ensures kind { IfOk result (λ kind. kind ≡ named_kind origin.now records.now) }
    ensures err { IsOkUnless result ProtoError.Memory }
{
    let key = RrKey::new(origin.clone()?, RecordType::NSEC);
    match records.get(&key) {
        Some(_) => Ok(Some(NxProofKind::Nsec)),
        None => Ok(None),
    }
}
