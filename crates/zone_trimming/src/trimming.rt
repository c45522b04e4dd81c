//! The sets of denial of a zone that is to be signed as the standards have them: lists of types at delegations without what the parent
//! isn't authoritative for (RFC 4035 section 2.3, RFC 5155 section 7.1), and NSEC3PARAM without flags (RFC 5155 section 4.1.2).
ghost use Rattle.std.specs.Prelude.{◌≡◌, ℕ, map, IfOk, IsOkUnless};
ghost use Rattle.zone_proto.specs.Data.{type_of};
ghost use Rattle.zone_proto.specs.Names.{Name};
ghost use Rattle.zone_proto.specs.Results.{IsCopy};
ghost use Rattle.zone_map.specs.Zones.{set_at, AreStored, IsStoredAt};
ghost use Rattle.zone_trimming.specs.Trimming.{has_type, is_of_delegation, stays_listed, trimmed_at, trimmed_data, trimmed_set, trimmed_types};

use std::alloc::{AllocError, Global};
use zone_map::{NewSets, RecordMap};
use zone_proto::{
    NSEC, NSEC3, NSEC3PARAM, ProtoError, RData, Record, RecordSet, RecordType, RrKey, Seq,
};

/// Sets of denial, each as the standards have it. Its only error is `Memory`.
pub fn trimmed(alloc: Global, sets: NewSets) -> Result<NewSets, ProtoError>
    ensures ok { IfOk result
        (λ made. (n : Name) (t : ℕ) → set_at made n t ≡ trimmed_at (set_at sets) n t) }
    ensures err { IsOkUnless result ProtoError.Memory }
{
    let map = RecordMap::from_sets(alloc, sets)?;
    let entries = trimmed_entries(alloc, &map)?;
    let made = NewSets::from_entries(alloc, entries)?;
    Ok(made)
}

/// These sets under their keys, in order.
fn trimmed_entries(alloc: Global, sets: &RecordMap) -> Result<Vec<(RrKey, RecordSet)>, ProtoError>
    ensures ok { IfOk result
        (λ entries. entries.items ≡ map (λ e. (e.0, trimmed_set e.1)) sets.now) }
    ensures stored { IfOk result (λ entries. AreStored entries.items) }
    ensures err { IsOkUnless result ProtoError.Memory }
{
    let mut entries = Vec::with_capacity(alloc, sets.len())?;
    for (key, set) in sets.iter() {
        entries.push(trimmed_entry(alloc, key, set)?)?;
    }
    Ok(entries)
}

/// A set under its key.
#[tactic(auto, using(crate::proofs::TrimmedSets::stored_trimmed))]
fn trimmed_entry(
    alloc: Global,
    key: &RrKey,
    set: &RecordSet,
) -> Result<(RrKey, RecordSet), ProtoError>
    requires { IsStoredAt key.now.name key.now.record_type.0 set.now }
    ensures ok { IfOk result (λ e. e ≡ (key.now, trimmed_set set.now)) }
    ensures stored { IfOk result (λ e. IsStoredAt e.0.name e.0.record_type.0 e.1) }
    ensures err { IsOkUnless result ProtoError.Memory }
{
    let trimmed = trimmed_set(alloc, set)?;
    Ok((key.clone()?, trimmed))
}

/// A set of denial with its records so.
fn trimmed_set(alloc: Global, set: &RecordSet) -> Result<RecordSet, ProtoError>
    ensures { IsCopy result (trimmed_set set.now) }
{
    let serial = set.serial();
    let mut trimmed = RecordSet::new(set.name().clone()?, set.record_type(), serial);
    for stored in set.as_slice() {
        let owner = set.name().clone()?;
        let record = Record::from_rdata(owner, set.ttl(), trimmed_data(alloc, &stored.rdata)?);
        trimmed.insert(record, serial)?;
    }
    Ok(trimmed)
}

/// The data of a denial with their list so, and those of NSEC3PARAM without flags.
fn trimmed_data(alloc: Global, rdata: &RData) -> Result<RData, ProtoError>
    ensures { IsCopy result (trimmed_data rdata.now) }
{
    match rdata {
        RData::NSEC(nsec) => Ok(RData::NSEC(NSEC {
            next_domain_name: nsec.next_domain_name.clone()?,
            types: trimmed_list(alloc, &nsec.types)?,
        })),
        RData::NSEC3(nsec3) => Ok(RData::NSEC3(NSEC3 {
            algorithm: nsec3.algorithm,
            opt_out: nsec3.opt_out,
            iterations: nsec3.iterations,
            salt: nsec3.salt.clone()?,
            next_hashed_owner_name: nsec3.next_hashed_owner_name.clone()?,
            types: trimmed_list(alloc, &nsec3.types)?,
        })),
        RData::NSEC3PARAM(param) => Ok(RData::NSEC3PARAM(NSEC3PARAM {
            algorithm: param.algorithm,
            opt_out: false,
            iterations: param.iterations,
            salt: param.salt.clone()?,
        })),
        other => other.clone(),
    }
}

/// A list of types without those that the parent doesn't list at a delegation, if it is that of one.
fn trimmed_list(alloc: Global, types: &Seq<RecordType>) -> Result<Seq<RecordType>, ProtoError>
    ensures { IsCopy result (trimmed_types types.now) }
{
    Ok(Seq::from_vec(trimmed_types(alloc, types.as_slice())?))
}

/// The same of a slice.
fn trimmed_types(alloc: Global, types: &[RecordType]) -> Result<Vec<RecordType>, AllocError>
    ensures { IfOk result (λ list. list.items ≡ trimmed_types types.now) }
{
    if !is_of_delegation(types) {
        return Vec::from_slice(alloc, types);
    }
    let mut kept = Vec::with_capacity(alloc, types.len())?;
    for record_type in types {
        if stays_listed(types, *record_type) {
            kept.push(*record_type)?;
        }
    }
    Ok(kept)
}

/// Whether a list is that of a delegation: it has NS and no SOA.
fn is_of_delegation(types: &[RecordType]) -> bool
    ensures { result ≡ is_of_delegation types.now }
{
    has_type(types, RecordType::NS) && !has_type(types, RecordType::SOA)
}

/// Whether a type stays in the list of a delegation.
fn stays_listed(types: &[RecordType], record_type: RecordType) -> bool
    ensures { result ≡ stays_listed types.now record_type.0 }
{
    match record_type.0 {
        // NS, CNAME, DS, NSEC and NSEC3.
        2 | 5 | 43 | 47 | 50 => true,
        // RRSIG.
        46 => has_type(types, RecordType::DS) || has_type(types, RecordType::NSEC),
        _ => false,
    }
}

/// Whether a list has a type.
fn has_type(types: &[RecordType], record_type: RecordType) -> bool
    ensures { result ≡ has_type types.now record_type.0 }
{
    types.iter().any(|listed| listed.0 == record_type.0)
}
