//! What is kept of a zone to deny names one label below its origin that don't exist: the SOA set, as the octets that go out, and what of the proof is
//! the same for each of these names.
ghost use Rattle.std.specs.Prelude.{◌≡◌, Ok, IfOk, IfSome, option_copied};
ghost use Rattle.zone_proto.specs.Names.{wildcard_under};
ghost use Rattle.zone_response.specs.HashedDenials.{hash_of};
ghost use Rattle.zone_response.specs.Queries.{zone_of};
ghost use Rattle.zone_response.specs.Sections.{sent, sent_set};
ghost use Rattle.zone_response.specs.Denials.{sent_proof};
ghost use Rattle.ready_denials.specs.Denials.{IsDenial, IsHashedProof, IsKeptProof, IsProvedBy};

use lookup_types::Nsec3QueryInfo;
use message_writing::KeptRecords;
use std::alloc::{AllocError, Global};
use zone_denial::closest::closest_nsec;
use zone_lookup::Found;
use zone_proto::{LowerName, Name, Nsec3Hash, ProtoError, RecordSet, Signer};
use zone_response::{
    Part, Sent, ServedZone, covering, hashed_query, matching, matching_or_covering, negative_ttl,
    plain_apex,
};
use zone_server::keep_set;

/// What is kept of a zone to deny names one label below its origin that don't exist.
#[derive(Drop)]
pub struct ReadyDenial {
    /// The SOA set of a negative response.
    pub(crate) soa: KeptRecords,
    /// The same with its signatures.
    pub(crate) signed_soa: KeptRecords,
    /// The TTL of a negative response, in seconds (RFC 2308 section 3).
    pub(crate) ttl: u32,
    /// What proves it, with DNSSEC.
    pub(crate) proof: ReadyProof,
}

/// What proves that names right below the origin don't exist, but for the set that covers the name.
#[derive(Drop)]
pub(crate) enum ReadyProof {
    /// By NSEC: the set that covers the wildcard below the origin (RFC 4035 section 3.1.3.2), if there is one.
    Names(Option<KeptProof>),
    /// By NSEC3.
    Hashes(HashedProof),
}

/// An NSEC set that is kept.
#[derive(Drop)]
pub(crate) struct KeptProof {
    /// Its owner.
    pub(crate) owner: Name,
    /// Its records and signatures.
    pub(crate) records: KeptRecords,
}

/// NSEC3 sets that are kept (RFC 5155 section 7.2.2).
#[derive(Drop)]
pub(crate) struct HashedProof {
    /// The one that matches the origin, the closest encloser.
    pub(crate) encloser: RecordSet,
    /// The one that matches the wildcard below the origin, or else covers it, if there is one.
    pub(crate) wildcard: Option<RecordSet>,
}

/// Keeps of a zone what denies names one label below its origin that don't exist. None where its origin owns no SOA set, or a DNAME set, or there is a
/// wildcard below the origin; where it denies by NSEC3, and the origin has no NSEC3 set or can't be hashed; and where no octets are the data of a
/// record. Fails only for lack of memory.
pub fn ready_denial<S: Signer, H: Nsec3Hash>(
    alloc: Global,
    zone: &ServedZone<'_, S, H>,
) -> Result<Option<ReadyDenial>, AllocError>
    ensures { IfOk result (λ denial. IfSome denial
        (IsDenial (zone_of S.signature_of H.digest_of zone.now))) }
{
    match kept_denial(alloc, zone) {
        Ok(denial) => Ok(denial),
        Err(_) => Err(AllocError),
    }
}

/// The same, refused by `Memory` alone.
fn kept_denial<S: Signer, H: Nsec3Hash>(
    alloc: Global,
    zone: &ServedZone<'_, S, H>,
) -> Result<Option<ReadyDenial>, ProtoError>
    ensures { IfOk result (λ denial. IfSome denial
        (IsDenial (zone_of S.signature_of H.digest_of zone.now))) }
{
    let Some(soa) = plain_apex(zone)? else {
        return Ok(None);
    };
    let ttl = negative_ttl(soa);
    let Some(plain) = keep_set(alloc, zone.origin, &lent(soa, ttl, Part::Records))? else {
        return Ok(None);
    };
    let Some(signed) = keep_set(alloc, zone.origin, &lent(soa, ttl, Part::Signed))? else {
        return Ok(None);
    };
    let Some(proof) = ready_proof(alloc, zone, ttl)? else {
        return Ok(None);
    };
    Ok(Some(ReadyDenial {
        soa: plain,
        signed_soa: signed,
        ttl,
        proof,
    }))
}

/// What proves it, in negative responses of this TTL.
fn ready_proof<S: Signer, H: Nsec3Hash>(
    alloc: Global,
    zone: &ServedZone<'_, S, H>,
    ttl: u32,
) -> Result<Option<ReadyProof>, ProtoError>
    ensures { IfOk result (λ proof. IfSome proof
        (IsProvedBy (zone_of S.signature_of H.digest_of zone.now) ttl
        (option_copied zone.now.nx_proof_kind))) }
{
    let Ok(wildcard) = zone.origin.prepend_label(b"*") else {
        return Ok(None);
    };
    match hashed_query(zone.nx_proof_kind, zone.origin) {
        Some(query) => match hashed_proof(zone, &query, &wildcard)? {
            Some(proof) => Ok(Some(ReadyProof::Hashes(proof))),
            None => Ok(None),
        },
        None => {
            let covering = closest_nsec(zone.denials, &wildcard)?;
            match kept_proof(alloc, zone.origin, covering, ttl)? {
                Some(proof) => Ok(Some(ReadyProof::Names(proof))),
                None => Ok(None),
            }
        }
    }
}

/// An NSEC set, if there is one, as it is sent in negative responses of this TTL. None if no octets are the data of a record.
fn kept_proof(
    alloc: Global,
    origin: &LowerName,
    set: Option<&RecordSet>,
    ttl: u32,
) -> Result<Option<Option<KeptProof>>, ProtoError>
    ensures { IfOk result (λ kept. IfSome kept
        (IsKeptProof origin.now ttl (option_copied set.entry))) }
{
    let Some(set) = set else {
        return Ok(Some(None));
    };
    let owner = set.name().clone()?;
    match keep_set(alloc, origin, &proof_of(set, ttl))? {
        Some(records) => Ok(Some(Some(KeptProof { owner, records }))),
        None => Ok(None),
    }
}

/// The NSEC3 sets that match the origin and the wildcard below it, or cover that; none where the origin has no set, or one of the two can't be hashed.
fn hashed_proof<S: Signer, H: Nsec3Hash>(
    zone: &ServedZone<'_, S, H>,
    query: &Nsec3QueryInfo<'_>,
    wildcard: &LowerName,
) -> Result<Option<HashedProof>, ProtoError>
    requires { wildcard.now ≡ wildcard_under zone.now.origin.now }
    ensures { IfOk result (λ proof. IfSome proof
        (IsHashedProof zone.now.origin.now zone.now.denials.now
        (hash_of H.digest_of zone.now query.now))) }
{
    let Some(owner) = hashed_owner(zone, query, zone.origin)? else {
        return Ok(None);
    };
    let Some(encloser) = matching(zone.denials, &owner)? else {
        return Ok(None);
    };
    let Some(owner) = hashed_owner(zone, query, wildcard)? else {
        return Ok(None);
    };
    let found = matching_or_covering(zone.denials, &owner)?;
    Ok(Some(HashedProof {
        encloser: encloser.clone()?,
        wildcard: cloned(found)?,
    }))
}

/// A copy of a set, if there is one.
fn cloned(set: Option<&RecordSet>) -> Result<Option<RecordSet>, ProtoError>
    ensures { IfOk result (λ copy. copy ≡ option_copied set.entry) }
{
    match set {
        Some(set) => Ok(Some(set.clone()?)),
        None => Ok(None),
    }
}

/// The owner of the NSEC3 set of a name; none where it can't be hashed.
pub(crate) fn hashed_owner<S: Signer, H: Nsec3Hash>(
    zone: &ServedZone<'_, S, H>,
    query: &Nsec3QueryInfo<'_>,
    name: &LowerName,
) -> Result<Option<LowerName>, ProtoError>
    ensures { IfOk result (λ owner. IfSome owner
        (λ o. hash_of H.digest_of zone.now query.now name.now ≡ Ok o)) }
{
    match query.hashed_owner_name(zone.hash, name, zone.origin) {
        Ok(owner) => Ok(Some(owner)),
        Err(ProtoError::Memory) => Err(ProtoError::Memory),
        Err(_) => Ok(None),
    }
}

/// A set of the zone as it is sent.
fn lent<'z>(set: &'z RecordSet, ttl: u32, part: Part) -> Sent<'z>
    ensures { sent_set result ≡ sent part ttl set.now }
{
    Sent {
        set: Found::Stored(set),
        ttl,
        part,
    }
}

/// A set that proves something as it is sent in negative responses of this TTL (RFC 9077 section 3).
pub(crate) fn proof_of<'z>(set: &'z RecordSet, ttl: u32) -> Sent<'z>
    ensures { sent_set result ≡ sent_proof ttl set.now }
{
    lent(set, set.ttl().min(ttl), Part::Signed)
}
