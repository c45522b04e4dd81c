//! Names one label below the origin of a zone that don't exist, denied by what is kept of the zone.
ghost use Rattle.std.specs.Prelude.{◌≡◌, ℕ, [], ◌∷◌, true, Option, map, None, Ok, IfOk, IfSome, IsTrue, OnOk, option_copied, option_to_list};
ghost use Rattle.zone_proto.specs.Names.{lower};
ghost use Rattle.zone_proto.specs.Sets.{RRset};
ghost use Rattle.zone_map.specs.Walks.{IsChild};
ghost use Rattle.message_writing.specs.KeptText.{AreKept};
ghost use Rattle.message_writing.specs.Writers.{CanGoOn};
ghost use Rattle.zone_response.specs.ApexDenials.{missing_child};
ghost use Rattle.zone_response.specs.Denials.{is_provable, proofs, sent_proof};
ghost use Rattle.zone_response.specs.HashedDenials.{has_owner};
ghost use Rattle.zone_response.specs.Queries.{zone_of};
ghost use Rattle.zone_response.specs.Sections.{sent};
ghost use Rattle.zone_response.specs.declared.response.Part.{Part as OfPart};
ghost use Rattle.zone_server.specs.Answers.{records_sent};
ghost use Rattle.ready_denials.specs.Denials.{hash_by, hashed_sets, is_owned, named_sets, unless_owned, IsDenial, IsDenialBy, IsDenied, IsKeptProof, IsProvedBy, IsWrittenDenial, Puts, PutsDenial};

use crate::kept_denials::{
    HashedProof, KeptProof, ReadyDenial, ReadyProof, hashed_owner, proof_of,
};
use message_reading::Query;
use message_writing::{KeptRecords, ResponseHead, ResponseWriter, Section, WriteError};
use std::alloc::{AllocError, Global};
use zone_denial::closest::closest_nsec;
use zone_denial::owner_order::in_owner_order;
use zone_proto::{DNSClass, LowerName, Name, Nsec3Hash, ProtoError, RecordSet, Signer};
use zone_response::{ServedZone, covering, hashed_query, is_missing_child, is_no_data};
use zone_server::{DATAGRAM_SIZE, asks_for_dnssec, put_set};

/// The number of a name error (RFC 1035 section 4.1.1).
const NAME_ERROR: u16 = 3;

/// Answers a query for a name one label below the origin that doesn't exist, in place of the octets of `out`, by what is kept of the zone. Whether it did;
/// if not, the octets of `out` are no response. `name` is that of the question in lower case. Fails only for lack of memory.
pub fn put_denial<S: Signer, H: Nsec3Hash>(
    alloc: Global,
    zone: &ServedZone<'_, S, H>,
    denial: &ReadyDenial,
    query: &Query,
    name: &LowerName,
    limit: u16,
    out: &mut Vec<u8>,
) -> Result<bool, AllocError>
    requires kept { IsDenial (zone_of S.signature_of H.digest_of zone.now) denial.now }
    requires name { name.now ≡ lower query.now.question.name }
    ensures { IfOk result (λ denied. IsTrue denied
        → IsDenied (zone_of S.signature_of H.digest_of zone.now) limit query.now
        out.new.items) }
{
    let question = &query.question;
    if question.query_class != DNSClass::IN || is_no_data(question.query_type) {
        return Ok(false);
    }
    match is_missing_child(zone, name) {
        Ok(true) => {}
        Ok(false) => return Ok(false),
        Err(_) => return Err(AllocError),
    }
    match write_denial(alloc, zone, denial, query, name, limit, out) {
        Ok(written) => Ok(written),
        Err(WriteError::Memory) => Err(AllocError),
        Err(_) => Ok(false),
    }
}

/// Writes the denial of a name, and says whether it did.
fn write_denial<S: Signer, H: Nsec3Hash>(
    alloc: Global,
    zone: &ServedZone<'_, S, H>,
    denial: &ReadyDenial,
    query: &Query,
    name: &LowerName,
    limit: u16,
    out: &mut Vec<u8>,
) -> Result<bool, WriteError>
    requires kept { IsDenial (zone_of S.signature_of H.digest_of zone.now) denial.now }
    requires child { IsChild name.now zone.now.origin.now }
    ensures { IfOk result (λ written. IsTrue written → (soa : RRset)
        → IsDenialBy (zone_of S.signature_of H.digest_of zone.now) soa denial.now
        → IsWrittenDenial (zone_of S.signature_of H.digest_of zone.now) soa limit query.now
        name.now out.new.items) }
{
    let head = ResponseHead {
        query,
        authoritative: true,
        code: NAME_ERROR,
        size: DATAGRAM_SIZE,
    };
    let mut writer = ResponseWriter::begin(alloc, out, head, Some(name), limit)?;
    let signed = asks_for_dnssec(query);
    if !put_authorities(alloc, &mut writer, out, zone, denial, name, signed)? {
        return Ok(false);
    }
    writer.finish(out)?;
    Ok(true)
}

/// Appends the authority section of the denial of a name, and says whether it did.
fn put_authorities<S: Signer, H: Nsec3Hash>(
    alloc: Global,
    writer: &mut ResponseWriter<'_>,
    out: &mut Vec<u8>,
    zone: &ServedZone<'_, S, H>,
    denial: &ReadyDenial,
    name: &LowerName,
    signed: bool,
) -> Result<bool, WriteError>
    requires kept { IsDenial (zone_of S.signature_of H.digest_of zone.now) denial.now }
    requires child { IsChild name.now zone.now.origin.now }
    requires going { CanGoOn writer.old out.old.items }
    ensures put { IfOk result (λ put. IsTrue put → (soa : RRset)
        → IsDenialBy (zone_of S.signature_of H.digest_of zone.now) soa denial.now
        → PutsDenial (zone_of S.signature_of H.digest_of zone.now) soa signed name.now
        writer.old out.old.items writer.new out.new.items) }
    ensures going { OnOk result (CanGoOn writer.new out.new.items) }
{
    if !signed {
        return Ok(put_kept_set(writer, out, zone.origin, &denial.soa)?);
    }
    if !put_kept_set(writer, out, zone.origin, &denial.signed_soa)? {
        return Ok(false);
    }
    put_proof(alloc, writer, out, zone, &denial.proof, name, denial.ttl)
}

/// Appends what proves the denial of a name, in a response of this TTL, and says whether it did.
fn put_proof<S: Signer, H: Nsec3Hash>(
    alloc: Global,
    writer: &mut ResponseWriter<'_>,
    out: &mut Vec<u8>,
    zone: &ServedZone<'_, S, H>,
    proof: &ReadyProof,
    name: &LowerName,
    ttl: u32,
) -> Result<bool, WriteError>
    requires kept { IsProvedBy (zone_of S.signature_of H.digest_of zone.now) ttl
        (option_copied zone.now.nx_proof_kind) proof.now }
    requires child { IsChild name.now zone.now.origin.now }
    requires going { CanGoOn writer.old out.old.items }
    ensures proven { IfOk result (λ put. IsTrue put →
        is_provable (zone_of S.signature_of H.digest_of zone.now) None [] (missing_child name.now)
        ≡ true) }
    ensures put { IfOk result (λ put. IsTrue put → Puts (map (sent_proof ttl)
        (proofs (zone_of S.signature_of H.digest_of zone.now) None [] (missing_child name.now)))
        writer.old out.old.items writer.new out.new.items) }
    ensures going { OnOk result (CanGoOn writer.new out.new.items) }
{
    match proof {
        ReadyProof::Names(wildcard) => put_named(alloc, writer, out, zone, wildcard, name, ttl),
        ReadyProof::Hashes(proof) => put_hashed(alloc, writer, out, zone, proof, name, ttl),
    }
}

/// Appends the NSEC sets that prove it, and says whether it did.
fn put_named<S: Signer, H: Nsec3Hash>(
    alloc: Global,
    writer: &mut ResponseWriter<'_>,
    out: &mut Vec<u8>,
    zone: &ServedZone<'_, S, H>,
    wildcard: &Option<KeptProof>,
    name: &LowerName,
    ttl: u32,
) -> Result<bool, WriteError>
    requires kept { (set : Option RRset) × IsKeptProof zone.now.origin.now ttl set wildcard.now }
    requires going { CanGoOn writer.old out.old.items }
    ensures put { IfOk result (λ put. IsTrue put → (set : Option RRset)
        → IsKeptProof zone.now.origin.now ttl set wildcard.now
        → Puts (map (sent_proof ttl) (named_sets zone.now.denials.now name.now set))
        writer.old out.old.items writer.new out.new.items) }
    ensures going { OnOk result (CanGoOn writer.new out.new.items) }
{
    let covering = closest_nsec(zone.denials, name)?;
    put_if_any(alloc, writer, out, covering, ttl)?;
    Ok(put_wildcard(writer, out, zone.origin, covering, wildcard)?)
}

/// Appends a set that proves something, if there is one.
fn put_if_any(
    alloc: Global,
    writer: &mut ResponseWriter<'_>,
    out: &mut Vec<u8>,
    set: Option<&RecordSet>,
    ttl: u32,
) -> Result<(), WriteError>
    requires { CanGoOn writer.old out.old.items }
    ensures put { OnOk result (Puts
        (map (sent_proof ttl) (option_to_list (option_copied set.entry)))
        writer.old out.old.items writer.new out.new.items) }
    ensures going { OnOk result (CanGoOn writer.new out.new.items) }
{
    match set {
        Some(set) => put_set(
            alloc,
            writer,
            out,
            Section::Authorities,
            &proof_of(set, ttl),
        ),
        None => Ok(()),
    }
}

/// Appends the NSEC set that covers the wildcard, unless that is the set that is there already, and says whether it did.
fn put_wildcard(
    writer: &mut ResponseWriter<'_>,
    out: &mut Vec<u8>,
    origin: &LowerName,
    there: Option<&RecordSet>,
    wildcard: &Option<KeptProof>,
) -> Result<bool, AllocError>
    requires kept { (ttl : ℕ) × (set : Option RRset) × IsKeptProof origin.now ttl set wildcard.now }
    requires going { CanGoOn writer.old out.old.items }
    ensures put { IfOk result (λ put. IsTrue put → (ttl : ℕ) (set : Option RRset)
        → IsKeptProof origin.now ttl set wildcard.now
        → Puts (map (sent_proof ttl) (option_to_list
        (unless_owned (option_copied there.entry) set)))
        writer.old out.old.items writer.new out.new.items) }
    ensures going { OnOk result (CanGoOn writer.new out.new.items) }
{
    match wildcard {
        Some(proof) => {
            if is_owned(there, &proof.owner) {
                return Ok(true);
            }
            put_kept_set(writer, out, origin, &proof.records)
        }
        None => Ok(true),
    }
}

/// Appends the NSEC3 sets that prove it, and says whether it did: whether the name can be hashed.
fn put_hashed<S: Signer, H: Nsec3Hash>(
    alloc: Global,
    writer: &mut ResponseWriter<'_>,
    out: &mut Vec<u8>,
    zone: &ServedZone<'_, S, H>,
    proof: &HashedProof,
    name: &LowerName,
    ttl: u32,
) -> Result<bool, WriteError>
    requires { CanGoOn writer.old out.old.items }
    ensures hashed { IfOk result (λ put. IsTrue put → has_owner
        (hash_by (zone_of S.signature_of H.digest_of zone.now)
        (option_copied zone.now.nx_proof_kind) name.now) ≡ true) }
    ensures put { IfOk result (λ put. IsTrue put → Puts (map (sent_proof ttl)
        (hashed_sets zone.now.origin.now zone.now.denials.now
        (hash_by (zone_of S.signature_of H.digest_of zone.now)
        (option_copied zone.now.nx_proof_kind)) name.now proof.now))
        writer.old out.old.items writer.new out.new.items) }
    ensures going { OnOk result (CanGoOn writer.new out.new.items) }
{
    let Some(owner) = owner_in(zone, name)? else {
        return Ok(false);
    };
    let closer = covering(zone.denials, &owner)?;
    let sets = in_owner_order(
        alloc,
        Some(&proof.encloser),
        closer,
        proof.wildcard.as_ref(),
    )?;
    put_proofs(alloc, writer, out, sets.as_slice(), ttl)?;
    Ok(true)
}

/// The owner of the NSEC3 set of a name; none where the zone denies otherwise, or the name can't be hashed.
fn owner_in<S: Signer, H: Nsec3Hash>(
    zone: &ServedZone<'_, S, H>,
    name: &LowerName,
) -> Result<Option<LowerName>, ProtoError>
    ensures { IfOk result (λ owner. IfSome owner (λ o.
        hash_by (zone_of S.signature_of H.digest_of zone.now)
        (option_copied zone.now.nx_proof_kind) name.now ≡ Ok o)) }
{
    match hashed_query(zone.nx_proof_kind, name) {
        Some(query) => hashed_owner(zone, &query, name),
        None => Ok(None),
    }
}

/// Appends sets that prove something.
fn put_proofs(
    alloc: Global,
    writer: &mut ResponseWriter<'_>,
    out: &mut Vec<u8>,
    sets: &[&RecordSet],
    ttl: u32,
) -> Result<(), WriteError>
    requires { CanGoOn writer.old out.old.items }
    ensures put { OnOk result (Puts (map (sent_proof ttl) (map (λ s. s.now) sets.now))
        writer.old out.old.items writer.new out.new.items) }
    ensures going { OnOk result (CanGoOn writer.new out.new.items) }
{
    for set in sets {
        put_set(
            alloc,
            writer,
            out,
            Section::Authorities,
            &proof_of(set, ttl),
        )?;
    }
    Ok(())
}

/// Appends a kept set to the authority section, and says whether it did: whether the origin stands at the end of the question's name.
fn put_kept_set(
    writer: &mut ResponseWriter<'_>,
    out: &mut Vec<u8>,
    origin: &LowerName,
    kept: &KeptRecords,
) -> Result<bool, AllocError>
    requires kept { (s : RRset) × AreKept origin.now (records_sent s) kept.now }
    requires going { CanGoOn writer.old out.old.items }
    ensures put { IfOk result (λ put. IsTrue put → (part : OfPart) (ttl : ℕ) (s : RRset)
        → AreKept origin.now (records_sent (sent part ttl s)) kept.now
        → Puts (sent part ttl s ∷ []) writer.old out.old.items writer.new out.new.items) }
    ensures going { OnOk result (CanGoOn writer.new out.new.items) }
{
    let Some(place) = writer.place_of(out, origin) else {
        return Ok(false);
    };
    writer.put_kept(out, Section::Authorities, kept, place)?;
    Ok(true)
}

/// Whether there is a set, of this owner.
fn is_owned(set: Option<&RecordSet>, owner: &Name) -> bool
    ensures { result ≡ is_owned (option_copied set.entry) owner.now }
{
    match set {
        Some(set) => *set.name() == *owner,
        None => false,
    }
}
