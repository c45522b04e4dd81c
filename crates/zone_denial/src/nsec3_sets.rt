//! The NSEC3 sets that a zone gets when it is secured.
ghost use Rattle.std.specs.Prelude.{◌≡◌, ◌↔◌, ◌⊎◌, ◌<◌, ◌-◌, ◌==◌, ◌&&◌, ℕ, length, map, [], slice_index_or, slice_get, Some, None, option_copied, option_map, unwrap_or, true, false, IsTrue, IsFalse, IfSome, IfOk, IfErr, OnOk, IsOkUnless};
ghost use Rattle.std.specs.List.{AllByRecursion};
ghost use Rattle.std.specs.List.Sorted.{IsStrictlySortedBy};
ghost use Rattle.std.specs.Option.{IfNone};
ghost use Rattle.zone_proto.specs.declared.rdata.RData.TheVariants as variant;
ghost use Rattle.zone_proto.specs.HashedOwners.{hashed_owner};
ghost use Rattle.zone_proto.specs.Data.{type_of};
ghost use Rattle.zone_proto.specs.Keys.{key as key_at};
ghost use Rattle.zone_proto.specs.Names.{Name, lower};
ghost use Rattle.zone_proto.specs.Ranges.{IsOctet};
ghost use Rattle.zone_proto.specs.Results.{IsCopy, ReportsFaultOrMemory};
ghost use Rattle.zone_proto.specs.Sets.{empty_set};
ghost use Rattle.zone_proto.specs.Types.{IN, NSEC3 as nsec3_type, NSEC3PARAM as nsec3param_type};
ghost use Rattle.zone_map.specs.Standing.{standing_at};
ghost use Rattle.zone_map.specs.Zones.{set_at, IsStoredAt};
ghost use Rattle.zone_denial.specs.Covering.{next_around};
ghost use Rattle.zone_denial.specs.HashedNames.{hashed, all_fit, linked_record, circle_sets_at, circle_with};
ghost use Rattle.zone_denial.specs.RepeatedDigests.{RepeatsDigest, EndsWith, IsPutBehind};
ghost use Rattle.zone_denial.specs.Nsec3Sets.{hashed_cmp, with_taken, announced_set, nsec3_sets_at, nsec3_fault};
ghost use Rattle.zone_denial.specs.Nsec3Zones.{hash_with};

use crate::hashed_names::{HashedName, hashed_names};
use crate::nsec3_names::nsec3_names;
use crate::nsec3_standing::{is_announced, nsec3_sets_stand};
use lookup_types::SecureError;
use zone_map::{NewSets, RecordMap};
use zone_proto::{
    LowerName, NSEC3, NSEC3PARAM, Name, Nsec3Hash, ProtoError, RData, Record, RecordSet,
    RecordType, RrKey, base32_dnssec,
};

/// The sets that a zone gets when it is denied by NSEC3: the NSEC3 sets of its names, which form a circle in the order of their
/// digests (RFC 5155 section 7.1), and the origin's NSEC3PARAM set, into which the parameters are inserted (RFC 5155 section 4).
///
/// `records` are the sets of the zone, and `origin` is its name. `hash` gives the digests, by `parameters`, which are
/// those of all NSEC3 records; of their flags only opt-out is used, by which names that own NS alone get no set. `ttl`
/// is the TTL of all records, in seconds, and `serial` the serial of the sets. The answer holds the new sets alone. No
/// set is made, and the answer is none, where those that are in the zone are already these, serials and signatures of
/// the NSEC3 sets aside, and no two names have one owner.
///
/// # Errors
///
/// Refused by `Hash` if `hash` has no digest of a name, else by `OwnerTooLong` if the text of a digest is no label, or makes an
/// owner longer than a name may be; and by `Memory`.
pub fn nsec3_sets<H: Nsec3Hash>(
    records: &RecordMap,
    origin: &LowerName,
    hash: &H,
    parameters: &NSEC3PARAM,
    ttl: u32,
    serial: u32,
) -> Result<Option<NewSets>, SecureError>
    ensures made { IfOk result
        (λ made. IfSome made
        (λ map. (n : Name) (t : ℕ)
        → set_at map n t
        ≡ nsec3_sets_at origin.now records.now
        (hash_with (H.digest_of hash.now) parameters.now) parameters.now ttl serial
        n t)) }
    ensures standing { IfOk result
        (λ made. IfNone made
        ((n : Name)
        → standing_at records.now nsec3_type serial n nsec3_type
        ≡ nsec3_sets_at origin.now records.now
        (hash_with (H.digest_of hash.now) parameters.now) parameters.now ttl serial
        n nsec3_type)) }
    ensures announced { IfOk result
        (λ made. IfNone made
        (set_at records.now origin.now nsec3param_type
        ≡ nsec3_sets_at origin.now records.now
        (hash_with (H.digest_of hash.now) parameters.now) parameters.now ttl serial
        origin.now nsec3param_type)) }
    ensures fits { OnOk result
        (nsec3_fault origin.now records.now (hash_with (H.digest_of hash.now) parameters.now)
        parameters.now.opt_out
        ≡ None) }
    ensures err { IfErr result
        (λ e. (e ≡ SecureError.Memory)
        ⊎ (nsec3_fault origin.now records.now (hash_with (H.digest_of hash.now) parameters.now)
        parameters.now.opt_out
        ≡ Some e)) }
{
    let names = match nsec3_names(records, origin, parameters.opt_out) {
        Ok(names) => names,
        Err(_) => return Err(SecureError::Memory),
    };
    let held = match hashed_names(origin.alloc(), &names, hash, parameters) {
        Ok(held) => held,
        Err(ProtoError::Memory) => return Err(SecureError::Memory),
        Err(_) => return Err(SecureError::Hash),
    };
    match sets_of_circle(&held, records, origin, parameters, ttl, serial) {
        Ok(sets) => Ok(sets),
        Err(ProtoError::Memory) => Err(SecureError::Memory),
        Err(_) => Err(SecureError::OwnerTooLong),
    }
}

/// The NSEC3 sets of these names, which form a circle, and the origin's NSEC3PARAM set; or none, where those that are
/// in the zone are these. A refusal other than `Memory` says that an owner is too long.
fn sets_of_circle(
    held: &[HashedName<'_, '_>],
    records: &RecordMap,
    origin: &LowerName,
    parameters: &NSEC3PARAM,
    ttl: u32,
    serial: u32,
) -> Result<Option<NewSets>, ProtoError>
    requires ascending { IsStrictlySortedBy hashed_cmp (map hashed held.now) }
    ensures made { IfOk result (λ made. IfSome made (λ map. (n : Name) (t : ℕ) → set_at map n t
        ≡ circle_sets_at origin.now records.now parameters.now ttl held.now serial n t)) }
    ensures standing { IfOk result
        (λ made. IfNone made
        ((n : Name)
        → standing_at records.now nsec3_type serial n nsec3_type
        ≡ circle_sets_at origin.now records.now parameters.now ttl held.now serial n
        nsec3_type)) }
    ensures announced { IfOk result
        (λ made. IfNone made
        (set_at records.now origin.now nsec3param_type
        ≡ circle_sets_at origin.now records.now parameters.now ttl held.now serial
        origin.now nsec3param_type)) }
    ensures fits { OnOk result (all_fit origin.now (map hashed held.now) ≡ true) }
    ensures err { IfErr result
        (λ e. (e ≡ ProtoError.Memory) ⊎ (all_fit origin.now (map hashed held.now) ≡ false)) }
{
    if is_announced(records, origin, parameters, ttl, serial)?
        && nsec3_sets_stand(records, held, origin, parameters, ttl)?
    {
        return Ok(None);
    }
    let announced = announced(records, origin, parameters, ttl, serial)?;
    let sets = with_circle(announced, held, origin, parameters, ttl, serial)?;
    Ok(Some(sets))
}

/// The map of the origin's NSEC3PARAM set and the NSEC3 sets of these names, which form a circle. A refusal other than `Memory`
/// says that an owner is too long.
fn with_circle(
    announced: (RrKey, RecordSet),
    held: &[HashedName<'_, '_>],
    origin: &LowerName,
    parameters: &NSEC3PARAM,
    ttl: u32,
    serial: u32,
) -> Result<NewSets, ProtoError>
    requires ascending { IsStrictlySortedBy hashed_cmp (map hashed held.now) }
    requires key { announced.0 ≡ key_at origin.now nsec3param_type }
    requires stored { IsStoredAt announced.0.name announced.0.record_type.0 announced.1 }
    ensures ok { IfOk result
        (λ after. (n : Name) (t : ℕ)
        → set_at after n t
        ≡ circle_with origin.now announced.1 parameters.now ttl held.now serial n t) }
    ensures fits { OnOk result (all_fit origin.now (map hashed held.now) ≡ true) }
    ensures err { IfErr result
        (λ e. (e ≡ ProtoError.Memory) ⊎ (all_fit origin.now (map hashed held.now) ≡ false)) }
{
    let mut entries = Vec::with_capacity(origin.alloc(), held.len().saturating_add(1))?;
    entries.push(announced)?;
    for i in 0..held.len() {
        let record = nsec3_record(&held[i], next_name(held, i), origin, parameters, ttl)?;
        let before = set_before(entries.as_slice(), held, i);
        let entry = entry_with(before, record, serial)?;
        put_behind(&mut entries, entry)?;
    }
    NewSets::from_entries(origin.alloc(), entries)
}

/// Appends an entry to others, in place of the last one where that has its key. Its only error is `Memory`.
fn put_behind(
    entries: &mut Vec<(RrKey, RecordSet)>,
    entry: (RrKey, RecordSet),
) -> Result<(), ProtoError>
    ensures ok { OnOk result (IsPutBehind entries.old.items entry entries.new.items) }
    ensures err { IsOkUnless result ProtoError.Memory }
{
    // Where many names have one digest, the sets that were taken over would take the more memory the more there are.
    if ends_with(entries.as_slice(), &entry.0) {
        let _ = entries.pop();
    }
    entries.push(entry)?;
    Ok(())
}

/// Whether the last entry has this key.
fn ends_with(entries: &[(RrKey, RecordSet)], key: &RrKey) -> bool
    ensures { IsTrue result → EndsWith entries.now key.now }
{
    match entries.last() {
        Some((last, _)) => last.same_as(key),
        None => false,
    }
}

/// The set of the last entry, if the name of this place has the digest of the one before it, so that they have one owner.
fn set_before<'e>(
    entries: &'e [(RrKey, RecordSet)],
    held: &[HashedName<'_, '_>],
    i: usize,
) -> Option<&'e RecordSet>
    requires { i < length held.now }
    ensures last { IfSome result
        (λ s. option_map (λ e. e.1) (slice_get entries.now (length entries.now - 1)) ≡ Some s.now) }
    ensures same { IfSome result (λ s. RepeatsDigest held.now i) }
    ensures none { IfNone result ((entries.now ≡ []) ⊎ ¬ RepeatsDigest held.now i) }
{
    if !repeats_digest(held, i) {
        return None;
    }
    match entries.last() {
        Some((_, set)) => Some(set),
        None => None,
    }
}

/// Whether the name of this place has the digest of the one before it.
fn repeats_digest(held: &[HashedName<'_, '_>], i: usize) -> bool
    requires { i < length held.now }
    ensures same { IsTrue result → RepeatsDigest held.now i }
    ensures other { IsFalse result → ¬ RepeatsDigest held.now i }
{
    if i == 0 {
        return false;
    }
    same_digest(&held[i - 1], &held[i])
}

/// Whether two names have one digest.
fn same_digest(one: &HashedName<'_, '_>, other: &HashedName<'_, '_>) -> bool
    ensures { IsTrue result ↔ (one.now.digest ≡ other.now.digest) }
{
    one.digest == other.digest
}

/// The entry of a record: a copy of the set before, or else a new set of the record's owner and type, into which the
/// record is inserted. Its only error is `Memory`.
fn entry_with(
    before: Option<&RecordSet>,
    new: Record,
    serial: u32,
) -> Result<(RrKey, RecordSet), ProtoError>
    requires { IfSome before (λ s. IsStoredAt (lower new.name) (type_of new.rdata) s.now) }
    ensures ok { IfOk result
        (λ e. e
        ≡ (
          key_at (lower new.name) (type_of new.rdata),
          with_taken serial
              (unwrap_or (option_copied before.entry)
              (empty_set new.name (type_of new.rdata) serial))
              new,
        )) }
    ensures stored { IfOk result (λ e. IsStoredAt e.0.name e.0.record_type.0 e.1) }
    ensures err { IsOkUnless result ProtoError.Memory }
{
    let record_type = new.record_type();
    let key = RrKey::new(LowerName::new(&new.name)?, record_type);
    let mut set = copy_or_empty(before, &new.name, record_type, serial)?;
    set.insert(new, serial)?;
    Ok((key, set))
}

/// A copy of a set; without one a set of this owner and type that has no records. Its only error is `Memory`.
fn copy_or_empty(
    set: Option<&RecordSet>,
    owner: &Name,
    record_type: RecordType,
    serial: u32,
) -> Result<RecordSet, ProtoError>
    ensures { IsCopy result
        (unwrap_or (option_copied set.entry) (empty_set owner.now record_type.0 serial)) }
{
    match set {
        Some(set) => set.clone(),
        None => Ok(RecordSet::new(owner.clone()?, record_type, serial)),
    }
}

/// The name that comes next: the one that comes after this one, and after the last one the first.
pub(crate) fn next_name<'h, 'n, 'z>(
    held: &'h [HashedName<'n, 'z>],
    i: usize,
) -> &'h HashedName<'n, 'z>
    requires place { i < length held.now }
    requires ascending { IsStrictlySortedBy hashed_cmp (map hashed held.now) }
    ensures { hashed result.now
        ≡ next_around hashed_cmp (map hashed held.now)
        (hashed (slice_index_or held.now i result.now)) }
{
    let next = if i + 1 < held.len() { i + 1 } else { 0 };
    &held[next]
}

/// The NSEC3 record of a name. Refused where its hashed owner is no name, and by `Memory`.
fn nsec3_record(
    name: &HashedName<'_, '_>,
    next: &HashedName<'_, '_>,
    origin: &LowerName,
    parameters: &NSEC3PARAM,
    ttl: u32,
) -> Result<Record, ProtoError>
    ensures ok { IfOk result
        (λ r. r ≡ linked_record origin.now parameters.now ttl name.now next.now.digest) }
    ensures refusal { ReportsFaultOrMemory result (hashed_owner origin.now name.now.digest) }
    ensures digest { OnOk result (AllByRecursion IsOctet name.now.digest) }
    ensures lower { OnOk result (lower origin.now ≡ origin.now) }
{
    let data = NSEC3 {
        algorithm: parameters.algorithm,
        opt_out: parameters.opt_out,
        iterations: parameters.iterations,
        salt: parameters.salt.clone()?,
        next_hashed_owner_name: next.digest.clone()?,
        types: name.name.types.clone()?,
    };
    let owner = hashed_owner(name.digest.as_slice(), origin)?;
    Ok(Record::from_rdata(Name::from(owner), ttl, RData::NSEC3(data)))
}

/// The owner of the NSEC3 set of a name with this digest (RFC 5155 section 3). Refused where that is no name, and by `Memory`.
pub fn hashed_owner(digest: &[u8], origin: &LowerName) -> Result<LowerName, ProtoError>
    ensures ok { IfOk result (λ n. n ≡ hashed_owner origin.now digest.now) }
    ensures refusal { ReportsFaultOrMemory result (hashed_owner origin.now digest.now) }
    ensures digest { AllByRecursion IsOctet digest.now }
    ensures lower { OnOk result (lower origin.now ≡ origin.now) }
{
    let label = base32_dnssec(origin.alloc(), digest)?;
    origin.prepend_label(label.as_bytes())
}

/// The entry of the origin's NSEC3PARAM set, with these parameters inserted. Its only error is `Memory`.
fn announced(
    records: &RecordMap,
    origin: &LowerName,
    parameters: &NSEC3PARAM,
    ttl: u32,
    serial: u32,
) -> Result<(RrKey, RecordSet), ProtoError>
    ensures ok { IfOk result
        (λ e. e
        ≡ (
          key_at origin.now nsec3param_type,
          announced_set origin.now records.now (λ _. None)
              parameters.now ttl serial,
        )) }
    ensures stored { IfOk result (λ e. IsStoredAt e.0.name e.0.record_type.0 e.1) }
    ensures err { IsOkUnless result ProtoError.Memory }
{
    let key = RrKey::new(origin.clone()?, RecordType::NSEC3PARAM);
    let record = announcement(origin, parameters, ttl)?;
    entry_with(records.get(&key), record, serial)
}

/// The record that announces the parameters, which is at the origin (RFC 5155 section 4). Its only error is `Memory`.
pub(crate) fn announcement(
    origin: &LowerName,
    parameters: &NSEC3PARAM,
    ttl: u32,
) -> Result<Record, ProtoError>
    ensures ok { IfOk result
        (λ r. r
        ≡ record {
          name = origin.now;
          dns_class = record { 0 = IN };
          ttl = ttl;
          rdata = variant.NSEC3PARAM parameters.now;
        }) }
    ensures err { IsOkUnless result ProtoError.Memory }
{
    let data = RData::NSEC3PARAM(parameters.clone()?);
    let name = Name::from(origin.clone()?);
    Ok(Record::from_rdata(name, ttl, data))
}
