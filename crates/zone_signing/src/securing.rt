//! The record sets of a zone as they are once it is secured.
ghost use Rattle.std.specs.Prelude.{◌≡◌, ℕ, List, [], ◌++◌, IsTrue, IfSome, IfOk, OnOk, OnErr, IsOkUnless, option_map, map};
ghost use Rattle.zone_proto.specs.declared.record.Record.{Record as Signature};
ghost use Rattle.zone_proto.specs.Keys.{key as key_at};
ghost use Rattle.zone_proto.specs.Names.{Name};
ghost use Rattle.zone_proto.specs.Types.{SOA};
ghost use Rattle.zone_map.specs.Puts.{without_all};
ghost use Rattle.zone_map.specs.Renewals.{IsHanded, AreHanded};
ghost use Rattle.zone_map.specs.Zones.{set_at, owners, IsStoredAt, IsZone};
ghost use Rattle.zone_signing.specs.Secured.{stays, gone, unsigned_at, secured_set, IsSecured};

use crate::signatures::add_signatures;
use std::alloc::Global;
use zone_map::{NewSets, RecordMap};
use zone_proto::{ProtoError, RecordSet, RecordType, RrKey, Rrsigs, Signer};

/// How many signatures are exchanged at most; what goes beyond takes lists for each set. They are 27 megabytes in one piece:
/// of more than 32 the C library takes each piece from the system and gives it back, which takes longer than to use it.
const MOST_EXCHANGED: usize = 131_072;

/// Secures the record sets of a zone whose SOA is under `apex`, at the moment `now`, in seconds since 1970.
///
/// The sets of `zone` stay, those of the type `denials` excepted, and those of `new_denials` come in place of others.
/// The SOA gets the next serial, modulo 2^32, and each set is signed by each signer in order; one that declines is
/// passed over. All else is as before: the order of records, TTLs and serials among it. Fails only for lack of memory,
/// a signer's too, which leaves the zone as it was.
pub fn secure<S: Signer>(
    zone: &mut RecordMap,
    denials: Option<RecordType>,
    new_denials: NewSets,
    apex: &RrKey,
    signers: &[S],
    now: u64,
) -> Result<(), ProtoError>
    requires { apex.now.record_type.0 ≡ SOA }
    ensures ok { OnOk result
        (IsSecured S.signature_of now apex.now.name signers.now
        (unsigned_at (option_map (λ d. d.0) denials) zone.old new_denials) zone.new) }
    ensures zone { OnOk result (IsZone zone.new) }
    ensures err { IsOkUnless result ProtoError.Memory }
    ensures same { OnErr result (zone.new ≡ zone.old) }
{
    if denials.is_none() && new_denials.is_empty() {
        return sign_all(zone, apex, signers, now);
    }
    let alloc = apex.name.alloc();
    let gone = gone_keys(alloc, zone, denials, &new_denials)?;
    let replaced = zone.put_all(alloc, new_denials)?;
    match sign_all(zone, apex, signers, now) {
        Ok(()) => {
            remove_all(zone, gone);
            Ok(())
        }
        Err(error) => {
            zone.put_back(replaced);
            Err(error)
        }
    }
}

/// Steps the serial of the zone whose SOA is under `apex`, and signs all sets. All signatures are made before the first
/// one is put in, so that a refusal leaves the zone as it was.
pub(crate) fn sign_all<S: Signer>(
    zone: &mut RecordMap,
    apex: &RrKey,
    signers: &[S],
    now: u64,
) -> Result<(), ProtoError>
    ensures ok { OnOk result
        ((n : Name) (t : ℕ)
        → set_at zone.new n t
        ≡ option_map (secured_set S.signature_of now apex.now signers.now (key_at n t))
        (set_at zone.old n t)) }
    ensures zone { OnOk result (IsZone zone.new) }
    ensures err { IsOkUnless result ProtoError.Memory }
    ensures same { OnErr result (zone.new ≡ zone.old) }
{
    let (lists, exchanged) = all_signatures(zone, apex, signers, now)?;
    zone.renew(apex, lists, exchanged);
    Ok(())
}

/// The signatures of all sets in the order of their keys: for each set a list, or none if it has as many signatures as
/// it gets. What such sets get is in the one list beside, so that it doesn't allocate for each.
fn all_signatures<S: Signer>(
    zone: &RecordMap,
    apex: &RrKey,
    signers: &[S],
    now: u64,
) -> Result<(Vec<Option<Rrsigs>>, Rrsigs), ProtoError>
    ensures ok { IfOk result
        (λ made. AreHanded zone.now
        (map (λ e. (secured_set S.signature_of now apex.now signers.now e.0 e.1).signatures)
        zone.now)
        made.0.items made.1) }
    ensures err { IsOkUnless result ProtoError.Memory }
{
    let alloc = apex.name.alloc();
    let mut lists = Vec::with_capacity(alloc, zone.len())?;
    let most = zone.len().saturating_mul(signers.len());
    let room = most.min(MOST_EXCHANGED).saturating_add(signers.len());
    let mut exchanged = Rrsigs::with_capacity(alloc, room)?;
    for (key, set) in zone.iter() {
        lists.push(sign_under(&mut exchanged, key, set, apex, signers, now)?)?;
    }
    Ok((lists, exchanged))
}

/// Signs the set under a key, with the next serial if it is the zone's SOA: as a list, or behind those to be exchanged where
/// the set gets as many as it has.
fn sign_under<S: Signer>(
    exchanged: &mut Rrsigs,
    key: &RrKey,
    set: &RecordSet,
    apex: &RrKey,
    signers: &[S],
    now: u64,
) -> Result<Option<Rrsigs>, ProtoError>
    requires { IsStoredAt key.now.name key.now.record_type.0 set.now }
    ensures ok { IfOk result
        (λ list. (part : List Signature) × (exchanged.new ≡ exchanged.old ++ part)
        × IsHanded set.now
        (secured_set S.signature_of now apex.now signers.now key.now set.now).signatures
        list part) }
    ensures err { IsOkUnless result ProtoError.Memory }
{
    let start = exchanged.len();
    sign_next(exchanged, key, set, apex, signers, now)?;
    let is_as_many = exchanged.len() - start == set.rrsigs().len();
    if is_as_many && exchanged.len() <= MOST_EXCHANGED {
        return Ok(None);
    }
    Ok(Some(exchanged.split_off(start)?))
}

/// Puts the signatures of the set under a key, with the next serial if it is the zone's SOA, behind those that were made.
fn sign_next<S: Signer>(
    made: &mut Rrsigs,
    key: &RrKey,
    set: &RecordSet,
    apex: &RrKey,
    signers: &[S],
    now: u64,
) -> Result<(), ProtoError>
    requires { IsStoredAt key.now.name key.now.record_type.0 set.now }
    ensures ok { OnOk result
        (made.new
        ≡ made.old
        ++ (secured_set S.signature_of now apex.now signers.now key.now
        set.now).signatures) }
    ensures err { IsOkUnless result ProtoError.Memory }
{
    // The set is asked first, as it is read in any case: the key stands elsewhere in memory.
    if set.record_type() == apex.record_type && apex.same_as(key) {
        let mut next = set.clone_without_rrsigs()?;
        next.step_serial();
        return add_signatures(made, &next, signers, now);
    }
    add_signatures(made, set, signers, now)
}

/// The keys of the sets that go: of the type `denials`, where no new set comes in their place.
fn gone_keys(
    alloc: Global,
    zone: &RecordMap,
    denials: Option<RecordType>,
    new_denials: &NewSets,
) -> Result<Vec<RrKey>, ProtoError>
    ensures ok { IfOk result
        (λ keys. keys.items ≡ gone (option_map (λ d. d.0) denials) new_denials.now zone.now) }
    ensures err { IsOkUnless result ProtoError.Memory }
{
    if has_none(zone, denials) {
        return Ok(Vec::new(alloc));
    }
    list_gone(alloc, zone, denials, new_denials)
}

/// Lists these keys in one pass over both maps.
fn list_gone(
    alloc: Global,
    zone: &RecordMap,
    denials: Option<RecordType>,
    new_denials: &NewSets,
) -> Result<Vec<RrKey>, ProtoError>
    ensures ok { IfOk result
        (λ keys. keys.items ≡ gone (option_map (λ d. d.0) denials) new_denials.now zone.now) }
    ensures err { IsOkUnless result ProtoError.Memory }
{
    let mut keys = Vec::new(alloc);
    let mut ahead = new_denials.keys_ahead();
    for (key, _) in zone.iter() {
        if !stays(denials, key.record_type) && !ahead.has(key) {
            keys.push(key.clone()?)?;
        }
    }
    Ok(keys)
}

/// Whether no set of the old denials is in the zone.
fn has_none(zone: &RecordMap, denials: Option<RecordType>) -> bool
    ensures { IsTrue result → IfSome (option_map (λ d. d.0) denials) (λ t. owners zone.now t ≡ []) }
{
    match denials {
        Some(denials) => zone.is_without(denials),
        None => false,
    }
}

/// Takes the sets under these keys out.
fn remove_all(zone: &mut RecordMap, keys: Vec<RrKey>)
    ensures { zone.new ≡ without_all zone.old keys.items }
{
    for key in keys {
        let _ = zone.remove(&key);
    }
}

/// Whether the sets of a type stay, where those of the old denials go.
fn stays(denials: Option<RecordType>, record_type: RecordType) -> bool
    ensures { result ≡ stays (option_map (λ d. d.0) denials) record_type.0 }
{
    match denials {
        Some(denials) => record_type != denials,
        None => true,
    }
}
