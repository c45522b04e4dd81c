//! What is asked of a plan.
ghost use Rattle.std.specs.Prelude.{◌≡◌, None, Some, OnOk, MatchResult, option_copied};
ghost use Rattle.std.specs.List.{find, list_any, position};
ghost use Rattle.zone_planner.specs.declared.keys.PlannedKey.{PlannedKey as Planned};
ghost use Rattle.zone_planner.specs.Requests.{AreFit, are_moments, can_stand, is_bad, is_unsigned, is_revoked, keys_fault, moments_fault, serves};

use crate::keys::PlannedKey;
use zone_planning::PlanFault;
use zone_proto::{DNSKEY, NxProofKind};
use zone_signing::signatures::LAST_MOMENT;

/// How a zone is to be signed.
#[derive(Debug, Drop)]
pub struct Request {
    /// The first moment of the signatures, in seconds since 1970.
    pub inception: u64,
    /// The last one.
    pub expiration: u64,
    /// How many seconds earlier at most signatures end, those of each name as many as its octets tell, so that they don't all end at
    /// once.
    pub jitter: u32,
    /// The TTL of the records of keys, in seconds.
    pub key_ttl: u32,
    /// How the zone denies what it doesn't hold.
    pub nx_proof_kind: NxProofKind,
}

/// Whether a zone can be planned with these keys. Refused by `ManyKeys`, `BadKey` for the first key that no zone has, `NoKey`, and
/// `UnsignedAlgorithm` for that of the first key that is published and by whose algorithm not each set is signed, in this order.
pub(crate) fn check_keys(keys: &[PlannedKey]) -> Result<(), PlanFault>
    ensures fault { MatchResult result (λ _. keys_fault keys.now ≡ None)
        (λ e. keys_fault keys.now ≡ Some e) }
    ensures fit { OnOk result (AreFit keys.now) }
{
    if keys.len() > 256 {
        return Err(PlanFault::ManyKeys);
    }
    if let Some(place) = first_bad(keys) {
        return Err(PlanFault::BadKey(place));
    }
    if !has_published(keys) {
        return Err(PlanFault::NoKey);
    }
    match first_unsigned(keys) {
        Some(unsigned) => Err(PlanFault::UnsignedAlgorithm(unsigned.key.algorithm)),
        None => Ok(()),
    }
}

/// The place of the first key that no zone has.
fn first_bad(keys: &[PlannedKey]) -> Option<usize>
    ensures { result ≡ position is_bad keys.now }
{
    keys.iter().position(|key| is_bad(key))
}

/// Whether a key is none that a zone has, or revoked and signs other sets than those of keys.
fn is_bad(planned: &PlannedKey) -> bool
    ensures { result ≡ is_bad planned.now }
{
    !can_stand(&planned.key) || (is_revoked(&planned.key) && planned.signs_others)
}

/// Whether a zone can have a key: it is of protocol 3 and a zone key (256), of another algorithm than 1, and no longer than a record.
fn can_stand(key: &DNSKEY) -> bool
    ensures { result ≡ can_stand key.now }
{
    key.protocol == 3
        && key.flags / 256 % 2 == 1
        && key.algorithm != 1
        && key.public_key.as_slice().len() <= 65531
}

/// Whether a key is published.
fn has_published(keys: &[PlannedKey]) -> bool
    ensures { result ≡ list_any (λ (k : Planned). k.is_published) keys.now }
{
    keys.iter().any(|key| key.is_published)
}

/// The first key that is published and by whose algorithm not each set is signed.
fn first_unsigned(keys: &[PlannedKey]) -> Option<&PlannedKey>
    ensures { option_copied result ≡ find (is_unsigned keys.now) keys.now }
{
    keys.iter().find(|key| is_unsigned(keys, key))
}

/// Whether a key is published, and not each set is signed by a published key of its algorithm.
fn is_unsigned(keys: &[PlannedKey], key: &PlannedKey) -> bool
    ensures { result ≡ is_unsigned keys.now key.now }
{
    let algorithm = key.key.algorithm;
    key.is_published && !(serves(keys, algorithm, true) && serves(keys, algorithm, false))
}

/// Whether one of the published keys has the algorithm, and signs keys or the other sets.
fn serves(keys: &[PlannedKey], algorithm: u8, of_keys: bool) -> bool
    ensures { result ≡ serves keys.now algorithm of_keys }
{
    keys.iter().any(|key| key.is_published
        && key.key.algorithm == algorithm
        && (if of_keys {
            key.signs_keys
        } else {
            key.signs_others
        }))
}

/// Whether signatures can hold as long as is asked for. Refused by `Moments`.
pub(crate) fn check_moments(request: &Request) -> Result<(), PlanFault>
    ensures { MatchResult result (λ _. moments_fault request.now ≡ None)
        (λ e. moments_fault request.now ≡ Some e) }
{
    if are_moments(request.inception, request.expiration, request.jitter) {
        return Ok(());
    }
    Err(PlanFault::Moments)
}

/// Whether signatures can hold from one moment to another, or to one that is so many seconds earlier.
fn are_moments(inception: u64, expiration: u64, jitter: u32) -> bool
    ensures { result ≡ are_moments inception expiration jitter }
{
    inception <= LAST_MOMENT
        && inception < expiration
        && u64::from(jitter) < expiration - inception
        && expiration - inception < 1 << 31
}

/// Whether a key is revoked (RFC 5011 section 2.1).
fn is_revoked(key: &DNSKEY) -> bool
    ensures { result ≡ is_revoked key.now }
{
    key.flags / 128 % 2 == 1
}
