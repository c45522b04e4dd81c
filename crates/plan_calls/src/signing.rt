//! How a caller that isn't Rattle wants a zone to be signed.
ghost use Rattle.std.specs.Prelude.{◌≡◌, ◌⊎◌, Some, None, IfOk, IfErr};
ghost use Rattle.plan_calls.specs.declared.outcome.PlanOutcome.TheVariants.{NoMemory, BadDenial};
ghost use Rattle.plan_calls.specs.Signings.{kind_of, request_of};

use crate::outcome::PlanOutcome;
use std::alloc::Global;
use zone_planner::Request;
use zone_proto::{NxProofKind, Seq};

/// How a zone is to be signed.
#[repr(C)]
#[derive(Clone, Copy, Drop)]
pub struct Signing {
    /// The first moment of the signatures, in seconds since 1970.
    pub inception: u64,
    /// The last one.
    pub expiration: u64,
    /// How many seconds earlier at most signatures end, those of each name as many as its octets tell.
    pub jitter: u32,
    /// The TTL of the records of keys, in seconds.
    pub key_ttl: u32,
    /// How the zone denies what it doesn't hold: 0 by NSEC, 1 by NSEC3, 2 by NSEC3 with opt-out (RFC 5155 section 6).
    pub denial: u32,
    /// How many more times names are hashed for NSEC3.
    pub iterations: u32,
    /// Not 0 where the zone asks its parent for DS records of the keys that sign keys, by CDS and CDNSKEY (RFC 7344).
    pub asks_parent: u32,
}

/// How the zone denies what it doesn't hold. Refused by `BadDenial` for a number that is none of those above, more than 65,535
/// iterations, or a salt of more than 255 octets; and by `NoMemory`.
pub fn kind_of(alloc: Global, how: &Signing, salt: &[u8]) -> Result<NxProofKind, PlanOutcome>
    ensures ok { IfOk result (λ kind. kind_of how.now salt.now ≡ Some kind) }
    ensures err { IfErr result
        (λ o. (o ≡ NoMemory) ⊎ ((o ≡ BadDenial) × (kind_of how.now salt.now ≡ None))) }
{
    if how.denial == 0 {
        return Ok(NxProofKind::Nsec);
    }
    if how.denial > 2 || how.iterations > 65_535 || salt.len() > 255 {
        return Err(PlanOutcome::BadDenial);
    }
    match Seq::from_slice(alloc, salt) {
        Ok(salt) => Ok(NxProofKind::Nsec3 {
            algorithm: 1,
            salt,
            iterations: how.iterations as u16,
            opt_out: how.denial == 2,
        }),
        Err(_) => Err(PlanOutcome::NoMemory),
    }
}

/// What is asked of a plan.
pub fn request_of(how: &Signing, nx_proof_kind: NxProofKind) -> Request
    ensures { result ≡ request_of how.now nx_proof_kind }
{
    Request {
        inception: how.inception,
        expiration: how.expiration,
        jitter: how.jitter,
        key_ttl: how.key_ttl,
        nx_proof_kind,
    }
}
