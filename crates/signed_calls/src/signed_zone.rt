//! The signed zone that a caller lets updates change, and how it is signed.
ghost use Rattle.std.specs.Prelude.{IfErr, IfOk};
ghost use Rattle.signed_calls.specs.Given.{IsGiven, IsNotGiven};

use plan_calls::{PlanOutcome, Signing, keys_of, kind_of, origin_of, request_of};
use std::alloc::Global;
use update_denials::Signing as ZoneSigning;
use zone_keeping::Span;
use zone_planner::planned_by_flags;
use zone_proto::LowerName;

/// A signed zone that updates may change.
#[repr(C)]
#[derive(Clone, Copy, Drop)]
pub struct SignedZone<'a> {
    /// Its origin. A final dot may be left out.
    pub origin: &'a [u8],
    /// The data of a DNSKEY record for each of its keys (RFC 4034 section 2.1), each behind two octets that count its octets.
    pub keys: &'a [u8],
    /// The salt of NSEC3.
    pub salt: &'a [u8],
    /// The first moment at which signatures have to hold that stay, in seconds since 1970.
    pub held_from: u64,
    /// The last one.
    pub held_until: u64,
}

/// A zone, and how it is signed.
#[derive(Drop)]
pub(crate) struct GivenZone {
    /// Its origin.
    pub(crate) origin: LowerName,
    /// How it is signed.
    pub(crate) signing: ZoneSigning,
}

/// The zone that is given, and how it is signed. Refused by `BadName`, `BadKeys`, `BadDenial` and `NoMemory`.
#[tactic(auto, using(crate::proofs::GivenFacts::unnamed, crate::proofs::GivenFacts::unkeyed, crate::proofs::GivenFacts::undenied, crate::proofs::GivenFacts::all_given))]
pub(crate) fn given(
    alloc: Global,
    zone: &SignedZone<'_>,
    how: &Signing,
) -> Result<GivenZone, PlanOutcome>
    ensures given { IfOk result (λ g. IsGiven zone.now how.now g.origin g.signing) }
    ensures refusal { IfErr result (IsNotGiven zone.now how.now) }
{
    let name = match origin_of(alloc, zone.origin) {
        Ok(name) => name,
        Err(outcome) => return Err(outcome),
    };
    let keys = match keys_of(alloc, zone.keys) {
        Ok(keys) => keys,
        Err(outcome) => return Err(outcome),
    };
    let kind = match kind_of(alloc, how, zone.salt) {
        Ok(kind) => kind,
        Err(outcome) => return Err(outcome),
    };
    let Ok(keys) = planned_by_flags(alloc, keys.as_slice(), how.asks_parent != 0) else {
        return Err(PlanOutcome::NoMemory);
    };
    let signing = ZoneSigning {
        keys,
        request: request_of(how, kind),
        span: Span {
            from: zone.held_from,
            until: zone.held_until,
        },
    };
    Ok(GivenZone {
        origin: LowerName::from(name),
        signing,
    })
}
