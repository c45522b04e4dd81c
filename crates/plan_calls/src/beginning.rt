//! Plans begun of the zones of a database.
ghost use Rattle.std.specs.Prelude.{◌≡◌, ◌⊎◌, IfErr, IfOk, IsErr, Ok};
ghost use Rattle.zone_database.specs.Calls.{origin_of};
ghost use Rattle.zone_database.specs.Databases.{zones_in};
ghost use Rattle.held_plans.specs.Keys.{AreKeys, AreNoKeys};
ghost use Rattle.plan_calls.specs.Beginning.{IsBegun, IsPlanOf, IsRefused, IsUnplanned};
ghost use Rattle.plan_calls.specs.declared.outcome.PlanOutcome.TheVariants.{NoMemory, BadKeys, BadName};

use crate::outcome::PlanOutcome;
use crate::signing::{Signing, kind_of, request_of};
use held_plans::{HeldPlan, read_keys};
use std::alloc::Global;
use zone_database::{Outcome, Zone, ZoneDatabase, origin_of as named_origin};
use zone_planner::planned_by_flags;
use zone_planning::PlanFault;
use zone_proto::{DNSKEY, LowerName, Name, NxProofKind};

/// The plan of the zone of an origin, which is to be signed by these keys.
#[tactic(auto, using(crate::proofs::Steps::unnamed, crate::proofs::Steps::no_zone, crate::proofs::Steps::unkeyed, crate::proofs::Steps::undenied, crate::proofs::Steps::unplanned, crate::proofs::Steps::begun))]
pub(crate) fn begun(
    alloc: Global,
    database: &ZoneDatabase,
    origin: &[u8],
    keys: &[u8],
    how: &Signing,
    salt: &[u8],
) -> Result<HeldPlan, PlanOutcome>
    ensures plan { IfOk result
        (IsBegun (zones_in database.now) origin.now keys.now how.now salt.now) }
    ensures refusal { IfErr result
        (IsRefused (zones_in database.now) origin.now keys.now how.now salt.now) }
{
    let name = match origin_of(alloc, origin) {
        Ok(name) => name,
        Err(outcome) => return Err(outcome),
    };
    let Some(zone) = database.get(&LowerName::from(name)) else {
        return Err(PlanOutcome::NoZone);
    };
    let keys = match keys_of(alloc, keys) {
        Ok(keys) => keys,
        Err(outcome) => return Err(outcome),
    };
    let kind = match kind_of(alloc, how, salt) {
        Ok(kind) => kind,
        Err(outcome) => return Err(outcome),
    };
    match plan_of(alloc, zone, keys, how, kind) {
        Ok(plan) => Ok(plan),
        Err(outcome) => Err(outcome),
    }
}

/// The origin that octets name (RFC 1035 section 5.1); a final dot may be left out. Refused by `BadName` and `NoMemory`.
pub fn origin_of(alloc: Global, origin: &[u8]) -> Result<Name, PlanOutcome>
    ensures name { IfOk result (λ n. origin_of origin.now ≡ Ok n) }
    ensures refusal { IfErr result
        (λ o. (o ≡ NoMemory) ⊎ ((o ≡ BadName) × IsErr (origin_of origin.now))) }
{
    match named_origin(alloc, origin) {
        Ok(name) => Ok(name),
        Err(Outcome::BadName) => Err(PlanOutcome::BadName),
        Err(_) => Err(PlanOutcome::NoMemory),
    }
}

/// The keys that octets are: the data of their records, each behind two octets that count its octets. Refused by `BadKeys` and `NoMemory`.
pub fn keys_of(alloc: Global, octets: &[u8]) -> Result<Vec<DNSKEY>, PlanOutcome>
    ensures keys { IfOk result (λ keys. AreKeys octets.now keys.items) }
    ensures refusal { IfErr result
        (λ o. (o ≡ NoMemory) ⊎ ((o ≡ BadKeys) × AreNoKeys octets.now)) }
{
    match read_keys(alloc, octets) {
        Ok(Some(keys)) => Ok(keys),
        Ok(None) => Err(PlanOutcome::BadKeys),
        Err(_) => Err(PlanOutcome::NoMemory),
    }
}

/// The plan of a zone that is to be signed by these keys, with these denials.
fn plan_of(
    alloc: Global,
    zone: &Zone,
    keys: Vec<DNSKEY>,
    how: &Signing,
    kind: NxProofKind,
) -> Result<HeldPlan, PlanOutcome>
    ensures plan { IfOk result (IsPlanOf zone.now keys.items how.now kind) }
    ensures refusal { IfErr result (IsUnplanned zone.now keys.items how.now kind) }
{
    let Ok(keys) = planned_by_flags(alloc, keys.as_slice(), how.asks_parent != 0) else {
        return Err(PlanOutcome::NoMemory);
    };
    let request = request_of(how, kind);
    match HeldPlan::begin(alloc, &zone.origin, zone.inner.record_map(), keys, &request) {
        Ok(plan) => Ok(plan),
        Err(PlanFault::Memory) => Err(PlanOutcome::NoMemory),
        Err(fault) => Err(PlanOutcome::Unplanned(fault)),
    }
}
