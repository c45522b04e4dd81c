//! The zones of plans whose signatures were given, among those of a database.
ghost use Rattle.std.specs.Prelude.{◌≡◌, None, IfErr, IfOk, IsOkUnless, OnErr, OnOk};
ghost use Rattle.zone_lookup.specs.StartOfAuthority.{serial};
ghost use Rattle.zone_map.specs.Zones.{IsZone};
ghost use Rattle.zone_database.specs.Databases.{zones_in};
ghost use Rattle.zone_database.specs.Zones.{zone_of_records};
ghost use Rattle.held_plans.specs.Holding.{unfinished_fault};
ghost use Rattle.plan_calls.specs.Finishing.{IsChanged, IsFinished, IsUnfinished, IsUnfinishedBy, StillStands, finished_zone};
ghost use Rattle.plan_calls.specs.declared.outcome.PlanOutcome.TheVariants.{NoMemory};

use crate::outcome::PlanOutcome;
use held_plans::{HeldPlan, serial_under};
use std::alloc::Global;
use zone_database::{Zone, ZoneDatabase, zone_of};
use zone_map::RecordMap;
use zone_planning::FinishFault;
use zone_proto::{ProtoError, RecordType, RrKey};

/// Puts the zone of a plan, with its signatures, in place of the zone that was planned.
#[tactic(auto, using(crate::proofs::Steps::changed, crate::proofs::Steps::unfinished))]
pub(crate) fn install(
    alloc: Global,
    held: &HeldPlan,
    database: &mut ZoneDatabase,
) -> Result<(), PlanOutcome>
    ensures done { OnOk result
        (IsFinished held.now (zones_in database.old) (zones_in database.new)) }
    ensures refusal { IfErr result (IsUnfinished held.now (zones_in database.old)) }
    ensures same { OnErr result (zones_in database.new ≡ zones_in database.old) }
{
    if let Err(outcome) = check_serial(held, database) {
        return Err(outcome);
    }
    let zone = match finished(alloc, held) {
        Ok(zone) => zone,
        Err(outcome) => return Err(outcome),
    };
    match database.put(alloc, zone) {
        Ok(()) => Ok(()),
        Err(_) => Err(PlanOutcome::NoMemory),
    }
}

/// Whether the zone that was planned is there with the serial that it had. Refused by `NoZone`, `ZoneChanged` and `NoMemory`.
pub fn check_serial(held: &HeldPlan, database: &ZoneDatabase) -> Result<(), PlanOutcome>
    ensures stands { OnOk result (StillStands held.now (zones_in database.now)) }
    ensures refusal { IfErr result (IsChanged held.now (zones_in database.now)) }
{
    let Some(zone) = database.get(held.origin()) else {
        return Err(PlanOutcome::NoZone);
    };
    let Ok(serial) = zone_serial(zone) else {
        return Err(PlanOutcome::NoMemory);
    };
    if serial == held.serial() {
        Ok(())
    } else {
        Err(PlanOutcome::ZoneChanged)
    }
}

/// The serial of a zone: that of the SOA at its origin, 0 without one. Its only error is `Memory`.
pub fn zone_serial(zone: &Zone) -> Result<u32, ProtoError>
    ensures { IfOk result (λ number. number ≡ serial zone.now.inner.records zone.now.origin) }
{
    let key = RrKey::new(zone.origin.clone()?, RecordType::SOA);
    Ok(serial_under(zone.inner.record_map(), &key))
}

/// Whether the signatures that were given of a plan are those that it wants. Refused by `Unfinished` and `NoMemory`.
pub(crate) fn check_signatures(alloc: Global, held: &HeldPlan) -> Result<(), PlanOutcome>
    ensures faultless { OnOk result (unfinished_fault held.now ≡ None) }
    ensures refusal { IfErr result (IsUnfinishedBy held.now) }
{
    match held.finished(alloc) {
        Ok(_) => Ok(()),
        Err(FinishFault::Memory) => Err(PlanOutcome::NoMemory),
        Err(fault) => Err(PlanOutcome::Unfinished(fault)),
    }
}

/// The zone of a plan with its signatures. Refused by `Unfinished` for those that the plan doesn't want, and by `NoMemory`.
pub fn finished(alloc: Global, held: &HeldPlan) -> Result<Zone, PlanOutcome>
    ensures zone { IfOk result (λ zone. zone ≡ finished_zone held.now) }
    ensures faultless { OnOk result (unfinished_fault held.now ≡ None) }
    ensures refusal { IfErr result (IsUnfinishedBy held.now) }
{
    match held.finished(alloc) {
        Ok(records) => served(alloc, held, records),
        Err(FinishFault::Memory) => Err(PlanOutcome::NoMemory),
        Err(fault) => Err(PlanOutcome::Unfinished(fault)),
    }
}

/// The zone of a plan's origin with these sets. Refused by `NoMemory` alone.
fn served(alloc: Global, held: &HeldPlan, records: RecordMap) -> Result<Zone, PlanOutcome>
    requires { IsZone records }
    ensures zone { IfOk result (λ zone. zone ≡ zone_of_records held.now.origin records) }
    ensures refusal { IsOkUnless result NoMemory }
{
    let Ok(origin) = held.origin().clone() else {
        return Err(PlanOutcome::NoMemory);
    };
    match zone_of(alloc, origin, records) {
        Ok(zone) => Ok(zone),
        Err(_) => Err(PlanOutcome::NoMemory),
    }
}
