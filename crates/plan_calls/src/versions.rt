//! The signatures of plans of what updates change of zones.
ghost use Rattle.std.specs.Prelude.{◌≡◌, None, IfErr, IfOk, OnOk};
ghost use Rattle.zone_database.specs.Databases.{zones_in};
ghost use Rattle.held_plans.specs.Holding.{unfinished_fault};
ghost use Rattle.plan_calls.specs.Finishing.{IsUnfinished};
ghost use Rattle.plan_calls.specs.Versions.{IsFinishedVersion, IsGivenUp, IsReady};

use crate::finishing::{check_serial, check_signatures};
use crate::outcome::PlanOutcome;
use held_plans::HeldPlan;
use held_updates::UpdatedZone;
use signed_versions::{VersionFault, WaitingVersion};
use std::alloc::Global;
use zone_database::ZoneDatabase;
use zone_journal::EntryFault;
use zone_planning::{FinishFault, PlanFault};

/// Whether the zone that was planned is there with the serial that it had, and the signatures that were given are those that the plan wants. Refused by
/// `NoZone` and `ZoneChanged`, then by `Unfinished`; and by `NoMemory`.
#[tactic(auto, using(crate::proofs::Steps::changed, crate::proofs::Steps::unfinished, crate::proofs::VersionFacts::ready))]
pub fn check_ready(
    alloc: Global,
    held: &HeldPlan,
    database: &ZoneDatabase,
) -> Result<(), PlanOutcome>
    ensures ready { OnOk result (IsReady held.now (zones_in database.now)) }
    ensures refusal { IfErr result (IsUnfinished held.now (zones_in database.now)) }
{
    if let Err(outcome) = check_serial(held, database) {
        return Err(outcome);
    }
    match check_signatures(alloc, held) {
        Ok(()) => Ok(()),
        Err(outcome) => Err(outcome),
    }
}

/// A version with the signatures of its plan, and what the journal of its zone gets if one is kept. It is given up where that can't be made: by `NoMemory`,
/// by `Unplanned` where a journal can't take the change, and by `Unfinished` where the signatures are those of another plan.
#[tactic(auto, using(crate::proofs::VersionFacts::finished_is, crate::proofs::VersionFacts::unlike))]
pub fn finished_version(
    alloc: Global,
    version: WaitingVersion,
    held: &HeldPlan,
    is_kept: bool,
) -> Result<UpdatedZone, PlanOutcome>
    requires { unfinished_fault held.now ≡ None }
    ensures finished { IfOk result (λ updated.
        IsFinishedVersion is_kept version held.now.signatures updated) }
    ensures given_up { IfErr result (IsGivenUp version held.now) }
{
    match version.finish(alloc, held.signatures(), is_kept) {
        Ok(updated) => Ok(updated),
        Err(VersionFault::Signatures(FinishFault::Memory)) => Err(PlanOutcome::NoMemory),
        Err(VersionFault::Signatures(fault)) => Err(PlanOutcome::Unfinished(fault)),
        Err(VersionFault::Unjournaled(EntryFault::Memory)) => Err(PlanOutcome::NoMemory),
        Err(VersionFault::Unjournaled(_)) => { Err(PlanOutcome::Unplanned(PlanFault::Unwritable)) }
    }
}
