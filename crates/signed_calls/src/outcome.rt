//! What the call tells a program that isn't written in Rattle by which an update of a signed zone is prepared.
ghost use Rattle.std.specs.Prelude.{◌≡◌};
ghost use Rattle.signed_calls.specs.Outcomes.{code_of};

use journal_calls::JournalOutcome;
use plan_calls::PlanOutcome;

/// How the call ended by which an update of a signed zone is prepared.
#[derive(Debug, Drop)]
pub enum PrepareOutcome {
    /// As one by which any update is begun.
    Update(JournalOutcome),
    /// As one by which a plan is begun: what is said of the signed zone is refused, or what is to be signed can't be handed out.
    Plan(PlanOutcome),
}

impl PrepareOutcome {
    /// The number by which it is told.
    pub fn code(self) -> u32
        ensures { result ≡ code_of self }
    {
        match self {
            PrepareOutcome::Update(outcome) => outcome.code(),
            PrepareOutcome::Plan(outcome) => outcome.code(),
        }
    }
}
