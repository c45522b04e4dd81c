//! What a call about updates tells a program that isn't written in Rattle.
ghost use Rattle.std.specs.Prelude.{◌≡◌};
ghost use Rattle.update_calls.specs.Outcomes.{code_of};

use zone_database::Outcome;

/// How a call about updates ended.
#[derive(Clone, Copy, PartialEq, Eq, Debug)]
pub enum UpdateOutcome {
    /// As a call about zones ends, by the same number.
    Usual(Outcome),
    /// There are no keys: none were read, or they were freed.
    NoKeys,
    /// There is no key of this name.
    NoKey,
    /// The message is no update.
    NoUpdate,
    /// The number is that of no scope.
    BadScope,
}

impl UpdateOutcome {
    /// The number by which it is told.
    pub fn code(self) -> u32
        ensures { result ≡ code_of self }
    {
        match self {
            UpdateOutcome::Usual(outcome) => outcome.code(),
            UpdateOutcome::NoKeys => 32,
            UpdateOutcome::NoKey => 33,
            UpdateOutcome::NoUpdate => 38,
            UpdateOutcome::BadScope => 39,
        }
    }
}
