//! What a call about an update with a journal tells a program that isn't written in Rattle.
ghost use Rattle.std.specs.Prelude.{◌≡◌};
ghost use Rattle.journal_calls.specs.Outcomes.{code_of};

use zone_database::Outcome;

/// How a call about an update with a journal ended.
#[derive(Clone, Copy, PartialEq, Eq, Debug)]
pub enum JournalOutcome {
    /// As a call about zones ends, by the same number.
    Usual(Outcome),
    /// There is no update to commit: none was begun, or it was committed or freed.
    NoPlan,
    /// The zone that was updated isn't there any more.
    ZoneChanged,
    /// There are no keys: none were read, or they were freed.
    NoKeys,
    /// The message is no update.
    NoUpdate,
    /// A whole frame of a journal has no entry.
    NoEntry,
    /// An entry of a journal doesn't fit the zone before it.
    Misfit,
}

impl JournalOutcome {
    /// The number by which it is told.
    pub fn code(self) -> u32
        ensures { result ≡ code_of self }
    {
        match self {
            JournalOutcome::Usual(outcome) => outcome.code(),
            JournalOutcome::NoPlan => 20,
            JournalOutcome::ZoneChanged => 28,
            JournalOutcome::NoKeys => 32,
            JournalOutcome::NoUpdate => 38,
            JournalOutcome::NoEntry => 43,
            JournalOutcome::Misfit => 44,
        }
    }
}
