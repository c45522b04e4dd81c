//! What a call about keys or transfers tells a program that isn't written in Rattle.
ghost use Rattle.std.specs.Prelude.{◌≡◌};
ghost use Rattle.transfer_calls.specs.Outcomes.{code_of};

use zone_database::Outcome;

/// How a call about keys or transfers ended.
#[derive(Clone, Copy, PartialEq, Eq, Debug)]
pub enum TransferOutcome {
    /// As a call about zones ends, by the same number.
    Usual(Outcome),
    /// There are no keys: none were read, or they were freed.
    NoKeys,
    /// There is no key of this name.
    NoKey,
    /// The message has no TSIG and asks for no transfer.
    Unkeyed,
    /// The messages of a zone follow.
    Transfer,
    /// There is no transfer: none was begun, or its messages were handed out, or it was freed.
    NoTransfer,
    /// All messages of the transfer were handed out.
    NoMore,
    /// There are no steps: none were begun, or they were freed; or not those that the one who asks lacks, and the zone goes out whole.
    NoSteps,
}

impl TransferOutcome {
    /// The number by which it is told.
    pub fn code(self) -> u32
        ensures { result ≡ code_of self }
    {
        match self {
            TransferOutcome::Usual(outcome) => outcome.code(),
            TransferOutcome::NoKeys => 32,
            TransferOutcome::NoKey => 33,
            TransferOutcome::Unkeyed => 34,
            TransferOutcome::Transfer => 35,
            TransferOutcome::NoTransfer => 36,
            TransferOutcome::NoMore => 27,
            TransferOutcome::NoSteps => 37,
        }
    }
}
