//! The steps of rollovers, what they wait for, and why one isn't taken.
ghost use Rattle.std.specs.Prelude.{◌≡◌};
ghost use Rattle.zone_rollover.specs.Steps.{allowed};

use thiserror::Error;
use zone_signing::signatures::LAST_MOMENT;

/// A step of a rollover, named after the stage that it leads to (RFC 6781 section 4.1).
#[derive(Clone, Copy, PartialEq, Eq, Debug)]
pub enum Step {
    /// The new keys come into the DNSKEY set, which is signed by those that sign keys.
    NewDnskey,
    /// The new keys sign all other sets.
    NewRrsigs,
    /// The parent is asked for the new DS set.
    DsSubmitted,
    /// The new DS set is seen at the parent.
    DsSeen,
    /// The old keys leave the DNSKEY set.
    DnskeyRemoved,
    /// The old keys' signatures leave all other sets.
    RrsigsRemoved,
}

/// What a step waits for.
#[derive(Clone, Copy, PartialEq, Eq, Debug)]
pub enum Wait {
    /// For nothing: whoever owns the zone chooses the moment.
    Nothing,
    /// For the DNSKEY sets that caches hold from before the last step.
    CachedKeys,
    /// For the sets that caches hold with the signatures from before the last step.
    CachedSets,
    /// For the parent, which was asked for another DS set.
    Parent,
    /// For the DS sets that caches hold from before the new one was seen.
    CachedDs,
}

/// The step that is due.
#[derive(Clone, Copy, PartialEq, Eq, Debug)]
pub struct Due {
    /// The step.
    pub step: Step,
    /// The first moment at which it may be taken, in seconds since 1970.
    pub from: u64,
    /// What it waits for until then.
    pub waits_for: Wait,
}

/// Why a step isn't taken.
#[derive(Clone, Copy, PartialEq, Eq, Debug, Error)]
pub enum StepFault {
    /// It is too early: the step may be taken from a moment on, in seconds since 1970.
    #[error("this step may be taken from the second {0} on")]
    TooEarly(u64),
    /// The moment is past the year 9999, as no signature is made past it.
    #[error("the moment is past the year 9999")]
    TooLate,
    /// The rollover is over.
    #[error("the rollover is over")]
    Over,
}

/// Whether the step that is due, if there is one, may be taken at a moment.
pub(crate) fn allowed(due: Option<Due>, moment: u64) -> Result<(), StepFault>
    ensures { result ≡ allowed due moment }
{
    let Some(due) = due else {
        return Err(StepFault::Over);
    };
    if moment < due.from {
        return Err(StepFault::TooEarly(due.from));
    }
    if moment > LAST_MOMENT {
        return Err(StepFault::TooLate);
    }
    Ok(())
}
