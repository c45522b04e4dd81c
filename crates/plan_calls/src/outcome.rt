//! What a call about a plan tells a program that isn't written in Rattle.
ghost use Rattle.std.specs.Prelude.{◌≡◌};
ghost use Rattle.plan_calls.specs.Outcomes.{code_of, finish_code, plan_code};

use zone_planning::{FinishFault, PlanFault};

// The numbers of what only calls about plans tell.
const NO_PLAN: u32 = 20;

const BAD_KEYS: u32 = 21;

const MISSING_KEYS: u32 = 22;

const BAD_MOMENTS: u32 = 23;

const BAD_DENIAL: u32 = 24;

const BAD_ZONE: u32 = 25;

const LONG_NAMES: u32 = 26;

const NO_MORE: u32 = 27;

const ZONE_CHANGED: u32 = 28;

const TOO_FEW: u32 = 29;

const TOO_MANY: u32 = 30;

const BAD_SIGNATURE: u32 = 31;

/// How a call about a plan ended. The numbers of those that `zone_database` has too are the same there.
#[derive(Debug, Drop)]
pub enum PlanOutcome {
    /// It is done.
    Done,
    /// There are no zones: none were made, or they were freed.
    Closed,
    /// The origin isn't the text of a name.
    BadName,
    /// No memory was found.
    NoMemory,
    /// What is to be signed is longer than the room for it.
    NoRoom,
    /// There is no zone of this origin.
    NoZone,
    /// There is no plan: none was begun, or it was finished or freed.
    NoPlan,
    /// The keys aren't the data of DNSKEY records, each behind two octets that count its octets.
    BadKeys,
    /// The number of the denial is none of those that are numbered, the iterations are more than 65,535, or the salt is longer than 255
    /// octets (RFC 5155 section 3.2).
    BadDenial,
    /// The zone isn't planned, and why.
    Unplanned(PlanFault),
    /// All that is to be signed was handed out.
    NoMore,
    /// The zone has another serial than the one that was planned.
    ZoneChanged,
    /// The signatures aren't those that the plan wants, and why.
    Unfinished(FinishFault),
}

impl PlanOutcome {
    /// The number by which it is told.
    pub fn code(self) -> u32
        ensures { result ≡ code_of self }
    {
        match self {
            PlanOutcome::Done => 0,
            PlanOutcome::Closed => 2,
            PlanOutcome::BadName => 3,
            PlanOutcome::NoMemory => 5,
            PlanOutcome::NoRoom => 6,
            PlanOutcome::NoZone => 7,
            PlanOutcome::NoPlan => NO_PLAN,
            PlanOutcome::BadKeys => BAD_KEYS,
            PlanOutcome::BadDenial => BAD_DENIAL,
            PlanOutcome::Unplanned(fault) => plan_code(fault),
            PlanOutcome::NoMore => NO_MORE,
            PlanOutcome::ZoneChanged => ZONE_CHANGED,
            PlanOutcome::Unfinished(fault) => finish_code(fault),
        }
    }
}

/// The number by which it is told why a zone isn't planned: by its keys, by keys that are missing, the moments, what stands in
/// it, or names that can't be hashed.
fn plan_code(fault: PlanFault) -> u32
    ensures { result ≡ plan_code fault }
{
    match fault {
        PlanFault::Memory => 5,
        PlanFault::ManyKeys | PlanFault::BadKey(_) => BAD_KEYS,
        PlanFault::NoKey | PlanFault::UnsignedAlgorithm(_) => MISSING_KEYS,
        PlanFault::Moments => BAD_MOMENTS,
        PlanFault::Hash | PlanFault::OwnerTooLong => LONG_NAMES,
        PlanFault::NoSoa
        | PlanFault::CnameAtOrigin
        | PlanFault::Outside(_)
        | PlanFault::Made(_, _)
        | PlanFault::BelowDname(_)
        | PlanFault::Unwritable => BAD_ZONE,
    }
}

/// The number by which it is told why signatures aren't put in: there are too few or too many, or one isn't of its key.
fn finish_code(fault: FinishFault) -> u32
    ensures { result ≡ finish_code fault }
{
    match fault {
        FinishFault::Memory => 5,
        FinishFault::TooFew => TOO_FEW,
        FinishFault::TooMany => TOO_MANY,
        FinishFault::BadForm | FinishFault::UnknownKey(_) | FinishFault::WrongLength(_) =>
            BAD_SIGNATURE,
    }
}
