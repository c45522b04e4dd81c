//! Plans for a program that isn't written in Rattle: a zone that it keeps is to be signed by keys that never enter it. It is told what
//! each key has to sign, gives the signatures, and has the signed zone in place of the one that was planned. A plan may be of what an update changes of a
//! zone alone (`signed_calls`): then that is put into the version that takes the zone's place.
#![tactic(auto)]

mod beginning;
pub mod calls;
mod finishing;
mod handle;
mod installing;
mod outcome;
mod signing;
mod signing_plan;
mod versions;

pub use beginning::{keys_of, origin_of};
pub use finishing::{check_serial, finished, zone_serial};
pub use handle::PlanHandle;
pub use outcome::PlanOutcome;
pub use signing::{Signing, kind_of, request_of};
pub use signing_plan::{PlannedZone, SigningPlan};
pub use versions::{check_ready, finished_version};
