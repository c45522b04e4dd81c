//! Rollovers of the keys of a zone (RFC 6781 section 4.1, RFC 7583): which keys are published and what each signs at each stage,
//! which step comes next, and what it waits for, so that the chain of trust stays whole at each moment.
//!
//! [`ZskRollover`] is the pre-publication of a key that signs the zone, [`KskRollover`] the double signature by keys that the
//! parent tells of, and [`AlgorithmRollover`] the change to keys of another algorithm. None of them has a clock: each step is
//! told the moment at which it was done, in seconds since 1970, and is refused before the moment that the one before it allows.
#![tactic(auto)]

mod algorithm_rollover;
mod key_use;
mod ksk_rollover;
pub mod laws;
mod steps;
mod timing;
mod wholeness;
mod zsk_rollover;

pub use algorithm_rollover::{AlgorithmRollover, AlgorithmStage};
pub use key_use::{Generation, Key, KeyUse, Role, UsedKey};
pub use ksk_rollover::{KskRollover, KskStage};
pub use steps::{Due, Step, StepFault, Wait};
pub use timing::Timing;
pub use wholeness::is_whole;
pub use zsk_rollover::{ZskRollover, ZskStage};
