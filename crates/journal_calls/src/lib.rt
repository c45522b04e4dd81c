//! Updates that are planned, written to a journal by their caller and then committed in the zones behind a handle of `zone_database`, and zones that
//! their journals lead to, for a program that isn't written in Rattle.
#![tactic(auto)]

pub mod laws;
mod outcome;
mod planned_handle;
mod planning;
mod replaying;

pub use outcome::JournalOutcome;
pub use planned_handle::PlannedHandle;
pub use planning::{begin, commit, free, give_alone, give_both, tell_plan};
pub use replaying::replay;
