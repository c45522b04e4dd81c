//! Keys, rules of who may change what in which zone, and updates that are carried out in the zones behind a handle of `zone_database`, for a
//! program that isn't written in Rattle.
#![tactic(auto)]

mod access;
mod handle;
pub mod laws;
mod outcome;
mod rules;
mod updating;

pub use access::{add_rule, free, read_access};
pub use handle::UpdatesHandle;
pub use outcome::UpdateOutcome;
pub use rules::RuleTexts;
pub use updating::update;
