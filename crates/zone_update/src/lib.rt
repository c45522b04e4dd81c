//! Dynamic updates of a zone (RFC 2136 section 3), all or nothing: what the records of an update ask for, whether the zone is as
//! they want it, and the sets of the zone after it.
//!
//! What an update makes of a zone is defined once, in the standard's order (`specs/`). The sets that a zone has are only read: those
//! after the update are made beside them, so that a refusal leaves nothing to undo.
#![tactic(auto)]

mod change;
mod demand;
mod entry;
mod names;
mod prerequisites;
mod processing;
mod record_sets;
mod refusal;
mod serials;
mod updating;

pub use change::Change;
pub use demand::Demand;
pub use entry::{Content, Entry, Update};
pub use names::types_at;
pub use prerequisites::check_prerequisites;
pub use processing::goes;
pub use refusal::Refusal;
pub use serials::{finished, same_serial};
pub use updating::{changed_sets, updated};
