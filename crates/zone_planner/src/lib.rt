//! Zones planned to be signed with keys that never enter the program (`zone_planning`): each is secured by signers whose signatures are
//! blank.
#![tactic(auto)]

mod denials;
mod keys;
pub mod laws;
mod planning;
mod request;
mod signers;
mod unsigned;
mod zone;

pub use keys::{PlannedKey, planned_by_flags};
pub use planning::make_plan;
pub use request::Request;
pub use signers::plan_signers;
pub use zone::is_made_anew;
