//! Zones of a database changed by dynamic updates (RFC 2136) of those who have a key (TSIG, RFC 8945), where tables of rules permit it.
//!
//! The TSIG of a message is checked first. The zone that the message names is then looked for, the update is carried out beside it, and the
//! zone after it takes its place before the response is handed out (RFC 2136 section 3.5). All or nothing changes. Where journals are kept
//! (`zone_journal`), an update is planned first, the caller puts the step to the zone after it into the zone's journal, and then it is committed.
#![tactic(auto)]

mod access;
mod answering;
mod committing;
mod fixed_zones;
mod journaling;
pub mod laws;
mod planned;
mod planning;
mod replaying;
mod requests;
mod tables;

pub use access::UpdateAccess;
pub use answering::{UpdateAnswer, update_with_keys};
pub use committing::{Commit, commit_update, serial_of};
pub use fixed_zones::{has_expired, is_signed};
pub use journaling::{frame_if_kept, journaled};
pub use planned::{PlannedUpdate, UpdatedZone};
pub use planning::{plan_asked, plan_for, zone_after};
pub use replaying::replayed_zone;
pub use requests::{is_update, plan_update, sign_response};
