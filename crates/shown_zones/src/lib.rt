//! Zones as answers show them, and their steps from version to version: what a secondary can see of a zone, and what it has to do to have the
//! next version (RFC 1995 section 4).
//!
//! A set has a serial, and its records have TTLs of their own, which no answer shows: all records of a set are sent with the set's TTL (RFC 2181
//! section 5.2). Without these two parts a zone is what can be written into messages and read back.
#![tactic(auto)]

mod copying;
pub mod laws;
mod spelling;
mod step;
mod stepping;

pub use copying::{shown, shown_set};
pub use spelling::spelled;
pub use step::{ZoneStep, step_between};
pub use stepping::{all_stepped, difference_of};
