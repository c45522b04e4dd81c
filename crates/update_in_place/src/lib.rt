//! Dynamic updates of a zone (RFC 2136 section 3) in the zone itself: of its sets only those of the names that an update is about are read,
//! copied and changed.
//!
//! What an update makes of these sets alone is what it makes of them in the zone, so that the zone after it is the one that
//! `zone_update` makes beside it. All that may be refused comes before the first set is taken out, and what was put in is taken out again.
//! [`put_sets`] puts any other sets into a zone so, each found by its key.
#![tactic(auto)]

mod exchange;
mod in_place;
pub mod laws;
mod parts;
mod permitted;
mod putting;
mod step;

pub use in_place::{Changed, carry_out, planned_update, update_in_place};
pub use parts::{keys_of_names, sets_of};
pub use permitted::planned_if_permitted;
pub use putting::put_sets;
pub use step::step_of;
