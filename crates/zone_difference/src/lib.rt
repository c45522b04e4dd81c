//! Differences of zones: the sets that are taken out and those that are given between one zone and another, as an incremental transfer
//! has them (RFC 1995 section 4), and the zone that they make of one that has the first zone's sets.
//!
//! A difference that doesn't fit the zone is refused, and the zone is only read: what is made stands beside it.
#![tactic(auto)]

mod applying;
mod copying;
mod difference;
mod error;
pub mod laws;

pub use applying::{applied, replayed};
pub use copying::copied;
pub use difference::{Difference, difference_between};
pub use error::DifferenceError;
