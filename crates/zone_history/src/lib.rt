//! The versions that a zone had, as the differences from each to the next: what a secondary lacks that has one of them, as it goes out in an
//! incremental transfer (RFC 1995 section 4), or condensed into one difference (section 5).
#![tactic(auto)]

mod history;
pub mod laws;
mod undoing;

pub use history::{Version, versions_since};
pub use undoing::{difference_since, zone_before};
