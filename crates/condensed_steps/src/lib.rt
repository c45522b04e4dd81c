//! One step of a zone in place of many (RFC 1995 section 5): what a secondary lacks that is several versions behind, without what was added and
//! deleted again meanwhile.
//!
//! It costs what the steps have, whatever the zone has.
#![tactic(auto)]

mod condensing;
pub mod laws;
mod passing;

pub use condensing::condensed;
