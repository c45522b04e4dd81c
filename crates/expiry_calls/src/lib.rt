//! Zones that have expired, for a program that isn't written in Rattle (RFC 1034 section 4.3.5): a secondary that couldn't reach the primary
//! for the zone's expire interval no longer answers from its copy. Such a zone fails, until it is loaded again.
#![tactic(auto)]

mod calls;
pub mod laws;

pub use calls::expire;
