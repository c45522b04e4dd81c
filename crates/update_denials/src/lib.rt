//! Updates of signed zones (RFC 2136, RFC 4035 section 2.3, RFC 5155 section 7.1): after each the chain of NSEC or NSEC3 sets is closed
//! again, and only what changed is signed anew.
//!
//! [`prepare`] makes the zone after an update beside the one that is served, with its denials; signatures that still are what would be
//! signed stay, and in the places of the others are blank ones, for which `push_frames` of `zone_planning` gives the octets to be signed.
//! [`commit`] puts signatures in their places, if no other update came in between. The keys never enter the program.
#![tactic(auto)]

mod committing;
pub mod laws;
mod preparing;
mod serial;
mod unsecured;

pub use committing::{CommitFault, Uncommitted, commit};
pub use preparing::{PrepareFault, Prepared, Signing, prepare};
