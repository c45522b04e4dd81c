//! Updates of a signed zone by those who may make them (RFC 2136 section 3, RFC 4035 section 2.3): what a message asks for is looked at in the
//! standard's order, the zone after it is prepared to be signed, and its response says how that ended.
//!
//! The keys never enter the program. The zone is only read: `commit` of `update_denials` makes the one that is to take its place, once
//! the signatures are there.
#![tactic(auto)]

mod answering;
pub mod laws;
mod preparing;

pub use answering::{SignedReply, answer_signed_update};
pub use preparing::prepare_if_permitted;
