//! Signed zones of a database changed by dynamic updates (RFC 2136) of those who have a key (TSIG, RFC 8945), where tables of rules permit it, in two
//! steps: the zone after an update is prepared, what is to be signed goes out, and the signatures come in.
//!
//! [`begin_signed_update`] checks a message and prepares the zone after it, with its denials; nothing changes. The keys by which the zone is signed
//! never enter the program: `push_frames` of `zone_planning` gives the octets of each blank signature. [`finish_signed_update`] puts signatures in
//! their places, if no other update came in between, and gives the frame for the zone's journal; `commit_update` of `held_updates` has the zone
//! take the place of the one before.
#![tactic(auto)]

mod beginning;
mod finishing;
pub mod laws;

pub use beginning::{SignedPlan, begin_signed_update};
pub use finishing::{Unfinished, finish_signed_update};
