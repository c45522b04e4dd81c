//! Updates of a zone from octets to octets (RFC 2136 section 3): a message is read, the update is carried out where a table of rules permits
//! it, and the response says how that ended.
//!
//! The zone is only read: the one after the update is made beside it, and is to take its place before the response goes out (section 3.5).
#![tactic(auto)]

mod answering;

pub use answering::{UpdateFault, UpdateReply, answer_update};
