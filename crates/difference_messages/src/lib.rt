//! Incremental transfers (RFC 1995): what answers a question for the changes of a zone, and the messages of the steps that are sent.
//!
//! `reply_to` says what answers a secondary that holds a version: the SOA alone, steps of the zone, or the whole zone, which `transfer_messages`
//! sends. `difference_groups` gives the records of steps, and `write_next` writes them, one message after the other.
#![tactic(auto)]

mod choosing;
mod groups;
pub mod laws;
mod writing;

pub use choosing::{DifferenceReply, begins_at, has_step_at, reply_to, serial_of};
pub use groups::difference_groups;
pub use writing::{DifferenceAnswer, DifferenceFault, write_next};
