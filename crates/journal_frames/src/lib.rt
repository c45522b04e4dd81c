//! A journal as octets: messages, each in a frame with its length and its checksum, one frame behind the other. To what is there
//! only is added.
//!
//! Of a journal that was cut off anywhere, as by a crash while it was written, the first messages are read, and no other; a frame that
//! was written wrongly ends them. The README of this crate says the form octet by octet.
#![tactic(auto)]

mod frames;
pub mod laws;

pub use frames::{next_frame, push_frame, whole_length};
