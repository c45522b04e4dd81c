//! Frames of messages answered over any reader and writer by a server with keys (TSIG, RFC 8945): a zone is sent to those who sign with a key
//! to which it is granted (RFC 5936), each of its messages signed.
#![tactic(auto)]

mod clock;
mod sending;
mod serving;

pub use clock::Clock;
pub use sending::write_framed;
pub use serving::{answer_keyed_frame, serve_keyed_frames};
