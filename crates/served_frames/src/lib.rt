//! Frames of messages answered one after the other over any reader and writer (RFC 1035 section 4.2.2, RFC 7766), by whoever answers a message: an answer
//! may change what later ones are given from, as an update does (RFC 2136).
#![tactic(auto)]

mod answerer;
mod serving;

pub use answerer::Answerer;
pub use serving::serve_by;
