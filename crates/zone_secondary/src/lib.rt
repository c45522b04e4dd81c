//! The state of a secondary zone (RFC 1034 section 4.3.5): which question goes to the primary next, and when; whether the zone that is held may
//! be served, or has expired.
//!
//! Nothing here has a socket or a clock. Whoever has them asks [`Secondary::due`] what to send and when, tells the state what came of it, and
//! brings the moment with each call, in seconds since 1970. Zones themselves aren't kept here: [`Secondary::transferred`] says that one was
//! taken, and [`Secondary::expire`] that the one that is held has to be let go, from when on queries for it are answered SERVFAIL.
#![tactic(auto)]

pub mod laws;
mod secondary;
mod version;

pub use secondary::{Due, Poll, Question, Secondary};
pub use version::Version;
